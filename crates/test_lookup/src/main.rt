// What the values of a small plan have under names and indices. For each value a line of what names lead to (a text; dots where nothing was written; `-` for
// nothing; `20` for a wrong index), and a line of what lookup finds under an index and under strings.
#![tactic(auto)]

ghost use Rattle.std.specs.Prelude.{◌≤◌, length};
ghost use Rattle.rules.specs.Bits.{bits};
ghost use Rattle.rules.specs.Bundle.{string};
ghost use Rattle.parts.specs.Holds.{Holds};
ghost use Rattle.places.specs.Accepted.{Accepted};
ghost use Rattle.meaning.specs.Forms.{Known};
ghost use Rattle.lookup.specs.Answers.{Held};

use lookup::Got;
use std::io;
use std::io::Write;
use value::Value;

fn print(rt: &impl Print, s: &[u8]) -> io::Result<()> {
    io::writer(rt).write_all(s)
}

fn print_value(rt: &impl Print, s: &[u8], tab: &[u64], b: &[u8], v: Value) -> io::Result<()>
    requires { Accepted s.now tab.now × (length b.now ≤ 65536) × Known s.now b.now v }
{
    let mut out: [u8; 8] = [46; 8];
    print::write_value(&mut out, b"", output::new(), s, tab, b, v, false);
    io::writer(rt).write_all(&out)
}

// Where the name at q leads.
fn show_data(
    rt: &impl Print,
    s: &[u8],
    tab: &[u64],
    b: &[u8],
    ent: &[u64],
    v: Value,
    q: usize,
) -> io::Result<()>
    requires { Accepted s.now tab.now × (length b.now ≤ 65536) × Held s.now b.now ent.now v × Holds string (bits b.now) q }
{
    let found = lookup::get_data(s, tab, b, ent, v, q);
    match found {
        Got::Is(w) => print_value(rt, s, tab, b, w)?,
        Got::Nothing => print(rt, b"-")?,
        Got::BadIndex => print(rt, b"20")?,
    }
    print(rt, b" ")
}

// What lookup finds under i.
fn show_looked(
    rt: &impl Print,
    s: &[u8],
    tab: &[u64],
    b: &[u8],
    ent: &[u64],
    v: Value,
    i: Value,
) -> io::Result<()>
    requires { Accepted s.now tab.now × (length b.now ≤ 65536) × Held s.now b.now ent.now v × Held s.now b.now ent.now i }
{
    let found = lookup::looked_up(s, tab, b, ent, v, i);
    match found {
        Some(w) => print_value(rt, s, tab, b, w)?,
        None => print(rt, b"-")?,
    }
    print(rt, b" ")
}

// The names are a, k, 1, +1, 02 and x.
fn show_names(
    rt: &impl Print,
    s: &[u8],
    tab: &[u64],
    b: &[u8],
    ent: &[u64],
    v: Value,
) -> io::Result<()>
    requires { Accepted s.now tab.now × (length b.now ≤ 65536) × Held s.now b.now ent.now v × (Holds string (bits b.now) 0 × Holds string (bits b.now) 24 × Holds string (bits b.now) 48 × Holds string (bits b.now) 72 × Holds string (bits b.now) 104 × Holds string (bits b.now) 136) }
{
    show_data(rt, s, tab, b, ent, v, 0)?;
    show_data(rt, s, tab, b, ent, v, 24)?;
    show_data(rt, s, tab, b, ent, v, 48)?;
    show_data(rt, s, tab, b, ent, v, 72)?;
    show_data(rt, s, tab, b, ent, v, 104)?;
    show_data(rt, s, tab, b, ent, v, 136)?;
    print(rt, b"\n")
}

// The index 1, and the strings a and 1.
fn show_keys(
    rt: &impl Print,
    s: &[u8],
    tab: &[u64],
    b: &[u8],
    ent: &[u64],
    v: Value,
) -> io::Result<()>
    requires { Accepted s.now tab.now × (length b.now ≤ 65536) × Held s.now b.now ent.now v × (Holds string (bits b.now) 0 × Holds string (bits b.now) 48) }
{
    show_looked(rt, s, tab, b, ent, v, Value::Index(1))?;
    show_looked(rt, s, tab, b, ent, v, Value::Text(0))?;
    show_looked(rt, s, tab, b, ent, v, Value::Text(48))?;
    print(rt, b"\n")
}

// The values of the list that the plan is, without their paths.
fn show_plan(rt: &impl Print, s: &[u8], tab: &[u64], b: &[u8], ent: &[u64]) -> io::Result<()>
    requires { Accepted s.now tab.now × (length b.now ≤ 65536) × (Holds string (bits b.now) 0 × Holds string (bits b.now) 24 × Holds string (bits b.now) 48 × Holds string (bits b.now) 72 × Holds string (bits b.now) 104 × Holds string (bits b.now) 136) }
{
    for k in 0..16 {
        let Some(c) = places::nth(s, tab, 0, k) else {
            return Ok(());
        };
        show_names(rt, s, tab, b, ent, Value::Place(c))?;
        show_keys(rt, s, tab, b, ent, Value::Place(c))?;
    }
    Ok(())
}

fn main(rt: HostRuntime) -> io::Result<()> {
    let s = b"[{\"a\":1,\"k\":null,\"1\":\"one\"},[5,6,[]],\"ab\",9,null]";
    let b = b"\x00\x01a\x00\x01k\x00\x011\x00\x02+1\x00\x0202\x00\x01x";
    let ent: [u64; 2] = [0, 0];
    let mut tab: [u64; 4096] = [0; 4096];
    let r = plan_read::read_plan(s, &mut tab);
    if r == 0 {
        show_plan(&rt, s, &tab, b, &ent)?;
    }
    Ok(())
}
