// Values of a small plan and bundle, printed. A line for each: what it prints, plain and escaped (unwritten bytes are dots), then whether it
// prints each word, and each of a few texts.
#![tactic(auto)]

ghost use Rattle.std.specs.Prelude.{◌≤◌, length};
ghost use Rattle.rules.specs.Bits.{bits};
ghost use Rattle.rules.specs.Bundle.{string};
ghost use Rattle.parts.specs.Holds.{Holds};
ghost use Rattle.places.specs.Accepted.{Accepted};
ghost use Rattle.meaning.specs.Forms.{Known};

use std::io;
use std::io::Write;
use text::Text;
use value::Value;

fn print_flag(rt: &impl Print, yes: bool) -> io::Result<()> {
    if yes {
        print!(rt; "y")?;
        return Ok(());
    }
    print!(rt; "n")
}

fn show_text(
    rt: &impl Print,
    s: &[u8],
    tab: &[u64],
    b: &[u8],
    v: Value,
    escape: bool,
) -> io::Result<()>
    requires { Accepted s.now tab.now × (length b.now ≤ 65536) × Known s.now b.now v }
{
    let mut out: [u8; 40] = [46; 40];
    print::write_value(&mut out, b"", output::new(), s, tab, b, v, escape);
    io::writer(rt).write_all(&out)?;
    print!(rt; " ")
}

fn show(rt: &impl Print, s: &[u8], tab: &[u64], b: &[u8], v: Value) -> io::Result<()>
    requires { Accepted s.now tab.now × (length b.now ≤ 65536) × Known s.now b.now v }
{
    show_text(rt, s, tab, b, v, false)?;
    show_text(rt, s, tab, b, v, true)?;
    print_flag(rt, print::text_is(s, tab, b, v, b""))?;
    print_flag(rt, print::text_is(s, tab, b, v, b"true"))?;
    print_flag(rt, print::text_is(s, tab, b, v, b"-7"))?;
    print_flag(
        rt,
        print::text_is(s, tab, b, v, b"[1, [2, x, []], [object]]"),
    )?;
    print_flag(
        rt,
        print::text_is(s, tab, b, v, b"[1, [2, x, []], [object]"),
    )?;
    print_flag(rt, print::text_same(s, tab, b, v, Text::Digits(0, 0)))?;
    print_flag(rt, print::text_same(s, tab, b, v, Text::Minus(7)))?;
    print_flag(rt, print::text_same(s, tab, b, v, Text::Packed(16, 2)))?;
    println!(rt)
}

// The values of the list that the plan is.
fn show_plan(rt: &impl Print, s: &[u8], tab: &[u64], b: &[u8]) -> io::Result<()>
    requires { Accepted s.now tab.now × (length b.now ≤ 65536) }
{
    for k in 0..16 {
        let Some(c) = places::nth(s, tab, 0, k) else {
            return Ok(());
        };
        show(rt, s, tab, b, Value::Place(c))?;
    }
    Ok(())
}

fn show_all(rt: &impl Print, s: &[u8], tab: &[u64], b: &[u8]) -> io::Result<()>
    requires { Accepted s.now tab.now × (length b.now ≤ 65536) × Holds string (bits b.now) 0 }
{
    show_plan(rt, s, tab, b)?;
    show(rt, s, tab, b, Value::Missing)?;
    show(rt, s, tab, b, Value::Empty)?;
    show(rt, s, tab, b, Value::Index(0))?;
    show(rt, s, tab, b, Value::IndexText(0))?;
    show(rt, s, tab, b, Value::Text(0))?;
    show(rt, s, tab, b, Value::Merged(0, 1))
}

fn main(rt: HostRuntime) -> io::Result<()> {
    let s =
        b"[null, true, false, 0, 18446744073709551615, -7, \"a<b\\n\\u00e9\\\"\", [], [1, [2, \"x\", []], {}], {\"k\": \"hi\"}, \"-7\", \"hi\"]";
    let b = b"\x00\x02hi";
    let mut tab: [u64; 4096] = [0; 4096];
    let r = plan_read::read_plan(s, &mut tab);
    if r == 0 {
        show_all(&rt, s, &tab, b)?;
    }
    Ok(())
}
