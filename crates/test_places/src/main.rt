// Access to the values of a few plans: each plan is read, and the program prints what stands in it, found by the functions of `places`.
#![tactic(auto)]

ghost use Rattle.std.specs.Prelude.{◌≡◌, ◌+◌, ◌≤◌, ◌<◌, length};
ghost use Rattle.places.specs.Places.{places};
ghost use Rattle.places.specs.Accepted.{Accepted};
ghost use Rattle.places.specs.Kinds.{FoundIn};
ghost use Rattle.saying.specs.Said.{Inside};

use places::Kind;
use saying::Name;
use std::io;
use std::io::Write;

fn print(rt: &impl Print, text: &[u8]) -> io::Result<()> {
    io::writer(rt).write_all(text)
}

fn print_number(rt: &impl Print, n: u64) -> io::Result<()> {
    print!(rt; "{n}")
}

fn print_byte(rt: &impl Print, b: u8) -> io::Result<()> {
    let one = [b; 1];
    io::writer(rt).write_all(&one)
}

// The string whose first quote stands at q, byte by byte.
fn print_text(rt: &impl Print, s: &[u8], q: usize) -> io::Result<()>
    requires { (length s.now ≤ 65536) × (q < length s.now) }
{
    let mut at = q + 1;
    let mut k: usize = 0;
    for _ in 0..65536 {
        let Some((b, c)) = saying::next_byte(s, at, k) else {
            return Ok(());
        };
        print_byte(rt, b)?;
        at = c.at;
        k = c.k;
    }
    Ok(())
}

// How many characters the string whose first quote stands at q has.
fn characters(s: &[u8], q: usize) -> usize
    requires { (length s.now ≤ 65536) × (q < length s.now) }
{
    let mut at = q + 1;
    for n in 0..65536 {
        if 65536 < at {
            return n;
        }
        let Some((k, next)) = saying::next_char(s, at) else {
            return n;
        };
        at = next;
    }
    65536
}

// The value at i: a list and an object by how many values stand in them.
fn print_value(rt: &impl Print, s: &[u8], tab: &[u64], i: usize) -> io::Result<()>
    requires { Accepted s.now tab.now × (i < places s.now) }
{
    match places::kind_of(s, tab, i) {
        Kind::Null => print(rt, b"null"),
        Kind::False => print(rt, b"false"),
        Kind::True => print(rt, b"true"),
        Kind::Unsigned => print_number(rt, places::number(s, tab, i)),
        Kind::Negative => {
            print(rt, b"-")?;
            print_number(rt, places::number(s, tab, i))
        }
        Kind::Text => print_string(rt, s, tab, i),
        Kind::List => print_list(rt, s, tab, i),
        Kind::Object => print_object(rt, s, tab, i),
    }
}

fn print_string(rt: &impl Print, s: &[u8], tab: &[u64], i: usize) -> io::Result<()>
    requires { Accepted s.now tab.now × (i < places s.now) }
{
    let q = places::start(s, tab, i);
    print(rt, b"'")?;
    print_text(rt, s, q)?;
    print(rt, b"' of ")?;
    print_number(rt, characters(s, q) as u64)
}

fn print_list(rt: &impl Print, s: &[u8], tab: &[u64], i: usize) -> io::Result<()>
    requires { Accepted s.now tab.now × (i < places s.now) }
{
    print(rt, b"list of ")?;
    print_number(rt, places::len(s, tab, i) as u64)?;
    if places::empty(s, tab, i) {
        print(rt, b", empty")?;
    }
    Ok(())
}

fn print_object(rt: &impl Print, s: &[u8], tab: &[u64], i: usize) -> io::Result<()>
    requires { Accepted s.now tab.now × (i < places s.now) }
{
    print(rt, b"object of ")?;
    print_number(rt, places::members(s, tab, i) as u64)?;
    if places::empty(s, tab, i) {
        print(rt, b", empty")?;
    }
    Ok(())
}

// A place that was found.
fn print_found(rt: &impl Print, s: &[u8], tab: &[u64], f: Option<usize>) -> io::Result<()>
    requires { Accepted s.now tab.now × FoundIn s.now f }
{
    match f {
        Some(p) => print_value(rt, s, tab, p)?,
        None => print(rt, b"nothing")?,
    }
    print(rt, b"\n")
}

// The members of the object at i in the order of their names, at most a hundred.
fn print_members(rt: &impl Print, s: &[u8], tab: &[u64], i: usize) -> io::Result<()>
    requires { Accepted s.now tab.now × (i < places s.now) }
{
    let mut last = None;
    for _ in 0..100 {
        let Some(p) = places::next_member(s, tab, i, last) else {
            return Ok(());
        };
        print(rt, b"  ")?;
        print_text(rt, s, places::name(s, tab, p))?;
        print(rt, b": ")?;
        print_value(rt, s, tab, p)?;
        print(rt, b"\n")?;
        last = Some(p);
    }
    Ok(())
}

// The values of the list at i in their order.
fn print_items(rt: &impl Print, s: &[u8], tab: &[u64], i: usize) -> io::Result<()>
    requires { Accepted s.now tab.now × (i < places s.now) }
{
    for k in 0..100 {
        let Some(p) = places::nth(s, tab, i, k) else {
            return Ok(());
        };
        print(rt, b"  ")?;
        print_number(rt, k as u64)?;
        print(rt, b": ")?;
        print_value(rt, s, tab, p)?;
        print(rt, b", in ")?;
        print_up(rt, s, tab, p)?;
    }
    Ok(())
}

// What the value at p stands in.
fn print_up(rt: &impl Print, s: &[u8], tab: &[u64], p: usize) -> io::Result<()>
    requires { Accepted s.now tab.now × (p < places s.now) }
{
    if p == 0 {
        print(rt, b"nothing\n")?;
        return Ok(());
    }
    print_value(rt, s, tab, places::parent(s, tab, p))?;
    print(rt, b"\n")
}

// Members of the whole plan by name: lent, packed behind two other bits, and the name of another value.
fn print_named(rt: &impl Print, s: &[u8], tab: &[u64]) -> io::Result<()>
    requires { Accepted s.now tab.now }
{
    let a = places::member(s, tab, 0, b"a", Name::Lent);
    print(rt, b"  lent a: ")?;
    print_found(rt, s, tab, a)?;
    let e = places::member(s, tab, 0, b"\x19\x40", Name::Packed(2, 1));
    print(rt, b"  packed e: ")?;
    print_found(rt, s, tab, e)?;
    let Some(p) = a else {
        return Ok(());
    };
    let q = places::member(s, tab, 0, b"", Name::Quoted(places::name(s, tab, p)));
    print(rt, b"  the name of a: ")?;
    print_found(rt, s, tab, q)
}

// The first two values.
fn print_first(rt: &impl Print, s: &[u8], tab: &[u64]) -> io::Result<()>
    requires { Accepted s.now tab.now }
{
    let f = places::first(s, tab, 0);
    print(rt, b"  first: ")?;
    print_found(rt, s, tab, f)?;
    let Some(p) = f else {
        return Ok(());
    };
    print(rt, b"  second: ")?;
    print_next(rt, s, tab, p)
}

// The value behind the first one, which stands at p.
fn print_next(rt: &impl Print, s: &[u8], tab: &[u64], p: usize) -> io::Result<()>
    requires { Accepted s.now tab.now × (p < places s.now) }
{
    match places::next(s, tab, 0, p) {
        Some(q) => print(rt, b"there\n"),
        None => print(rt, b"nothing\n"),
    }
}

fn show(rt: &impl Print, s: &[u8], tab: &mut [u64]) -> io::Result<()>
    requires { 4096 ≤ length tab.old }
{
    print(rt, s)?;
    print(rt, b"\n")?;
    let r = plan_read::read_plan(s, tab);
    if r != 0 {
        print(rt, b"  refused: ")?;
        print_number(rt, r as u64)?;
        print(rt, b"\n")?;
        return Ok(());
    }
    print_all(rt, s, tab)
}

fn is_object(s: &[u8], tab: &[u64], i: usize) -> bool
    requires { Accepted s.now tab.now × (i < places s.now) }
{
    let Kind::Object = places::kind_of(s, tab, i) else {
        return false;
    };
    true
}

// The whole plan, and what stands directly inside it.
fn print_all(rt: &impl Print, s: &[u8], tab: &[u64]) -> io::Result<()>
    requires { Accepted s.now tab.now }
{
    print(rt, b"  ")?;
    print_value(rt, s, tab, 0)?;
    print(rt, b"\n")?;
    if is_object(s, tab, 0) {
        print_members(rt, s, tab, 0)?;
        print_named(rt, s, tab)?;
    } else {
        print_items(rt, s, tab, 0)?;
    }
    print_first(rt, s, tab)
}

fn main(rt: HostRuntime) -> io::Result<()> {
    let mut tab = [0u64; 4096];
    show(&rt, b"{\"b\":1,\"a\":[2,3],\"b\":\"x\"}", &mut tab)?;
    show(
        &rt,
        b"{\"e\":-7,\"\\u0061\":1,\"a\":{\"c\":null},\"\\ud83d\\ude00\":\"\\u00e9\\n\\ud83d\\ude00z\"}",
        &mut tab,
    )?;
    show(
        &rt,
        b"[18446744073709551615, -9223372036854775808, [], {}, [[true]], false]",
        &mut tab,
    )?;
    show(&rt, b" \"plain\" ", &mut tab)?;
    show(&rt, b"[1,-0]", &mut tab)?;
    show(
        &rt,
        b"{\"c\":{\"a\":1},\"\":0,\"B\":2,\"aa\":3,\"a\":4}",
        &mut tab,
    )
}
