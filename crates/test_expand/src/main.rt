// Calls worked out over a small plan: each line has the name and the number of parameters, whether includeZero is true, what the name stands for as a
// value, and what the call gives, or the number of its refusal. The calls are gone through plainly, in strict mode, and with all scopes open.
#![tactic(auto)]

ghost use Rattle.std.specs.Prelude.{◌≡◌, ◌≤◌, ◌<◌, length};
ghost use Rattle.rules.specs.Bits.{bits};
ghost use Rattle.rules.specs.Bundle.{call_of, param, body};
ghost use Rattle.layout.specs.Verdict.{verdict};
ghost use Rattle.parts.specs.Holds.{Holds};
ghost use Rattle.template.specs.Views.{ElementHolds};
ghost use Rattle.places.specs.Accepted.{Accepted};
ghost use Rattle.meaning.specs.Forms.{Known};
ghost use Rattle.context.specs.Near.{NearScopes};
ghost use Rattle.expand.specs.Answers.{GotKnown};

use error::RenderErrorReason;
use expand::Options;
use scope::Scope;
use std::io;
use std::io::Write;
use template::Element;
use value::Value;

fn print(rt: &impl Print, s: &[u8]) -> io::Result<()> {
    io::writer(rt).write_all(s)
}

fn print_number(rt: &impl Print, n: u64) -> io::Result<()> {
    print!(rt; "{n}")
}

fn print_flag(rt: &impl Print, yes: bool) -> io::Result<()> {
    if yes {
        print(rt, b" y ")?;
        return Ok(());
    }
    print(rt, b" n ")
}

// What a value prints; unwritten bytes are dots.
fn print_value(rt: &impl Print, s: &[u8], tab: &[u64], b: &[u8], v: Value) -> io::Result<()>
    requires { Accepted s.now tab.now × (length b.now ≤ 65536) × Known s.now b.now v }
{
    let mut out: [u8; 12] = [46; 12];
    print::write_value(&mut out, b"", output::new(), s, tab, b, v, false);
    io::writer(rt).write_all(&out)
}

fn print_got(
    rt: &impl Print,
    s: &[u8],
    tab: &[u64],
    b: &[u8],
    r: Result<Value, RenderErrorReason>,
) -> io::Result<()>
    requires { Accepted s.now tab.now × (length b.now ≤ 65536) × GotKnown s.now b.now r }
{
    match r {
        Ok(v) => print_value(rt, s, tab, b, v)?,
        Err(e) => print_number(rt, u64::from(e.number()))?,
    }
    print(rt, b" ")
}

// What the call at p gives.
fn call_value(
    s: &[u8],
    tab: &[u64],
    b: &[u8],
    ent: &[u64],
    scopes: [Scope; 32],
    used: usize,
    options: Options,
    p: usize,
    d: usize,
) -> Result<Value, RenderErrorReason>
    requires { Accepted s.now tab.now × (length b.now ≤ 65536) × (0 < used) × (used ≤ 32)
        × NearScopes s.now b.now ent.now scopes used × Holds (call_of (param d)) (bits b.now) p }
    ensures { GotKnown s.now b.now result }
{
    let w = expand::try_from_template(s, tab, b, ent, scopes, used, options, p, d);
    match w.bad {
        None => expand::called(s, tab, b, ent, used, options, w),
        Some(e) => Err(e),
    }
}

// The parameter at p as a name.
fn name_value(
    s: &[u8],
    tab: &[u64],
    b: &[u8],
    ent: &[u64],
    scopes: [Scope; 32],
    used: usize,
    options: Options,
    p: usize,
    d: usize,
) -> Result<Value, RenderErrorReason>
    requires { Accepted s.now tab.now × (length b.now ≤ 65536) × (0 < used) × (used ≤ 32)
        × NearScopes s.now b.now ent.now scopes used × Holds (param d) (bits b.now) p }
    ensures { GotKnown s.now b.now result }
{
    expand::expand_as_name(s, tab, b, ent, scopes, used, options, p, d)
}

// The same as a value.
fn param_value(
    s: &[u8],
    tab: &[u64],
    b: &[u8],
    ent: &[u64],
    scopes: [Scope; 32],
    used: usize,
    options: Options,
    p: usize,
    d: usize,
) -> Result<Value, RenderErrorReason>
    requires { Accepted s.now tab.now × (length b.now ≤ 65536) × (0 < used) × (used ≤ 32)
        × NearScopes s.now b.now ent.now scopes used × Holds (param d) (bits b.now) p }
    ensures { GotKnown s.now b.now result }
{
    expand::expand(s, tab, b, ent, scopes, used, options, p, d)
}

// The call at p.
fn show_call(
    rt: &impl Print,
    s: &[u8],
    tab: &[u64],
    b: &[u8],
    ent: &[u64],
    scopes: [Scope; 32],
    used: usize,
    options: Options,
    p: usize,
    d: usize,
) -> io::Result<()>
    requires { Accepted s.now tab.now × (length b.now ≤ 65536) × (0 < used) × (used ≤ 32)
        × NearScopes s.now b.now ent.now scopes used × Holds (call_of (param d)) (bits b.now) p }
{
    let w = expand::try_from_template(s, tab, b, ent, scopes, used, options, p, d);
    if let Some(e) = w.bad {
        print(rt, b"refused ")?;
        print_number(rt, u64::from(e.number()))?;
        return Ok(());
    }
    print_number(rt, w.count as u64)?;
    print_flag(rt, w.zero)?;
    print_got(
        rt,
        s,
        tab,
        b,
        call_value(s, tab, b, ent, scopes, used, options, p, d),
    )
}

// The call's name: as a name, and as a value.
fn show_name(
    rt: &impl Print,
    s: &[u8],
    tab: &[u64],
    b: &[u8],
    ent: &[u64],
    scopes: [Scope; 32],
    used: usize,
    options: Options,
    p: usize,
    d: usize,
) -> io::Result<()>
    requires { Accepted s.now tab.now × (length b.now ≤ 65536) × (0 < used) × (used ≤ 32)
        × NearScopes s.now b.now ent.now scopes used × Holds (param d) (bits b.now) p }
{
    print_got(
        rt,
        s,
        tab,
        b,
        name_value(s, tab, b, ent, scopes, used, options, p, d),
    )?;
    print_got(
        rt,
        s,
        tab,
        b,
        param_value(s, tab, b, ent, scopes, used, options, p, d),
    )
}

fn show_element(
    rt: &impl Print,
    s: &[u8],
    tab: &[u64],
    b: &[u8],
    ent: &[u64],
    scopes: [Scope; 32],
    used: usize,
    options: Options,
    e: Element,
    d: usize,
) -> io::Result<()>
    requires { Accepted s.now tab.now × (length b.now ≤ 65536) × (0 < used) × (used ≤ 32)
        × NearScopes s.now b.now ent.now scopes used × ElementHolds 16 d (bits b.now) e }
{
    let Element::Expression(c, _) = e else {
        return Ok(());
    };
    show_name(rt, s, tab, b, ent, scopes, used, options, c, d)?;
    show_call(rt, s, tab, b, ent, scopes, used, options, c, d)?;
    print(rt, b"\n")
}

// The elements of the body at p.
fn show_body(
    rt: &impl Print,
    s: &[u8],
    tab: &[u64],
    b: &[u8],
    ent: &[u64],
    scopes: [Scope; 32],
    used: usize,
    options: Options,
    p: usize,
    d: usize,
) -> io::Result<()>
    requires { Accepted s.now tab.now × (length b.now ≤ 65536) × (0 < used) × (used ≤ 32)
        × NearScopes s.now b.now ent.now scopes used × Holds (body 16 d) (bits b.now) p }
{
    let v = template::body_at(b, p);
    let count = v.count;
    let mut cur = v.first;
    for _ in 0..count {
        let e = template::element_at(b, cur, 16, d - 1);
        let element = e.element;
        show_element(rt, s, tab, b, ent, scopes, used, options, element, d - 1)?;
        cur = e.next;
    }
    Ok(())
}

// The template `main`, over so many scopes of the plan.
fn show_main(
    rt: &impl Print,
    s: &[u8],
    tab: &[u64],
    b: &[u8],
    used: usize,
    strict: bool,
) -> io::Result<()>
    requires { Accepted s.now tab.now × (verdict b.now ≡ Ok tt) × (0 < used) × (used ≤ 32) }
{
    let f = registry::get_template(b, 16, b"main");
    let Some((_, _, p)) = f else {
        return Ok(());
    };
    let ent: [u64; 2] = [0, 0];
    let options = Options {
        strict,
        recursive_lookup: false,
        guide_truth: false,
    };
    show_body(rt, s, tab, b, &ent, scope::begin(), used, options, p, 16)?;
    print(rt, b"\n")
}

fn show_all(rt: &impl Print, s: &[u8], tab: &[u64], b: &[u8]) -> io::Result<()>
    requires { Accepted s.now tab.now }
{
    let Ok(()) = layout::check_bundle(b) else {
        return Ok(());
    };
    show_main(rt, s, tab, b, 1, false)?;
    show_main(rt, s, tab, b, 1, true)?;
    show_main(rt, s, tab, b, 32, false)
}

fn main(rt: HostRuntime) -> io::Result<()> {
    let s =
        b"{\"l\":[7,\"b<\",{\"k\":{\"deep\":-1}}],\"o\":{\"k\":\"val\"},\"t\":[\"lookup\",\"k\"],\"z\":0}";
    let b =
        b"\x01\x01\x00\x04\x6d\x61\x69\x6e\x01\x40\x00\x10\x00\x12\x00\x01\x9b\x1b\xdb\xda\xdd\x5c\x09\x00\x01\x6c\x00\x80\x00\x2d\x93\x00\x00\x00\x00\x00\x00\x00\x01\x00\x00\x08\x00\x09\x00\x00\xcd\x8d\xed\xed\x6e\xae\x04\x80\x00\xb6\x00\x40\x00\x16\xca\x80\x00\x98\x80\x00\x04\x00\x04\x80\x00\x66\xc6\xf6\xf6\xb7\x57\x02\x40\x00\x5b\xc0\x20\x00\x0b\x7d\x40\x00\x5a\xc0\x00\x02\x00\x02\x40\x00\x23\x2b\x0b\x1b\x40\xa0\x00\x2d\x80\x10\x00\x05\xb0\x00\x00\x20\x00\x24\x00\x02\x3b\xb4\xba\x34\x0a\x00\x02\xde\x01\x00\x00\x5b\xc0\x00\x02\x00\x02\x40\x00\x23\xbb\x4b\xa3\x40\xa0\x00\x2f\x40\x10\x00\x05\xe8\x00\x00\x20\x00\x24\x00\x01\x34\xb3\x0a\x00\x02\xf4\x01\x00\x00\x5e\x84\x00\x2d\xa5\xb9\x8d\xb1\xd5\x91\x95\x69\x95\xc9\xbe\x40\x00\x10\x00\x12\x00\x01\x9d\x5b\x9b\x19\x5c\xdc\xc5\x00\x01\x7a\x00\x80\x00\x2f\x42\x00\x16\xd2\xdc\xc6\xd8\xea\xc8\xca\xb4\xca\xe4\xdf\x30\x00\x00\x00\x00\x00\x00\x00\x10\x00\x08\x00\x09\x00\x00\xad\xee\x8d\x0c\xae\x42\x80\x00\xbd\x00\x40\x00\x17\xa0\x00\x00\x80\x00\x90\x00\x0c\xd8\xde\xde\xd6\xea\xe0\x28\x00\x0b\x60\x04\x00\x01\x6c\x00\x00\x08\x00\x09\x00\x00\x8c\xac\x2c\x6d\x00\x00\x00\x10\x00\x12\x00\x01\x9b\x1b\xdb\xda\xdd\x5c\x0b\x00\x01\x5b\xdd\x1a\x19\x5c\x85\x00\x01\x7a\x00\x80\x00\x2f\x41\x30\x00\x00\x00\x00\x00\x00\x00\x11\x00\x01\x61\xc0\x00\x66\xc6\xf6\xf6\xb7\x57\x00\x00\x00\x08\x00\x09\x00\x00\xcd\x8d\xed\xed\x6e\xae\x04\x80\x00\xb6\x00\x40\x00\x16\xc9\x80\x00\x00\x00\x00\x00\x00\x00\x90\x00\x0b\x0e\x00\x03\x36\x37\xb7\xb5\xba\xb8\x00\x00\x00\xb1\x60\x00\x2b\x7b\xa3\x43\x2b\x90\xa0\x00\x2f\x40\x10\x00\x05\xe8\x00\x00\x20\x00\x24\x00\x03\x36\x37\xb7\xb5\xba\xb8\x12\x00\x02\xd8\x01\x00\x00\x5b\x26\x00\x00\x00\x00\x00\x00\x00\x02\x40\x00\x2c\x38\x00\x0a\xde\xe8\xd0\xca\xe4\x28\x00\x0b\xd0\x04\x00\x01\x7a\x00\x00\x16\x2c\x00\x06\x6c\x6f\x6f\x6b\x75\x70\x00\x00\x00\x80\x00\x90\x00\x0c\xd8\xde\xde\xd6\xea\xe0\x48\x00\x1b\x61\x73\xc0\x08\x00\x01\x6c\x00\x00\x5e\x26\x00\x00\x00\x00\x00\x00\x00\x02\x00\x00\x10\x00\x12\xc0\x00\x66\xc6\xf6\xf6\xb7\x57\x02\x40\x00\x5d\x00\x20\x00\x0b\xa4\xc0\x00\x00\x00\x00\x00\x00\x00\x00\x90\x00\x16\xf0\x08\x00\x02\xdf\x80\x00\xcd\x8d\xed\xed\x6e\xae\x04\x80\x00\xba\x00\x40\x00\x17\x49\x80\x00\x00\x00\x00\x00\x00\x00\x80\x00\x00\x40\x00\x4a\xa0\x00\xcd\x8d\xed\xed\x6e\xae\x05\x80\x00\xcd\x8d\xed\xed\x6e\xae\x05\x80\x00\xcd\x8d\xed\xed\x6e\xae\x04\x80\x00\xb6\x00\x40\x00\x16\xc9\x80\x00\x00\x00\x00\x00\x00\x01\x05\x40\x00\x5a\xc2\xa0\x00\x8c\x8c\xac\xae\x00\x00\x01\x00\x01\x20\x00\x19\xb1\xbd\xbd\xad\xd5\xc0\x80\x00\x16\xc9\x80\x00\x00\x00\x00\x00\x00\x00\x00\x00\x04\x00\x04\x80\x00\x66\xc6\xf6\xf6\xb7\x57\x02\x40\x00\x5b\x00\x20\x00\x0b\x66\x00\x02\x3b\xb4\xba\x34\x0a\x00\x02\xde\x01\x00\x00\x5b\xc0\x00\x00\x20\x00\x24\x00\x01\x34\xb3\x0e\x00\x02\x3b\xb4\xba\x34\x0a\x00\x02\xde\x01\x00\x00\x5b\xc0\x00";
    let mut tab: [u64; 4096] = [0; 4096];
    let r = plan_read::read_plan(s, &mut tab);
    if r == 0 {
        show_all(&rt, s, &tab, b)?;
    }
    Ok(())
}
