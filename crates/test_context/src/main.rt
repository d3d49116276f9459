// Paths over a small plan, with one scope, two, and recursive lookup: a line for each, what it prints (unwritten bytes are dots) or 20.
#![tactic(auto)]

ghost use Rattle.std.specs.Prelude.{◌≡◌, ◌≤◌, ◌<◌, length};
ghost use Rattle.rules.specs.Bits.{bits};
ghost use Rattle.rules.specs.Bundle.{path, param, body};
ghost use Rattle.layout.specs.Verdict.{verdict};
ghost use Rattle.parts.specs.Holds.{Holds};
ghost use Rattle.template.specs.Views.{ElementHolds};
ghost use Rattle.places.specs.Accepted.{Accepted};
ghost use Rattle.meaning.specs.Forms.{Known};
ghost use Rattle.context.specs.Near.{NearScopes};

use calls::Parameter;
use context::Evaluated;
use scope::Scope;
use std::io;
use std::io::Write;
use template::Element;
use value::Value;

fn print(rt: &impl Print, s: &[u8]) -> io::Result<()> {
    io::writer(rt).write_all(s)
}

// What a value prints; unwritten bytes are dots.
fn print_value(rt: &impl Print, s: &[u8], tab: &[u64], b: &[u8], v: Value) -> io::Result<()>
    requires { Accepted s.now tab.now × (length b.now ≤ 65536) × Known s.now b.now v }
{
    let mut out: [u8; 12] = [46; 12];
    print::write_value(&mut out, b"", output::new(), s, tab, b, v, false);
    io::writer(rt).write_all(&out)
}

// Where the path at q leads.
fn show_path(
    rt: &impl Print,
    s: &[u8],
    tab: &[u64],
    b: &[u8],
    ent: &[u64],
    scopes: [Scope; 32],
    used: usize,
    recursive: bool,
    q: usize,
) -> io::Result<()>
    requires { Accepted s.now tab.now
        × (length b.now ≤ 65536)
        × (0 < used)
        × (used ≤ 32)
        × NearScopes s.now b.now ent.now scopes used
        × Holds path (bits b.now) q }
{
    let found = context::evaluate2(s, tab, b, ent, scopes, used, recursive, q);
    match found {
        Evaluated::Is(v) => print_value(rt, s, tab, b, v)?,
        Evaluated::Nothing => print_value(rt, s, tab, b, Value::Missing)?,
        Evaluated::BadIndex => print(rt, b"20")?,
    }
    print(rt, b"\n")
}

// The call's name, which is a path.
fn show_name(
    rt: &impl Print,
    s: &[u8],
    tab: &[u64],
    b: &[u8],
    ent: &[u64],
    scopes: [Scope; 32],
    used: usize,
    recursive: bool,
    p: usize,
    d: usize,
) -> io::Result<()>
    requires { Accepted s.now tab.now
        × (length b.now ≤ 65536)
        × (0 < used)
        × (used ≤ 32)
        × NearScopes s.now b.now ent.now scopes used
        × Holds (param d) (bits b.now) p }
{
    let x = calls::param_at(b, p);
    let Parameter::Path(q) = x else {
        return Ok(());
    };
    show_path(rt, s, tab, b, ent, scopes, used, recursive, q)
}

fn show_element(
    rt: &impl Print,
    s: &[u8],
    tab: &[u64],
    b: &[u8],
    ent: &[u64],
    scopes: [Scope; 32],
    used: usize,
    recursive: bool,
    e: Element,
    d: usize,
) -> io::Result<()>
    requires { Accepted s.now tab.now
        × (length b.now ≤ 65536)
        × (0 < used)
        × (used ≤ 32)
        × NearScopes s.now b.now ent.now scopes used
        × ElementHolds 16 d (bits b.now) e }
{
    let Element::Expression(c, _) = e else {
        return Ok(());
    };
    show_name(rt, s, tab, b, ent, scopes, used, recursive, c, d)
}

// The elements of the body at p.
fn show_body(
    rt: &impl Print,
    s: &[u8],
    tab: &[u64],
    b: &[u8],
    ent: &[u64],
    scopes: [Scope; 32],
    used: usize,
    recursive: bool,
    p: usize,
    d: usize,
) -> io::Result<()>
    requires { Accepted s.now tab.now
        × (length b.now ≤ 65536)
        × (0 < used)
        × (used ≤ 32)
        × NearScopes s.now b.now ent.now scopes used
        × Holds (body 16 d) (bits b.now) p }
{
    let v = template::body_at(b, p);
    let count = v.count;
    let mut cur = v.first;
    for _ in 0..count {
        let e = template::element_at(b, cur, 16, d - 1);
        let element = e.element;
        show_element(rt, s, tab, b, ent, scopes, used, recursive, element, d - 1)?;
        cur = e.next;
    }
    Ok(())
}

// The template `main`, over so many scopes of the plan.
fn show_main(
    rt: &impl Print,
    s: &[u8],
    tab: &[u64],
    b: &[u8],
    used: usize,
    recursive: bool,
) -> io::Result<()>
    requires { Accepted s.now tab.now × (verdict b.now ≡ Ok tt) × (0 < used) × (used ≤ 32) }
{
    let f = registry::get_template(b, 16, b"main");
    let Some((_, _, p)) = f else {
        return Ok(());
    };
    let ent: [u64; 2] = [0, 0];
    show_body(rt, s, tab, b, &ent, scope::begin(), used, recursive, p, 16)?;
    print(rt, b"\n")
}

fn show_all(rt: &impl Print, s: &[u8], tab: &[u64], b: &[u8]) -> io::Result<()>
    requires { Accepted s.now tab.now }
{
    let Ok(()) = layout::check_bundle(b) else {
        return Ok(());
    };
    show_main(rt, s, tab, b, 1, false)?;
    show_main(rt, s, tab, b, 2, false)?;
    show_main(rt, s, tab, b, 1, true)
}

fn main(rt: HostRuntime) -> io::Result<()> {
    let s = b"{\"l\":[7,\"b<\",{\"k\":1}],\"o\":{\"k\":\"val\"},\"n\":null}";
    let b =
        b"\x01\x01\x00\x04\x6d\x61\x69\x6e\x01\x30\x00\x10\x00\x12\x40\x00\xdb\x0b\x8c\x40\x40\x00\x0b\x60\x00\x02\x62\x00\x00\x01\x00\x01\x24\x00\x11\xb0\xb8\xac\xc4\x04\x00\x00\xb6\x00\x00\x45\x66\x20\x00\x00\x10\x00\x12\x40\x01\x1b\x0b\x8c\x0c\x80\x40\x00\x0b\x60\x00\x04\x60\x64\x00\x00\x01\x00\x01\x24\x00\x59\xb0\xb8\xc4\xe0\xd0\xd0\xd8\xdc\xd0\xd0\xc0\xdc\xcc\xdc\xc0\xe4\xd4\xd4\xc4\xd8\xc4\xd4\x04\x00\x00\xb6\x00\x02\x86\x27\x06\x86\x86\xc6\xe6\x86\x86\x06\xe6\x66\xe6\x07\x26\xa6\xa6\x26\xc6\x26\xa0\x00\x00\x10\x00\x12\x40\x05\x9b\x0b\x8c\x4e\x0d\x0d\x0d\x8d\xcd\x0d\x0c\x0d\xcc\xcd\xcc\x0e\x4d\x4d\x4c\x4d\x8c\x4d\x80\x40\x00\x0b\x60\x00\x28\x62\x70\x68\x68\x6c\x6e\x68\x68\x60\x6e\x66\x6e\x60\x72\x6a\x6a\x62\x6c\x62\x6c\x00\x00\x01\x00\x01\x24\x00\x0d\xb0\xb9\xe0\x04\x00\x00\xb6\x00\x00\x2f\x00\x00\x00\x10\x00\x12\x40\x00\xdb\xcb\x9a\xc0\x40\x00\x0b\x78\x00\x02\xd6\x00\x00\x01\x00\x01\x24\x00\x15\xbc\xb9\xac\xb9\xe0\x06\x00\x00\xb7\x80\x00\x2d\x60\x00\x0b\xc0\x00\x00\x04\x00\x04\x90\x00\x16\xe0\x08\x00\x02\xdc\x00\x00\x01\x00\x01\x24\x00\x0d\xb8\xb9\xe0\x04\x00\x00\xb7\x00\x00\x2f\x00\x00\x00\x10\x00\x12\x40\x01\x5b\xdd\x1a\x19\x5c\x80\x20\x00\x2b\x7b\xa3\x43\x2b\x90\x00\x00\x04\x00\x04\x90\x00\x62\xe2\xe2\xf6\xf2\xe6\xb0\x1c\x00\x00\xb7\x80\x00\x2d\x60\x00\x00\x10\x00\x12\x40\x03\x0b\x8b\x8b\xcb\x8b\x8b\xcb\x8b\x8b\xdb\xcb\x9a\xc0\xb5\x00\x00\x2d\xe0\x00\x0b\x58\x00\x00\x04\x00\x04\x90\x00\x94\x07\x26\xf6\xf7\x42\xe6\xf2\xe6\xb0\x1a\x00\x00\xb7\x80\x00\x2d\x60\x00\x00\x10\x00\x12\x40\x03\x0b\x8b\x8b\xd0\x1c\x9b\xdb\xdd\x0b\x9b\xcb\x9a\xc0\x92\x00\x00\xb7\x80\x00\x2d\x60\x00\x00\x10\x00\x12\x40\x00\x5b\xc0\x80\x00\x0b\x7c\x80\x00\x2d\x60\x00\x00\x10\x00\x12\x40\x01\x1d\x1a\x1a\x5c\xc0\x00\x00\x00\x10\x00\x12\x40\x01\x90\x1a\x5b\x99\x19\x5e\x20\x00\x00\xad\x2d\xcc\x8c\xaf\x00\x00\x00\x10\x00\x12\x40\x03\x0b\x8b\x8b\xcb\x8b\x8b\xd0\x19\x9a\x5c\x9c\xdd\x20\x40\x00\xac\xcd\x2e\x4e\x6e\x80\x00";
    let mut tab: [u64; 4096] = [0; 4096];
    let r = plan_read::read_plan(s, &mut tab);
    if r == 0 {
        show_all(&rt, s, &tab, b)?;
    }
    Ok(())
}
