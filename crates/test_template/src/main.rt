// The readers over a fixed bundle of all nine kinds: its version, and one line for each element of the template `main`, with what its places hold.
#![tactic(auto)]

ghost use Rattle.std.specs.Prelude.{◌≤◌, length};
ghost use Rattle.rules.specs.Bits.{bits};
ghost use Rattle.rules.specs.Bundle.{string, path, literal, param, call_of, body};
ghost use Rattle.rules.specs.Layout.{◌then◌};
ghost use Rattle.parts.specs.Holds.{Holds, row};
ghost use Rattle.template.specs.Views.{ElementHolds};

use calls::Parameter;
use parts::{Literal, Path};
use std::io;
use std::io::Write;
use template::Element;

fn print(rt: &impl Print, s: &[u8]) -> io::Result<()> {
    io::writer(rt).write_all(s)
}

fn print_number(rt: &impl Print, n: u64) -> io::Result<()> {
    print!(rt; "{n}")
}

// The bytes of the string at p, in quotes.
fn print_text(rt: &impl Print, b: &[u8], p: usize) -> io::Result<()>
    requires { (length b.now ≤ 65536) × Holds string (bits b.now) p }
{
    let t = parts::text_at(b, p);
    let n = t.count;
    let first = t.first;
    print(rt, b" \"")?;
    for i in 0..n {
        let c = [bits::byte(b, first + 8 * i)];
        print(rt, &c)?;
    }
    print(rt, b"\"")
}

fn print_path(rt: &impl Print, b: &[u8], p: usize) -> io::Result<()>
    requires { (length b.now ≤ 65536) × Holds path (bits b.now) p }
{
    print_text(rt, b, p)?;
    let v = parts::path_at(b, p);
    match v {
        Path::Relative(n, _) => {
            print(rt, b" segments ")?;
            print_number(rt, n)
        }
        Path::Local(level, name) => {
            print(rt, b" level ")?;
            print_number(rt, level)?;
            print_text(rt, b, name)
        }
    }
}

fn print_bool(rt: &impl Print, t: bool) -> io::Result<()> {
    if t {
        print(rt, b" true")?;
        return Ok(());
    }
    print(rt, b" false")
}

fn print_literal(rt: &impl Print, b: &[u8], p: usize) -> io::Result<()>
    requires { (length b.now ≤ 65536) × Holds literal (bits b.now) p }
{
    let v = parts::literal_at(b, p);
    match v {
        Literal::Null => print(rt, b" null"),
        Literal::Boolean(t) => print_bool(rt, t),
        Literal::Unsigned(n) => {
            print(rt, b" ")?;
            print_number(rt, n)
        }
        Literal::Negative(n) => {
            print(rt, b" -")?;
            print_number(rt, n)
        }
        Literal::String(q) => print_text(rt, b, q),
    }
}

fn print_param(rt: &impl Print, b: &[u8], p: usize, d: usize) -> io::Result<()>
    requires { (length b.now ≤ 65536) × Holds (param d) (bits b.now) p }
{
    let v = calls::param_at(b, p);
    match v {
        Parameter::Name(q) => print_text(rt, b, q),
        Parameter::Path(q) => print_path(rt, b, q),
        Parameter::Literal(q) => print_literal(rt, b, q),
        Parameter::Subexpression(_) => print(rt, b" (...)"),
    }
}

// Name, parameters, pairs.
fn print_call(rt: &impl Print, b: &[u8], p: usize, d: usize) -> io::Result<()>
    requires { (length b.now ≤ 65536) × Holds (call_of (param d)) (bits b.now) p }
{
    print_param(rt, b, p, d)?;
    let v = calls::call_at(b, p, d);
    print(rt, b" of ")?;
    print_number(rt, v.params)?;
    print_params(rt, b, v.params, v.param, d)?;
    print(rt, b" with ")?;
    print_number(rt, v.pairs)?;
    print_pairs(rt, b, v.pairs, v.pair, d)
}

fn print_params(rt: &impl Print, b: &[u8], n: u64, p: usize, d: usize) -> io::Result<()>
    requires { (length b.now ≤ 65536) × Holds (row (param d) n) (bits b.now) p }
{
    let mut cur = p;
    for _ in 0..n {
        print_param(rt, b, cur, d)?;
        cur = calls::skip_param(b, cur, d);
    }
    Ok(())
}

fn print_pairs(rt: &impl Print, b: &[u8], n: u64, p: usize, d: usize) -> io::Result<()>
    requires { (length b.now ≤ 65536) × Holds (row (string then param d) n) (bits b.now) p }
{
    let mut cur = p;
    for _ in 0..n {
        print_text(rt, b, cur)?;
        let q = parts::skip_string(b, cur);
        print_param(rt, b, q, d)?;
        cur = calls::skip_param(b, q, d);
    }
    Ok(())
}

fn print_maybe(rt: &impl Print, m: Option<usize>) -> io::Result<()> {
    let Some(_) = m else {
        print(rt, b" none")?;
        return Ok(());
    };
    print(rt, b" some")
}

// An element of the kind, with its call and `indent_before_write`.
fn print_kind(
    rt: &impl Print,
    b: &[u8],
    kind: u64,
    c: usize,
    d: usize,
    before: bool,
) -> io::Result<()>
    requires { (length b.now ≤ 65536) × Holds (call_of (param d)) (bits b.now) c }
{
    print_number(rt, kind)?;
    print_call(rt, b, c, d)?;
    print(rt, b", before")?;
    print_bool(rt, before)
}

fn print_element(rt: &impl Print, b: &[u8], e: Element, d: usize) -> io::Result<()>
    requires { (length b.now ≤ 65536) × ElementHolds 16 d (bits b.now) e }
{
    match e {
        Element::RawString(q) => {
            print_number(rt, 0)?;
            print_text(rt, b, q)
        }
        Element::HtmlExpression(c, f) => print_kind(rt, b, 1, c, d, f),
        Element::Expression(c, f) => print_kind(rt, b, 2, c, d, f),
        Element::HelperBlock(c, _, t, i, f) => {
            print_kind(rt, b, 3, c, d, f)?;
            print_maybe(rt, t)?;
            print_maybe(rt, i)
        }
        Element::DecoratorExpression(c, i, f) => {
            print_kind(rt, b, 4, c, d, f)?;
            print_maybe(rt, i)
        }
        Element::DecoratorBlock(c, _, i, f) => {
            print_kind(rt, b, 5, c, d, f)?;
            print_maybe(rt, i)
        }
        Element::PartialExpression(c, i, f) => {
            print_kind(rt, b, 6, c, d, f)?;
            print_maybe(rt, i)
        }
        Element::PartialBlock(c, _, i, f) => {
            print_kind(rt, b, 7, c, d, f)?;
            print_maybe(rt, i)
        }
        Element::Comment(q) => {
            print_number(rt, 8)?;
            print_text(rt, b, q)
        }
    }
}

// The elements of the body at p.
fn print_body(rt: &impl Print, b: &[u8], p: usize, d: usize) -> io::Result<()>
    requires { (length b.now ≤ 65536) × Holds (body 16 d) (bits b.now) p }
{
    let v = template::body_at(b, p);
    let count = v.count;
    let mut cur = v.first;
    for _ in 0..count {
        let e = template::element_at(b, cur, 16, d - 1);
        print_number(rt, e.line)?;
        print(rt, b":")?;
        print_number(rt, e.column)?;
        print(rt, b" ")?;
        let element = e.element;
        print_element(rt, b, element, d - 1)?;
        print(rt, b"\n")?;
        cur = e.next;
    }
    Ok(())
}

// What the bit reader says of the bundle.
fn print_version(rt: &impl Print, b: &[u8]) -> io::Result<()> {
    print(rt, b"version ")?;
    print_number(rt, reader::version(b))?;
    print(rt, b"\n")
}

fn print_main(rt: &impl Print, b: &[u8]) -> io::Result<()> {
    print_version(rt, b)?;
    let Ok(()) = layout::check_bundle(b) else {
        return Ok(());
    };
    let f = registry::get_template(b, 16, b"main");
    let Some((k, _, p)) = f else {
        return Ok(());
    };
    print_number(rt, k as u64)?;
    print(rt, b"\n")?;
    print_body(rt, b, p, 16)
}

fn main(rt: HostRuntime) -> io::Result<()> {
    print_main(
        &rt,
        b"\x01\x02\x00\x03\x72\x6f\x77\x00\x10\x00\x10\x00\x10\x00\x01\x72\x00\x04\x6d\x61\x69\x6e\x00\x90\x00\x10\x00\x10\x00\x06\x48\x65\x6c\x6c\x6f\x20\x00\x01\x00\x07\x24\x00\x18\xb8\xb8\xbd\x84\xb9\x88\x07\x00\x00\x2c\x20\x00\x0b\x10\x00\x00\x08\x00\x04\x50\x00\x94\x02\xe2\xe2\xf6\x96\xe6\x46\x57\x88\x08\x00\x2b\x4b\x73\x23\x2b\xc0\x04\x00\x0c\x00\x04\xc0\x00\x46\x56\x16\x36\x85\x40\x00\x5c\x80\x20\x00\x0b\x94\x25\x3f\xff\xff\xff\xff\xff\xff\xff\xfa\x7f\xff\xff\xff\xff\xff\xff\xfc\x90\x00\x0b\x5d\x40\x00\x5d\x80\x00\x5e\xa3\x00\x00\xbc\x00\x00\xbc\xc0\x04\x00\x10\x00\x0e\x00\x00\x9a\x5b\x80\x00\x50\x00\x14\x00\x01\x9a\x5b\x9b\x1a\x5b\x99\x46\xa0\x00\x2e\x00\x00\x03\x00\x00\xa8\x00\x0c\xd2\xdc\xd8\xd2\xdc\xca\x35\x00\x01\x71\x00\x00\x80\x01\x10\x10\x40\x01\xc0\x00\x58\x00\x03\x72\x6f\x77\x1c\x00\x06\x6c\x6f\x6f\x6b\x75\x70\x24\x00\x05\x84\x02\x00\x00\xb0\xcc\x00\x00\x00\x00\x00\x00\x00\x04\x02\x00\x00\x00\x08\x00\x01\x70\x00\x0d\xc9\xbd\xdc\x00\x00\x80\x02\x00\x02\x40\x00\x05\x84\x00\x20\x00\x28\x00\x00\x58\x90\x00\x9f\xff\xf8\x00\x07\x74\x68\x65\x20\x65\x6e\x64",
    )
}
