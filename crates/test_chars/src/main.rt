// Characters by fixed cases. A text has a line: how many characters it has; each with its kind and bytes, and the same of that character
// by itself; then each by its number, up to one that is not there, which is a dash.
#![tactic(auto)]

ghost use Rattle.std.specs.Prelude.{◌≡◌, ◌≤◌, ◌<◌, length};
ghost use Rattle.rules.specs.Utf8.{utf8};
ghost use Rattle.rules.specs.Bits.{bits};
ghost use Rattle.bits.specs.Packed.{bytes_at};
ghost use Rattle.text.specs.Rest.{Stands};
ghost use Rattle.meaning.specs.Standing.{PlainStands};
ghost use Rattle.chars.specs.Spelled.{Spelled};

use std::io;
use std::io::Write;
use text::Text;
use value::Value;

fn print(rt: &impl Print, s: &[u8]) -> io::Result<()> {
    io::writer(rt).write_all(s)
}

fn print_number(rt: &impl Print, n: usize) -> io::Result<()> {
    print!(rt; "{n}")
}

fn print_byte(rt: &impl Print, c: u8) -> io::Result<()> {
    print!(rt; "{c} ")
}

fn print_text(rt: &impl Print, s: &[u8], b: &[u8], t: Text) -> io::Result<()>
    requires { (length s.now ≤ 65536) × Stands s.now b.now t }
{
    let mut u = t;
    loop {
        let Some((c, v)) = text::next(s, b, u) else {
            return Ok(());
        };
        print_byte(rt, c)?;
        u = v;
    }
    Ok(())
}

fn print_kind(rt: &impl Print, v: Value) -> io::Result<()> {
    match v {
        Value::SaidChar(_, _) => print(rt, b"s"),
        Value::PackedChar(_, _) => print(rt, b"p"),
        Value::IndexText(_) => print(rt, b"d"),
        _ => print(rt, b"?"),
    }
}

// The text of a character.
fn text_of(s: &[u8], b: &[u8], v: Value) -> Text
    requires { (length b.now ≤ 65536) × PlainStands s.now b.now v }
    ensures { Spelled s.now b.now result × Stands s.now b.now result }
{
    match v {
        Value::SaidChar(at, n) => Text::Part(at, 0, n),
        Value::PackedChar(p, n) => Text::Packed(p, n),
        Value::IndexText(n) => Text::Digits(n as u64, 0),
        _ => Text::Packed(0, 0),
    }
}

fn show(rt: &impl Print, s: &[u8], b: &[u8], v: Value) -> io::Result<()>
    requires { (length s.now ≤ 65536) × (length b.now ≤ 65536) × PlainStands s.now b.now v }
{
    print_kind(rt, v)?;
    print_text(rt, s, b, text_of(s, b, v))
}

// A character by itself.
fn show_alone(rt: &impl Print, s: &[u8], b: &[u8], v: Value) -> io::Result<()>
    requires { (length s.now ≤ 65536) × (length b.now ≤ 65536) × PlainStands s.now b.now v }
{
    let t = text_of(s, b, v);
    print_number(rt, chars::char_count(s, b, t))?;
    print(rt, b" ")?;
    let Some((w, _)) = chars::next_char(s, b, t) else {
        return Ok(());
    };
    show(rt, s, b, w)
}

fn show_all(rt: &impl Print, s: &[u8], b: &[u8], t: Text) -> io::Result<()>
    requires { (length s.now ≤ 65536) × (length b.now ≤ 65536) × Spelled s.now b.now t }
{
    let mut u = t;
    loop {
        let Some((v, w)) = chars::next_char(s, b, u) else {
            return Ok(());
        };
        show(rt, s, b, v)?;
        show_alone(rt, s, b, v)?;
        print(rt, b", ")?;
        u = w;
    }
    Ok(())
}

fn show_nth(rt: &impl Print, s: &[u8], b: &[u8], t: Text, k: usize) -> io::Result<()>
    requires { (length s.now ≤ 65536) × (length b.now ≤ 65536) × Spelled s.now b.now t }
{
    let Some(v) = chars::nth_char(s, b, t, k) else {
        print(rt, b"- ")?;
        return Ok(());
    };
    show(rt, s, b, v)
}

fn report(rt: &impl Print, s: &[u8], b: &[u8], t: Text) -> io::Result<()>
    requires { (length s.now ≤ 65536) × (length b.now ≤ 65536) × Spelled s.now b.now t }
{
    let n = chars::char_count(s, b, t);
    print_number(rt, n)?;
    print(rt, b": ")?;
    show_all(rt, s, b, t)?;
    print(rt, b"; ")?;
    for k in 0..=n {
        show_nth(rt, s, b, t, k)?;
    }
    print(rt, b"\n")
}

// The byte at i, 0 past the end.
fn small(r: &[u8], i: usize) -> usize
    ensures { result < 256 }
{
    if i < r.len() {
        return r[i] as usize;
    }
    0
}

// Whether the n bytes packed from p on are UTF-8.
fn is_valid(b: &[u8], p: usize, n: usize) -> bool
    requires { (p < 256) × (n < 256) }
    ensures { result ≡ utf8 (bytes_at (bits b.now) p n) }
{
    let mut u = utf8::start();
    for i in 0..n {
        u = utf8::step(u, bits::byte(b, p + 8 * i));
    }
    utf8::is_done(u)
}

fn read_packed(s: &[u8], b: &[u8], p: usize, n: usize) -> Text
    requires { (p < 256) × (n < 256) × (length b.now ≤ 65536) }
    ensures { Spelled s.now b.now result }
{
    if 8 * b.len() < p + 8 * n {
        return Text::Packed(0, 0);
    }
    if is_valid(b, p, n) {
        return Text::Packed(p, n);
    }
    Text::Packed(0, 0)
}

fn read_said(s: &[u8], b: &[u8], q: usize) -> Text
    requires { (q < 256) × (length s.now ≤ 65536) }
    ensures { Spelled s.now b.now result }
{
    if s.len() < q {
        return Text::Packed(0, 0);
    }
    if strings::string_end(s, q + 1) == 0 {
        return Text::Packed(0, 0);
    }
    Text::Said(q + 1, 0)
}

// The text that three bytes at i stand for: its kind, its place and size, or its number. What is no text of characters is nothing.
fn read(s: &[u8], b: &[u8], r: &[u8], i: usize) -> Text
    requires { (i < 1000) × (length s.now ≤ 65536) × (length b.now ≤ 65536) }
    ensures { Spelled s.now b.now result }
{
    let kind = small(r, i);
    let x = small(r, i + 1);
    let n = small(r, i + 2);
    if kind == 0 {
        return read_said(s, b, x);
    }
    if kind == 1 {
        return read_packed(s, b, x, n);
    }
    Text::Digits((256 * x + n) as u64, 0)
}

fn report_all(rt: &impl Print, s: &[u8], b: &[u8], r: &[u8]) -> io::Result<()>
    requires { (length s.now ≤ 65536) × (length b.now ≤ 65536) × (length r.now ≤ 900) }
{
    let mut i: usize = 0;
    while i < r.len() {
        report(rt, s, b, read(s, b, r, i))?;
        i += 3;
    }
    Ok(())
}

fn main(rt: HostRuntime) -> io::Result<()> {
    let plan =
        b"\"abc\"\"\"\"h\xc3\xa9a\"\"\xe2\x82\xac\xf0\x9d\x84\x9ez\xdf\xbf\xe0\xa0\x80\"\"\\u00e9\\u20ac\\u0041\"\"\\ud834\\udd1ea\\uDBFF\\uDFFF\"\"\\n\\\"\\\\\\/\"\"\xc3\xbc\\u00fc\\u0000\x7f\"\"a\\q\"";
    let bundle =
        b"\xb0\xb1\\:\x9e(*\xcf\x09\xd8I\xe2\x1e\xfd\xff\x05\x04\x07}\xfd\xff\xa4}\xfd\xff\x84\x84\x04\x04\xf5\xe1\x94\x00";
    // Strings of the plan: ASCII, empty, characters of two, three and four bytes, escapes, pairs; one with a bad escape, which is no string;
    // one from its third character on. Packed strings, none at a byte's place; no UTF-8; past the end; one from its second character on.
    // Numbers.
    report_all(
        &rt,
        plan,
        bundle,
        b"\x00\x00\x00\x00\x05\x00\x00\x07\x00\x00\x0d\x00\x00\x1c\x00\x000\x00\x00K\x00\x00U\x00\x00f\x00\x00\x0a\x00\x01\x01\x02\x01\x11\x00\x01\x14\x0a\x01e\x10\x01\xe7\x01\x01\xf1\x02\x01\xfa\x14\x01$\x07\x02\x00\x00\x02\x00\x09\x02\x00\x0a\x02\x01\x97\x02\xff\xff",
    )
}
