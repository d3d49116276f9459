// json/value.rs: `render`. What a value prints is fed to a writer as it stands, or compared, and never made up first.
#![tactic(auto)]

ghost use Rattle.std.specs.Prelude.{◌≡◌, ℕ, ◌+◌, ◌-◌, ◌*◌, ◌≤◌, ◌<◌, length, take, drop};
ghost use Rattle.rules.specs.Bytes.{Bytes, same};
ghost use Rattle.rules.specs.Json.{jbool, jpos, jneg};
ghost use Rattle.rules.specs.Value.{render};
ghost use Rattle.rules.specs.Bits.{bits};
ghost use Rattle.rules.specs.Bundle.{string};
ghost use Rattle.bits.specs.Packed.{bytes_at};
ghost use Rattle.layout.specs.Text.{text_at};
ghost use Rattle.parts.specs.Holds.{Holds};
ghost use Rattle.saying.specs.Said.{remaining, Inside};
ghost use Rattle.output.specs.Writer.{output};
ghost use Rattle.places.specs.Accepted.{Accepted};
ghost use Rattle.places.specs.Places.{places, json_at};
ghost use Rattle.text.specs.Rest.{rest, Stands};
ghost use Rattle.value.specs.Numbers.{decoded};
ghost use Rattle.meaning.specs.Forms.{Known};
ghost use Rattle.meaning.specs.Means.{Means};
ghost use Rattle.text.specs.Strip.{stripped};
ghost use Rattle.print.specs.Printed.{printed, IsList};
ghost use Rattle.print.specs.Span.{string_span, span_of, value_span, is_calm, calm_end, calm_string, calm_of, calm_value};
ghost use Rattle.print.specs.Target as target;
ghost use Rattle.print.specs.Target.{met};

use meaning::Form;
use output::Writer;
use text::Text;
use value::Value;

// A value's number: the kind in its last bits, the place in front of them.
const KINDS: u32 = 16;

const CONTEXT: u32 = 5;

const PLACE: u32 = 6;

const NAME: u32 = 10;

// As many digits as a u64 may have.
const DIGITS: usize = 20;

// Byte by byte.
fn write_steps(
    out: &mut [u8],
    indent: &[u8],
    w: Writer,
    s: &[u8],
    b: &[u8],
    t: Text,
    escape: bool,
) -> Writer
    requires { (length s.now ≤ 65536) × Stands s.now b.now t }
    ensures { output result out.new
        ≡ printed indent.now escape (rest s.now b.now t)
        (output w out.old) }
{
    let mut q = w;
    let mut u = t;
    while let Some((c, v)) = text::next(s, b, u) {
        q = support::feed_escaped(out, indent, q, c, escape);
        u = v;
    }
    q
}

// The bytes of the plan from i up to e.
fn write_part(
    out: &mut [u8],
    indent: &[u8],
    w: Writer,
    s: &[u8],
    i: usize,
    e: usize,
    escape: bool,
) -> Writer
    requires { i < e → e ≤ length s.now }
    ensures { output result out.new
        ≡ printed indent.now escape (take (e - i) (drop i s.now))
        (output w out.old) }
{
    if i < e {
        return support::feed_bytes(out, indent, w, &s[i..e], escape);
    }
    w
}

// What a string of the plan says from a place on: what stands for itself at once, escapes byte by byte.
fn write_said(
    out: &mut [u8],
    indent: &[u8],
    w: Writer,
    s: &[u8],
    at: usize,
    k: usize,
    escape: bool,
) -> Writer
    requires { (length s.now ≤ 65536) × Inside s.now at k }
    ensures { output result out.new
        ≡ printed indent.now escape (remaining s.now at k) (output w out.old) }
{
    let mut q = w;
    let mut i = at;
    let mut j = k;
    loop {
        let e = saying::own_end(s, i);
        q = write_part(out, indent, q, s, i, e, escape);
        let Some((c, p)) = saying::next_byte(s, e, j) else {
            return q;
        };
        q = support::feed_escaped(out, indent, q, c, escape);
        i = p.at;
        j = p.k;
    }
}

fn write_packed(
    out: &mut [u8],
    indent: &[u8],
    w: Writer,
    b: &[u8],
    p: usize,
    n: usize,
    escape: bool,
) -> Writer
    requires { p + 8 * n < 18446744073709551616 }
    ensures { output result out.new
        ≡ printed indent.now escape (bytes_at (bits b.now) p n) (output w out.old) }
{
    if escape {
        return support::feed_packed_escaped(out, indent, w, b, p, n);
    }
    support::feed_packed(out, indent, w, b, p, n)
}

fn write_text(
    out: &mut [u8],
    indent: &[u8],
    w: Writer,
    s: &[u8],
    b: &[u8],
    t: Text,
    escape: bool,
) -> Writer
    requires { (length s.now ≤ 65536) × Stands s.now b.now t }
    ensures { output result out.new
        ≡ printed indent.now escape (rest s.now b.now t)
        (output w out.old) }
{
    match t {
        Text::Said(at, k) => write_said(out, indent, w, s, at, k, escape),
        Text::Packed(p, n) => write_packed(out, indent, w, b, p, n, escape),
        u => write_steps(out, indent, w, s, b, u, escape),
    }
}

// A whole number is written at once: the digits of every u64 fit the buffer.
fn write_digits(out: &mut [u8], indent: &[u8], w: Writer, n: u64, escape: bool) -> Writer
    ensures { output result out.new
        ≡ printed indent.now escape (render (jpos n)) (output w out.old) }
{
    let mut buf = [0u8; DIGITS];
    let e = decimal::write_digits(&mut buf, 0, n);
    support::feed_bytes(out, indent, w, &buf[..e], escape)
}

// The same behind a minus.
fn write_minus(out: &mut [u8], indent: &[u8], w: Writer, n: u64, escape: bool) -> Writer
    ensures { output result out.new
        ≡ printed indent.now escape (render (jneg n)) (output w out.old) }
{
    let mut buf = [b'-'; DIGITS + 1];
    let e = decimal::write_digits(&mut buf, 1, n);
    support::feed_bytes(out, indent, w, &buf[..e], escape)
}

fn write_bool(out: &mut [u8], indent: &[u8], w: Writer, x: bool, escape: bool) -> Writer
    ensures { output result out.new
        ≡ printed indent.now escape (render (jbool x)) (output w out.old) }
{
    if x {
        return support::feed_bytes(out, indent, w, b"true", escape);
    }
    support::feed_bytes(out, indent, w, b"false", escape)
}

// The values of the list at the place i.
#[cycle(printing)]
fn write_list(
    out: &mut [u8],
    indent: &[u8],
    w: Writer,
    s: &[u8],
    tab: &[u64],
    b: &[u8],
    i: usize,
    escape: bool,
) -> Writer
    requires { Accepted s.now tab.now
        × (length b.now ≤ 65536)
        × (i < places s.now)
        × IsList (json_at s.now i) }
    ensures { output result out.new
        ≡ printed indent.now escape (render (json_at s.now i)) (output w out.old) }
{
    let mut q = support::feed_bytes(out, indent, w, b"[", escape);
    let Some(f) = places::first(s, tab, i) else {
        return support::feed_bytes(out, indent, q, b"]", escape);
    };
    let mut c = f;
    loop {
        q = write_value(out, indent, q, s, tab, b, Value::Place(c), escape);
        let Some(d) = places::next(s, tab, i, c) else {
            return support::feed_bytes(out, indent, q, b"]", escape);
        };
        q = support::feed_bytes(out, indent, q, b", ", escape);
        c = d;
    }
}

// Bytes of the plan; none where `end` is 0.
#[derive(Clone, Copy)]
pub struct Span {
    pub start: usize,
    pub end: usize,
}

const NONE: Span = Span { start: 0, end: 0 };

// What a string says whose bytes begin at i, if it has no escapes.
fn string_span(s: &[u8], i: usize) -> Span
    ensures { result ≡ string_span s.now i }
{
    let e = saying::own_end(s, i);
    if scan::byte(s, e) == b'"' {
        return Span { start: i, end: e };
    }
    NONE
}

// What the value at the place i prints, if that stands in the plan just so. A number does: it has no zero in front, and
// no sign but a minus.
fn place_span(s: &[u8], tab: &[u64], i: usize) -> Span
    requires { Accepted s.now tab.now × (i < places s.now) }
    ensures { result ≡ span_of s.now i }
{
    let q = places::start(s, tab, i);
    if scan::byte(s, q) == b'"' {
        return string_span(s, q + 1);
    }
    let e = scan::whole_end(s, scan::minus_end(s, q));
    Span { start: q, end: e }
}

// The same of a value. (What the plan has is mostly printed so, with no question what form it has.)
pub fn value_span(s: &[u8], tab: &[u64], v: Value) -> Span
    requires { Accepted s.now tab.now × ((b : Bytes) × Known s.now b v) }
    ensures { result ≡ value_span s.now v }
{
    match v {
        Value::Context(i) => place_span(s, tab, i),
        Value::Place(i) => place_span(s, tab, i),
        Value::Name(o) => string_span(s, o + 1),
        _ => NONE,
    }
}

// Whether a byte of a string stands for itself, and is printed so whether that is escaped or not. (With the table of what is
// escaped in front of the last test the compiler makes one test of both.)
fn is_calm(c: u8) -> bool
    ensures { result ≡ is_calm c }
{
    if c < b' ' {
        return false;
    }
    if support::is_escaped(c) {
        return false;
    }
    c != b'\\'
}

// The first place from i on that has no such byte.
fn calm_end(s: &[u8], i: usize) -> usize
    ensures { result ≡ calm_end s.now i }
{
    let mut j = i;
    while j < s.len() && is_calm(s[j]) {
        j += 1;
    }
    j
}

// What a string says whose bytes begin at i, if all of them are such.
fn calm_string(s: &[u8], i: usize) -> Span
    ensures { result ≡ calm_string s.now i }
{
    let e = calm_end(s, i);
    if scan::byte(s, e) == b'"' {
        return Span { start: i, end: e };
    }
    NONE
}

// What the value at the place i prints, if that stands in the plan just so and nothing of it is escaped: one pass over its bytes tells both.
fn calm_place(s: &[u8], tab: &[u64], i: usize) -> Span
    requires { Accepted s.now tab.now × (i < places s.now) }
    ensures { result ≡ calm_of s.now i }
{
    let q = places::start(s, tab, i);
    if scan::byte(s, q) == b'"' {
        return calm_string(s, q + 1);
    }
    let e = scan::whole_end(s, scan::minus_end(s, q));
    Span { start: q, end: e }
}

// The same of the value with the number n: a place of the plan, with the path to it or without, or a member's name.
pub fn calm_value(s: &[u8], tab: &[u64], n: u32) -> Span
    requires { Accepted s.now tab.now × ((b : Bytes) × Known s.now b (decoded n)) }
    ensures { result ≡ calm_value s.now n }
{
    let kind = n % KINDS;
    let x = (n / KINDS) as usize;
    if (kind == CONTEXT) | (kind == PLACE) {
        return calm_place(s, tab, x);
    }
    if kind == NAME {
        return calm_string(s, x + 1);
    }
    NONE
}

// What a value prints.
#[cycle(printing)]
pub fn write_value(
    out: &mut [u8],
    indent: &[u8],
    w: Writer,
    s: &[u8],
    tab: &[u64],
    b: &[u8],
    v: Value,
    escape: bool,
) -> Writer
    requires { Accepted s.now tab.now × (length b.now ≤ 65536) × Known s.now b.now v }
    ensures { Means s.now b.now v
        (λ j. output result out.new
        ≡ printed indent.now escape (render j) (output w out.old)) }
{
    match meaning::form_of(s, tab, b, v) {
        Form::Null => w,
        Form::Boolean(t) => write_bool(out, indent, w, t, escape),
        Form::Unsigned(n) => write_digits(out, indent, w, n, escape),
        Form::Negative(n) => write_minus(out, indent, w, n, escape),
        Form::String(t) => write_text(out, indent, w, s, b, t, escape),
        Form::List(i) => write_list(out, indent, w, s, tab, b, i, escape),
        Form::Object(i) => support::feed_bytes(out, indent, w, b"[object]", escape),
        Form::Merged(h, n) => support::feed_bytes(out, indent, w, b"[object]", escape),
    }
}

// What a value's text is compared with: a text, or lent bytes from a place on.
#[derive(Clone, Copy)]
enum Target {
    Text(Text),
    Lent(usize),
}

fn front(s: &[u8], b: &[u8], w: &[u8], g: Target) -> Option<(u8, Target)>
    requires { (length s.now ≤ 65536) × target.Stands s.now b.now w.now g }
    ensures { target.Stepped s.now b.now w.now g result }
{
    match g {
        Target::Text(t) => {
            let (c, u) = text::next(s, b, t)?;
            Some((c, Target::Text(u)))
        }
        Target::Lent(k) => {
            if k < w.len() {
                return Some((w[k], Target::Lent(k + 1)));
            }
            None
        }
    }
}

// What is left of the target where the bytes v stand in front.
fn strip_bytes(s: &[u8], b: &[u8], w: &[u8], g: Target, v: &[u8]) -> Option<Target>
    requires { (length s.now ≤ 65536) × target.Stands s.now b.now w.now g }
    ensures { target.Stripped s.now b.now w.now
        (stripped v.now (target.rest s.now b.now w.now g)) result }
{
    let mut u = g;
    for d in v {
        let (c, x) = front(s, b, w, u)?;
        if *d != c {
            return None;
        }
        u = x;
    }
    Some(u)
}

// The same for a text.
fn strip_text(s: &[u8], b: &[u8], w: &[u8], g: Target, t: Text) -> Option<Target>
    requires { (length s.now ≤ 65536) × target.Stands s.now b.now w.now g × Stands s.now b.now t }
    ensures { target.Stripped s.now b.now w.now
        (stripped (rest s.now b.now t)
        (target.rest s.now b.now w.now g)) result }
{
    let mut u = g;
    let mut y = t;
    while let Some((d, z)) = text::next(s, b, y) {
        let (c, x) = front(s, b, w, u)?;
        if c != d {
            return None;
        }
        u = x;
        y = z;
    }
    Some(u)
}

fn strip_bool(s: &[u8], b: &[u8], w: &[u8], g: Target, x: bool) -> Option<Target>
    requires { (length s.now ≤ 65536) × target.Stands s.now b.now w.now g }
    ensures { target.Stripped s.now b.now w.now
        (stripped (render (jbool x)) (target.rest s.now b.now w.now g)) result }
{
    if x {
        return strip_bytes(s, b, w, g, b"true");
    }
    strip_bytes(s, b, w, g, b"false")
}

// What is left where the list at the place i stands in front.
#[cycle(stripping)]
fn strip_list(s: &[u8], tab: &[u64], b: &[u8], w: &[u8], g: Target, i: usize) -> Option<Target>
    requires { Accepted s.now tab.now
        × (length b.now ≤ 65536)
        × target.Stands s.now b.now w.now g
        × (i < places s.now)
        × IsList (json_at s.now i) }
    ensures { target.Stripped s.now b.now w.now
        (stripped (render (json_at s.now i))
        (target.rest s.now b.now w.now g)) result }
{
    let t = strip_bytes(s, b, w, g, b"[")?;
    let Some(f) = places::first(s, tab, i) else {
        return strip_bytes(s, b, w, t, b"]");
    };
    let mut u = t;
    let mut c = f;
    loop {
        let x = strip_value(s, tab, b, w, u, Value::Place(c))?;
        let Some(d) = places::next(s, tab, i, c) else {
            return strip_bytes(s, b, w, x, b"]");
        };
        let y = strip_bytes(s, b, w, x, b", ")?;
        u = y;
        c = d;
    }
}

// What is left where the text of a value stands in front.
#[cycle(stripping)]
fn strip_value(s: &[u8], tab: &[u64], b: &[u8], w: &[u8], g: Target, v: Value) -> Option<Target>
    requires { Accepted s.now tab.now
        × (length b.now ≤ 65536)
        × target.Stands s.now b.now w.now g
        × Known s.now b.now v }
    ensures { target.ValueStripped s.now b.now w.now v g result }
{
    match meaning::form_of(s, tab, b, v) {
        Form::Null => Some(g),
        Form::Boolean(t) => strip_bool(s, b, w, g, t),
        Form::Unsigned(n) => strip_text(s, b, w, g, Text::Digits(n, 0)),
        Form::Negative(n) => strip_text(s, b, w, g, Text::Minus(n)),
        Form::String(t) => strip_text(s, b, w, g, t),
        Form::List(i) => strip_list(s, tab, b, w, g, i),
        Form::Object(i) => strip_bytes(s, b, w, g, b"[object]"),
        Form::Merged(h, n) => strip_bytes(s, b, w, g, b"[object]"),
    }
}

// Whether nothing is left.
fn all_met(s: &[u8], b: &[u8], w: &[u8], l: Option<Target>) -> bool
    requires { (length s.now ≤ 65536) × target.LeftStands s.now b.now w.now l }
    ensures { result ≡ met (target.left s.now b.now w.now l) }
{
    let Some(g) = l else {
        return false;
    };
    match front(s, b, w, g) {
        Some((c, u)) => false,
        None => true,
    }
}

// Whether a value prints just the bytes w.
pub fn text_is(s: &[u8], tab: &[u64], b: &[u8], v: Value, w: &[u8]) -> bool
    requires { Accepted s.now tab.now × (length b.now ≤ 65536) × Known s.now b.now v }
    ensures { Means s.now b.now v (λ j. result ≡ same (render j) w.now) }
{
    if let Value::Text(p) = v {
        return parts::text_is(b, p, w);
    }
    let Form::String(t) = meaning::form_of(s, tab, b, v) else {
        return all_met(s, b, w, strip_value(s, tab, b, w, Target::Lent(0), v));
    };
    text::is(s, b, t, w)
}

// Whether the string at the bit place p of the bundle is the text t. (Names of partials are such strings on both sides.)
fn held_same(s: &[u8], b: &[u8], p: usize, t: Text) -> bool
    requires { (length s.now ≤ 65536)
        × (length b.now ≤ 65536)
        × Holds string (bits b.now) p
        × Stands s.now b.now t }
    ensures { result ≡ same (text_at (bits b.now) p) (rest s.now b.now t) }
{
    let x = parts::text_at(b, p);
    let Text::Packed(q, m) = t else {
        return text::same(s, b, Text::Packed(x.first, x.count), t);
    };
    bits::same_at(b, x.first, x.count, q, m)
}

// Whether it prints just the text t. (No lent bytes are looked at.)
pub fn text_same(s: &[u8], tab: &[u64], b: &[u8], v: Value, t: Text) -> bool
    requires { Accepted s.now tab.now
        × (length b.now ≤ 65536)
        × Known s.now b.now v
        × Stands s.now b.now t }
    ensures { Means s.now b.now v
        (λ j. result ≡ same (render j) (rest s.now b.now t)) }
{
    if let Value::Text(p) = v {
        return held_same(s, b, p, t);
    }
    let Form::String(u) = meaning::form_of(s, tab, b, v) else {
        return all_met(s, b, b, strip_value(s, tab, b, b, Target::Text(t), v));
    };
    text::same(s, b, u, t)
}
