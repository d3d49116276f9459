// The text that a string or a number prints, byte by byte and without a copy, wherever its bytes stand: in the plan s, packed in the bundle b,
// or in the number itself.
#![tactic(auto)]

ghost use Rattle.std.specs.Prelude.{◌≡◌, ◌+◌, ◌*◌, ◌≤◌, ◌<◌, length};
ghost use Rattle.rules.specs.Bytes.{same};
ghost use Rattle.rules.specs.Order.{cmp};
ghost use Rattle.saying.specs.Said.{Inside};
ghost use Rattle.saying.specs.Compared.{ordering};
ghost use Rattle.text.specs.Rest.{rest, Stands, Stepped};
ghost use Rattle.text.specs.Strip.{stripped, Stripped};

use std::cmp::Ordering;

// What is still to come of a text.
#[derive(Clone, Copy)]
pub enum Text {
    // what a string of the plan says from a place on
    Said(usize, usize),
    // no more than so many bytes of it
    Part(usize, usize, usize),
    // so many bytes packed into the bundle from a bit place on
    Packed(usize, usize),
    // the digits of a number, but for the first few
    Digits(u64, usize),
    // a minus and the digits of a number
    Minus(u64),
}

fn said(s: &[u8], b: &[u8], at: usize, k: usize) -> Option<(u8, Text)>
    requires { (length s.now ≤ 65536) × Inside s.now at k }
    ensures { Stepped s.now b.now (Text.Said at k) result }
{
    let (c, p) = saying::next_byte(s, at, k)?;
    Some((c, Text::Said(p.at, p.k)))
}

fn part(s: &[u8], b: &[u8], at: usize, k: usize, n: usize) -> Option<(u8, Text)>
    requires { (length s.now ≤ 65536) × Inside s.now at k }
    ensures { Stepped s.now b.now (Text.Part at k n) result }
{
    if n == 0 {
        return None;
    }
    let (c, p) = saying::next_byte(s, at, k)?;
    Some((c, Text::Part(p.at, p.k, n - 1)))
}

fn packed(s: &[u8], b: &[u8], p: usize, n: usize) -> Option<(u8, Text)>
    requires { p + 8 * n < 18446744073709551616 }
    ensures { Stepped s.now b.now (Text.Packed p n) result }
{
    if n == 0 {
        return None;
    }
    Some((bits::byte(b, p), Text::Packed(p + 8, n - 1)))
}

fn digits(s: &[u8], b: &[u8], n: u64, k: usize) -> Option<(u8, Text)>
    ensures { Stepped s.now b.now (Text.Digits n k) result }
{
    let count = decimal::digit_count(n);
    if count <= k {
        return None;
    }
    Some((decimal::digit(n, k), Text::Digits(n, k + 1)))
}

// The first byte of a text, and what comes behind it. (One pair is made, at the end: those that the arms hand on would be
// copied with the bytes between their two parts, in two steps, and read back in one that waits for both.)
pub fn next(s: &[u8], b: &[u8], t: Text) -> Option<(u8, Text)>
    requires { (length s.now ≤ 65536) × Stands s.now b.now t }
    ensures { Stepped s.now b.now t result }
{
    let (c, u) = match t {
        Text::Said(at, k) => said(s, b, at, k)?,
        Text::Part(at, k, n) => part(s, b, at, k, n)?,
        Text::Packed(p, n) => packed(s, b, p, n)?,
        Text::Digits(n, k) => digits(s, b, n, k)?,
        Text::Minus(n) => (45, Text::Digits(n, 0)),
    };
    Some((c, u))
}

// Whether a text has just the bytes w, byte by byte.
fn is_steps(s: &[u8], b: &[u8], t: Text, w: &[u8]) -> bool
    requires { (length s.now ≤ 65536) × Stands s.now b.now t }
    ensures { result ≡ same (rest s.now b.now t) w.now }
{
    let mut u = t;
    for d in w {
        let Some((met, v)) = next(s, b, u) else {
            return false; // the text ends first
        };
        if *d != met {
            return false;
        }
        u = v;
    }
    next(s, b, u).is_none()
}

// Whether a text has just the bytes w.
pub fn is(s: &[u8], b: &[u8], t: Text, w: &[u8]) -> bool
    requires { (length s.now ≤ 65536) × Stands s.now b.now t }
    ensures { result ≡ same (rest s.now b.now t) w.now }
{
    match t {
        Text::Packed(p, n) => bits::same_bytes(b, p, n, w),
        u => is_steps(s, b, u, w),
    }
}

// The order of two texts.
pub fn compare(s: &[u8], b: &[u8], t: Text, u: Text) -> Ordering
    requires { (length s.now ≤ 65536) × Stands s.now b.now t × Stands s.now b.now u }
    ensures { ordering result ≡ cmp (rest s.now b.now t) (rest s.now b.now u) }
{
    let mut x = t;
    let mut y = u;
    while let Some((c, v)) = next(s, b, x) {
        let Some((e, w)) = next(s, b, y) else {
            return Ordering::Greater;
        };
        if c != e {
            return c.cmp(&e);
        }
        x = v;
        y = w;
    }
    match next(s, b, y) {
        Some((_, _)) => Ordering::Less,
        None => Ordering::Equal,
    }
}

// Whether two texts have the same bytes, whatever they are.
fn same_steps(s: &[u8], b: &[u8], t: Text, u: Text) -> bool
    requires { (length s.now ≤ 65536) × Stands s.now b.now t × Stands s.now b.now u }
    ensures { result ≡ same (rest s.now b.now t) (rest s.now b.now u) }
{
    compare(s, b, t, u).is_eq()
}

// Whether two texts have the same bytes.
pub fn same(s: &[u8], b: &[u8], t: Text, u: Text) -> bool
    requires { (length s.now ≤ 65536) × Stands s.now b.now t × Stands s.now b.now u }
    ensures { result ≡ same (rest s.now b.now t) (rest s.now b.now u) }
{
    let Text::Packed(q, m) = u else {
        return same_steps(s, b, t, u);
    };
    match t {
        Text::Said(at, k) => saying::remaining_packed(s, at, k, b, q, m),
        Text::Packed(p, n) => bits::same_at(b, p, n, q, m),
        x => same_steps(s, b, x, u),
    }
}

// What is left of t where the bytes w stand in front.
pub fn strip_bytes(s: &[u8], b: &[u8], t: Text, w: &[u8]) -> Option<Text>
    requires { (length s.now ≤ 65536) × Stands s.now b.now t }
    ensures { Stripped s.now b.now (stripped w.now (rest s.now b.now t)) result }
{
    let mut u = t;
    for d in w {
        let (c, v) = next(s, b, u)?;
        if *d != c {
            return None;
        }
        u = v;
    }
    Some(u)
}

// What is left of t where the text x stands in front.
pub fn strip(s: &[u8], b: &[u8], t: Text, x: Text) -> Option<Text>
    requires { (length s.now ≤ 65536) × Stands s.now b.now t × Stands s.now b.now x }
    ensures { Stripped s.now b.now (stripped (rest s.now b.now x) (rest s.now b.now t)) result }
{
    let mut u = t;
    let mut y = x;
    while let Some((d, z)) = next(s, b, y) {
        let (c, v) = next(s, b, u)?;
        if c != d {
            return None;
        }
        u = v;
        y = z;
    }
    Some(u)
}
