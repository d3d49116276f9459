// The characters of a text, one by one and without a copy: each is a value.
#![tactic(auto)]

ghost use Rattle.std.specs.Prelude.{◌≡◌, ◌≤◌, ◌<◌, length};
ghost use Rattle.std.proofs.Math.ListN.{get_elem?};
ghost use Rattle.rules.specs.Context.{chars};
ghost use Rattle.text.specs.Rest.{rest};
ghost use Rattle.chars.specs.Spelled.{Spelled, Parted, Chosen};
ghost use Rattle.chars.specs.Leads.{lead_length};

use text::Text;
use value::Value;

// How many bytes a character of UTF-8 has, by its first byte.
fn lead_length(c: u8) -> usize
    ensures { result ≡ lead_length c }
{
    if c < 128 {
        return 1;
    }
    if c < 224 {
        return 2;
    }
    if c < 240 {
        return 3;
    }
    4
}

fn said(s: &[u8], b: &[u8], at: usize) -> Option<(Value, Text)>
    requires { (length s.now ≤ 65536) × Spelled s.now b.now (Text.Said at 0) }
    ensures { Parted s.now b.now (Text.Said at 0) result }
{
    let (n, e) = saying::next_char(s, at)?;
    Some((Value::SaidChar(at, n), Text::Said(e, 0)))
}

fn packed(s: &[u8], b: &[u8], p: usize, n: usize) -> Option<(Value, Text)>
    requires { (length b.now ≤ 65536) × Spelled s.now b.now (Text.Packed p n) }
    ensures { Parted s.now b.now (Text.Packed p n) result }
{
    if n == 0 {
        return None;
    }
    let m = lead_length(bits::byte(b, p));
    Some((Value::PackedChar(p, m), Text::Packed(p + 8 * m, n - m)))
}

fn digits(s: &[u8], b: &[u8], n: u64, k: usize) -> Option<(Value, Text)>
    requires { n < 65536 }
    ensures { Parted s.now b.now (Text.Digits n k) result }
{
    let count = decimal::digit_count(n);
    if count <= k {
        return None;
    }
    let d = decimal::digit(n, k);
    Some((Value::IndexText((d - 48) as usize), Text::Digits(n, k + 1)))
}

// The first character of a text, and what comes behind it: no bytes behind the one character of a `Part`.
pub fn next_char(s: &[u8], b: &[u8], t: Text) -> Option<(Value, Text)>
    requires { (length s.now ≤ 65536) × (length b.now ≤ 65536) × Spelled s.now b.now t }
    ensures { Parted s.now b.now t result }
{
    match t {
        Text::Said(at, _) => said(s, b, at),
        Text::Part(at, _, n) => Some((Value::SaidChar(at, n), Text::Packed(0, 0))),
        Text::Packed(p, n) => packed(s, b, p, n),
        Text::Digits(n, k) => digits(s, b, n, k),
        Text::Minus(_) => None,
    }
}

// The character k of a text.
pub fn nth_char(s: &[u8], b: &[u8], t: Text, k: usize) -> Option<Value>
    requires { (length s.now ≤ 65536) × (length b.now ≤ 65536) × Spelled s.now b.now t }
    ensures { Chosen s.now b.now (get_elem? (chars (rest s.now b.now t)) k) result }
{
    let mut u = t;
    for _ in 0..k {
        let (_, w) = next_char(s, b, u)?;
        u = w;
    }
    let (v, _) = next_char(s, b, u)?;
    Some(v)
}

// How many characters a text has.
pub fn char_count(s: &[u8], b: &[u8], t: Text) -> usize
    requires { (length s.now ≤ 65536) × (length b.now ≤ 65536) × Spelled s.now b.now t }
    ensures { (result ≡ length (chars (rest s.now b.now t))) × (result ≤ 65536) }
{
    let mut u = t;
    let mut count = 0;
    while let Some((_, w)) = next_char(s, b, u) {
        u = w;
        count += 1;
    }
    count
}
