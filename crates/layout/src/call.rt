// Calls: a name, parameters and hash pairs. A parameter may be a call again, one deeper.
ghost use Rattle.std.specs.Prelude.{◌≡◌, ◌≤◌, length};
ghost use Rattle.rules.specs.Bits.{bits};
ghost use Rattle.rules.specs.Bundle.{param, params, pairs, call_of, call_context};
ghost use Rattle.layout.specs.Walk.{place_by, after, past};
ghost use Rattle.layout.specs.Text.{text_at};
ghost use Rattle.layout.specs.Names.{key_before, key_ok};

use super::part;
use super::part::{BROKEN, START};

// Whether the key at the bit at may follow the one at prev, where i keys stand before it.
fn may_follow(b: &[u8], i: usize, prev: usize, at: usize) -> bool
    requires { (prev ≤ 524288) × (at ≤ 524288) }
    ensures { result ≡ key_ok (key_before (bits b.now) i prev) (text_at (bits b.now) at) }
{
    if i == 0 {
        return true;
    }
    let m = bits::field(b, prev, 16) as usize;
    let n = bits::field(b, at, 16) as usize;
    bits::before_at(b, prev + 16, m, at + 16, n)
}

// Parameter (2): 0 Name, 1 Path, 2 Literal, 3 Subexpression; d depths are left, its own included.
#[cycle(calls)]
fn param(b: &[u8], p: usize, d: usize) -> usize
    requires { length b.now ≤ 65536 }
    ensures { place_by result ≡ after (param d) (bits b.now) (place_by p) }
{
    if d == 0 {
        return BROKEN;
    }
    let k = part::number(b, p, 2);
    let q = part::ahead(b, p, 2);
    match k {
        0 => part::string(b, q),
        1 => part::path(b, q),
        2 => part::literal(b, q),
        3 => call(b, q, d - 1),
        _ => BROKEN,
    }
}

// Count (4) and parameters.
#[cycle(calls)]
fn params(b: &[u8], p: usize, d: usize) -> usize
    requires { length b.now ≤ 65536 }
    ensures { place_by result ≡ after (params (param d)) (bits b.now) (place_by p) }
{
    let n = part::number(b, p, 4);
    let mut cur = part::ahead(b, p, 4);
    for _ in 0..n {
        cur = param(b, cur, d);
    }
    cur
}

// Count (4) and hash pairs, keys strictly ascending by bytes.
#[cycle(calls)]
fn pairs(b: &[u8], p: usize, d: usize) -> usize
    requires { length b.now ≤ 65536 }
    ensures { place_by result ≡ after (pairs (param d)) (bits b.now) (place_by p) }
{
    let n = part::number(b, p, 4);
    let mut cur = part::ahead(b, p, 4);
    let mut prev: usize = 0;
    for i in 0..n {
        if cur < START {
            return BROKEN;
        }
        let at = cur / 2 - 1;
        let value = part::string(b, cur);
        if value < START {
            return BROKEN;
        }
        if !may_follow(b, i, prev, at) {
            return BROKEN;
        }
        prev = at;
        cur = param(b, value, d);
    }
    cur
}

// Call: name (a parameter), parameters, hash pairs.
#[cycle(calls)]
pub fn call(b: &[u8], p: usize, d: usize) -> usize
    requires { length b.now ≤ 65536 }
    ensures { place_by result ≡ after (call_of (param d)) (bits b.now) (place_by p) }
{
    pairs(b, params(b, param(b, p, d), d), d)
}

// A partial's call. The mark is set where its first parameter is a Name or Path (check 4).
pub fn partial_call(b: &[u8], p: usize, d: usize) -> usize
    requires { length b.now ≤ 65536 }
    ensures { place_by result ≡ past call_context (call_of (param d)) (bits b.now) (place_by p) }
{
    let q = param(b, p, d);
    let end = pairs(b, params(b, q, d), d);
    if part::number(b, q, 4) == 0 {
        return end;
    }
    if 2 <= part::number(b, part::ahead(b, q, 4), 2) {
        return end;
    }
    part::marked(end)
}
