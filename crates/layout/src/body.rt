// Bodies and elements, which hold bodies again, one deeper. The mark is set behind a partial with a context (check 4).
ghost use Rattle.std.specs.Prelude.{◌≡◌, ◌≤◌, length};
ghost use Rattle.rules.specs.Bits.{bits};
ghost use Rattle.rules.specs.Bundle.{param, call_of, maybe_body, element_of, body, maybe_context, element_context, body_context};
ghost use Rattle.layout.specs.Walk.{place_by, past};

use super::part::BROKEN;
use super::{call, part};

// A bit, and a body if it is 1.
#[cycle(bodies)]
fn maybe_body(b: &[u8], p: usize, w: usize, d: usize) -> usize
    requires { length b.now ≤ 65536 }
    ensures { place_by result ≡ past maybe_context (maybe_body (body w d)) (bits b.now) (place_by p) }
{
    let k = part::number(b, p, 1);
    let q = part::ahead(b, p, 1);
    match k {
        0 => q,
        1 => body(b, q, w, d),
        _ => BROKEN,
    }
}

// Kind (4) and what it holds; d depths are left for parameters and bodies in it.
#[cycle(bodies)]
fn element(b: &[u8], p: usize, w: usize, d: usize) -> usize
    requires { length b.now ≤ 65536 }
    ensures { place_by result
        ≡ past element_context (element_of (call_of (param d)) (body w d)) (bits b.now) (place_by p) }
{
    let k = part::number(b, p, 4);
    let q = part::ahead(b, p, 4);
    match k {
        0 => part::string(b, q),
        1 => part::flag(b, call::call(b, q, d)),
        2 => part::flag(b, call::call(b, q, d)),
        3 => {
            let names = part::block_names(b, call::call(b, q, d));
            let template = maybe_body(b, names, w, d);
            let inverse = maybe_body(b, template, w, d);
            part::flag(b, inverse)
        }
        4 => part::tail(b, call::call(b, q, d)),
        5 => part::tail(b, body(b, call::call(b, q, d), w, d)),
        6 => part::tail(b, call::partial_call(b, q, d)),
        7 => part::tail(b, body(b, call::partial_call(b, q, d), w, d)),
        8 => part::string(b, q),
        _ => BROKEN, // no kind of element
    }
}

// Body: element count (12), each: line (w), column (w), element; d depths are left, its own included.
#[cycle(bodies)]
pub fn body(b: &[u8], p: usize, w: usize, d: usize) -> usize
    requires { length b.now ≤ 65536 }
    ensures { place_by result ≡ past body_context (body w d) (bits b.now) (place_by p) }
{
    if d == 0 {
        return BROKEN;
    }
    let n = part::number(b, p, 12);
    let mut cur = part::ahead(b, p, 12);
    for _ in 0..n {
        let kind = part::ahead(b, part::ahead(b, cur, w), w);
        cur = element(b, kind, w, d - 1);
    }
    cur
}
