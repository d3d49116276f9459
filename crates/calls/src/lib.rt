// Readers of the calls of an accepted bundle: parameters, which may be calls again, and hash pairs. Nothing is checked again.
// d is the number of depths left, a parameter's own included. What a reader requires stands where the laws of specs/ say (`Holds`).
#![tactic(auto)]

ghost use Rattle.std.specs.Prelude.{◌≡◌, ◌≤◌, length};
ghost use Rattle.rules.specs.Bits.{bits};
ghost use Rattle.rules.specs.Bundle.{param, params, pairs, call_of};
ghost use Rattle.parts.specs.Holds.{Holds, end};
ghost use Rattle.calls.specs.Calls.{param_view, behind_view, call_view};
ghost use Rattle.calls.specs.Shorts.{short_view};

// Where the content of a parameter stands.
#[derive(Clone, Copy)]
pub enum Parameter {
    // its string
    Name(usize),
    Path(usize),
    Literal(usize),
    // its call, one deeper
    Subexpression(usize),
}

pub fn param_at(b: &[u8], p: usize) -> Parameter
    requires { p ≤ 524288 }
    ensures { result ≡ param_view (bits b.now) p }
{
    let q = p + 2;
    match bits::field(b, p, 2) {
        0 => Parameter::Name(q),
        1 => Parameter::Path(q),
        2 => Parameter::Literal(q),
        _ => Parameter::Subexpression(q),
    }
}

// The place behind the parameter at p.
#[cycle(skipping)]
pub fn skip_param(b: &[u8], p: usize, d: usize) -> usize
    requires { (length b.now ≤ 65536) × Holds (param d) (bits b.now) p }
    ensures { result ≡ end (param d) (bits b.now) p }
{
    let q = p + 2;
    match bits::field(b, p, 2) {
        0 => parts::skip_string(b, q),
        1 => parts::skip_path(b, q),
        2 => parts::skip_literal(b, q),
        _ => skip_call(b, q, d - 1),
    }
}

// The place behind the count and parameters at p.
#[cycle(skipping)]
fn skip_params(b: &[u8], p: usize, d: usize) -> usize
    requires { (length b.now ≤ 65536) × Holds (params (param d)) (bits b.now) p }
    ensures { result ≡ end (params (param d)) (bits b.now) p }
{
    let n = bits::field(b, p, 4);
    let mut cur = p + 4;
    for _ in 0..n {
        cur = skip_param(b, cur, d);
    }
    cur
}

// The place behind the count and hash pairs at p.
#[cycle(skipping)]
fn skip_pairs(b: &[u8], p: usize, d: usize) -> usize
    requires { (length b.now ≤ 65536) × Holds (pairs (param d)) (bits b.now) p }
    ensures { result ≡ end (pairs (param d)) (bits b.now) p }
{
    let n = bits::field(b, p, 4);
    let mut cur = p + 4;
    for _ in 0..n {
        cur = skip_param(b, parts::skip_string(b, cur), d);
    }
    cur
}

// The place behind the call at p.
#[cycle(skipping)]
pub fn skip_call(b: &[u8], p: usize, d: usize) -> usize
    requires { (length b.now ≤ 65536) × Holds (call_of (param d)) (bits b.now) p }
    ensures { result ≡ end (call_of (param d)) (bits b.now) p }
{
    let q = skip_param(b, p, d);
    // both counts, where there are no parameters: most calls are a name alone
    if bits::field(b, q, 8) == 0 {
        return q + 8;
    }
    skip_pairs(b, skip_params(b, q, d), d)
}

// A call's name is the parameter at its place.
#[derive(Clone, Copy)]
pub struct Call {
    // how many parameters, and the first
    pub params: u64,
    pub param: usize,
    // how many hash pairs, and the first: a key's string, and behind it a parameter
    pub pairs: u64,
    pub pair: usize,
}

// The call whose name ends at q.
fn call_behind(b: &[u8], q: usize, d: usize) -> Call
    requires { (length b.now ≤ 65536) × Holds (params (param d)) (bits b.now) q × Holds (pairs (param d)) (bits b.now) (end (params (param d)) (bits b.now) q) }
    ensures { result ≡ behind_view d (bits b.now) q }
{
    let r = skip_params(b, q, d);
    Call {
        params: bits::field(b, q, 4),
        param: q + 4,
        pairs: bits::field(b, r, 4),
        pair: r + 4,
    }
}

pub fn call_at(b: &[u8], p: usize, d: usize) -> Call
    requires { (length b.now ≤ 65536) × Holds (call_of (param d)) (bits b.now) p }
    ensures { result ≡ call_view d (bits b.now) p }
{
    call_behind(b, skip_param(b, p, d), d)
}

// A call, by its name: most are short, and have one that is a string.
#[derive(Clone, Copy)]
pub enum Short {
    // a name alone: its string
    Bare(usize),
    // the name's string, and the only parameter: a path
    One(usize, usize),
    // the name's string, and the parts behind it
    Named(usize, Call),
    Other,
}

// The call at p, read with few reads where it is short.
pub fn short_at(b: &[u8], p: usize, d: usize) -> Short
    requires { (length b.now ≤ 65536) × Holds (call_of (param d)) (bits b.now) p }
    ensures { result ≡ short_view d (bits b.now) p }
{
    // its name's kind, and the count of the string that a name is
    let x = bits::field(b, p, 18);
    if 65535 < x {
        return Short::Other;
    }
    let q = p + 18 + 8 * (x as usize);
    // the count of parameters, and behind it that of pairs or the first parameter's kind: 1 and 1 are one path
    let y = bits::field(b, q, 8);
    if y == 0 {
        return Short::Bare(p + 2);
    }
    if y / 4 == 5 {
        let r = parts::skip_path(b, q + 6);
        if bits::field(b, r, 4) == 0 {
            return Short::One(p + 2, q + 6);
        }
    }
    Short::Named(p + 2, call_behind(b, q, d))
}
