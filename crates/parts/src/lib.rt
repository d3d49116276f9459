// Readers of the parts of an accepted bundle that hold neither a call nor a body, and the way past each of them.
// Nothing is checked again: a string is passed by its count, without a look at its bytes.
// Every caller has a bundle that `layout::check_bundle` accepted, so that the parts stand where the laws of specs/ say.
#![tactic(auto)]

ghost use Rattle.std.specs.Prelude.{◌≡◌, ◌≤◌, length};
ghost use Rattle.rules.specs.Bytes.{same};
ghost use Rattle.rules.specs.Bits.{bits};
ghost use Rattle.rules.specs.Bundle.{string, seg, path, literal, block_names, indent};
ghost use Rattle.layout.specs.Text.{text_at};
ghost use Rattle.parts.specs.Holds.{Holds, end, row};
ghost use Rattle.parts.specs.Views.{text_view, segment_view, path_view, literal_view, names_view, maybe_view};

// The place behind the string at p.
pub fn skip_string(b: &[u8], p: usize) -> usize
    requires { (length b.now ≤ 65536) × Holds string (bits b.now) p }
    ensures { result ≡ end string (bits b.now) p }
{
    let n = bits::field(b, p, 16) as usize;
    p + 16 + 8 * n
}

// The string at p: how many bytes, and the bit where they start.
#[derive(Clone, Copy)]
pub struct Text {
    pub count: usize,
    pub first: usize,
}

pub fn text_at(b: &[u8], p: usize) -> Text
    requires { p ≤ 524288 }
    ensures { result ≡ text_view (bits b.now) p }
{
    Text {
        count: bits::field(b, p, 16) as usize,
        first: p + 16,
    }
}

// Whether the string at p is the given bytes. `layout::same_text` compares two strings of a bundle.
pub fn text_is(b: &[u8], p: usize, t: &[u8]) -> bool
    requires { p ≤ 524288 }
    ensures { result ≡ same (text_at (bits b.now) p) t.now }
{
    let n = bits::field(b, p, 16) as usize;
    bits::same_bytes(b, p + 16, n, t)
}

#[derive(Clone, Copy)]
pub enum Segment {
    // its string, and the next segment
    Named(usize, usize),
    // the next segment
    Root(usize),
    Up(usize),
}

pub fn segment_at(b: &[u8], p: usize) -> Segment
    requires { (length b.now ≤ 65536) × Holds seg (bits b.now) p }
    ensures { result ≡ segment_view (bits b.now) p }
{
    // the kind, and the count of the string that a name is
    let x = bits::field(b, p, 18);
    let q = p + 2;
    if x < 65536 {
        return Segment::Named(q, q + 16 + 8 * (x as usize));
    }
    if x < 131072 {
        return Segment::Root(q);
    }
    Segment::Up(q)
}

// The place behind the segment at p.
fn skip_segment(b: &[u8], p: usize) -> usize
    requires { (length b.now ≤ 65536) × Holds seg (bits b.now) p }
    ensures { result ≡ end seg (bits b.now) p }
{
    let x = bits::field(b, p, 18);
    let q = p + 2;
    if x < 65536 {
        return q + 16 + 8 * (x as usize);
    }
    q
}

// The place behind the n segments at p.
fn skip_row(b: &[u8], p: usize, n: u64) -> usize
    requires { (length b.now ≤ 65536) × Holds (row seg n) (bits b.now) p }
    ensures { result ≡ end (row seg n) (bits b.now) p }
{
    let mut cur = p;
    for _ in 0..n {
        cur = skip_segment(b, cur);
    }
    cur
}

// A path's raw string stands at its place.
#[derive(Clone, Copy)]
pub enum Path {
    // how many segments, and the first
    Relative(u64, usize),
    // the level, and the name's string
    Local(u64, usize),
}

pub fn path_at(b: &[u8], p: usize) -> Path
    requires { (length b.now ≤ 65536) × Holds path (bits b.now) p }
    ensures { result ≡ path_view (bits b.now) p }
{
    let q = skip_string(b, p);
    // the local bit, and the count or the level
    let x = bits::field(b, q, 9);
    if x < 256 {
        return Path::Relative(x, q + 9);
    }
    Path::Local(x - 256, q + 9)
}

// The place behind the path at p.
pub fn skip_path(b: &[u8], p: usize) -> usize
    requires { (length b.now ≤ 65536) × Holds path (bits b.now) p }
    ensures { result ≡ end path (bits b.now) p }
{
    let q = skip_string(b, p);
    // the local bit, the count or the level, and a first segment's kind and count
    let y = bits::field(b, q, 27);
    if y < 262144 {
        return q + 9;
    }
    // one segment, which is a name
    if y / 65536 == 4 {
        return q + 27 + 8 * ((y % 65536) as usize);
    }
    let n = y / 262144;
    if n < 256 {
        return skip_row(b, q + 9, n);
    }
    skip_string(b, q + 9)
}

#[derive(Clone, Copy)]
pub enum Literal {
    Null,
    Boolean(bool),
    Unsigned(u64),
    // the number n of -n
    Negative(u64),
    // its string
    String(usize),
}

pub fn literal_at(b: &[u8], p: usize) -> Literal
    requires { (length b.now ≤ 65536) × Holds literal (bits b.now) p }
    ensures { result ≡ literal_view (bits b.now) p }
{
    let q = p + 3;
    match bits::field(b, p, 3) {
        0 => Literal::Null,
        1 => Literal::Boolean(false),
        2 => Literal::Boolean(true),
        3 => Literal::Unsigned(bits::field(b, q, 64)),
        4 => Literal::Negative(18446744073709551615 - bits::field(b, q, 64) + 1),
        _ => Literal::String(q),
    }
}

// The place behind the literal at p.
pub fn skip_literal(b: &[u8], p: usize) -> usize
    requires { (length b.now ≤ 65536) × Holds literal (bits b.now) p }
    ensures { result ≡ end literal (bits b.now) p }
{
    let k = bits::field(b, p, 3);
    let q = p + 3;
    if k <= 2 {
        return q;
    }
    if k <= 4 {
        return q + 64;
    }
    skip_string(b, q)
}

#[derive(Clone, Copy)]
pub enum BlockParam {
    None,
    // the strings
    Single(usize),
    Pair(usize, usize),
}

pub fn block_names_at(b: &[u8], p: usize) -> BlockParam
    requires { (length b.now ≤ 65536) × Holds block_names (bits b.now) p }
    ensures { result ≡ names_view (bits b.now) p }
{
    let q = p + 2;
    match bits::field(b, p, 2) {
        0 => BlockParam::None,
        1 => BlockParam::Single(q),
        _ => BlockParam::Pair(q, skip_string(b, q)),
    }
}

// The place behind the block names at p.
pub fn skip_block_names(b: &[u8], p: usize) -> usize
    requires { (length b.now ≤ 65536) × Holds block_names (bits b.now) p }
    ensures { result ≡ end block_names (bits b.now) p }
{
    let q = p + 2;
    match bits::field(b, p, 2) {
        0 => q,
        1 => skip_string(b, q),
        _ => skip_string(b, skip_string(b, q)),
    }
}

// What may follow a bit: an indent or a body.
pub fn maybe_at(b: &[u8], p: usize) -> Option<usize>
    requires { p ≤ 524288 }
    ensures { result ≡ maybe_view (bits b.now) p }
{
    if bits::field(b, p, 1) == 0 {
        return None;
    }
    Some(p + 1)
}

// The place behind the indent at p.
pub fn skip_indent(b: &[u8], p: usize) -> usize
    requires { (length b.now ≤ 65536) × Holds indent (bits b.now) p }
    ensures { result ≡ end indent (bits b.now) p }
{
    let k = bits::field(b, p, 1);
    let q = p + 1;
    if k == 0 {
        return q;
    }
    skip_string(b, q)
}
