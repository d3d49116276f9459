// The parts of a bundle that hold neither a call nor a body.
ghost use Rattle.std.specs.Prelude.{◌≡◌, ◌+◌, ◌*◌, ◌≤◌, ◌<◌, length};
ghost use Rattle.rules.specs.Utf8.{utf8};
ghost use Rattle.rules.specs.Bits.{bits};
ghost use Rattle.rules.specs.Layout.{◌then◌};
ghost use Rattle.rules.specs.Bundle.{string, flag, seg, segs, level, path, below_zero, literal, block_names, indent};
ghost use Rattle.bits.specs.Packed.{bytes_at, number_bytes};
ghost use Rattle.utf8.specs.Machine.{wanted, after as fed};
ghost use Rattle.layout.specs.Walk.{place_by, after, number_at, ahead, marked};
ghost use Rattle.layout.specs.Ascii.{ascii};

// A place that is broken, and the place of the first bit, without the mark. What is below that is broken, too.
pub const BROKEN: usize = 0;

pub const START: usize = 2;

// Of a number of 64 bits in two's complement.
const SIGN: usize = 1 << 63;

// The w bits at p as a number, those past the end as 0.
pub fn number(b: &[u8], p: usize, w: usize) -> usize
    requires { w ≤ 64 }
    ensures { result ≡ number_at (bits b.now) w (place_by p) }
{
    if p < START {
        return 0;
    }
    bits::field(b, p / 2 - 1, w) as usize
}

// The place n bits on.
pub fn ahead(b: &[u8], p: usize, n: usize) -> usize
    requires { length b.now ≤ 65536 }
    ensures { place_by result ≡ ahead (bits b.now) n (place_by p) }
{
    if p < START {
        return BROKEN;
    }
    let end = 8 * b.len();
    if end < n {
        return BROKEN;
    }
    if end - n < p / 2 - 1 {
        return BROKEN;
    }
    p + 2 * n
}

// The same place with the mark set.
pub fn marked(p: usize) -> usize
    ensures { place_by result ≡ marked (place_by p) }
{
    if p < START {
        return BROKEN;
    }
    p - p % 2 + 1
}

// A bit.
pub fn flag(b: &[u8], p: usize) -> usize
    requires { length b.now ≤ 65536 }
    ensures { place_by result ≡ after flag (bits b.now) (place_by p) }
{
    ahead(b, p, 1)
}

// Whether the last 7 bytes of x are all ASCII. The compiler makes one test of these.
fn is_ascii(x: u64) -> bool
    ensures { result ≡ ascii (number_bytes 7 x) }
{
    ((x >> 48) % 256 < 128)
        & ((x >> 40) % 256 < 128)
        & ((x >> 32) % 256 < 128)
        & ((x >> 24) % 256 < 128)
        & ((x >> 16) % 256 < 128)
        & ((x >> 8) % 256 < 128)
        & (x % 256 < 128)
}

// The machine u behind the last k bytes of x, fed one by one.
fn stepped(u: utf8::Utf, x: u64, k: usize) -> utf8::Utf
    requires { k ≤ 7 }
    ensures { wanted result ≡ fed (wanted u) (number_bytes k x) }
{
    let mut v = u;
    for i in (0..k).rev() {
        v = utf8::step(v, ((x >> (8 * i)) % 256) as u8);
    }
    v
}

// The same. Between two characters ASCII is passed at once.
fn fed(u: utf8::Utf, x: u64, k: usize) -> utf8::Utf
    requires { (0 < k) × (k ≤ 7) }
    ensures { wanted result ≡ fed (wanted u) (number_bytes k x) }
{
    if is_ascii(x) {
        if utf8::is_done(u) {
            return utf8::start();
        }
    }
    stepped(u, x, k)
}

// Whether the n bytes from the bit at on are UTF-8. As many bytes as one load holds at any bit are read together.
fn mixed_at(b: &[u8], at: usize, n: usize) -> bool
    requires { (at ≤ 1048576) × (n ≤ 65536) }
    ensures { result ≡ utf8 (bytes_at (bits b.now) at n) }
{
    let mut u = utf8::start();
    let mut i: usize = 0;
    while i < n {
        let k = (n - i).min(7);
        u = fed(u, bits::field(b, at + 8 * i, 8 * k), k);
        i += k;
    }
    utf8::is_done(u)
}

// The same. Most strings are ASCII: they need no machine.
fn utf8_at(b: &[u8], at: usize, n: usize) -> bool
    requires { (at ≤ 524288) × (n ≤ 65536) }
    ensures { result ≡ utf8 (bytes_at (bits b.now) at n) }
{
    let mut i: usize = 0;
    while i < n {
        let k = (n - i).min(7);
        if !is_ascii(bits::field(b, at + 8 * i, 8 * k)) {
            return mixed_at(b, at + 8 * i, n - i);
        }
        i += k;
    }
    true
}

// String: byte count (16), UTF-8 bytes.
pub fn string(b: &[u8], p: usize) -> usize
    requires { length b.now ≤ 65536 }
    ensures { place_by result ≡ after string (bits b.now) (place_by p) }
{
    let n = number(b, p, 16);
    let q = ahead(b, p, 16);
    if q < START {
        return BROKEN;
    }
    if utf8_at(b, q / 2 - 1, n) {
        return ahead(b, q, 8 * n);
    }
    BROKEN
}

// Segment (2): 0 Named string, 1 root, 2 up.
fn segment(b: &[u8], p: usize) -> usize
    requires { length b.now ≤ 65536 }
    ensures { place_by result ≡ after seg (bits b.now) (place_by p) }
{
    let k = number(b, p, 2);
    let q = ahead(b, p, 2);
    match k {
        0 => string(b, q),
        1 | 2 => q,
        _ => BROKEN,
    }
}

// Segment count (8) and segments.
fn segments(b: &[u8], p: usize) -> usize
    requires { length b.now ≤ 65536 }
    ensures { place_by result ≡ after segs (bits b.now) (place_by p) }
{
    let n = number(b, p, 8);
    let mut cur = ahead(b, p, 8);
    for _ in 0..n {
        cur = segment(b, cur);
    }
    cur
}

// Level (8), name.
fn level(b: &[u8], p: usize) -> usize
    requires { length b.now ≤ 65536 }
    ensures { place_by result ≡ after level (bits b.now) (place_by p) }
{
    string(b, ahead(b, p, 8))
}

// Path: raw string, local bit; if 1: level and name; if 0: segments.
pub fn path(b: &[u8], p: usize) -> usize
    requires { length b.now ≤ 65536 }
    ensures { place_by result ≡ after path (bits b.now) (place_by p) }
{
    let raw = string(b, p);
    let k = number(b, raw, 1);
    let q = ahead(b, raw, 1);
    match k {
        0 => segments(b, q),
        1 => level(b, q),
        _ => BROKEN,
    }
}

// A negative number: 64 bits, two's complement, the top bit set.
fn negative(b: &[u8], p: usize) -> usize
    requires { length b.now ≤ 65536 }
    ensures { place_by result ≡ after below_zero (bits b.now) (place_by p) }
{
    if SIGN <= number(b, p, 64) {
        return ahead(b, p, 64);
    }
    BROKEN
}

// Literal (3): 0 null, 1 false, 2 true, 3 unsigned (64), 4 negative, 5 string.
pub fn literal(b: &[u8], p: usize) -> usize
    requires { length b.now ≤ 65536 }
    ensures { place_by result ≡ after literal (bits b.now) (place_by p) }
{
    let k = number(b, p, 3);
    let q = ahead(b, p, 3);
    match k {
        0..=2 => q,
        3 => ahead(b, q, 64),
        4 => negative(b, q),
        5 => string(b, q),
        _ => BROKEN,
    }
}

// Block names (2): 0 none, 1 one string, 2 two.
pub fn block_names(b: &[u8], p: usize) -> usize
    requires { length b.now ≤ 65536 }
    ensures { place_by result ≡ after block_names (bits b.now) (place_by p) }
{
    let k = number(b, p, 2);
    let q = ahead(b, p, 2);
    match k {
        0 => q,
        1 => string(b, q),
        2 => string(b, string(b, q)),
        _ => BROKEN,
    }
}

// The indent bit, the indent if it is 1, and the `indent_before_write` bit: the end of decorators and partials.
pub fn tail(b: &[u8], p: usize) -> usize
    requires { length b.now ≤ 65536 }
    ensures { place_by result ≡ after (indent then flag) (bits b.now) (place_by p) }
{
    let k = number(b, p, 1);
    let q = ahead(b, p, 1);
    match k {
        0 => flag(b, q),
        1 => flag(b, string(b, q)),
        _ => BROKEN,
    }
}
