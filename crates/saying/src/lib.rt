// What the strings of a text say: their decoded bytes, one by one and without a copy.
// A string is known by the place of its first quote. Plans are of 65,536 bytes at most, so every caller meets the bounds asked of places.
#![tactic(auto)]

ghost use Rattle.std.specs.Prelude.{◌≡◌, ◌+◌, ◌*◌, ◌≤◌, ◌<◌, length, get_or, ◌∷◌, []};
ghost use Rattle.rules.specs.Bytes.{same};
ghost use Rattle.rules.specs.Bits.{bits};
ghost use Rattle.rules.specs.Layout.{field};
ghost use Rattle.rules.specs.Order.{cmp};
ghost use Rattle.rules.specs.Scan.{encoded, code_point, escaped_byte, says, saying};
ghost use Rattle.saying.specs.Said.{remaining, Inside, Stepped, is_own, own_end, Short};
ghost use Rattle.bits.specs.Packed.{bytes_at};
ghost use Rattle.saying.specs.Compared.{ordering, name_bytes, NameFits};
ghost use Rattle.saying.specs.Characters.{Charred};

use scan::byte;
use std::cmp::Ordering;

// As long as `\u....\u....`, a code point by two surrogates
const PAIR: usize = 12;

// The first high and the first low surrogate, how many there are of each, and the first code point that they stand for
const HIGH_SURROGATE: u32 = 55296;

const LOW_SURROGATE: u32 = 56320;

const SURROGATES: u32 = 1024;

const BY_SURROGATES: u32 = 65536;

// The first code points of two, three and four bytes in UTF-8
const OF_TWO: u32 = 1 << 7;

const OF_THREE: u32 = 1 << 11;

const OF_FOUR: u32 = 1 << 16;

// What is added to the bits in their first byte, and in each byte behind it, which has six
const LEADS_TWO: u32 = 192;

const LEADS_THREE: u32 = 224;

const LEADS_FOUR: u32 = 240;

const FOLLOWS: u32 = 128;

const SIX_BITS: u32 = 1 << 6;

const TWELVE_BITS: u32 = 1 << 12;

const EIGHTEEN_BITS: u32 = 1 << 18;

// The first bytes of a packed name are read at once: how many, their bits, and how far to the right the first one stands
const HEAD: usize = 7;

const HEAD_BITS: usize = 8 * HEAD;

const TO_FIRST: usize = 8 * (HEAD - 1);

// What a byte may be
const BYTES: u64 = 256;

// For a name that is not short, instead of its bytes as one number
const NOT_SHORT: u64 = 0;

// A place in a string: the byte k of what the text says at `at`.
#[derive(Clone, Copy)]
pub struct Cursor {
    pub at: usize,
    pub k: usize,
}

// Where the bytes of a name are: they are all of the lent ones; or what the string of the text says that has its first quote there;
// or so many bytes, the second number, packed into the lent ones from the bit place on that is the first.
#[derive(Clone, Copy)]
pub enum Name {
    Lent,
    Quoted(usize),
    Packed(usize, usize),
}

// The byte k of four, 0 past the end.
fn nth(k: usize, a: u8, b: u8, c: u8, d: u8) -> u8
    ensures { result ≡ get_or (a ∷ b ∷ c ∷ d ∷ []) k 0 }
{
    match k {
        0 => a,
        1 => b,
        2 => c,
        3 => d,
        _ => 0,
    }
}

// The code point that `\u....` at i stands for.
fn code_point(s: &[u8], i: usize) -> u32
    requires { i ≤ 65550 }
    ensures { (result ≡ code_point s.now i) × (result < 1114112) }
{
    let v = strings::hex_four(s, i + 2);
    if strings::unicode_length(s, i) == PAIR {
        let w = strings::hex_four(s, i + 8);
        return BY_SURROGATES + (v - HIGH_SURROGATE) * SURROGATES + (w - LOW_SURROGATE);
    }
    v
}

// How many bytes a code point has in UTF-8.
fn encoded_count(p: u32) -> usize
    ensures { result ≡ length (encoded p) }
{
    if p < OF_TWO {
        return 1;
    }
    if p < OF_THREE {
        return 2;
    }
    if p < OF_FOUR {
        return 3;
    }
    4
}

// The byte k of a code point's UTF-8, 0 past the end.
fn encoded_byte(p: u32, k: usize) -> u8
    requires { p < 1114112 }
    ensures { result ≡ get_or (encoded p) k 0 }
{
    if p < OF_TWO {
        return nth(k, p as u8, 0, 0, 0);
    }
    let last = (FOLLOWS + p % SIX_BITS) as u8;
    if p < OF_THREE {
        return nth(k, (LEADS_TWO + p / SIX_BITS) as u8, last, 0, 0);
    }
    let third = (FOLLOWS + p / SIX_BITS % SIX_BITS) as u8;
    if p < OF_FOUR {
        return nth(k, (LEADS_THREE + p / TWELVE_BITS) as u8, third, last, 0);
    }
    nth(
        k,
        (LEADS_FOUR + p / EIGHTEEN_BITS) as u8,
        (FOLLOWS + p / TWELVE_BITS % SIX_BITS) as u8,
        third,
        last,
    )
}

// The byte that a letter behind a backslash stands for.
#[tactic(auto, unfolding(rules::specs::Scan::escaped_byte))]
fn escaped_byte(e: u8) -> u8
    ensures { result ≡ escaped_byte e }
{
    match e {
        b'b' => b'\x08',
        b'f' => b'\x0c',
        b'n' => b'\n',
        b'r' => b'\r',
        b't' => b'\t',
        _ => e,
    }
}

// The byte k of what the text says at i, 0 past the end.
fn said_byte(s: &[u8], i: usize, k: usize) -> u8
    requires { i ≤ 65550 }
    ensures { result ≡ get_or (says s.now i) k 0 }
{
    let c = byte(s, i);
    if c != b'\\' {
        return nth(k, c, 0, 0, 0);
    }
    let e = byte(s, i + 1);
    if e != b'u' {
        return nth(k, escaped_byte(e), 0, 0, 0);
    }
    encoded_byte(code_point(s, i), k)
}

// How many bytes the text says at i.
fn said_count(s: &[u8], i: usize) -> usize
    requires { i ≤ 65550 }
    ensures { result ≡ length (says s.now i) }
{
    if byte(s, i) != b'\\' {
        return 1;
    }
    if byte(s, i + 1) != b'u' {
        return 1;
    }
    encoded_count(code_point(s, i))
}

// The byte at a place of a string, and the place behind it; None at its end.
pub fn next_byte(s: &[u8], at: usize, k: usize) -> Option<(u8, Cursor)>
    requires { (length s.now ≤ 65536) × Inside s.now at k }
    ensures { Stepped s.now (remaining s.now at k) result }
{
    let c = byte(s, at);
    if c == b'"' {
        return None;
    }
    if c < b' ' {
        return None;
    }
    if c != b'\\' {
        return Some((c, Cursor { at: at + 1, k: 0 }));
    }
    let n = strings::escape_length(s, at);
    if n == 0 {
        return None;
    }
    let b = said_byte(s, at, k);
    let m = said_count(s, at);
    if k + 1 < m {
        return Some((b, Cursor { at: at, k: k + 1 }));
    }
    Some((b, Cursor { at: at + n, k: 0 }))
}

// Whether a byte stands for itself. One test says it of a small letter.
fn is_own(c: u8) -> bool
    ensures { result ≡ is_own c }
{
    if b'\\' < c {
        return true;
    }
    (b' ' <= c) & ((c != b'"') & (c != b'\\'))
}

// The first place from i on that has no such byte: what is said up to there are the bytes of the text.
pub fn own_end(s: &[u8], i: usize) -> usize
    ensures { result ≡ own_end s.now i }
{
    for j in i..s.len() {
        if !is_own(s[j]) {
            return j;
        }
    }
    i.max(s.len())
}

// The character at a place of a string: how many bytes it has, and where the next one starts; None at the string's end.
pub fn next_char(s: &[u8], at: usize) -> Option<(usize, usize)>
    requires { (length s.now ≤ 65536) × (at ≤ 65548) }
    ensures { Charred s.now at result }
{
    let c = byte(s, at);
    if c == b'"' {
        return None;
    }
    let n = strings::char_length(s, at);
    if n == 0 {
        return None;
    }
    if c == b'\\' {
        return Some((said_count(s, at), at + n));
    }
    Some((n, at + n))
}

// Whether the string at i says the bytes w.
fn says_bytes(s: &[u8], i: usize, w: &[u8]) -> bool
    requires { (length s.now ≤ 65536) × (i ≤ 65536) }
    ensures { result ≡ same (saying s.now i) w.now }
{
    let mut at = i + 1;
    let mut k: usize = 0;
    for b in w {
        let Some((said, c)) = next_byte(s, at, k) else {
            return false; // the string ends first
        };
        if *b != said {
            return false;
        }
        at = c.at;
        k = c.k;
    }
    next_byte(s, at, k).is_none()
}

// The order of what the strings at i and j say.
pub fn compare(s: &[u8], i: usize, j: usize) -> Ordering
    requires { (length s.now ≤ 65536) × (i ≤ 65536) × (j ≤ 65536) }
    ensures { ordering result ≡ cmp (saying s.now i) (saying s.now j) }
{
    let mut at = i + 1;
    let mut k: usize = 0;
    let mut to = j + 1;
    let mut m: usize = 0;
    while let Some((a, c)) = next_byte(s, at, k) {
        let Some((b, d)) = next_byte(s, to, m) else {
            return Ordering::Greater;
        };
        if a != b {
            return a.cmp(&b);
        }
        at = c.at;
        k = c.k;
        to = d.at;
        m = d.k;
    }
    match next_byte(s, to, m) {
        Some((_, _)) => Ordering::Less,
        None => Ordering::Equal,
    }
}

// Whether a string says from a place on the n bytes that are packed into w from the bit place p on, byte by byte.
fn packed_steps(s: &[u8], i: usize, j: usize, w: &[u8], p: usize, n: usize) -> bool
    requires { (length s.now ≤ 65536) × Inside s.now i j × (p + 8 * n < 18446744073709551616) }
    ensures { result ≡ same (remaining s.now i j) (bytes_at (bits w.now) p n) }
{
    let mut at = i;
    let mut k = j;
    for m in 0..n {
        let Some((b, c)) = next_byte(s, at, k) else {
            return false;
        };
        if bits::byte(w, p + 8 * m) != b {
            return false;
        }
        at = c.at;
        k = c.k;
    }
    next_byte(s, at, k).is_none()
}

// The same from where a character starts. Bytes that stand for themselves are compared as they stand.
fn packed_from(s: &[u8], i: usize, w: &[u8], p: usize, n: usize) -> bool
    requires { (length s.now ≤ 65536) × (i ≤ 65548) × (p + 8 * n < 18446744073709551616) }
    ensures { result ≡ same (remaining s.now i 0) (bytes_at (bits w.now) p n) }
{
    for k in 0..n {
        let c = byte(s, i + k);
        if !is_own(c) {
            return packed_steps(s, i + k, 0, w, p + 8 * k, n - k);
        }
        if bits::byte(w, p + 8 * k) != c {
            return false;
        }
    }
    if byte(s, i + n) == b'"' {
        return true;
    }
    packed_steps(s, i + n, 0, w, p + 8 * n, 0)
}

// The same from any place on.
pub fn remaining_packed(s: &[u8], i: usize, j: usize, w: &[u8], p: usize, n: usize) -> bool
    requires { (length s.now ≤ 65536) × Inside s.now i j × (p + 8 * n < 18446744073709551616) }
    ensures { result ≡ same (remaining s.now i j) (bytes_at (bits w.now) p n) }
{
    if j == 0 {
        return packed_from(s, i, w, p, n);
    }
    packed_steps(s, i, j, w, p, n)
}

// The same from where a character starts. The number x is the first seven packed bytes, so that most names are compared without another read.
fn packed_headed(s: &[u8], i: usize, w: &[u8], p: usize, n: usize, x: u64) -> bool
    requires { (length s.now ≤ 65536)
        × (i ≤ 65548)
        × (p + 8 * n < 18446744073709551616)
        × (x ≡ field (bits w.now) 56 p) }
    ensures { result ≡ same (remaining s.now i 0) (bytes_at (bits w.now) p n) }
{
    let m = n.min(HEAD);
    for k in 0..m {
        let c = byte(s, i + k);
        if !is_own(c) {
            return packed_from(s, i + k, w, p + 8 * k, n - k);
        }
        if ((x >> (TO_FIRST - 8 * k)) % BYTES) as u8 != c {
            return false;
        }
    }
    let left = n - m;
    if byte(s, i + m) == b'"' {
        return left == 0;
    }
    packed_from(s, i + m, w, p + 8 * m, left)
}

// Whether the string at i says the n bytes that are packed into w from the bit place p on. The number x is the first seven of them: a caller
// reads it once for many strings. Most names differ in their first byte.
pub fn says_headed(s: &[u8], i: usize, w: &[u8], p: usize, n: usize, x: u64) -> bool
    requires { (length s.now ≤ 65536)
        × (i ≤ 65536)
        × (p + 8 * n < 18446744073709551616)
        × (x ≡ field (bits w.now) 56 p) }
    ensures { result ≡ same (saying s.now i) (bytes_at (bits w.now) p n) }
{
    let c = byte(s, i + 1);
    let first = ((x >> TO_FIRST) % BYTES) as u8;
    if first != c {
        if is_own(c) {
            return false;
        }
    }
    packed_headed(s, i + 1, w, p, n, x)
}

// The same as packed_headed. (Where a function passes its slices to a call, the compiler stores them on the stack when the function begins. This one stands
// between, so that only the few names that come here pay for that.)
fn headed_on(s: &[u8], i: usize, w: &[u8], p: usize, n: usize, x: u64) -> bool
    requires { (length s.now ≤ 65536)
        × (i ≤ 65548)
        × (p + 8 * n < 18446744073709551616)
        × (x ≡ field (bits w.now) 56 p) }
    ensures { result ≡ same (remaining s.now i 0) (bytes_at (bits w.now) p n) }
{
    packed_headed(s, i, w, p, n, x)
}

// The same as says_headed, for a caller that has a short name as one number v: its bytes, at most seven that stand for themselves, and a quote. It is compared with
// the text at once. `NOT_SHORT` for any other name.
pub fn says_short(s: &[u8], i: usize, w: &[u8], p: usize, n: usize, x: u64, v: u64) -> bool
    requires { (length s.now ≤ 65536)
        × (i ≤ 65536)
        × (p + 8 * n < 18446744073709551616)
        × (x ≡ field (bits w.now) 56 p)
        × Short x n v }
    ensures { result ≡ same (saying s.now i) (bytes_at (bits w.now) p n) }
{
    let d = byte(s, i + 1);
    let head = ((x >> TO_FIRST) % BYTES) as u8;
    if head != d {
        if is_own(d) {
            return false;
        }
    }
    if v != NOT_SHORT {
        let y = bits::field(s, 8 * (i + 1), 64);
        if y >> (HEAD_BITS - 8 * n) == v {
            return true;
        }
    }
    headed_on(s, i + 1, w, p, n, x)
}

// The same for one string.
fn says_packed(s: &[u8], i: usize, w: &[u8], p: usize, n: usize) -> bool
    requires { (length s.now ≤ 65536) × (i ≤ 65536) × (p + 8 * n < 18446744073709551616) }
    ensures { result ≡ same (saying s.now i) (bytes_at (bits w.now) p n) }
{
    says_headed(s, i, w, p, n, bits::field(w, p, HEAD_BITS))
}

// Whether the strings at i and j say the same.
fn is_same(s: &[u8], i: usize, j: usize) -> bool
    requires { (length s.now ≤ 65536) × (i ≤ 65536) × (j ≤ 65536) }
    ensures { result ≡ same (saying s.now i) (saying s.now j) }
{
    compare(s, i, j).is_eq()
}

// Whether the string at i says a name.
pub fn says(s: &[u8], i: usize, w: &[u8], named: Name) -> bool
    requires { (length s.now ≤ 65536) × (i ≤ 65536) × NameFits named }
    ensures { result ≡ same (saying s.now i) (name_bytes s.now w.now named) }
{
    match named {
        Name::Lent => says_bytes(s, i, w),
        Name::Quoted(q) => is_same(s, i, q),
        Name::Packed(p, n) => says_packed(s, i, w, p, n),
    }
}
