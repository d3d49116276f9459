// Fields of up to 64 bits at any bit of a bundle, the most significant bit first, and packed strings.
// Past the bundle's end every bit is 0, as the definition has it, so a place needs no bound. A width is one of the layout's, at most 64.
// Where a string's end has to fit a usize, it does: a bundle has at most 65,536 bytes.
#![tactic(auto)]

ghost use Rattle.std.specs.Prelude.{◌≡◌, ◌+◌, ◌*◌, ◌^◌, ◌≤◌, ◌<◌, length};
ghost use Rattle.rules.specs.Bytes.{same, before};
ghost use Rattle.rules.specs.Bits.{bits};
ghost use Rattle.rules.specs.Layout.{field};
ghost use Rattle.bits.specs.Fields.{little};
ghost use Rattle.bits.specs.Packed.{bytes_at};

// The byte at k, as the 8 bits that it is.
fn byte_at(s: &[u8], k: usize) -> u64
    requires { k < length s.now }
    ensures { result ≡ field (bits s.now) 8 (8 * k) }
{
    s[k] as u64
}

// The same, or 0 past the end.
fn byte_or_zero(s: &[u8], k: usize) -> u64
    ensures { result ≡ field (bits s.now) 8 (8 * k) }
{
    if k < s.len() { byte_at(s, k) } else { 0 }
}

// The 8 bytes from k on, the least significant first. The compiler makes one load of this row of `<<` and `|`.
fn low_word(s: &[u8], k: usize) -> u64
    requires { k + 8 ≤ length s.now }
    ensures { result ≡ little (bits s.now) 8 (8 * k) }
{
    byte_at(s, k)
        | (byte_at(s, k + 1) << 8)
        | (byte_at(s, k + 2) << 16)
        | (byte_at(s, k + 3) << 24)
        | (byte_at(s, k + 4) << 32)
        | (byte_at(s, k + 5) << 40)
        | (byte_at(s, k + 6) << 48)
        | (byte_at(s, k + 7) << 56)
}

// The 8 bytes from k on. The compiler makes one instruction of the turning round. (Of a row of the bytes in this order it makes one
// load only where all of them are wanted, which a narrow field does not.)
fn word(s: &[u8], k: usize) -> u64
    requires { k + 8 ≤ length s.now }
    ensures { result ≡ field (bits s.now) 64 (8 * k) }
{
    let x = low_word(s, k);
    ((x % 256) << 56)
        | (((x >> 8) % 256) << 48)
        | (((x >> 16) % 256) << 40)
        | (((x >> 24) % 256) << 32)
        | (((x >> 32) % 256) << 24)
        | (((x >> 40) % 256) << 16)
        | (((x >> 48) % 256) << 8)
        | ((x >> 56) % 256)
}

// The n bytes from k on, where at most 8 are left. One load of the last 8 bytes has them all, and a shift brings in the zeros behind.
fn last_bytes(s: &[u8], k: usize, n: usize) -> u64
    requires { (0 < n) × (n ≤ 8) × (8 ≤ length s.now) × (k < length s.now) × (length s.now ≤ k + 8) }
    ensures { result ≡ field (bits s.now) (8 * n) (8 * k) }
{
    let len = s.len();
    (word(s, len - 8) << (64 - 8 * (len - k))) >> (64 - 8 * n)
}

// The n bytes from k on, those past the end as 0. It calls itself, so that the compiler keeps it out of its callers.
fn bytes_or_zero(s: &[u8], k: usize, n: usize) -> u64
    requires { (n ≤ 8) × (k < 2 ^ 61) }
    ensures { result ≡ field (bits s.now) (8 * n) (8 * k) }
{
    if n == 0 {
        return 0;
    }
    let len = s.len();
    if (8 <= len) & ((k < len) & (len <= k + 8)) {
        return last_bytes(s, k, n);
    }
    let i = n - 1;
    bytes_or_zero(s, k, i) * 256 + byte_or_zero(s, k + i)
}

// The same, for what ends near the end of s or behind it. (Where a function passes its slice to a call, the compiler stores the
// slice on the stack when the function begins. This one stands between, so that only the few reads that come here pay for that.)
fn near_end(s: &[u8], k: usize, n: usize) -> u64
    requires { (n ≤ 8) × (k < 2 ^ 61) }
    ensures { result ≡ field (bits s.now) (8 * n) (8 * k) }
{
    bytes_or_zero(s, k, n)
}

// The 8 bytes from k on, wherever they end.
fn word_or_zero(s: &[u8], k: usize) -> u64
    requires { k < 2 ^ 61 }
    ensures { result ≡ field (bits s.now) 64 (8 * k) }
{
    if k + 8 <= s.len() {
        word(s, k)
    } else {
        near_end(s, k, 8)
    }
}

// The 2 bytes from k on, wherever they end.
fn pair_or_zero(s: &[u8], k: usize) -> u64
    requires { k < 2 ^ 61 }
    ensures { result ≡ field (bits s.now) 16 (8 * k) }
{
    if k + 1 < s.len() {
        byte_at(s, k) * 256 + byte_at(s, k + 1)
    } else {
        near_end(s, k, 2)
    }
}

// The 64 bits from p on: 8 bytes, and of the ninth as many bits as p is off. Near the end there is no ninth.
fn window(s: &[u8], p: usize) -> u64
    ensures { result ≡ field (bits s.now) 64 p }
{
    let k = p / 8;
    let off = p % 8;
    if k + 8 < s.len() {
        return (word(s, k) << off) | (byte_at(s, k + 8) >> (8 - off));
    }
    near_end(s, k, 8) << off
}

// The w bits from p on, as a number. Up to 56 of them lie within 8 bytes. (Most calls have a constant width, and then the compiler
// leaves the test out. There are two shifts to the right, since a shift by 64 is none.)
pub fn field(s: &[u8], p: usize, w: usize) -> u64
    requires { w ≤ 64 }
    ensures { result ≡ field (bits s.now) w p }
{
    if 56 < w {
        return window(s, p) >> (64 - w);
    }
    ((word_or_zero(s, p / 8) << (p % 8)) >> 1) >> (63 - w)
}

// The 8 bits from p on: a byte of a packed string. Two bytes hold them.
pub fn byte(s: &[u8], p: usize) -> u8
    ensures { result ≡ field (bits s.now) 8 p }
{
    ((pair_or_zero(s, p / 8) >> (8 - p % 8)) % 256) as u8
}

// Whether the n packed bytes at p are those of t.
pub fn same_bytes(s: &[u8], p: usize, n: usize, t: &[u8]) -> bool
    requires { p + 8 * n < 2 ^ 64 }
    ensures { result ≡ same (bytes_at (bits s.now) p n) t.now }
{
    if n != t.len() {
        return false;
    }
    for (i, &c) in t.iter().enumerate() {
        if byte(s, p + 8 * i) != c {
            return false;
        }
    }
    true
}

// Whether the n packed bytes at p are the m packed bytes at q. As many bytes as one load holds at any bit are compared at once.
pub fn same_at(s: &[u8], p: usize, n: usize, q: usize, m: usize) -> bool
    requires { (p + 8 * n < 2 ^ 64) × (q + 8 * m < 2 ^ 64) }
    ensures { result ≡ same (bytes_at (bits s.now) p n) (bytes_at (bits s.now) q m) }
{
    if n != m {
        return false;
    }
    let mut i: usize = 0;
    while i < n {
        let k = (n - i).min(7);
        if field(s, p + 8 * i, 8 * k) != field(s, q + 8 * i, 8 * k) {
            return false;
        }
        i += k;
    }
    true
}

// Whether the n packed bytes at p come before the m packed bytes at q.
pub fn before_at(s: &[u8], p: usize, n: usize, q: usize, m: usize) -> bool
    requires { (p + 8 * n < 2 ^ 64) × (q + 8 * m < 2 ^ 64) }
    ensures { result ≡ before (bytes_at (bits s.now) p n) (bytes_at (bits s.now) q m) }
{
    for i in 0..n.min(m) {
        let x = byte(s, p + 8 * i);
        let y = byte(s, q + 8 * i);
        if x != y {
            return x < y;
        }
    }
    n < m
}
