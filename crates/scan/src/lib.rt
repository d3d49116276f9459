// RFC 8259 below the level of a value, without strings: white space, words and numbers.
// A text is read at a place. The answer is the place behind what was read, or 0 where nothing such stands: no reading ends at 0.
// Texts are checked to be of 65,536 bytes at most before they are scanned, so the bounds that are asked of places are met by every caller.
#![tactic(auto)]

ghost use Rattle.std.specs.Prelude.{◌≡◌, ◌+◌, ◌-◌, ◌≤◌, ◌<◌, length};
ghost use Rattle.rules.specs.Bytes.{byte_at};
ghost use Rattle.rules.specs.Scan.{is_space, spaces_end, word_end, is_digit, digits_end, some_digits_end, minus_end, whole_end};
ghost use Rattle.rules.specs.Scan.{fraction_end, sign_end, exponent_end, onward, number_end, decimal_value, slice, outside};
ghost use Rattle.rules.specs.Plan.{refused_at};
ghost use Rattle.scan.specs.Sized.{sized};
ghost use Rattle.scan.specs.Short.{plain_number_end};

// The byte at i, or 0 past the end.
pub fn byte(s: &[u8], i: usize) -> u8
    ensures { result ≡ byte_at s.now i }
{
    if i < s.len() { s[i] } else { 0 }
}

// White space: blank, line feed, carriage return, tab.
fn is_space(c: u8) -> bool
    ensures { result ≡ is_space c }
{
    (c == 32) | ((c == 10) | ((c == 13) | (c == 9)))
}

// The first place from i on that is no white space, byte by byte.
fn spaces_on(s: &[u8], i: usize) -> usize
    ensures { result ≡ spaces_end s.now i }
{
    for j in i..s.len() {
        if !is_space(s[j]) {
            return j;
        }
    }
    i.max(s.len())
}

// The first place from i on that is no white space. (Most often that is i itself, which one test shows.)
pub fn spaces_end(s: &[u8], i: usize) -> usize
    ensures { result ≡ spaces_end s.now i }
{
    if 32 < byte(s, i) {
        return i;
    }
    spaces_on(s, i)
}

// The place behind the word w at i.
pub fn word_end(w: &[u8], s: &[u8], i: usize) -> usize
    requires { (i ≤ 65536) × (length w.now ≤ 8) }
    ensures { result ≡ word_end w.now s.now i }
{
    for k in 0..w.len() {
        if byte(s, i + k) != w[k] {
            return 0;
        }
    }
    i + w.len()
}

fn is_digit(c: u8) -> bool
    ensures { result ≡ is_digit c }
{
    (48 <= c) & (c <= 57)
}

// The first place from i on that is no digit.
fn digits_end(s: &[u8], i: usize) -> usize
    ensures { result ≡ digits_end s.now i }
{
    for j in i..s.len() {
        if !is_digit(s[j]) {
            return j;
        }
    }
    i.max(s.len())
}

// The place behind one digit or more at i.
fn some_digits_end(s: &[u8], i: usize) -> usize
    requires { i ≤ 65540 }
    ensures { result ≡ some_digits_end s.now i }
{
    if is_digit(byte(s, i)) {
        return digits_end(s, i + 1);
    }
    0
}

// The place behind a minus at i, or i.
pub fn minus_end(s: &[u8], i: usize) -> usize
    requires { i ≤ 65536 }
    ensures { result ≡ minus_end s.now i }
{
    if byte(s, i) != 45 {
        return i;
    }
    i + 1
}

// The place behind the whole part of a number, whose sign stands before i.
pub fn whole_end(s: &[u8], i: usize) -> usize
    requires { i ≤ 65537 }
    ensures { result ≡ whole_end s.now i }
{
    if byte(s, i) == 48 {
        return i + 1;
    }
    some_digits_end(s, i)
}

// The place behind a point and digits at i, or i.
fn fraction_end(s: &[u8], i: usize) -> usize
    requires { i ≤ 65536 }
    ensures { result ≡ fraction_end s.now i }
{
    if byte(s, i) == 46 {
        return some_digits_end(s, i + 1);
    }
    i
}

// The place behind a sign at i, or i.
fn sign_end(s: &[u8], i: usize) -> usize
    requires { i ≤ 65537 }
    ensures { result ≡ sign_end s.now i }
{
    let c = byte(s, i);
    if (c == 43) | (c == 45) {
        return i + 1;
    }
    i
}

// The place behind an exponent at i, or i.
fn exponent_end(s: &[u8], i: usize) -> usize
    requires { i ≤ 65536 }
    ensures { result ≡ exponent_end s.now i }
{
    let c = byte(s, i);
    if (c == 101) | (c == 69) {
        return some_digits_end(s, sign_end(s, i + 1));
    }
    i
}

// The place behind a number whose whole part ends at w, 0 for none.
fn tail_end(s: &[u8], w: usize) -> usize
    requires { (w ≤ length s.now) × (length s.now ≤ 65536) }
    ensures { result ≡ onward (exponent_end s.now) (onward (fraction_end s.now) w) }
{
    if w == 0 {
        return 0;
    }
    let f = fraction_end(s, w);
    if f == 0 {
        return 0;
    }
    exponent_end(s, f)
}

// The place behind the number at i.
pub fn number_end(s: &[u8], i: usize) -> usize
    requires { (i ≤ length s.now) × (length s.now ≤ 65536) }
    ensures { result ≡ number_end s.now i }
{
    tail_end(s, whole_end(s, minus_end(s, i)))
}

// The place behind a number of one to eighteen digits at i and nothing else; 0 for any other value. No such number is refused.
pub fn plain_number_end(s: &[u8], i: usize) -> usize
    requires { (i ≤ length s.now) × (length s.now ≤ 65536) }
    ensures { result ≡ plain_number_end s.now i }
{
    let w = whole_end(s, i);
    if w == 0 {
        return 0;
    }
    let c = byte(s, w);
    if (c == 46) | ((c == 101) | ((c == 69) | (i + 18 < w))) {
        return 0;
    }
    w
}

// What a digit stands for.
fn digit_value(c: u8) -> u64
    ensures { (result ≡ c - 48) × (result < 256) }
{
    if c < 48 {
        return 0;
    }
    (c - 48) as u64
}

// The value of the digits from i up to e; None where it takes more than 64 bits.
pub fn decimal_value(s: &[u8], i: usize, e: usize) -> Option<u64>
    requires { e ≤ length s.now }
    ensures { result ≡ sized (decimal_value 0 (slice s.now i e)) }
{
    let mut n: u64 = 0;
    for k in i..e {
        let v = digit_value(s[k]);
        if (18446744073709551615 - v) / 10 < n {
            return None;
        }
        n = n * 10 + v;
    }
    Some(n)
}

// Whether the number at i is none of the integers. (Eighteen digits always fit.)
fn is_outside(s: &[u8], i: usize) -> bool
    requires { (i ≤ length s.now) × (length s.now ≤ 65536) }
    ensures { result ≡ outside s.now i }
{
    let d = minus_end(s, i);
    let w = whole_end(s, d);
    if w != tail_end(s, w) {
        return true;
    }
    let c = byte(s, i);
    if (c != 45) & (w <= d + 18) {
        return false;
    }
    let Some(n) = decimal_value(s, d, w) else {
        return true;
    };
    if c == 45 {
        if n == 0 {
            return true;
        }
        return 9223372036854775808 < n;
    }
    false
}

// 1 for a number that is none of the integers, else 0.
pub fn refused_at(s: &[u8], i: usize) -> usize
    requires { (i ≤ length s.now) × (length s.now ≤ 65536) }
    ensures { result ≡ refused_at s.now i }
{
    let c = byte(s, i);
    if (c == 45) | is_digit(c) {
        if is_outside(s, i) {
            return 1;
        }
    }
    0
}
