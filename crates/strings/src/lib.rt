// Strings of RFC 8259, section 7: where one ends, and how long each of its characters is.
// A length 0 says that no character stands there, a place 0 that no string does.
// Texts are checked to be of 65,536 bytes at most before they are scanned, so the bounds that are asked of places are met by every caller.
#![tactic(auto)]

ghost use Rattle.std.specs.Prelude.{◌≡◌, ◌+◌, ◌≤◌, length};
ghost use Rattle.rules.specs.Scan.{is_short, hex_digit, hex_four, is_low, unicode_length, escape_length, char_length, string_end};
ghost use Rattle.strings.specs.Plain.{is_plain, plain_end, plain_string_end};

use scan::byte;

// A character that stands for itself and is one byte long. (Tests that do not branch: this is the reader's inmost loop.)
fn is_plain(c: u8) -> bool
    ensures { result ≡ is_plain c }
{
    ((32 <= c) & (c < 128)) & ((c != 34) & (c != 92))
}

// The first place from i on that has no such character.
fn plain_end(s: &[u8], i: usize) -> usize
    ensures { result ≡ plain_end s.now i }
{
    for j in i..s.len() {
        if !is_plain(s[j]) {
            return j;
        }
    }
    i.max(s.len())
}

// The place behind the string of such characters only whose first quote stands before i; 0 for any other.
pub fn plain_string_end(s: &[u8], i: usize) -> usize
    ensures { result ≡ plain_string_end s.now i }
{
    for j in i..s.len() {
        let c = s[j];
        if c == 34 {
            return j + 1;
        }
        if !is_plain(c) {
            return 0;
        }
    }
    0
}

// The letters behind a backslash that stand for one byte.
#[tactic(auto, unfolding(rules::specs::Scan::is_short))]
fn is_short(e: u8) -> bool
    ensures { result ≡ is_short e }
{
    matches!(e, b'"' | b'\\' | b'/' | b'b' | b'f' | b'n' | b'r' | b't')
}

// The value of a hexadecimal digit, 16 for none.
#[tactic(auto, unfolding(rules::specs::Scan::hex_digit))]
fn hex_digit(c: u8) -> u32
    ensures { (result ≡ hex_digit c) × (result ≤ 16) }
{
    match c {
        b'0'..=b'9' => (c - b'0') as u32,
        b'A'..=b'F' => (c - b'A' + 10) as u32,
        b'a'..=b'f' => (c - b'a' + 10) as u32,
        _ => 16,
    }
}

// The value of four hexadecimal digits at i, 65536 for none.
pub fn hex_four(s: &[u8], i: usize) -> u32
    requires { i ≤ 65600 }
    ensures { (result ≡ hex_four s.now i) × (result ≤ 65536) }
{
    let a = hex_digit(byte(s, i));
    if a == 16 {
        return 65536;
    }
    let b = hex_digit(byte(s, i + 1));
    if b == 16 {
        return 65536;
    }
    let c = hex_digit(byte(s, i + 2));
    if c == 16 {
        return 65536;
    }
    let d = hex_digit(byte(s, i + 3));
    if d == 16 {
        return 65536;
    }
    a * 4096 + b * 256 + c * 16 + d
}

// Whether the second half of a surrogate pair is escaped at i.
fn is_low(s: &[u8], i: usize) -> bool
    requires { i ≤ 65590 }
    ensures { result ≡ is_low s.now i }
{
    if byte(s, i) != 92 {
        return false;
    }
    if byte(s, i + 1) != 117 {
        return false;
    }
    let v = hex_four(s, i + 2);
    (56320 <= v) & (v <= 57343)
}

// The length of the escape `\u....` at i: 6, or 12 for a pair.
pub fn unicode_length(s: &[u8], i: usize) -> usize
    requires { i ≤ 65550 }
    ensures { result ≡ unicode_length s.now i }
{
    let v = hex_four(s, i + 2);
    if v < 55296 {
        return 6;
    }
    if v < 56320 {
        if is_low(s, i + 6) {
            return 12;
        }
        return 0;
    }
    if v < 57344 {
        return 0;
    }
    if v < 65536 {
        return 6;
    }
    0
}

// The length of the escape at i.
pub fn escape_length(s: &[u8], i: usize) -> usize
    requires { i ≤ 65550 }
    ensures { result ≡ escape_length s.now i }
{
    let e = byte(s, i + 1);
    if is_short(e) {
        return 2;
    }
    if e == 117 {
        return unicode_length(s, i);
    }
    0
}

// The length of one character, which is no quote.
pub fn char_length(s: &[u8], i: usize) -> usize
    requires { i ≤ 65550 }
    ensures { result ≡ char_length s.now i }
{
    let c = byte(s, i);
    if c < 32 {
        return 0;
    }
    if c == 92 {
        return escape_length(s, i);
    }
    utf8::utf8_length(s, i)
}

// The place behind the string whose first quote stands before i, of any characters.
fn chars_end(s: &[u8], i: usize) -> usize
    requires { (i ≤ length s.now + 1) × (length s.now ≤ 65536) }
    ensures { result ≡ string_end s.now i }
{
    let mut j = i;
    loop {
        let k = plain_end(s, j);
        if byte(s, k) == 34 {
            return k + 1;
        }
        let n = char_length(s, k);
        if n == 0 {
            return 0;
        }
        j = k + n;
    }
}

// The place behind the string whose first quote stands before i. (Most strings are plain.)
pub fn string_end(s: &[u8], i: usize) -> usize
    requires { (i ≤ length s.now + 1) × (length s.now ≤ 65536) }
    ensures { result ≡ string_end s.now i }
{
    let e = plain_string_end(s, i);
    if e != 0 {
        return e;
    }
    chars_end(s, i)
}
