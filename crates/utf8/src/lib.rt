// UTF-8 (RFC 3629): a machine that is fed one byte at a time, so that text of any source is checked without a copy;
// and, over lent bytes, the whole text and the character at a place.
#![tactic(auto)]

ghost use Rattle.std.specs.Prelude.{◌≡◌, ◌<◌};
ghost use Rattle.rules.specs.Bytes.{byte_at, between};
ghost use Rattle.rules.specs.Utf8.{lead, more, done, utf8, utf8_length};
ghost use Rattle.utf8.specs.Machine.{wanted, begun};

// What is still wanted: this many bytes of a character, the next from the first bound to the second.
#[derive(Clone, Copy)]
pub enum Utf {
    Wants(u8, u8, u8),
    Bad,
}

// What is wanted behind a first byte: Bad where no character starts with it. (Most bytes are told by the first tests.
// One match over all of them becomes a table of jumps, which costs the check of a bundle a third more time where texts
// have many characters of three bytes.)
fn lead(c: u8) -> Utf
    ensures { wanted result ≡ lead c }
{
    if c < 128 {
        return Utf::Wants(0, 128, 191);
    }
    if c < 194 {
        return Utf::Bad;
    }
    if c < 224 {
        return Utf::Wants(1, 128, 191);
    }
    match c {
        224 => Utf::Wants(2, 160, 191),
        237 => Utf::Wants(2, 128, 159),
        _ if c < 240 => Utf::Wants(2, 128, 191),
        240 => Utf::Wants(3, 144, 191),
        _ if c < 244 => Utf::Wants(3, 128, 191),
        244 => Utf::Wants(3, 128, 143),
        _ => Utf::Bad,
    }
}

// The machine before the first byte.
pub fn start() -> Utf
    ensures { wanted result ≡ begun }
{
    Utf::Wants(0, 128, 191)
}

// One byte more.
pub fn step(u: Utf, c: u8) -> Utf
    ensures { wanted result ≡ more (wanted u) c }
{
    match u {
        Utf::Wants(0, ..) => lead(c),
        Utf::Wants(left, low, high) if low <= c && c <= high => Utf::Wants(left - 1, 128, 191),
        _ => Utf::Bad,
    }
}

// Whether the bytes fed so far are whole characters, or none.
pub fn is_done(u: Utf) -> bool
    ensures { result ≡ done (wanted u) }
{
    matches!(u, Utf::Wants(0, ..))
}

// Whether a byte from low to high stands at i. Past the end the rules read a zero, which no low is.
fn stands(s: &[u8], i: usize, low: u8, high: u8) -> bool
    requires { 0 < low }
    ensures { result ≡ between low high (byte_at s.now i) }
{
    i < s.len() && low <= s[i] && s[i] <= high
}

// The length of the character at i, from 1 to 4; 0 where none stands, and past the end.
pub fn utf8_length(s: &[u8], i: usize) -> usize
    ensures { result ≡ utf8_length s.now i }
{
    if s.len() <= i {
        return 0;
    }
    let Utf::Wants(left, low, high) = lead(s[i]) else {
        return 0;
    };
    if left == 0 {
        return 1;
    }
    if !stands(s, i + 1, low, high) {
        return 0;
    }
    if left == 1 {
        return 2;
    }
    if !stands(s, i + 2, 128, 191) {
        return 0;
    }
    if left == 2 {
        return 3;
    }
    if !stands(s, i + 3, 128, 191) {
        return 0;
    }
    4
}

// Whether s is UTF-8: a run of whole characters, and nothing else.
pub fn is_utf8(s: &[u8]) -> bool
    ensures { result ≡ utf8 s.now }
{
    let mut rest = s;
    while !rest.is_empty() {
        let n = utf8_length(rest, 0);
        if n == 0 {
            return false;
        }
        rest = &rest[n..];
    }
    true
}
