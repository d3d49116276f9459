// Whole numbers in decimal: the digits of any u64, into a lent slice or one by one, and `parse::<usize>`
// as a machine that is fed one byte at a time.
#![tactic(auto)]

ghost use Rattle.std.specs.Prelude.{◌≡◌, ◌+◌, ◌/◌, ◌%◌, ◌^◌, ◌<◌, length};
ghost use Rattle.rules.specs.Bytes.{digits, byte_at};
ghost use Rattle.rules.specs.Context.{parse_usize};
ghost use Rattle.decimal.specs.Place.{put, behind};
ghost use Rattle.decimal.specs.Parsing.{with_digit, fed, value, parsed};

// The powers of ten that a u64 can hold.
const POWERS: [u64; 20] = [
    1,
    10,
    100,
    1000,
    10000,
    100000,
    1000000,
    10000000,
    100000000,
    1000000000,
    10000000000,
    100000000000,
    1000000000000,
    10000000000000,
    100000000000000,
    1000000000000000,
    10000000000000000,
    100000000000000000,
    1000000000000000000,
    10000000000000000000,
];

// How many digits n has.
pub fn digit_count(n: u64) -> usize
    ensures { result ≡ length (digits n) }
{
    for k in 1..20 {
        if n < POWERS[k] {
            return k;
        }
    }
    20
}

// The digit of n that k digits follow, as a character; `0` in front of the number.
fn place(n: u64, k: usize) -> u8
    ensures { result ≡ 48 + n / 10 ^ k % 10 }
{
    if 20 <= k {
        return b'0';
    }
    b'0' + (n / POWERS[k] % 10) as u8
}

// The i-th digit of n, the most significant first; 0 past the last.
pub fn digit(n: u64, i: usize) -> u8
    ensures { result ≡ byte_at (digits n) i }
{
    let count = digit_count(n);
    if count <= i {
        return 0;
    }
    place(n, count - 1 - i)
}

// The digits of n from `at` on, and the place behind them. Where they do not fit nothing is written,
// and the place is `at` itself: digits are never none, so a caller tells the two apart.
pub fn write_digits(out: &mut [u8], at: usize, n: u64) -> usize
    ensures { (result ≡ behind out.old at (digits n)) × (out.new ≡ put out.old at (digits n)) }
{
    let count = digit_count(n);
    if out.len() < count {
        return at;
    }
    if out.len() - count < at {
        return at;
    }
    let mut rest = n;
    for i in (0..count).rev() {
        out[at + i] = b'0' + (rest % 10) as u8;
        rest /= 10;
    }
    at + count
}

// What the bytes fed so far are: none, a plus, a number, or refused whatever follows.
#[derive(Clone, Copy)]
pub enum Parse {
    Empty,
    Plus,
    Is(u64),
    Refused,
}

fn wide(c: u8) -> u64
    ensures { result ≡ c }
{
    c as u64
}

// One digit more, if c is one and the number still fits.
fn with_digit(n: u64, c: u8) -> Parse
    ensures { result ≡ with_digit n c }
{
    if c < 48 {
        return Parse::Refused;
    }
    if 57 < c {
        return Parse::Refused;
    }
    if 1844674407370955161 < n {
        return Parse::Refused;
    }
    let d = wide(c) - 48;
    if 18446744073709551615 - d < n * 10 {
        return Parse::Refused;
    }
    Parse::Is(n * 10 + d)
}

pub fn start() -> Parse
    ensures { result ≡ Parse.Empty }
{
    Parse::Empty
}

// One byte more.
pub fn feed(p: Parse, c: u8) -> Parse
    ensures { result ≡ fed p c }
{
    match p {
        Parse::Empty => {
            if c == 43 {
                return Parse::Plus;
            }
            with_digit(0, c)
        }
        Parse::Plus => with_digit(0, c),
        Parse::Is(n) => with_digit(n, c),
        Parse::Refused => Parse::Refused,
    }
}

pub fn finish(p: Parse) -> Option<u64>
    ensures { result ≡ parsed (value p) }
{
    match p {
        Parse::Empty => None,
        Parse::Plus => None,
        Parse::Is(n) => Some(n),
        Parse::Refused => None,
    }
}

// `parse::<usize>` of lent bytes.
pub fn parse_usize(s: &[u8]) -> Option<u64>
    ensures { result ≡ parsed (parse_usize s.now) }
{
    let mut p = start();
    for c in s {
        p = feed(p, *c);
    }
    finish(p)
}
