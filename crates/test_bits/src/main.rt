// The bit leaves by fixed vectors: fields of several widths at every place of 12 bytes and of their beginnings, packed bytes, strings compared.
#![tactic(auto)]

ghost use Rattle.std.specs.Prelude.{◌+◌, ◌*◌, ◌^◌, ◌≤◌, ◌<◌, length};

use std::io;

fn number(rt: &impl Print, n: u64) -> io::Result<()> {
    print!(rt; "{n} ")
}

fn answer(rt: &impl Print, x: bool) -> io::Result<()> {
    if x {
        print!(rt; "yes ")
    } else {
        print!(rt; "no ")
    }
}

fn show_field(rt: &impl Print, s: &[u8], p: usize, w: usize) -> io::Result<()>
    requires { w ≤ 64 }
{
    let digits = (w + 3) / 4;
    print!(rt; "{:0digits$x} ", bits::field(s, p, w))
}

fn show_byte(rt: &impl Print, s: &[u8], p: usize) -> io::Result<()> {
    number(rt, bits::byte(s, p) as u64)
}

// A line with the field of w bits at each place before last.
fn fields(rt: &impl Print, s: &[u8], w: usize, last: usize) -> io::Result<()>
    requires { w ≤ 64 }
{
    for p in 0..last {
        show_field(rt, s, p, w)?;
    }
    println!(rt)
}

fn bytes(rt: &impl Print, s: &[u8], last: usize) -> io::Result<()> {
    for p in 0..last {
        show_byte(rt, s, p)?;
    }
    println!(rt)
}

// The same for each shorter beginning: nothing, less than a word, a word, and more.
fn beginnings(rt: &impl Print, s: &[u8]) -> io::Result<()>
    requires { length s.now ≤ 12 }
{
    for n in 0..s.len() {
        fields(rt, &s[..n], 64, 8 * n + 2)?;
        bytes(rt, &s[..n], 8 * n + 2)?;
    }
    Ok(())
}

fn twelve_bytes(rt: &impl Print) -> io::Result<()> {
    let s = b"\x80\x01\xff\x00\xa5\x5a\x12\x34\x56\x78\x9a\xbd";
    fields(rt, s, 0, 2)?;
    fields(rt, s, 1, 98)?;
    fields(rt, s, 12, 98)?;
    fields(rt, s, 16, 98)?;
    fields(rt, s, 63, 98)?;
    fields(rt, s, 64, 98)?;
    bytes(rt, s, 98)?;
    beginnings(rt, s)
}

// The largest place there is.
fn far(rt: &impl Print) -> io::Result<()> {
    show_field(rt, b"A", 18446744073709551615, 64)?;
    show_byte(rt, b"A", 18446744073709551615)?;
    println!(rt)
}

fn given(rt: &impl Print, s: &[u8], p: usize, n: usize, t: &[u8]) -> io::Result<()>
    requires { p + 8 * n < 2 ^ 64 }
{
    answer(rt, bits::same_bytes(s, p, n, t))
}

// Whether the two strings are the same, whether the first comes before the second, and the second before the first.
fn two(rt: &impl Print, s: &[u8], p: usize, n: usize, q: usize, m: usize) -> io::Result<()>
    requires { (p + 8 * n < 2 ^ 64) × (q + 8 * m < 2 ^ 64) }
{
    answer(rt, bits::same_at(s, p, n, q, m))?;
    answer(rt, bits::before_at(s, p, n, q, m))?;
    answer(rt, bits::before_at(s, q, m, p, n))?;
    println!(rt)
}

fn all_given(rt: &impl Print, s: &[u8]) -> io::Result<()> {
    given(rt, s, 3, 4, b"each")?;
    given(rt, s, 3, 4, b"eacx")?;
    given(rt, s, 3, 4, b"fach")?;
    given(rt, s, 3, 3, b"each")?;
    given(rt, s, 3, 4, b"eac")?;
    given(rt, s, 3, 0, b"")?;
    given(rt, s, 3, 1, b"")?;
    given(rt, s, 70, 5, b"eachx")?;
    given(rt, s, 70, 5, b"eachy")?;
    given(rt, s, 216, 0, b"")?;
    given(rt, s, 216, 1, b"a")?;
    println!(rt)
}

fn all_pairs(rt: &impl Print, s: &[u8]) -> io::Result<()> {
    two(rt, s, 3, 4, 37, 4)?;
    two(rt, s, 3, 4, 3, 4)?;
    two(rt, s, 3, 4, 70, 5)?;
    two(rt, s, 3, 4, 115, 4)?;
    two(rt, s, 147, 4, 3, 4)?;
    two(rt, s, 200, 2, 183, 2)?;
    two(rt, s, 3, 0, 37, 0)?;
    two(rt, s, 3, 0, 37, 1)
}

// "each" twice, "eachx", "eacg", "Each", a byte 255 and a byte 127 before an a, each at a place of its own.
fn strings(rt: &impl Print) -> io::Result<()> {
    let s =
        b"\xac\xac\x2c\x6d\x0b\x2b\x0b\x1b\x45\x95\x85\x8d\xa1\xe0\xcc\xac\x2c\x6c\xe8\xac\x2c\x6d\x0f\xfe\xc3\x7f\x61";
    all_given(rt, s)?;
    all_pairs(rt, s)
}

fn main(rt: HostRuntime) -> io::Result<()> {
    twelve_bytes(&rt)?;
    far(&rt)?;
    strings(&rt)
}
