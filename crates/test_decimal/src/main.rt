// Whole numbers by fixed vectors: digits into a buffer and one by one, and `parse::<usize>`.
#![tactic(auto)]

ghost use Rattle.std.specs.Prelude.{◌≡◌, ◌≤◌};
ghost use Rattle.decimal.specs.Parsing.{parsed};

use std::io;
use std::io::Write;

// The digits of n, fed to the parser one by one, are n again.
fn parse_digits_of(n: u64) -> Option<u64>
    ensures { result ≡ Some n }
{
    let count = decimal::digit_count(n);
    let mut p = decimal::start();
    for i in 0..count {
        p = decimal::feed(p, decimal::digit(n, i));
    }
    decimal::finish(p)
}

fn print_number(rt: &impl Print, n: u64) -> io::Result<()> {
    print!(rt; " {n}")
}

fn print_byte(rt: &impl Print, c: u8) -> io::Result<()> {
    let one = [c; 1];
    io::writer(rt).write_all(&one)
}

fn print_line_end(rt: &impl Print) -> io::Result<()> {
    print_byte(rt, 10)
}

fn print_parsed(rt: &impl Print, p: Option<u64>) -> io::Result<()> {
    let Some(n) = p else {
        println!(rt; " refused")?;
        return Ok(());
    };
    print!(rt; " is")?;
    print_number(rt, n)?;
    print_line_end(rt)
}

// The digits one by one, how many they are, the byte past the last, and what they parse to.
fn report_digits(rt: &impl Print, n: u64) -> io::Result<()> {
    let count = decimal::digit_count(n);
    for i in 0..count {
        print_byte(rt, decimal::digit(n, i))?;
    }
    print_number(rt, count as u64)?;
    print_number(rt, wide(decimal::digit(n, count)))?;
    print_parsed(rt, parse_digits_of(n))
}

fn wide(c: u8) -> u64 {
    c as u64
}

// 24 dots with the digits at `at` of the first `size`, and the place behind.
fn report_write(rt: &impl Print, size: usize, at: usize, n: u64) -> io::Result<()>
    requires { size ≤ 24 }
{
    let mut page = [46u8; 24];
    let behind = decimal::write_digits(&mut page[..size], at, n);
    io::writer(rt).write_all(&page)?;
    print_number(rt, behind as u64)?;
    print_line_end(rt)
}

fn report_parse(rt: &impl Print, s: &[u8]) -> io::Result<()> {
    print!(rt; "[")?;
    io::writer(rt).write_all(s)?;
    print!(rt; "]")?;
    print_parsed(rt, decimal::parse_usize(s))
}

fn all_digits(rt: &impl Print) -> io::Result<()> {
    report_digits(rt, 0)?;
    report_digits(rt, 9)?;
    report_digits(rt, 10)?;
    report_digits(rt, 99)?;
    report_digits(rt, 100)?;
    report_digits(rt, 999999999)?;
    report_digits(rt, 1000000000)?;
    report_digits(rt, 9223372036854775807)?;
    report_digits(rt, 9223372036854775808)?;
    report_digits(rt, 9999999999999999999)?;
    report_digits(rt, 10000000000000000000)?;
    report_digits(rt, 18446744073709551615)
}

// With room to spare, exactly full, one short, at the end, past it, no room at all.
fn all_writes(rt: &impl Print) -> io::Result<()> {
    report_write(rt, 24, 0, 0)?;
    report_write(rt, 24, 2, 18446744073709551615)?;
    report_write(rt, 20, 0, 18446744073709551615)?;
    report_write(rt, 19, 0, 18446744073709551615)?;
    report_write(rt, 5, 2, 123)?;
    report_write(rt, 5, 3, 123)?;
    report_write(rt, 5, 4, 7)?;
    report_write(rt, 5, 5, 7)?;
    report_write(rt, 5, 6, 7)?;
    report_write(rt, 0, 0, 7)?;
    report_write(rt, 24, 18446744073709551615, 10)
}

fn all_parses(rt: &impl Print) -> io::Result<()> {
    report_parse(rt, b"")?;
    report_parse(rt, b"+")?;
    report_parse(rt, b"++1")?;
    report_parse(rt, b"0")?;
    report_parse(rt, b"+0")?;
    report_parse(rt, b"007")?;
    report_parse(rt, b"+1")?;
    report_parse(rt, b"-1")?;
    report_parse(rt, b"1+")?;
    report_parse(rt, b"1 ")?;
    report_parse(rt, b"/")?;
    report_parse(rt, b":")?;
    report_parse(rt, b"x")
}

fn long_parses(rt: &impl Print) -> io::Result<()> {
    report_parse(rt, b"18446744073709551615")?;
    report_parse(rt, b"+18446744073709551615")?;
    report_parse(rt, b"0000018446744073709551615")?;
    report_parse(rt, b"18446744073709551616")?;
    report_parse(rt, b"18446744073709551620")?;
    report_parse(rt, b"99999999999999999999")?;
    report_parse(rt, b"184467440737095516150")
}

fn main(rt: HostRuntime) -> io::Result<()> {
    all_digits(&rt)?;
    all_writes(&rt)?;
    all_parses(&rt)?;
    long_parses(&rt)
}
