// UTF-8 by fixed vectors. A line: the text's bytes, whether it is UTF-8 by `is_utf8` and by the machine, which is
// fed from two parts, and the length of the character at each place, the one past the end included.
#![tactic(auto)]

ghost use Rattle.std.specs.Prelude.{◌≡◌, ◌++◌};
ghost use Rattle.rules.specs.Utf8.{utf8};
ghost use Rattle.utf8.specs.Machine.{wanted, after};

use std::io;
use utf8::Utf;

// The machine after the bytes of s.
fn fed(from: Utf, s: &[u8]) -> Utf
    ensures { wanted result ≡ after (wanted from) s.now }
{
    let mut u = from;
    for c in s {
        u = utf8::step(u, *c);
    }
    u
}

// Text from two sources, one after the other, is checked as one text.
fn joined_is_utf8(s: &[u8], t: &[u8]) -> bool
    ensures { result ≡ utf8 (s.now ++ t.now) }
{
    utf8::is_done(fed(fed(utf8::start(), s), t))
}

fn wide(c: u8) -> u64 {
    c as u64
}

fn print_number(rt: &impl Print, n: u64) -> io::Result<()> {
    print!(rt; "{n} ")
}

fn print_flag(rt: &impl Print, yes: bool) -> io::Result<()> {
    if yes {
        print!(rt; "yes ")?;
        return Ok(());
    }
    print!(rt; "no ")
}

fn print_line_end(rt: &impl Print) -> io::Result<()> {
    println!(rt)
}

fn print_bytes(rt: &impl Print, s: &[u8]) -> io::Result<()> {
    for c in s {
        print_number(rt, wide(*c))?;
    }
    Ok(())
}

fn print_lengths(rt: &impl Print, s: &[u8]) -> io::Result<()> {
    for i in 0..=s.len() {
        print_number(rt, utf8::utf8_length(s, i) as u64)?;
    }
    Ok(())
}

fn report(rt: &impl Print, s: &[u8]) -> io::Result<()> {
    print_bytes(rt, s)?;
    print_flag(rt, utf8::is_utf8(s))?;
    let half = s.len() / 2;
    print_flag(rt, joined_is_utf8(&s[0..half], &s[half..]))?;
    print_lengths(rt, s)?;
    print_line_end(rt)
}

// The texts one after the other, in front of each its length.
fn report_all(rt: &impl Print, texts: &[u8]) -> io::Result<()> {
    let mut at: usize = 0;
    while at < texts.len() {
        let n = wide(texts[at]) as usize;
        let from = at + 1;
        if texts.len() - from < n {
            return Ok(());
        }
        report(rt, &texts[from..from + n])?;
        at = from + n;
    }
    Ok(())
}

fn main(rt: HostRuntime) -> io::Result<()> {
    // empty, 0, 7F; 80, 7FF; 800, D7FF, E000, FFFF; 10000, 10FFFF
    report_all(&rt, b"\x00\x01\x00\x01\x7f\x02\xc2\x80\x02\xdf\xbf")?;
    report_all(
        &rt,
        b"\x03\xe0\xa0\x80\x03\xed\x9f\xbf\x03\xee\x80\x80\x03\xef\xbf\xbf",
    )?;
    report_all(&rt, b"\x04\xf0\x90\x80\x80\x04\xf4\x8f\xbf\xbf")?;
    // all of them in one text
    report_all(&rt, b"\x0ba\xc3\xa4\xe2\x82\xac\xf0\x9f\xaa\x9f.")?;
    // overlong: 0, 7F, 7FF, FFFF
    report_all(
        &rt,
        b"\x02\xc0\x80\x02\xc1\xbf\x03\xe0\x9f\xbf\x04\xf0\x8f\xbf\xbf",
    )?;
    // surrogates D800 and DFFF; 110000; bytes that no character begins with
    report_all(
        &rt,
        b"\x03\xed\xa0\x80\x03\xed\xbf\xbf\x04\xf4\x90\x80\x80\x04\xf5\x80\x80\x80\x01\xff\x01\x80\x02a\xbf",
    )?;
    // cut characters: at the end, before another one; a byte too many
    report_all(
        &rt,
        b"\x01\xc2\x01\xe2\x02\xe2\x82\x01\xf0\x02\xf0\x9f\x03\xf0\x9f\xaa",
    )?;
    report_all(
        &rt,
        b"\x02\xc2a\x03\xe2\x82a\x04\xf0\x9f\xaa\xc2\x03\xc3\xa4\xa4",
    )
}
