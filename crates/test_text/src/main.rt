// Texts by fixed cases. A text has three lines: its bytes; with each word, whether it is that word and what is left where the word stands
// in front; with each text, their order, whether they are the same, and what is left where that text stands in front.
// A comma ends what is left, a dash says that another thing stands there.
#![tactic(auto)]

ghost use Rattle.std.specs.Prelude.{◌+◌, ◌≤◌, ◌<◌, length};
ghost use Rattle.text.specs.Rest.{Stands};

use std::cmp::Ordering;
use std::io;
use std::io::Write;
use text::Text;

fn print(rt: &impl Print, s: &[u8]) -> io::Result<()> {
    io::writer(rt).write_all(s)
}

fn print_byte(rt: &impl Print, c: u8) -> io::Result<()> {
    print!(rt; "{c} ")
}

fn print_flag(rt: &impl Print, yes: bool) -> io::Result<()> {
    if yes {
        print(rt, b"yes ")?;
        return Ok(());
    }
    print(rt, b"no ")
}

fn print_order(rt: &impl Print, order: Ordering) -> io::Result<()> {
    match order {
        Ordering::Less => print(rt, b"< "),
        Ordering::Equal => print(rt, b"= "),
        Ordering::Greater => print(rt, b"> "),
    }
}

fn print_text(rt: &impl Print, s: &[u8], b: &[u8], t: Text) -> io::Result<()>
    requires { (length s.now ≤ 65536) × Stands s.now b.now t }
{
    let mut u = t;
    loop {
        let Some((c, v)) = text::next(s, b, u) else {
            return Ok(());
        };
        print_byte(rt, c)?;
        u = v;
    }
    Ok(())
}

// The byte at i, 0 past the end.
fn small(r: &[u8], i: usize) -> usize
    ensures { result < 256 }
{
    if i < r.len() {
        return r[i] as usize;
    }
    0
}

fn chosen(i: usize) -> u64 {
    if i == 0 {
        return 0;
    }
    if i == 1 {
        return 9;
    }
    if i == 2 {
        return 10;
    }
    18446744073709551615
}

// The text that three bytes at i stand for: its kind, its place or number, and its size.
fn read(s: &[u8], b: &[u8], r: &[u8], i: usize) -> Text
    requires { i < 1000 }
    ensures { Stands s.now b.now result }
{
    let kind = small(r, i);
    let x = small(r, i + 1);
    let n = small(r, i + 2);
    if kind == 0 {
        return Text::Said(x + 1, 0);
    }
    if kind == 1 {
        return Text::Part(x, 0, n);
    }
    if kind == 2 {
        return Text::Packed(x, n);
    }
    if kind == 3 {
        return Text::Digits(chosen(x), n);
    }
    Text::Minus(chosen(x))
}

fn with_word(rt: &impl Print, s: &[u8], b: &[u8], t: Text, w: &[u8]) -> io::Result<()>
    requires { (length s.now ≤ 65536) × Stands s.now b.now t }
{
    print_flag(rt, text::is(s, b, t, w))?;
    let Some(u) = text::strip_bytes(s, b, t, w) else {
        print(rt, b"- ")?;
        return Ok(());
    };
    print_text(rt, s, b, u)?;
    print(rt, b", ")
}

// The words one after the other, in front of each its length.
fn with_words(rt: &impl Print, s: &[u8], b: &[u8], t: Text, words: &[u8]) -> io::Result<()>
    requires { (length s.now ≤ 65536) × Stands s.now b.now t }
{
    let mut at: usize = 0;
    while at < words.len() {
        let n = small(words, at);
        let from = at + 1;
        if words.len() - from < n {
            return Ok(());
        }
        with_word(rt, s, b, t, &words[from..from + n])?;
        at = from + n;
    }
    Ok(())
}

fn with_text(rt: &impl Print, s: &[u8], b: &[u8], t: Text, x: Text) -> io::Result<()>
    requires { (length s.now ≤ 65536) × Stands s.now b.now t × Stands s.now b.now x }
{
    print_order(rt, text::compare(s, b, t, x))?;
    print_flag(rt, text::same(s, b, t, x))?;
    let Some(u) = text::strip(s, b, t, x) else {
        print(rt, b"- ")?;
        return Ok(());
    };
    print_text(rt, s, b, u)?;
    print(rt, b", ")
}

fn with_texts(rt: &impl Print, s: &[u8], b: &[u8], t: Text, r: &[u8]) -> io::Result<()>
    requires { (length s.now ≤ 65536) × (length r.now ≤ 1000) × Stands s.now b.now t }
{
    let mut i: usize = 0;
    while i < r.len() {
        with_text(rt, s, b, t, read(s, b, r, i))?;
        i += 3;
    }
    Ok(())
}

fn report(rt: &impl Print, s: &[u8], b: &[u8], t: Text, words: &[u8], r: &[u8]) -> io::Result<()>
    requires { (length s.now ≤ 65536) × (length r.now ≤ 1000) × Stands s.now b.now t }
{
    print_text(rt, s, b, t)?;
    print(rt, b"\n")?;
    with_words(rt, s, b, t, words)?;
    print(rt, b"\n")?;
    with_texts(rt, s, b, t, r)?;
    print(rt, b"\n")
}

fn report_all(rt: &impl Print, s: &[u8], b: &[u8], words: &[u8], r: &[u8]) -> io::Result<()>
    requires { (length s.now ≤ 65536) × (length r.now ≤ 1000) }
{
    let mut i: usize = 0;
    while i < r.len() {
        report(rt, s, b, read(s, b, r, i), words, r)?;
        i += 3;
    }
    Ok(())
}

fn main(rt: HostRuntime) -> io::Result<()> {
    let plan =
        b"\"abc\"\"\"\"a\\u0062c\"\"ab\"\"\\ud834\\udd1eab\"\"\\u00e4\\u20ac\"\"\\\"\\\\\\/\\b\\f\\n\\r\\t\"\"10\"\"-18446744073709551615\"\"\xc3\xa4\"\"a\\q\"\"ab\x0ac\"\"abcd";
    let bundle =
        b"\xac,L}\x18\x9c\x1a\x1a\x1b\x1b\x9a\x1a\x18\x1b\x99\x9b\x98\x1c\x9a\x9a\x98\x9b\x18\x9a\xde\x13\xb0\x93\xcc,F\xc2\xc4\xc6\xc9";
    let words =
        b"\x00\x01a\x03abc\x04abcd\x06\xf0\x9d\x84\x9eab\x0210\x15184467440737095516150\x01-";
    // Strings of the plan: plain, empty, with escapes, with a pair; ended by a bad escape, a control character, the end of the plan; past it.
    // Beginnings of one that starts with a pair; an escape alone. Packed strings, none at a byte's place; a part of one; one that goes past the end.
    // The digits of 0, 9, 10 and the largest number; without the first few. A minus and digits.
    report_all(
        &rt,
        plan,
        bundle,
        words,
        b"\x00\x00\x00\x00\x05\x00\x00\x07\x00\x00\x11\x00\x00\x15\x00\x00%\x00\x003\x00\x00E\x00\x00I\x00\x00`\x00\x00d\x00\x00i\x00\x00o\x00\x00\xff\x00\x01\x16\x00\x01\x16\x01\x01\x16\x04\x01\x16\x05\x01\x16\xff\x01\x09\x01\x02\x03\x03\x02\x1c\x00\x02!\x14\x02\xc3\x06\x02\xf7\x04\x02\x0b\x02\x02\xff\x04\x03\x00\x00\x03\x01\x00\x03\x02\x00\x03\x03\x00\x03\x02\x01\x03\x03\x14\x03\x01\xff\x04\x00\x00\x04\x02\x00\x04\x03\x00",
    )
}
