// The writer by fixed vectors. A line for each: the number of the vector, the writer's fields (written, low, high, pen,
// and t or f for full, trailing_newline, content_produced, indent_before_write), and the whole output between brackets,
// its unwritten bytes as dots. For a block text that moves: its new place, and the buffer.
#![tactic(auto)]

use output::Writer;
use std::io;
use std::io::Write;

fn number(rt: &impl Print, n: usize) -> io::Result<()> {
    print!(rt; "{n} ")
}

fn answer(rt: &impl Print, x: bool) -> io::Result<()> {
    if x { print!(rt; "t") } else { print!(rt; "f") }
}

fn bytes(rt: &impl Print, out: &[u8]) -> io::Result<()> {
    print!(rt; " [")?;
    io::writer(rt).write_all(out)?;
    println!(rt; "]")
}

fn show(rt: &impl Print, vector: usize, w: Writer, out: &[u8]) -> io::Result<()> {
    number(rt, vector)?;
    number(rt, w.written)?;
    number(rt, w.low)?;
    number(rt, w.high)?;
    number(rt, w.pen)?;
    answer(rt, w.full)?;
    answer(rt, w.trailing_newline)?;
    answer(rt, w.content_produced)?;
    answer(rt, w.indent_before_write)?;
    bytes(rt, out)
}

// A writer that has taken so many bytes of the page.
fn at(written: usize) -> Writer {
    let mut w = output::new();
    w.written = written;
    w
}

// One with an indent of so many bytes, due at once.
fn indenting(written: usize, indent: usize) -> Writer {
    let mut w = output::new();
    w.written = written;
    w.has_indent = true;
    w.indent = indent;
    w.indent_before_write = true;
    w
}

// One whose output is a block text.
fn drawing(low: usize, high: usize) -> Writer {
    let mut w = output::new();
    w.block_text = true;
    w.low = low;
    w.high = high;
    w
}

// A text as `indent_aware_write` writes it, into an output of 20 bytes.
fn write(rt: &impl Print, vector: usize, w: Writer, text: &[u8], escape: bool) -> io::Result<()> {
    let mut out = [46u8; 20];
    let r = support::finish(support::feed_bytes(&mut out, b"  ", support::begin(w), text, escape));
    show(rt, vector, r, &out)
}

// Plain and escaped texts, and the marks.
fn texts(rt: &impl Print) -> io::Result<()> {
    write(rt, 1, at(0), b"", false)?;
    write(rt, 2, at(0), b"<a", false)?;
    write(rt, 3, at(0), b"a\nb\n", true)?;
    write(rt, 4, at(0), b"\r\nb\r", true)?;
    write(rt, 5, at(0), b"<>\"", true)?;
    write(rt, 6, at(0), b"&'b", true)?;
    write(rt, 7, at(0), b"a`=", true)
}

// An indent of two bytes, due or not, present but empty, longer than its buffer, absent.
fn indents(rt: &impl Print) -> io::Result<()> {
    write(rt, 8, indenting(0, 2), b"a\nb\n", false)?;
    write(rt, 9, indenting(0, 2), b"\r\nb\n<", true)?;
    write(rt, 10, indenting(0, 0), b"a\nb", false)?;
    write(rt, 11, indenting(0, 9), b"a\nb", false)?;
    let mut w = indenting(0, 2);
    w.indent_before_write = false;
    write(rt, 12, w, b"a\n\nb", false)?;
    w.has_indent = false;
    w.indent_before_write = true;
    write(rt, 13, w, b"a\nb", false)
}

// A page that is exactly full, one short, full before; an entity and an indent over its end; a place past it.
fn limits(rt: &impl Print) -> io::Result<()> {
    write(rt, 14, at(17), b"abc", false)?;
    write(rt, 15, at(17), b"abcd", false)?;
    write(rt, 16, at(20), b"", false)?;
    write(rt, 17, at(20), b"a", false)?;
    write(rt, 18, at(14), b"a<b", true)?;
    write(rt, 19, at(15), b"a<b", true)?;
    write(rt, 20, indenting(18, 2), b"\na", false)?;
    write(rt, 21, at(21), b"a", false)
}

// The same in the buffer of the block texts, from the low end up to the high one.
fn block_texts(rt: &impl Print) -> io::Result<()> {
    write(rt, 22, drawing(5, 8), b"abc", false)?;
    write(rt, 23, drawing(5, 8), b"abcd", false)?;
    write(rt, 24, drawing(5, 5), b"", true)?;
    write(rt, 25, drawing(0, 19), b"<<<<<", true)?;
    write(rt, 26, drawing(18, 16384), b"ab", false)?;
    write(rt, 27, drawing(18, 16384), b"abc", false)
}

// A text that comes in pieces has one beginning and one end.
fn pieces(rt: &impl Print, vector: usize, c: u8, escape: bool) -> io::Result<()> {
    let mut out = [46u8; 20];
    let w = support::feed_escaped(&mut out, b"  ", support::begin(indenting(0, 2)), c, false);
    let q = support::feed_bytes(&mut out, b"  ", w, b"a\n", escape);
    let r = support::feed_escaped(&mut out, b"  ", q, c, escape);
    show(rt, vector, r, &out)?;
    show(rt, vector, support::finish(r), &out)
}

// Written plainly: no indent, no mark.
fn plain(rt: &impl Print, vector: usize, written: usize) -> io::Result<()> {
    let mut out = [46u8; 20];
    let q = output::write(&mut out, indenting(written, 2), b"a\nb");
    let r = output::put(&mut out, q, b'\n');
    show(rt, vector, r, &out)
}

// A packed string, `a\nbc\n\n\r\n<d`, from the bit 3 on; behind it the first five bits of `@`, whose others are past the end.
const PACKED: [u8; 11] = [172, 33, 76, 76, 97, 65, 65, 161, 71, 140, 136];

// Its n bytes from the byte i on, fed line by line, into an output of 20 bytes; and written plainly.
fn packed(rt: &impl Print, vector: usize, w: Writer, i: usize, n: usize) -> io::Result<()> {
    let s = PACKED;
    let mut out = [46u8; 20];
    if 16 < i {
        return Ok(());
    }
    if 16 < n {
        return Ok(());
    }
    let r = support::finish(support::feed_packed(
        &mut out,
        b"  ",
        support::begin(w),
        &s,
        3 + 8 * i,
        n,
    ));
    show(rt, vector, r, &out)?;
    let mut plain = [46u8; 20];
    let q = output::write_packed(&mut plain, w, &s, 3 + 8 * i, n);
    show(rt, vector, q, &plain)
}

// None, some and all of it; indented and not; a page that is exactly full and one short; a block text.
fn packed_strings(rt: &impl Print) -> io::Result<()> {
    packed(rt, 40, at(0), 0, 0)?;
    packed(rt, 41, at(0), 0, 10)?;
    packed(rt, 42, indenting(0, 2), 0, 10)?;
    packed(rt, 43, indenting(0, 2), 1, 5)?;
    packed(rt, 44, indenting(0, 0), 0, 10)?;
    packed(rt, 45, at(10), 0, 10)?;
    packed(rt, 46, at(11), 0, 10)?;
    packed(rt, 47, indenting(14, 2), 2, 3)?;
    packed(rt, 48, indenting(15, 2), 2, 3)?;
    packed(rt, 49, drawing(4, 9), 4, 6)?;
    packed(rt, 50, at(18), 8, 2)?;
    packed(rt, 51, at(0), 9, 2)
}

// A finished block text moves to the high end.
fn move_text(rt: &impl Print, vector: usize, begin: usize, high: usize) -> io::Result<()> {
    let mut buffer = *b"abcdef......";
    if 6 < begin {
        return Ok(());
    }
    if high < 6 {
        return Ok(());
    }
    if 12 < high {
        return Ok(());
    }
    let place = output::move_text(&mut buffer, begin, 6, high);
    number(rt, vector)?;
    number(rt, place)?;
    bytes(rt, &buffer)
}

// It is written out again, into the page or into a text that is being drawn.
fn write_text(rt: &impl Print, vector: usize, w: Writer, from: usize, n: usize) -> io::Result<()> {
    let mut page = [46u8; 4];
    let mut buffer = *b"........xyz\n";
    if 12 < from {
        return Ok(());
    }
    if 12 - from < n {
        return Ok(());
    }
    if from < w.high {
        return Ok(());
    }
    show(
        rt,
        vector,
        output::write_text(&mut page, &mut buffer, w, from, n),
        &page,
    )?;
    bytes(rt, &buffer)
}

fn finished_texts(rt: &impl Print) -> io::Result<()> {
    let mut w = output::new();
    w.high = 8;
    write_text(rt, 34, w, 8, 4)?;
    write_text(rt, 35, w, 12, 0)?;
    w.written = 1;
    write_text(rt, 36, w, 8, 4)?;
    write_text(rt, 37, drawing(4, 8), 8, 4)?;
    write_text(rt, 38, drawing(5, 8), 8, 4)?;
    write_text(rt, 39, drawing(8, 8), 12, 0)
}

// Which characters have an entity: the seven, and three others.
fn escaped(rt: &impl Print, vector: usize) -> io::Result<()> {
    number(rt, vector)?;
    answer(rt, support::is_escaped(b'<'))?;
    answer(rt, support::is_escaped(b'>'))?;
    answer(rt, support::is_escaped(b'"'))?;
    answer(rt, support::is_escaped(b'&'))?;
    answer(rt, support::is_escaped(b'\''))?;
    answer(rt, support::is_escaped(b'`'))?;
    answer(rt, support::is_escaped(b'='))?;
    answer(rt, support::is_escaped(b'\n'))?;
    answer(rt, support::is_escaped(b';'))?;
    answer(rt, support::is_escaped(b'\\'))?;
    println!(rt)
}

fn main(rt: HostRuntime) -> io::Result<()> {
    texts(&rt)?;
    indents(&rt)?;
    limits(&rt)?;
    block_texts(&rt)?;
    pieces(&rt, 28, b'&', true)?;
    pieces(&rt, 29, b'\n', false)?;
    plain(&rt, 30, 16)?;
    plain(&rt, 31, 17)?;
    plain(&rt, 31, 18)?;
    move_text(&rt, 32, 0, 12)?;
    move_text(&rt, 32, 1, 8)?;
    move_text(&rt, 33, 2, 6)?;
    move_text(&rt, 33, 6, 12)?;
    finished_texts(&rt)?;
    packed_strings(&rt)?;
    escaped(&rt, 52)
}
