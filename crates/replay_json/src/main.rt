// Reads the plans of data/ (make.py says what they are) and prints for each of the oracle's numbers how many plans have it and how many of them
// the reader answers so; every other one by its file and its place there.
#![tactic(auto)]

ghost use Rattle.std.specs.Prelude.{◌+◌, ◌≤◌, ◌<◌, IfOk, length};

use std::alloc::{AllocError, Global};
use std::io::Read;
use std::rt::Files;
use std::{fs, io};

// No place of the file is behind this one.
const END: usize = 262144;

// A string of the list (vectors/README.md): its length in the buffer, and the place behind it in the file.
#[derive(Clone, Copy)]
struct Unpacked {
    len: usize,
    next: usize,
}

fn wide(x: u8) -> usize
    ensures { result < 256 }
{
    x as usize
}

// The byte at a place; 0 behind the end.
fn get(f: &[u8], at: usize) -> u8 {
    if at < f.len() {
        return f[at];
    }
    0
}

// Sets the byte at a place, if the buffer has it.
fn set(out: &mut [u8], at: usize, x: u8) {
    if at < out.len() {
        out[at] = x;
    }
}

fn byte_at(f: &[u8], at: usize) -> usize
    ensures { result < 256 }
{
    wide(get(f, at))
}

// Two bytes, the low one first.
fn short_at(f: &[u8], at: usize) -> usize
    requires { at ≤ 524288 }
    ensures { result < 65536 }
{
    byte_at(f, at) + 256 * byte_at(f, at + 1)
}

// Four bytes, the low one first.
fn number_at(f: &[u8], at: usize) -> usize
    requires { at ≤ 262144 }
    ensures { result < 4294967296 }
{
    short_at(f, at) + 65536 * short_at(f, at + 2)
}

// A place of the file, or its end.
fn within(at: usize) -> usize
    ensures { result ≤ 262144 }
{
    if at < END {
        return at;
    }
    END
}

// Copies n bytes of the file to the buffer's place `to`, as many as fit.
fn plain(f: &[u8], at: usize, n: usize, out: &mut [u8], to: usize)
    requires { at ≤ 524288 × n < 65536 × to ≤ 524288 }
{
    for i in 0..n {
        set(out, to + i, get(f, at + i));
    }
}

// The byte so far back from a place; 0 in front of the first.
fn before(out: &[u8], at: usize, back: usize) -> u8 {
    if back <= at {
        return get(out, at - back);
    }
    0
}

// Repeats n bytes of the buffer before its place `to`, from so far back, as many as fit.
fn repeated(out: &mut [u8], to: usize, n: usize, back: usize)
    requires { n < 65536 × to ≤ 524288 }
{
    for i in 0..n {
        let x = before(out, to + i, back);
        set(out, to + i, x);
    }
}

// A string: its length, then pieces of plain bytes and of repeated ones.
fn unpack(f: &[u8], from: usize, out: &mut [u8]) -> Unpacked
    requires { from ≤ 262144 }
    ensures { result.next ≤ 262144 }
{
    let length = number_at(f, from);
    let mut at = within(from + 4);
    let mut len: usize = 0;
    for _ in 0..65536 {
        if length <= len {
            return Unpacked {
                len: length,
                next: at,
            };
        }
        if 131072 < len {
            return Unpacked { len: 0, next: END };
        }
        let n = short_at(f, at);
        plain(f, at + 2, n, out, len);
        let count = short_at(f, at + 2 + n);
        let back = short_at(f, at + 4 + n);
        repeated(out, len + n, count, back);
        len = len + n + count;
        at = within(at + 6 + n);
    }
    Unpacked { len: 0, next: END }
}

// Fills the buffer from a file: how many bytes it took. A file that cannot be opened counts as empty.
fn load(rt: &impl Files, path: &str, buf: &mut [u8]) -> io::Result<usize>
    ensures { IfOk result (λ n. n ≤ length buf.new) }
{
    let Ok(mut file) = fs::open(rt, path) else {
        return Ok(0);
    };
    let mut n: usize = 0;
    for _ in 0..u64::MAX {
        let taken = file.read(&mut buf[n..])?;
        if taken == 0 {
            break;
        }
        n += taken;
    }
    Ok(n)
}

// A count that never passes its type.
fn one_more(n: usize) -> usize {
    if n < END {
        return n + 1;
    }
    n
}

// What the reader says of the text in the buffer; 255 where the buffer is too short.
fn answer(text: &[u8], len: usize, tab: &mut [u64]) -> u8 {
    if text.len() < len {
        return 255;
    }
    plan_read::read_plan(&text[..len], tab)
}

fn print_other(rt: &impl Print, file: u8, place: usize, said: u8, number: u8) -> io::Result<()> {
    println!(rt; "file {file}, text {place}: {said}, not {number}")
}

// Counts at a number; those past the end of the counts are not counted.
fn count_at(counts: &mut [usize], number: u8) {
    let n = wide(number);
    if n < counts.len() {
        counts[n] = one_more(counts[n]);
    }
}

// One text: counted under its number, and once more if the reader agrees.
fn judge(
    rt: &impl Print,
    file: u8,
    place: usize,
    said: u8,
    number: u8,
    all: &mut [usize],
    agreed: &mut [usize],
) -> io::Result<()> {
    count_at(all, number);
    if said == number {
        count_at(agreed, number);
        return Ok(());
    }
    print_other(rt, file, place, said, number)
}

// The texts of a file.
fn replay(
    rt: &impl Print,
    file: u8,
    f: &[u8],
    text: &mut [u8],
    tab: &mut [u64],
    all: &mut [usize],
    agreed: &mut [usize],
) -> io::Result<()> {
    let texts = number_at(f, 0);
    let mut at: usize = 4;
    for i in 0..texts {
        let number = get(f, at);
        let u = unpack(f, within(at + 1), text);
        let said = answer(text, u.len, tab);
        judge(rt, file, i, said, number, all, agreed)?;
        at = u.next;
    }
    Ok(())
}

// The file `texts-0.bin` and so on; at most ten.
fn file_name(alloc: Global, k: u8) -> Result<String, AllocError>
    requires { k < 10 }
{
    format!(in alloc; "texts-{k}.bin")
}

fn one_file(
    rt: &(impl Print + Files + AllocGlobal),
    k: u8,
    f: &mut [u8],
    text: &mut [u8],
    tab: &mut [u64],
    all: &mut [usize],
    agreed: &mut [usize],
) -> io::Result<()>
    requires { k < 10 }
{
    let name = file_name(rt.alloc(), k)?;
    let n = load(rt, name.as_str(), f)?;
    replay(rt, k, &f[..n], text, tab, all, agreed)
}

fn print_count(rt: &impl Print, number: usize, agreed: usize, all: usize) -> io::Result<()> {
    println!(rt; "{number}: {agreed} of {all}")
}

fn print_counts(rt: &impl Print, all: &[usize; 16], agreed: &[usize; 16]) -> io::Result<()> {
    for n in 0..16 {
        let count = all[n];
        if 0 < count {
            print_count(rt, n, agreed[n], count)?;
        }
    }
    Ok(())
}

fn main(rt: HostRuntime) -> io::Result<()> {
    let mut f = [0u8; 262144];
    let mut text = [0u8; 65600];
    let mut tab = [0u64; 4096];
    let mut all = [0usize; 16];
    let mut agreed = [0usize; 16];
    one_file(&rt, 0, &mut f, &mut text, &mut tab, &mut all, &mut agreed)?;
    one_file(&rt, 1, &mut f, &mut text, &mut tab, &mut all, &mut agreed)?;
    print_counts(&rt, &all, &agreed)
}
