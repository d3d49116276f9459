// Replays every bundle of the fixed list, and damaged ones: what check_bundle says of each beside the oracle's number, and how many
// elements of each kind the accepted ones of up to 4,096 bytes have. `make-data` makes the files and states their form.
#![tactic(auto)]

ghost use Rattle.std.specs.Prelude.{◌≡◌, ◌+◌, ◌≤◌, ◌<◌, length, IfOk};
ghost use Rattle.layout.specs.Verdict.{verdict_number};

use layout::BundleError;
use std::alloc::{AllocError, Global};
use std::io::Read;
use std::rt::Files;
use std::{fs, io};

// No place of a file is behind this one.
const END: usize = 262144;

// A bundle that ends past this place is followed by one at 0.
const START_AGAIN: usize = 131072;

// A bundle's place in the buffer, its length, its number, and the place behind it in the file.
#[derive(Clone, Copy)]
struct Unpacked {
    from: usize,
    len: usize,
    number: usize,
    next: usize,
}

fn wide(x: u8) -> usize
    ensures { result < 256 }
{
    x as usize
}

// The byte at a place; 0 behind the end.
fn get(f: &[u8], at: usize) -> u8 {
    if at < f.len() {
        return f[at];
    }
    0
}

// Sets the byte at a place, if the buffer has it.
fn set(out: &mut [u8], at: usize, x: u8) {
    if at < out.len() {
        out[at] = x;
    }
}

fn byte_at(f: &[u8], at: usize) -> usize
    ensures { result < 256 }
{
    wide(get(f, at))
}

// Two bytes, the low one first.
fn short_at(f: &[u8], at: usize) -> usize
    requires { at ≤ 524288 }
    ensures { result < 65536 }
{
    byte_at(f, at) + 256 * byte_at(f, at + 1)
}

// Four bytes, the low one first.
fn number_at(f: &[u8], at: usize) -> usize
    requires { at ≤ 262144 }
    ensures { result < 4294967296 }
{
    short_at(f, at) + 65536 * short_at(f, at + 2)
}

// The smaller of two.
fn at_most(n: usize, end: usize) -> usize
    ensures { result ≤ end }
{
    if n < end {
        return n;
    }
    end
}

// Copies n bytes of the file to the buffer's place `to`, as many as fit.
fn plain(f: &[u8], at: usize, n: usize, out: &mut [u8], to: usize)
    requires { at ≤ 524288 × n < 65536 × to ≤ 524288 }
{
    for i in 0..n {
        set(out, to + i, get(f, at + i));
    }
}

// The byte so far back from a place; 0 in front of the first.
fn before(out: &[u8], at: usize, back: usize) -> u8 {
    if back <= at {
        return get(out, at - back);
    }
    0
}

// Repeats n bytes of the buffer before its place `to`, from so far back, as many as fit.
fn repeated(out: &mut [u8], to: usize, n: usize, back: usize)
    requires { n < 65536 × to ≤ 524288 }
{
    for i in 0..n {
        let x = before(out, to + i, back);
        set(out, to + i, x);
    }
}

// The pieces of a bundle, put at the buffer's place `from`: the place behind them in the file.
fn pieces(f: &[u8], start: usize, out: &mut [u8], from: usize, len: usize) -> usize
    requires { start ≤ 262144 × from ≤ 131072 × len ≤ 131072 }
    ensures { result ≤ 262144 }
{
    let end = from + len;
    let mut at = start;
    let mut to = from;
    for _ in 0..65536 {
        if end <= to {
            return at;
        }
        let n = short_at(f, at);
        plain(f, at + 2, n, out, to);
        let count = short_at(f, at + 2 + n);
        let back = short_at(f, at + 4 + n);
        repeated(out, to + n, count, back);
        to = to + n + count;
        at = at_most(at + 6 + n, END);
    }
    END
}

// Where the next bundle starts, if the one before it ends at `to`.
fn start_at(to: usize) -> usize
    ensures { result ≤ 131072 }
{
    if to <= START_AGAIN {
        return to;
    }
    0
}

// The bundle at a place of the file, put at the buffer's place `to`, or at 0.
fn unpack(f: &[u8], at: usize, out: &mut [u8], to: usize) -> Unpacked
    requires { at ≤ 262144 }
    ensures { (result.from ≤ 131072) × (result.len ≤ 131072) × (result.number < 5) × (result.next ≤ 262144) }
{
    let from = start_at(to);
    let len = at_most(number_at(f, at), 131072);
    let number = at_most(byte_at(f, at + 4), 4);
    let next = pieces(f, at_most(at + 5, END), out, from, len);
    Unpacked {
        from,
        len,
        number,
        next,
    }
}

// The paper's number of a check that is not passed, or 0.
fn number_of(v: Result<(), BundleError>) -> usize
    ensures { (result ≡ verdict_number v) × (result < 5) }
{
    match v {
        Ok(()) => 0,
        Err(e) => u8::from(e) as usize,
    }
}

// A count that never passes its type.
fn sum(n: u64, m: u64) -> u64 {
    if 1000000000 < n {
        return n;
    }
    if 65535 < m {
        return n;
    }
    n + m
}

// Adds the elements of an accepted bundle to the counts of their kinds.
fn count_kinds(bundle: &[u8], kinds: &mut [u64; 9]) {
    if 4096 < bundle.len() {
        return;
    }
    let Ok(()) = layout::check_bundle(bundle) else {
        return;
    };
    for k in 0..9 {
        let n = census::count(bundle, k as u64);
        let before = kinds[k];
        kinds[k] = sum(before, n);
    }
}

// Counts a bundle by what check_bundle says and what the oracle said.
fn one(bundle: &[u8], stored: usize, counts: &mut [u64; 25], kinds: &mut [u64; 9])
    requires { stored < 5 }
{
    let k = 5 * number_of(layout::check_bundle(bundle)) + stored;
    let before = counts[k];
    counts[k] = sum(before, 1);
    count_kinds(bundle, kinds);
}

// The bundle at the place of the buffer.
fn one_at(
    out: &[u8],
    from: usize,
    len: usize,
    stored: usize,
    counts: &mut [u64; 25],
    kinds: &mut [u64; 9],
)
    requires { from ≤ 131072 × len ≤ 131072 × stored < 5 }
{
    let end = from + len;
    if end <= out.len() {
        one(&out[from..end], stored, counts, kinds);
    }
}

// The bundles of a file.
fn replay(f: &[u8], out: &mut [u8], counts: &mut [u64; 25], kinds: &mut [u64; 9]) {
    let bundles = number_at(f, 0);
    let mut at: usize = 4;
    let mut to: usize = 0;
    for _ in 0..bundles {
        let u = unpack(f, at, out, to);
        one_at(out, u.from, u.len, u.number, counts, kinds);
        to = u.from + u.len;
        at = u.next;
    }
}

// Fills the buffer from a file: how many bytes it took. A file that cannot be opened counts as empty.
fn load(rt: &impl Files, path: &str, buf: &mut [u8]) -> io::Result<usize>
    ensures { IfOk result (λ n. n ≤ length buf.new) }
{
    let Ok(mut file) = fs::open(rt, path) else {
        return Ok(0);
    };
    let mut n: usize = 0;
    for _ in 0..u64::MAX {
        let taken = file.read(&mut buf[n..])?;
        if taken == 0 {
            break;
        }
        n += taken;
    }
    Ok(n)
}

// The file `bundles-00.bin` and so on; at most ten.
fn file_name(alloc: Global, k: u8) -> Result<String, AllocError>
    requires { k < 10 }
{
    format!(in alloc; "bundles-{k:02}.bin")
}

fn one_file(
    rt: &(impl Files + AllocGlobal),
    k: u8,
    file: &mut [u8],
    buffer: &mut [u8],
    counts: &mut [u64; 25],
    kinds: &mut [u64; 9],
) -> io::Result<()>
    requires { k < 10 }
{
    let name = file_name(rt.alloc(), k)?;
    let n = load(rt, name.as_str(), file)?;
    replay(&file[..n], buffer, counts, kinds);
    Ok(())
}

fn all_files(
    rt: &(impl Files + AllocGlobal),
    file: &mut [u8],
    buffer: &mut [u8],
    counts: &mut [u64; 25],
    kinds: &mut [u64; 9],
) -> io::Result<()> {
    for k in 0..10 {
        one_file(rt, k, file, buffer, counts, kinds)?;
    }
    Ok(())
}

fn print_number(rt: &impl Print, n: usize) -> io::Result<()> {
    print!(rt; "{n}")
}

fn print_counts(rt: &impl Print, counts: &[u64; 25]) -> io::Result<()> {
    for k in 0..25 {
        let n = counts[k];
        if 0 < n {
            print!(rt; "check_bundle ")?;
            print_number(rt, k / 5)?;
            print!(rt; ", oracle ")?;
            print_number(rt, k % 5)?;
            println!(rt; ": {n}")?;
        }
    }
    Ok(())
}

fn print_kinds(rt: &impl Print, kinds: &[u64; 9]) -> io::Result<()> {
    for k in 0..9 {
        print!(rt; "kind ")?;
        print_number(rt, k)?;
        println!(rt; ": {}", kinds[k])?;
    }
    Ok(())
}

fn main(rt: HostRuntime) -> io::Result<()> {
    let mut file = [0u8; 262144];
    let mut buffer = [0u8; 262144];
    let mut counts = [0u64; 25];
    let mut kinds = [0u64; 9];
    all_files(&rt, &mut file, &mut buffer, &mut counts, &mut kinds)?;
    print_counts(&rt, &counts)?;
    print_kinds(&rt, &kinds)
}
