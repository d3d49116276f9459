// Draws the cases of the fixed list (vectors/README.md states its form) and of pages.bin (make.py says what they are), and prints for each of
// the stored numbers how many cases have it and how many of them are answered so: number, template, line, column, length, every byte of the page
// and of the scratch buffers. Every other case is printed by its file and its place there.
#![tactic(auto)]

ghost use Rattle.std.specs.Prelude.{◌+◌, ◌≤◌, ◌<◌, length, IfOk};
ghost use Rattle.replay_render.specs.Cases.{Fits};

use handlebars::Answer;
use std::alloc::{AllocError, Global};
use std::io::Read;
use std::rt::Files;
use std::{fs, io};

// No place of a file is behind this one.
const END: usize = 262144;

// Where the strings of a case stand in their buffer, and how long they may be.
const START: usize = 0;

const NAME: usize = 64;

const BUNDLE: usize = 128;

const PLAN: usize = 65728;

const TEXT: usize = 131328;

const SHORT: usize = 64;

const LONG: usize = 65600;

// A string of the list: its length in the buffer, and the place behind it in the file.
#[derive(Clone, Copy)]
struct Unpacked {
    len: usize,
    next: usize,
}

// A case: what is given, what is to be answered, and the place behind it in the file. The strings stand in the buffer.
#[derive(Clone, Copy)]
struct Case {
    options: u32,
    start: usize,
    page: usize,
    bundle: usize,
    plan: usize,
    number: u32,
    name: usize,
    line: u64,
    column: u64,
    text: usize,
    next: usize,
}

fn wide(x: u8) -> usize
    ensures { result < 256 }
{
    x as usize
}

// The byte at a place; 0 behind the end.
fn get(f: &[u8], at: usize) -> u8 {
    if at < f.len() {
        return f[at];
    }
    0
}

// Sets the byte at a place, if the buffer has it.
fn set(out: &mut [u8], at: usize, x: u8) {
    if at < out.len() {
        out[at] = x;
    }
}

fn byte_at(f: &[u8], at: usize) -> usize
    ensures { result < 256 }
{
    wide(get(f, at))
}

// Two bytes, the low one first.
fn short_at(f: &[u8], at: usize) -> usize
    requires { at ≤ 524288 }
    ensures { result < 65536 }
{
    byte_at(f, at) + 256 * byte_at(f, at + 1)
}

// Four bytes, the low one first.
fn number_at(f: &[u8], at: usize) -> usize
    requires { at ≤ 262144 }
    ensures { result < 4294967296 }
{
    short_at(f, at) + 65536 * short_at(f, at + 2)
}

// A place of the file, or its end.
fn within(at: usize) -> usize
    ensures { result ≤ 262144 }
{
    if at < END {
        return at;
    }
    END
}

// Copies n bytes of the file to the buffer's place `to`, as many as fit.
fn plain(f: &[u8], at: usize, n: usize, out: &mut [u8], to: usize)
    requires { at ≤ 524288 × n < 65536 × to ≤ 524288 }
{
    for i in 0..n {
        set(out, to + i, get(f, at + i));
    }
}

// The byte so far back from a place; 0 in front of the first.
fn before(out: &[u8], at: usize, back: usize) -> u8 {
    if back <= at {
        return get(out, at - back);
    }
    0
}

// Repeats n bytes of the buffer before its place `to`, from so far back, as many as fit.
fn repeated(out: &mut [u8], to: usize, n: usize, back: usize)
    requires { n < 65536 × to ≤ 524288 }
{
    for i in 0..n {
        let x = before(out, to + i, back);
        set(out, to + i, x);
    }
}

// A string of at most `room` bytes, to the buffer's place `to`: its length, then pieces of plain bytes and of repeated ones.
fn unpack(f: &[u8], from: usize, out: &mut [u8], to: usize, room: usize) -> Unpacked
    requires { from ≤ 262144 × to ≤ 131328 × room ≤ 65600 }
    ensures { (result.next ≤ 262144) × (result.len ≤ room) }
{
    let size = number_at(f, from);
    if room < size {
        return Unpacked { len: 0, next: END };
    }
    let mut at = within(from + 4);
    let mut len: usize = 0;
    for _ in 0..65536 {
        if size <= len {
            return Unpacked {
                len: size,
                next: at,
            };
        }
        let n = short_at(f, at);
        plain(f, at + 2, n, out, to + len);
        let count = short_at(f, at + 2 + n);
        let back = short_at(f, at + 4 + n);
        repeated(out, to + len + n, count, back);
        len = len + n + count;
        at = within(at + 6 + n);
    }
    Unpacked { len: 0, next: END }
}

// A length that a page may have.
fn page_length(n: usize) -> usize
    ensures { result ≤ 65600 }
{
    if n < LONG {
        return n;
    }
    LONG
}

fn case_at(f: &[u8], from: usize, strings: &mut [u8]) -> Case
    requires { from ≤ 262144 }
    ensures { Fits result }
{
    let start = unpack(f, within(from + 1), strings, START, SHORT);
    let bundle = unpack(f, within(start.next + 4), strings, BUNDLE, LONG);
    let plan = unpack(f, bundle.next, strings, PLAN, LONG);
    let name = unpack(f, within(plan.next + 1), strings, NAME, SHORT);
    let text = unpack(f, within(name.next + 8), strings, TEXT, LONG);
    Case {
        options: get(f, from) as u32,
        start: start.len,
        page: page_length(number_at(f, start.next)),
        bundle: bundle.len,
        plan: plan.len,
        number: get(f, plan.next) as u32,
        name: name.len,
        line: number_at(f, name.next) as u64,
        column: number_at(f, within(name.next + 4)) as u64,
        text: text.len,
        next: text.next,
    }
}

// Whether all is zero from the place on.
fn zero_from(b: &[u8], at: usize) -> bool {
    for i in at..b.len() {
        if b[i] != 0 {
            return false;
        }
    }
    true
}

fn all_zero(b: &[u64]) -> bool {
    for x in b {
        if *x != 0 {
            return false;
        }
    }
    true
}

fn scratch_zero(places: &[u64], entries: &[u64], texts: &[u8], indent: &[u8]) -> bool {
    all_zero(places) & all_zero(entries) & zero_from(texts, 0) & zero_from(indent, 0)
}

// Whether the first n bytes of a are those of b from the place on.
fn same(a: &[u8], b: &[u8], at: usize, n: usize) -> bool
    requires { at ≤ 131328 × n ≤ 65600 }
{
    for i in 0..n {
        if get(a, i) != get(b, at + i) {
            return false;
        }
    }
    true
}

// Whether the answer's template is the case's: none for 0 to 10, and otherwise its name.
fn same_name(bundle: &[u8], strings: &[u8], c: Case, r: Answer) -> bool
    requires { Fits c }
{
    if c.number <= 10 {
        return r.template == 0;
    }
    let mut name = [170u8; 64];
    let n = handlebars::handlebars_template_name(bundle, r.template, &mut name);
    if r.template == 0 {
        return false;
    }
    if n != c.name {
        return false;
    }
    same(&name, strings, NAME, c.name) & zero_from(&name, n)
}

// Whether number, line, column and length are the case's, and the page holds its text and zeros behind it.
fn same_page(strings: &[u8], c: Case, r: Answer, page: &[u8]) -> bool
    requires { Fits c }
{
    if r.number != c.number {
        return false;
    }
    if r.line != c.line {
        return false;
    }
    if r.column != c.column {
        return false;
    }
    if r.length != c.text {
        return false;
    }
    same(page, strings, TEXT, c.text) & zero_from(page, c.text)
}

// Draws a case: whether it is answered as stored.
fn answered(
    bundle: &[u8],
    plan: &[u8],
    start: &[u8],
    strings: &[u8],
    c: Case,
    page: &mut [u8],
    places: &mut [u64],
    entries: &mut [u64],
    texts: &mut [u8],
    indent: &mut [u8],
) -> bool
    requires { Fits c }
{
    let r = handlebars::handlebars_render(
        bundle, plan, start, c.options, page, places, entries, texts, indent,
    );
    if !scratch_zero(places, entries, texts, indent) {
        return false;
    }
    same_page(strings, c, r, page) & same_name(bundle, strings, c, r)
}

// The same on buffers that hold other bytes before.
fn attempt(bundle: &[u8], plan: &[u8], start: &[u8], strings: &[u8], c: Case) -> bool
    requires { Fits c }
{
    let mut page = [170u8; 65600];
    let mut places = [170u64; 4096];
    let mut entries = [170u64; 8192];
    let mut texts = [170u8; 16384];
    let mut indent = [170u8; 256];
    let k = c.page;
    answered(
        bundle,
        plan,
        start,
        strings,
        c,
        &mut page[..k],
        &mut places,
        &mut entries,
        &mut texts,
        &mut indent,
    )
}

// The case whose strings stand in the buffer.
fn agrees(strings: &[u8], c: Case) -> bool
    requires { Fits c × (196928 ≤ length strings.now) }
{
    let bundle = BUNDLE + c.bundle;
    let plan = PLAN + c.plan;
    let start = c.start;
    attempt(
        &strings[BUNDLE..bundle],
        &strings[PLAN..plan],
        &strings[..start],
        strings,
        c,
    )
}

// Whether a call with a short scratch buffer is refused with 1, before the empty bundle is with 3.
fn refused(
    page: &mut [u8],
    places: &mut [u64],
    entries: &mut [u64],
    texts: &mut [u8],
    indent: &mut [u8],
) -> bool {
    let r = handlebars::handlebars_render(b"", b"", b"", 0, page, places, entries, texts, indent);
    if !scratch_zero(places, entries, texts, indent) {
        return false;
    }
    if r.number != 1 {
        return false;
    }
    zero_from(page, 0) & (r.template == 0) & (r.line == 0) & (r.column == 0) & (r.length == 0)
}

// The same by the lengths of places, entries, texts and indent.
fn refuses(p: usize, e: usize, t: usize, i: usize) -> bool
    requires { p ≤ 4096 × e ≤ 8192 × t ≤ 16384 × i ≤ 256 }
{
    let mut page = [170u8; 16];
    let mut places = [170u64; 4096];
    let mut entries = [170u64; 8192];
    let mut texts = [170u8; 16384];
    let mut indent = [170u8; 256];
    refused(
        &mut page,
        &mut places[..p],
        &mut entries[..e],
        &mut texts[..t],
        &mut indent[..i],
    )
}

// A count that never passes its type.
fn one_more(n: usize) -> usize {
    if n < END {
        return n + 1;
    }
    n
}

fn bump(counts: &mut [usize], n: usize) {
    if n < counts.len() {
        counts[n] = one_more(counts[n]);
    }
}

// Counts a case under its number; one that agrees is counted once more, 32 places on.
fn count(counts: &mut [usize], number: usize, agreed: bool)
    requires { number < 4294967296 }
{
    bump(counts, number);
    if agreed {
        bump(counts, number + 32);
    }
}

fn print_unless(rt: &impl Print, agreed: bool, file: u8, place: usize) -> io::Result<()> {
    if agreed {
        return Ok(());
    }
    println!(rt; "file {file}, case {place} differs")
}

// The cases of a file.
fn replay(
    rt: &impl Print,
    file: u8,
    f: &[u8],
    strings: &mut [u8],
    counts: &mut [usize],
) -> io::Result<()>
    requires { 196928 ≤ length strings.old }
{
    let cases = number_at(f, 0);
    let mut at: usize = 4;
    for i in 0..cases {
        let c = case_at(f, at, strings);
        let agreed = agrees(strings, c);
        count(counts, c.number as usize, agreed);
        print_unless(rt, agreed, file, i)?;
        at = c.next;
    }
    Ok(())
}

// Scratch buffers that are one short, each in turn.
fn short_scratch(counts: &mut [usize]) {
    count(counts, 1, refuses(4095, 8192, 16384, 256));
    count(counts, 1, refuses(4096, 8191, 16384, 256));
    count(counts, 1, refuses(4096, 8192, 16383, 256));
    count(counts, 1, refuses(4096, 8192, 16384, 255));
}

// Fills the buffer from a file: how many bytes it took. A file that cannot be opened counts as empty.
fn load(rt: &impl Files, path: &str, buf: &mut [u8]) -> io::Result<usize>
    ensures { IfOk result (λ n. n ≤ length buf.new) }
{
    let Ok(mut file) = fs::open(rt, path) else {
        return Ok(0);
    };
    let mut n: usize = 0;
    for _ in 0..u64::MAX {
        let taken = file.read(&mut buf[n..])?;
        if taken == 0 {
            break;
        }
        n += taken;
    }
    Ok(n)
}

// The file `cases-00.bin` and so on.
fn file_name(alloc: Global, k: u8) -> Result<String, AllocError>
    requires { k < 100 }
{
    format!(in alloc; "cases-{k:02}.bin")
}

fn one_file(
    rt: &(impl Print + Files),
    k: u8,
    path: &str,
    file: &mut [u8],
    strings: &mut [u8],
    counts: &mut [usize],
) -> io::Result<()>
    requires { 196928 ≤ length strings.old }
{
    let n = load(rt, path, file)?;
    replay(rt, k, &file[..n], strings, counts)
}

// The files of the list; those that are not there have no cases.
fn all_files(
    rt: &(impl Print + Files + AllocGlobal),
    file: &mut [u8],
    strings: &mut [u8],
    counts: &mut [usize],
) -> io::Result<()>
    requires { 196928 ≤ length strings.old }
{
    for k in 0..99 {
        let name = file_name(rt.alloc(), k)?;
        one_file(rt, k, name.as_str(), file, strings, counts)?;
    }
    Ok(())
}

fn print_count(rt: &impl Print, number: usize, agreed: usize, all: usize) -> io::Result<()> {
    println!(rt; "{number}: {agreed} of {all}")
}

fn print_counts(rt: &impl Print, counts: &[usize; 64]) -> io::Result<()> {
    for n in 0..32 {
        let all = counts[n];
        if 0 < all {
            print_count(rt, n, counts[n + 32], all)?;
        }
    }
    Ok(())
}

fn main(rt: HostRuntime) -> io::Result<()> {
    let mut file = [0u8; 262144];
    let mut strings = [0u8; 196928];
    let mut counts = [0usize; 64];
    short_scratch(&mut counts);
    all_files(&rt, &mut file, &mut strings, &mut counts)?;
    one_file(&rt, 99, "pages.bin", &mut file, &mut strings, &mut counts)?;
    print_counts(&rt, &counts)
}
