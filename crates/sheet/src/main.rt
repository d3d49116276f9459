// The program: draws the template `main` of bundle.bin over plan.json, both in the folder that it is run in, and writes the page. Where no page
// is drawn it writes one line: the number, and for 11 to 25 also the template's name, the line and the column.
#![tactic(auto)]

ghost use Rattle.std.specs.Prelude.{◌≤◌, IfOk, length};

use expand::Options;
use handlebars::Answer;
use std::io::{Read, Write};
use std::rt::Files;
use std::{fs, io};

// Fills the buffer from a file: how many bytes it took. A file that cannot be opened counts as empty.
fn load(rt: &impl Files, path: &str, buf: &mut [u8]) -> io::Result<usize>
    ensures { IfOk result (λ n. n ≤ length buf.new) }
{
    let Ok(mut file) = fs::open(rt, path) else {
        return Ok(0);
    };
    let mut n: usize = 0;
    for _ in 0..u64::MAX {
        let taken = file.read(&mut buf[n..])?;
        if taken == 0 {
            break;
        }
        n += taken;
    }
    Ok(n)
}

fn print_number(rt: &impl Print, n: u64) -> io::Result<()> {
    print!(rt; " {n}")
}

// The name of the answer's template; the buffer holds it meanwhile.
fn print_name(rt: &impl Print, bundle: &[u8], template: usize, buf: &mut [u8]) -> io::Result<()> {
    let n = handlebars::handlebars_template_name(bundle, template, buf);
    print!(rt; " ")?;
    io::writer(rt).write_all(&buf[..n])
}

fn print_refusal(rt: &impl Print, bundle: &[u8], r: Answer, buf: &mut [u8]) -> io::Result<()> {
    print!(rt; "{}", r.number)?;
    if r.number <= 10 {
        println!(rt)?;
        return Ok(());
    }
    print_name(rt, bundle, r.template, buf)?;
    print_number(rt, r.line)?;
    print_number(rt, r.column)?;
    println!(rt)
}

// Draws and writes.
fn show(
    rt: &impl Print,
    bundle: &[u8],
    plan: &[u8],
    page: &mut [u8],
    places: &mut [u64],
    entries: &mut [u64],
    texts: &mut [u8],
    indent: &mut [u8],
) -> io::Result<()> {
    let options = Options {
        strict: false,
        recursive_lookup: false,
        guide_truth: false,
    };
    let r = handlebars::render(
        bundle, plan, b"main", options, page, places, entries, texts, indent,
    );
    if r.number == 0 {
        let n = r.length;
        io::writer(rt).write_all(&page[..n])?;
        return Ok(());
    }
    print_refusal(rt, bundle, r, page)
}

fn main(rt: HostRuntime) -> io::Result<()> {
    // one byte more than a file may have, so that a longer one is told
    let mut bundle = [0u8; 65537];
    let mut plan = [0u8; 65537];
    let mut page = [0u8; 65536];
    let mut places = [0u64; 4096];
    let mut entries = [0u64; 8192];
    let mut texts = [0u8; 16384];
    let mut indent = [0u8; 256];
    let n = load(&rt, "bundle.bin", &mut bundle)?;
    let m = load(&rt, "plan.json", &mut plan)?;
    show(
        &rt,
        &bundle[..n],
        &plan[..m],
        &mut page,
        &mut places,
        &mut entries,
        &mut texts,
        &mut indent,
    )
}
