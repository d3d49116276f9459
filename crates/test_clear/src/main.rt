// Clearing by fixed vectors: every width, from the front, from a place on, from the last entry, from the end, past it; then whole; and nothing.
#![tactic(auto)]

use std::io;

fn put(rt: &impl Print, x: u64) -> io::Result<()> {
    print!(rt; "{x} ")
}

fn end_line(rt: &impl Print) -> io::Result<()> {
    println!(rt)
}

fn put_u8(rt: &impl Print, x: u8) -> io::Result<()> {
    put(rt, x as u64)
}

fn show_u8(rt: &impl Print, b: &[u8; 3]) -> io::Result<()> {
    put_u8(rt, b[0])?;
    put_u8(rt, b[1])?;
    put_u8(rt, b[2])
}

fn cleared_u8(rt: &impl Print, at: usize) -> io::Result<()> {
    let mut b = [253u8, 254, 255];
    clear::clear_from(&mut b, at, 0);
    show_u8(rt, &b)?;
    clear::clear(&mut b, 0);
    show_u8(rt, &b)?;
    end_line(rt)
}

fn put_u16(rt: &impl Print, x: u16) -> io::Result<()> {
    put(rt, x as u64)
}

fn show_u16(rt: &impl Print, b: &[u16; 3]) -> io::Result<()> {
    put_u16(rt, b[0])?;
    put_u16(rt, b[1])?;
    put_u16(rt, b[2])
}

fn cleared_u16(rt: &impl Print, at: usize) -> io::Result<()> {
    let mut b = [65533u16, 65534, 65535];
    clear::clear_from(&mut b, at, 0);
    show_u16(rt, &b)?;
    clear::clear(&mut b, 0);
    show_u16(rt, &b)?;
    end_line(rt)
}

fn put_u32(rt: &impl Print, x: u32) -> io::Result<()> {
    put(rt, x as u64)
}

fn show_u32(rt: &impl Print, b: &[u32; 3]) -> io::Result<()> {
    put_u32(rt, b[0])?;
    put_u32(rt, b[1])?;
    put_u32(rt, b[2])
}

fn cleared_u32(rt: &impl Print, at: usize) -> io::Result<()> {
    let mut b = [4294967293u32, 4294967294, 4294967295];
    clear::clear_from(&mut b, at, 0);
    show_u32(rt, &b)?;
    clear::clear(&mut b, 0);
    show_u32(rt, &b)?;
    end_line(rt)
}

fn show_u64(rt: &impl Print, b: &[u64; 3]) -> io::Result<()> {
    put(rt, b[0])?;
    put(rt, b[1])?;
    put(rt, b[2])
}

fn cleared_u64(rt: &impl Print, at: usize) -> io::Result<()> {
    let mut b = [
        18446744073709551613u64,
        18446744073709551614,
        18446744073709551615,
    ];
    clear::clear_from(&mut b, at, 0);
    show_u64(rt, &b)?;
    clear::clear(&mut b, 0);
    show_u64(rt, &b)?;
    end_line(rt)
}

// A part that has nothing in it.
fn none(b: &mut [u8]) {
    clear::clear(&mut b[..0], 0);
    clear::clear_from(&mut b[..0], 0, 0);
}

fn main(rt: HostRuntime) -> io::Result<()> {
    cleared_u8(&rt, 0)?;
    cleared_u8(&rt, 1)?;
    cleared_u8(&rt, 2)?;
    cleared_u8(&rt, 3)?;
    cleared_u8(&rt, 4)?;
    cleared_u8(&rt, 18446744073709551615)?;
    cleared_u16(&rt, 0)?;
    cleared_u16(&rt, 1)?;
    cleared_u16(&rt, 2)?;
    cleared_u16(&rt, 3)?;
    cleared_u16(&rt, 4)?;
    cleared_u16(&rt, 18446744073709551615)?;
    cleared_u32(&rt, 0)?;
    cleared_u32(&rt, 1)?;
    cleared_u32(&rt, 2)?;
    cleared_u32(&rt, 3)?;
    cleared_u32(&rt, 4)?;
    cleared_u32(&rt, 18446744073709551615)?;
    cleared_u64(&rt, 0)?;
    cleared_u64(&rt, 1)?;
    cleared_u64(&rt, 2)?;
    cleared_u64(&rt, 3)?;
    cleared_u64(&rt, 4)?;
    cleared_u64(&rt, 18446744073709551615)?;
    let mut b = [253u8, 254, 255];
    none(&mut b);
    show_u8(&rt, &b)?;
    end_line(&rt)
}
