// Installing at its edges: each line says what was lent and what the call told.
#![tactic(auto)]

use print::RefusalLine;
use std::io;

// Installs the list and prints what was told.
fn told<R: Print>(rt: &R, mem: &mut [u8], list: &[u8], address: u32) -> io::Result<()> {
    print!(rt; "L {}, {} bytes at {address}: ", mem.len(), list.len())?;
    match vram::install(mem, list, address) {
        Ok(()) => println!(rt; "installed"),
        Err(why) => rt.println(RefusalLine::from(why)),
    }
}

// Three bytes over the top of memory, and what the board reads there and at the two places beside them. In the smallest memory
// 524287 is cell 16383.
fn over_the_top<R: Print>(rt: &R, mem: &mut [u8]) -> io::Result<()> {
    told(rt, mem, b"\x11\x22\x33", 524287)?;
    for address in [524286, 524287, 16383, 0, 1, 2] {
        println!(rt; "  {address} holds {:02X}", vram::byte_at(mem, address, 0))?;
    }
    Ok(())
}

// The edges of the list's length and of the address, and the order of the refusals.
fn edges<R: Print>(rt: &R, mem: &mut [u8]) -> io::Result<()> {
    let list = [7u8; 5281];
    for (n, address) in [
        (0, 524287),
        (0, 524288),
        (5280, 524287),
        (5281, 524287),
        (5281, 524288),
    ] {
        if let Some(first) = list.get(..n) {
            told(rt, mem, first, address)?;
        }
    }
    Ok(())
}

// Lengths that no board has: none, too short, or with more bits than one set; and the shortest that one has. The same byte, into
// the first bytes of a memory.
fn lengths<R: Print>(rt: &R, mem: &mut [u8]) -> io::Result<()> {
    for n in [0, 8192, 16383, 16384, 24576, 524287] {
        if let Some(first) = mem.get_mut(..n) {
            told(rt, first, b"\x07", 0)?;
        }
    }
    Ok(())
}

// One bit set, and above the range.
fn too_long<R: Print>(rt: &R) -> io::Result<()> {
    let mut mem = [0u8; 1048576];
    told(rt, &mut mem, b"\x07", 0)
}

// The order of the refusals: all three hold of a short memory, and 1 is told.
fn order<R: Print>(rt: &R) -> io::Result<()> {
    told(rt, &mut [0; 100], &[7; 6000], 600000)
}

// What stands in the largest memory.
fn in_the_largest<R: Print>(rt: &R, mem: &mut [u8]) -> io::Result<()> {
    over_the_top(rt, mem)?;
    edges(rt, mem)?;
    lengths(rt, mem)
}

fn largest<R: Print>(rt: &R) -> io::Result<()> {
    let mut mem = [0u8; 524288];
    in_the_largest(rt, &mut mem)
}

fn main(rt: HostRuntime) -> io::Result<()> {
    let mut small = [0u8; 16384];
    over_the_top(&rt, &mut small)?;
    edges(&rt, &mut small)?;
    largest(&rt)?;
    too_long(&rt)?;
    order(&rt)
}
