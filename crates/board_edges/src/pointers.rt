// A pointer drawn in mode 5 and taken away by drawing it again (document 02, A13): where that is allowed, and where it is not.
use super::blitlist::{self, Bench};
use block::Block;
use boardtext::boards::{put, started};
use std::io;

fn compare<R: Print>(rt: &R, one: &[u8], two: &[u8]) -> io::Result<()> {
    println!(rt; "  {}the same memory", if one == two { "" } else { "not " })
}

// Cells from 2100h on, and a list of one block at 0.
fn prepare(mem: &mut [u8], cells: &[u8], block: Block) {
    put(mem, cells, 0x2100);
    blitlist::lay(mem, 0, block);
}

// Drawn to the end twice, on one board.
fn draw_twice<R: Print>(bench: &mut Bench<R>, name: &str, at: u32) -> io::Result<()> {
    let board = bench.first(name, 100)?;
    bench.cells(at)?;
    bench.ran("again", board.write(0x53, 1).state, 100)?;
    bench.cells(at)
}

// The same, and whether memory is as it was.
fn twice<R: Print>(rt: &R, name: &str, cells: &[u8], block: Block, at: u32) -> io::Result<()> {
    let mut mem = [0u8; 16384];
    prepare(&mut mem, cells, block);
    let before = mem;
    draw_twice(&mut Bench { rt, mem: &mut mem }, name, at)?;
    compare(rt, &mem, &before)
}

// One byte from the cell behind it, in mode 5.
fn pointer() -> Block {
    let mut block = blitlist::plain(0x21, 0x21);
    block.source.adr0 = 1;
    block.control = 5;
    block
}

// Two bytes, both on the cell that holds 9, from 3 and 5. Every colour collides.
fn repeated() -> Block {
    let mut block = pointer();
    block.dest.x = 0;
    block.width0 = 1;
    block.hitmask = 255;
    block
}

// In one run, and then in three.
fn in_one_and_three<R: Print>(bench: &mut Bench<R>) -> io::Result<()> {
    bench.first("two bytes on one cell", 100)?;
    bench.cells(0x2100)?;
    bench.in_runs(&[
        ("again, the load", 1),
        ("again, a byte", 1),
        ("again, the last byte", 1),
    ])?;
    bench.cells(0x2100)
}

// Destinations may repeat, and the runs be divided; the collision code is another.
fn on_one_cell<R: Print>(rt: &R) -> io::Result<()> {
    let mut mem = [0u8; 16384];
    prepare(&mut mem, b"\x09\x03\x05", repeated());
    let before = mem;
    in_one_and_three(&mut Bench { rt, mem: &mut mem })?;
    compare(rt, &mem, &before)
}

// The source is the destination: 3 is gone.
fn on_its_source<R: Print>(rt: &R) -> io::Result<()> {
    let mut block = pointer();
    block.source.adr0 = 0;
    twice(rt, "mode 5 on its source", b"\x03", block, 0x2100)
}

// With AND 0 that source is not read.
fn without_source<R: Print>(rt: &R) -> io::Result<()> {
    let mut block = blitlist::fill(0x21, 77);
    block.source.adr1 = 0x21;
    block.width0 = 1;
    block.control = 5;
    twice(
        rt,
        "mode 5 on its source, AND 0",
        b"\x03\x01",
        block,
        0x2100,
    )
}

// The destination, 16,400, is the cell of the block's own XOR mask.
fn on_its_block<R: Print>(rt: &R) -> io::Result<()> {
    let mut block = blitlist::fill(0x40, 77);
    block.dest.adr0 = 16;
    block.control = 5;
    twice(rt, "mode 5 on its XOR mask", b"", block, 16)
}

// Mode 4 does not undo itself.
fn in_mode_4<R: Print>(rt: &R) -> io::Result<()> {
    let block = Block {
        control: 4,
        ..pointer()
    };
    twice(rt, "mode 4 drawn twice", b"\x09\x03", block, 0x2100)
}

// Three bytes from 2104h to 2100h: the list at 0.
fn first() -> Block {
    let mut block = pointer();
    block.source.adr0 = 4;
    block.width0 = 2;
    block
}

// Three bytes of 70h to page 21h: the list at 256.
fn second(low: u8) -> Block {
    let mut block = blitlist::fill(0x21, 0x70);
    block.dest.adr0 = low;
    block.width0 = 2;
    block.control = 5;
    block
}

// One of the two lists.
fn draw<R: Print>(bench: &mut Bench<R>, name: &str, part: &str, list: u32) -> io::Result<()> {
    print!(bench.rt; "{name}, ")?;
    bench.ran(part, started(list), 100)?;
    bench.cells(0x2100)
}

fn in_both_orders<R: Print>(rt: &R, name: &str, low: u8) -> io::Result<()> {
    let mut one = [0u8; 16384];
    prepare(&mut one, b"\x10\x10\x10\x10\x01\x02\x04", first());
    blitlist::lay(&mut one, 256, second(low));
    let mut two = one;
    let bench = &mut Bench { rt, mem: &mut one };
    draw(bench, name, "first", 0)?;
    draw(bench, name, "then second", 256)?;
    let bench = &mut Bench { rt, mem: &mut two };
    draw(bench, name, "second", 256)?;
    draw(bench, name, "then first", 0)?;
    compare(rt, &one, &two)
}

pub fn all<R: Print>(rt: &R) -> io::Result<()> {
    on_one_cell(rt)?;
    on_its_source(rt)?;
    without_source(rt)?;
    on_its_block(rt)?;
    in_mode_4(rt)?;
    in_both_orders(rt, "two that overlap", 1)?;
    in_both_orders(rt, "one on the other's source", 4)
}
