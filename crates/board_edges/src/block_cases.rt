// What one block does: the modes and their collisions, zoom, pattern and steps. Each line says what ran, what was reported and
// how the board stands; then cells of memory.
use super::blitlist::{self, Bench};
use super::flat;
use block::Block;
use board::Board;
use boardtext::boards::{put, started};
use std::io;

// A byte s on a byte d at the beginning of a page, with a collision mask.
fn hits<R: Print>(
    bench: &mut Bench<R>,
    name: &str,
    page: u8,
    d: u8,
    s: u8,
    hitmask: u8,
    control: u8,
) -> io::Result<()> {
    let at = 256 * u32::from(page);
    put(bench.mem, &[d], at);
    let byte = Block {
        hitmask,
        control,
        ..blitlist::fill(page, s)
    };
    bench.single(name, 0, byte, at)
}

// One byte in each mode: the destination holds 3A, and every colour collides.
fn modes<R: Print>(bench: &mut Bench<R>, s: u8) -> io::Result<()> {
    for control in 0..8 {
        print!(bench.rt; "mode {control}, s {s}")?;
        hits(bench, "", 0x16, 0x3A, s, 255, control)?;
    }
    Ok(())
}

// When a byte collides, and with which code.
fn codes<R: Print>(bench: &mut Bench<R>) -> io::Result<()> {
    for (name, d, s, hitmask, control) in [
        // The accesses of mode 1 go by the mask alone, those of mode 6 do not.
        ("mode 1, mask 0", 33, 1, 0, 1),
        ("mode 1, mask 1, d 0", 0, 1, 1, 1),
        ("mode 6, mask 0", 33, 1, 0, 6),
        // No collision where s is 0, nor in mode 0.
        ("mode 4, s 0, d 33", 33, 0, 255, 4),
        ("mode 0, d 33", 33, 1, 255, 0),
        // The code is the destination before the write.
        ("200 + 100", 200, 100, 0x40, 2),
        ("32 AND 1", 32, 1, 2, 4),
        ("32 XOR 1", 32, 1, 2, 5),
    ] {
        hits(bench, name, 0x17, d, s, hitmask, control)?;
    }
    Ok(())
}

// 55h in mode 6, on 90h and then on 0Ah.
fn two_nibbles(mem: &mut [u8]) {
    put(mem, b"\x90\x0A", 0x1800);
    let two = Block {
        width0: 1,
        hitmask: 0x30,
        control: 6,
        ..blitlist::fill(0x18, 0x55)
    };
    blitlist::lay(mem, 0, two);
}

// Nibbles collide apart, and the other nibble of the code stays.
fn nibbles<R: Print>(bench: &mut Bench<R>) -> io::Result<()> {
    two_nibbles(bench.mem);
    bench.in_runs(&[("nibbles 55 on 90", 2), ("nibbles 55 on 0A", 1)])?;
    bench.cells(0x1800)
}

// A board started at 0 that has a collision code.
fn with_code(code: u8) -> Board {
    let mut board = started(0);
    board.blitter.note.code = code;
    board
}

fn other_nibble<R: Print>(bench: &mut Bench<R>) -> io::Result<()> {
    put(bench.mem, b"\x1F", 0x1800);
    let one = Block {
        hitmask: 0x80,
        control: 6,
        ..blitlist::fill(0x18, 0x10)
    };
    blitlist::lay(bench.mem, 0, one);
    bench.ran("nibbles 10 on 1F, code 51", with_code(0x33), 9)?;
    bench.cells(0x1800)
}

// Later collisions replace earlier ones, across the blocks of a list.
fn two_hits<R: Print>(bench: &mut Bench<R>) -> io::Result<()> {
    put(bench.mem, b"\x21\x28", 0x1900);
    let first = Block {
        hitmask: 255,
        control: 9,
        ..blitlist::fill(0x19, 1)
    };
    let mut second = first;
    second.dest.adr0 = 1;
    second.control = 1;
    blitlist::lay(bench.mem, 21, second);
    bench.single("33 then 40", 0, first, 0x1900)
}

// Mode 7 takes its ticks, reads nothing and ends as any mode.
fn mode_7<R: Print>(bench: &mut Bench<R>) -> io::Result<()> {
    let none = Block {
        width0: 2,
        height: 1,
        zoom: 0x11,
        control: 7,
        ..blitlist::plain(0x20, 0x19)
    };
    blitlist::lay(bench.mem, 0, none);
    let board = started(0).write(0x54, 1).state;
    bench.ran("mode 7, zoomed", board, 100)?;
    Ok(())
}

// A zoomed copy of two rows of two bytes.
fn zoomed<R: Print>(bench: &mut Bench<R>, name: &str, zoom: u8) -> io::Result<()> {
    let mut block = Block {
        width0: 1,
        height: 1,
        zoom,
        ..blitlist::plain(0x20, 0x1A)
    };
    block.source.y0 = 2;
    block.dest.y0 = 16;
    bench.single(name, 0, block, 0x1A00)?;
    for at in [0x1A10, 0x1A20, 0x1A30] {
        bench.cells(at)?;
    }
    Ok(())
}

// Rows from a pattern.
fn patterns<R: Print>(bench: &mut Bench<R>) -> io::Result<()> {
    for (name, width0, zoom, pattern) in [
        ("zoom 2, pattern 2", 3, 1, 0x81),
        ("pattern C3", 7, 0, 0xC3),
        ("pattern 43", 7, 0, 0x43),
    ] {
        let block = Block {
            width0,
            zoom,
            pattern,
            ..blitlist::plain(0x20, 0x1B)
        };
        bench.single(name, 0, block, 0x1B00)?;
    }
    Ok(())
}

// The source is read anew for each destination byte.
fn anew<R: Print>(bench: &mut Bench<R>) -> io::Result<()> {
    put(bench.mem, b"\x01\x00\x00\x00", 0x2000);
    let same = Block {
        zoom: 1,
        xormask: 1,
        ..blitlist::plain(0x20, 0x20)
    };
    bench.single("onto its own source", 0, same, 0x2000)
}

// A copy over itself goes byte by byte.
fn over_itself<R: Print>(bench: &mut Bench<R>) -> io::Result<()> {
    put(bench.mem, b"\x07\x00\x00\x00", 0x2000);
    let mut over = blitlist::plain(0x20, 0x20);
    over.dest.adr0 = 1;
    over.width0 = 3;
    bench.single("over itself", 0, over, 0x2000)
}

// Two rows with a step in y. The list is at 100, since a row may be at 0.
fn steps<R: Print>(bench: &mut Bench<R>) -> io::Result<()> {
    for (name, d, y0, y1, at) in [
        ("step y FF 1F", 0, 0xFF, 0x1F, 16380),
        ("step y FF 3F", 0x1D, 0xFF, 0x3F, 0x1CFC),
        ("step y 00 10", 0x1E, 0, 0x10, 0xE00),
        ("step y FF 0F", 0x1E, 0xFF, 0x0F, 0x2DFC),
    ] {
        let mut rows = blitlist::fill(d, 1);
        rows.dest.y0 = y0;
        rows.dest.y1 = y1;
        rows.height = 1;
        bench.single(name, 100, rows, at)?;
    }
    Ok(())
}

// Modes and collisions.
fn struck<R: Print>(bench: &mut Bench<R>) -> io::Result<()> {
    modes(bench, 0x50)?;
    modes(bench, 0)?;
    codes(bench)?;
    nibbles(bench)?;
    other_nibble(bench)?;
    two_hits(bench)?;
    mode_7(bench)
}

// Zoom, pattern and steps. What is copied stands at 2000h; 16381 holds a byte that a step must spare.
fn shaped<R: Print>(bench: &mut Bench<R>) -> io::Result<()> {
    put(bench.mem, b"\x01\x02\x03\x04", 0x2000);
    put(bench.mem, b"\x01", 16381);
    zoomed(bench, "zoom 10", 0x10)?;
    zoomed(bench, "zoom 89", 0x89)?;
    patterns(bench)?;
    anew(bench)?;
    over_itself(bench)?;
    steps(bench)
}

// All of them, in a memory of their own.
pub fn all<R: Print>(rt: &R) -> io::Result<()> {
    let mut mem = [0u8; 16384];
    let bench = &mut Bench { rt, mem: &mut mem };
    struck(bench)?;
    shaped(bench)?;
    flat::all(bench)
}
