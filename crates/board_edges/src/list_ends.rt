// When a list ends (document 02, A10). The largest block, in nine runs, is in the program itself.
use super::blitlist::{self, Bench};
use block::Block;
use boardtext::boards::started;
use std::io;

// A fill of 3 by 2 bytes at 2000h, zoomed 2 by 3, and one of one byte at 3000h: 37 ticks and 2.
fn two_fills(mem: &mut [u8]) {
    let mut first = Block {
        width0: 2,
        height: 1,
        zoom: 0x21,
        control: 8,
        ..blitlist::fill(0x20, 1)
    };
    first.dest.y0 = 16;
    blitlist::lay(mem, 0, first);
    blitlist::lay(mem, 21, blitlist::fill(0x30, 2));
}

// Idle after 39 ticks, however they are divided into runs: three runs, one tick short of them; the last tick, and none behind it.
fn in_five_runs<R: Print>(bench: &mut Bench<R>) -> io::Result<()> {
    two_fills(bench.mem);
    let mut board = started(0);
    for budget in [10, 20, 8, 1, 5] {
        print!(bench.rt; "39 ticks, run of {budget}")?;
        board = bench.ran("", board, budget)?;
    }
    bench.cells(0x2050)?;
    bench.cells(0x3000)
}

// L is 16,384, so the cell of 16,384 is the list's own first byte,
fn own_byte<R: Print>(bench: &mut Bench<R>) -> io::Result<()> {
    let over = blitlist::fill(0x40, 0x77);
    bench.single("list at 0, destination 16384", 0, over, 0)
}

// and that of 16,417 is the width of its second block, which then takes 5 ticks and not 2.
fn own_width<R: Print>(bench: &mut Bench<R>) -> io::Result<()> {
    let mut over = blitlist::fill(0x40, 3);
    over.dest.adr0 = 33;
    over.control = 8;
    blitlist::lay(bench.mem, 21, blitlist::fill(0x30, 2));
    bench.single("list at 0, destination 16417", 0, over, 0x3000)
}

// A list over the top of memory ends like any other.
fn over_the_top<R: Print>(bench: &mut Bench<R>) -> io::Result<()> {
    let four = Block {
        width0: 3,
        ..blitlist::fill(0x14, 0x5A)
    };
    bench.single("fill of 4, list at 524280", 524280, four, 0x1400)
}

// All of them, in a memory of their own.
pub fn all<R: Print>(rt: &R) -> io::Result<()> {
    let mut mem = [0u8; 16384];
    let bench = &mut Bench { rt, mem: &mut mem };
    in_five_runs(bench)?;
    own_byte(bench)?;
    own_width(bench)?;
    over_the_top(bench)
}
