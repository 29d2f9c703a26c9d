// The blitter at its edges: each line says what ran, what was reported and how the board stands; then cells of memory.
#![tactic(auto)]

mod blitlist;
mod block_cases;
mod flat;
mod list_ends;
mod pointers;
mod start_cases;

use blitlist::Bench;
use block::Block;
use board::Board;
use boardtext::boards::{put, started};
use std::io;

// Copy and fill of 4 bytes.
fn copies<R: Print>(bench: &mut Bench<R>) -> io::Result<()> {
    put(bench.mem, b"\x01\x02\x03\x04", 0x2000);
    let mut copy = blitlist::plain(0x20, 0x10);
    copy.width0 = 3;
    bench.single("copy of 4", 0, copy, 0x1000)?;
    let mut four = blitlist::fill(0x11, 0x5A);
    four.width0 = 3;
    bench.single("fill of 4", 0, four, 0x1100)
}

// The largest budget and one above it.
fn budgets<R: Print>(bench: &mut Bench<R>) -> io::Result<()> {
    bench.ran("idle, 1000000", Board::new(), 1000000)?;
    bench.ran("idle, 1000001", Board::new(), 1000001)?;
    bench.first("started, 1000001", 1000001)?;
    Ok(())
}

// The list at 0 in nine runs of a million ticks.
fn nine<R: Print>(bench: &mut Bench<R>, name: &str) -> io::Result<()> {
    let mut board = started(0);
    for run in 1..10 {
        print!(bench.rt; "{name}, run {run}")?;
        board = bench.ran("", board, 1000000)?;
    }
    Ok(())
}

// The largest block has 8,388,608 bytes: with NEXT, as memory full of FF has it, and without.
fn largest<R: Print>(rt: &R) -> io::Result<()> {
    let mut mem = [255u8; 16384];
    let bench = &mut Bench { rt, mem: &mut mem };
    nine(bench, "memory full of FF")?;
    let block = Block {
        width0: 255,
        width1: 1,
        height: 255,
        zoom: 0x77,
        control: 7,
        ..blitlist::plain(0, 0)
    };
    blitlist::lay(bench.mem, 0, block);
    nine(bench, "largest block")
}

// The order of a run's refusals.
fn refusals<R: Print>(bench: &mut Bench<R>) -> io::Result<()> {
    let mut bad = Board::new();
    bad.blitter.row = 1;
    bench.ran("row 1, 1000001", bad, 1000001)?;
    let rt = bench.rt;
    if let Some(mem) = bench.mem.get_mut(..16383) {
        Bench { rt, mem }.ran("L 16383, row 1, 1000001", bad, 1000001)?;
    }
    Ok(())
}

// A block over a later one of its list.
fn later_block<R: Print>(bench: &mut Bench<R>) -> io::Result<()> {
    let mut over = blitlist::fill(0, 0x77);
    over.dest.adr0 = 37;
    over.control = 8;
    blitlist::lay(bench.mem, 21, blitlist::fill(0x12, 9));
    bench.single("over a later block", 0, over, 0x1200)
}

// A block over its own control byte.
fn own_control<R: Print>(bench: &mut Bench<R>) -> io::Result<()> {
    let mut own = blitlist::fill(0, 8);
    own.dest.adr0 = 20;
    own.width0 = 1;
    bench.single("over its own control byte", 0, own, 16)
}

// A list over the top of memory: one block, its load, then its byte.
fn wraps<R: Print>(bench: &mut Bench<R>, at: u32, value: u8) -> io::Result<()> {
    blitlist::lay(bench.mem, at, blitlist::fill(0x13, value));
    print!(bench.rt; "list at {at}")?;
    let loaded = bench.ran("", started(at), 1)?;
    print!(bench.rt; "list at {at}")?;
    bench.ran(", its byte", loaded, 9)?;
    bench.cells(0x1300)
}

// A zoomed picture added to itself, 3 bytes further on.
fn sum() -> Block {
    let mut block = blitlist::plain(0x20, 0x20);
    block.dest.adr0 = 3;
    block.dest.y0 = 11;
    block.width0 = 7;
    block.height = 3;
    block.hitmask = 255;
    block.zoom = 0x11;
    block.control = 10;
    block
}

// A copy of what that made, 9 bytes back.
fn back() -> Block {
    let mut block = blitlist::plain(0x20, 0x20);
    block.source.adr0 = 9;
    block.width0 = 15;
    block
}

// A list of two blocks, 146 ticks.
fn long_list(mem: &mut [u8]) {
    put(mem, b"\x01\x02\x03\x04\x05\x06\x07\x08", 0x2000);
    blitlist::lay(mem, 0, sum());
    blitlist::lay(mem, 21, back());
}

// A run in one and in pieces leaves the same memory.
fn compared<R: Print>(rt: &R) -> io::Result<()> {
    let mut one = [0u8; 16384];
    long_list(&mut one);
    let mut two = one;
    Bench { rt, mem: &mut one }.first("in one", 146)?;
    let divided = &mut Bench { rt, mem: &mut two };
    divided.in_runs(&[("1 tick", 1), ("50 ticks", 50), ("the rest", 95)])?;
    divided.cells(0x2000)?;
    if one.as_slice() == two.as_slice() {
        println!(rt; "in one and in pieces: the same memory")?;
    }
    Ok(())
}

// Runs to their end, and what stands in their way. The fill runs again: one tick short of the end, the last tick, and idle.
fn runs<R: Print>(bench: &mut Bench<R>) -> io::Result<()> {
    copies(bench)?;
    bench.first("budget 0", 0)?;
    bench.first("budget 5", 5)?;
    bench.in_runs(&[("one tick short", 4), ("the last tick", 1), ("idle", 10)])?;
    budgets(bench)?;
    largest(bench.rt)?;
    refusals(bench)?;
    later_block(bench)?;
    own_control(bench)?;
    wraps(bench, 524280, 0x11)?;
    wraps(bench, 16376, 0x22)
}

fn main(rt: HostRuntime) -> io::Result<()> {
    let mut mem = [0u8; 16384];
    runs(&mut Bench {
        rt: &rt,
        mem: &mut mem,
    })?;
    list_ends::all(&rt)?;
    pointers::all(&rt)?;
    start_cases::all(&rt)?;
    block_cases::all(&rt)?;
    compared(&rt)
}
