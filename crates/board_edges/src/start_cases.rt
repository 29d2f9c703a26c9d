// START, stop and the interrupt: each line says what was done and how the board stands.
use super::blitlist::{self, Bench};
use block::Block;
use board::Board;
use boardtext::Shown;
use boardtext::boards::started;
use std::io;

// A board in the middle of a fill of 4 bytes, with IRQF and a code that other work left.
fn middle<R: Print>(bench: &mut Bench<R>, name: &str) -> io::Result<Board> {
    let four = Block {
        width0: 3,
        ..blitlist::fill(0x14, 0x5A)
    };
    blitlist::lay(bench.mem, 64, four);
    let mut busy = bench.ran(name, started(64), 3)?;
    busy.blitter.irqf = true;
    busy.blitter.note.code = 5;
    Ok(busy)
}

// A write, and how the board stands after it.
fn writes<R: Print>(rt: &R, name: &str, board: Board, offset: u32, value: u8) -> io::Result<Board> {
    let after = board.write(offset, value).state;
    println!(rt; "{name}{}", Shown(after.blitter))?;
    Ok(after)
}

// START and stop while a block is being done, and the board that stop leaves.
fn stopped<R: Print>(rt: &R, busy: Board) -> io::Result<Board> {
    writes(rt, "START again", busy, 0x53, 3)?;
    writes(rt, "stop by 02", busy, 0x53, 2)?;
    writes(rt, "stop by FE", busy, 0x53, 0xFE)
}

fn starts<R: Print>(bench: &mut Bench<R>) -> io::Result<()> {
    let busy = middle(bench, "busy before START")?;
    bench.ran("run after stop", stopped(bench.rt, busy)?, 9)?;
    bench.cells(0x1400)
}

// Stop raises no interrupt, and leaves an idle board as it is.
fn stops<R: Print>(bench: &mut Bench<R>) -> io::Result<()> {
    let mut busy = middle(bench, "busy before stop")?;
    busy.blitter.irqe = true;
    busy.blitter.irqf = false;
    let idle = writes(bench.rt, "stop with IRQE", busy, 0x53, 0)?;
    writes(bench.rt, "stop when idle", idle, 0x53, 0)?;
    Ok(())
}

// The list address stays at the end of a list and at a reset.
fn ends<R: Print>(bench: &mut Bench<R>) -> io::Result<()> {
    let busy = middle(bench, "busy before reset")?;
    bench.ran("run to its end", busy, 9)?;
    println!(bench.rt; "reset in the middle{}", Shown(busy.reset().state.blitter))
}

// BL_ADR written while running changes BL_ADR alone: before the load,
fn early<R: Print>(rt: &R) -> io::Result<()> {
    let moved = writes(rt, "BL_ADR 128 before the load", started(0), 0x50, 0x80)?;
    println!(rt; "  ports{}", Shown(moved.ports))
}

// and while a block is being done.
fn moves<R: Print>(bench: &mut Bench<R>) -> io::Result<()> {
    let busy = middle(bench, "busy before BL_ADR 128")?;
    let moved = writes(bench.rt, "BL_ADR 128 while running", busy, 0x50, 128)?;
    let end = bench.ran("run on", moved, 9)?;
    writes(bench.rt, "START from there", end, 0x53, 1)?;
    Ok(())
}

// Two blocks of one byte, one after the other.
fn pair(mem: &mut [u8]) -> Board {
    let first = Block {
        control: 8,
        ..blitlist::fill(0x15, 1)
    };
    blitlist::lay(mem, 0, first);
    blitlist::lay(mem, 21, blitlist::fill(0x15, 2));
    started(0)
}

// With IRQE the last block alone raises IRQF; IRQ_CONTROL takes it away.
fn raised<R: Print>(bench: &mut Bench<R>) -> io::Result<()> {
    let enabled = pair(bench.mem).write(0x54, 1).state;
    let between = bench.ran("IRQE, first block", enabled, 2)?;
    let end = bench.ran("IRQE, last block", between, 2)?;
    writes(bench.rt, "IRQ_CONTROL 01", end, 0x54, 1)?;
    writes(bench.rt, "IRQ_CONTROL FE", end, 0x54, 0xFE)?;
    Ok(())
}

// Without IRQE it stays as it was: not raised,
fn quiet<R: Print>(bench: &mut Bench<R>) -> io::Result<()> {
    let board = pair(bench.mem);
    let end = bench.ran("no IRQE", board, 4)?;
    writes(bench.rt, "IRQE after the end", end, 0x54, 1)?;
    Ok(())
}

// or raised by other work.
fn left<R: Print>(bench: &mut Bench<R>) -> io::Result<()> {
    let mut board = pair(bench.mem);
    board.blitter.irqf = true;
    bench.ran("no IRQE, IRQF before", board, 4)?;
    Ok(())
}

// All of them, in a memory of their own.
pub fn all<R: Print>(rt: &R) -> io::Result<()> {
    let mut mem = [0u8; 16384];
    let bench = &mut Bench { rt, mem: &mut mem };
    starts(bench)?;
    stops(bench)?;
    ends(bench)?;
    early(rt)?;
    moves(bench)?;
    raised(bench)?;
    quiet(bench)?;
    left(bench)
}
