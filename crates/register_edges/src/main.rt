// The registers at their edges, reset, and boards that are unsound: each line says what was done, what was told and how the board stands.
#![tactic(auto)]

use board::Board;
use boardtext::boards::changed;
use boardtext::{Shown, blocks};
use std::io;

// What a read gives.
fn reads<R: Print>(rt: &R, board: Board, offset: u32) -> io::Result<()> {
    match board.read(offset) {
        Ok(v) => print!(rt; " {v:02X}"),
        Err(why) => print!(rt; " {}", Shown(why)),
    }
}

// All thirty-two registers, eight in a line.
fn all<R: Print>(rt: &R, name: &str, board: Board) -> io::Result<()> {
    println!(rt; "{name}{}", Shown(board.blitter))?;
    for offset in 0x40..0x60 {
        if offset % 8 == 0 {
            print!(rt; "  {offset}:")?;
        }
        reads(rt, board, offset)?;
        if offset % 8 == 7 {
            println!(rt)?;
        }
    }
    Ok(())
}

// A write and what it tells.
fn writes<R: Print>(rt: &R, board: Board, offset: u32, value: u8) -> io::Result<Board> {
    let changed = board.write(offset, value);
    print!(rt; " {offset}{}", Shown(changed.report))?;
    Ok(changed.state)
}

// Three registers one after the other, and the ports after them.
fn three<R: Print>(
    rt: &R,
    name: &str,
    mut board: Board,
    base: u8,
    bytes: [u8; 3],
) -> io::Result<Board> {
    print!(rt; "{name}")?;
    for (offset, value) in (u32::from(base)..).zip(bytes) {
        board = writes(rt, board, offset, value)?;
    }
    println!(rt; "{}", Shown(board.ports))?;
    Ok(board)
}

// Every port, with bits that are not used.
fn widths<R: Print>(rt: &R) -> io::Result<Board> {
    let mut board = Board::new();
    for (name, base, bytes) in [
        ("XDL_ADR", 0x41, [0x34, 0x12, 0xFF]),
        ("BL_ADR", 0x50, [0x78, 0x56, 0xFF]),
        ("P0..P2", 0x55, [0x12, 0x22, 0xFF]),
        ("P3", 0x58, [0x44, 1, 2]),
        ("VIDEO_CONTROL", 0x40, [0xFF, 0x35, 0x13]),
        ("middle byte", 0x51, [0, 0xF9, 0]),
    ] {
        board = three(rt, name, board, base, bytes)?;
    }
    Ok(board)
}

// Offsets where a write does nothing, and the two that are no registers.
fn nothing<R: Print>(rt: &R, mut board: Board) -> io::Result<()> {
    for (name, base) in [
        ("nothing from 44h:", 0x44),
        ("nothing from 47h:", 0x47),
        ("nothing from 4Ah:", 0x4A),
        ("nothing from 4Dh:", 0x4D),
        ("nothing from 59h:", 0x59),
        ("nothing from 5Ch:", 0x5C),
        ("the end", 0x5F),
        ("the beginning", 0x3D),
    ] {
        board = three(rt, name, board, base, [255; 3])?;
    }
    Ok(())
}

// The 21 bytes of a block, a space before each side, the size, the masks, and the rest.
fn block<R: Print>(rt: &R, board: Board) -> io::Result<()> {
    print!(rt; "  block")?;
    for (i, byte) in blocks::bytes(board.blitter.block).iter().enumerate() {
        let space = if [0, 6, 12, 15, 18].contains(&i) {
            " "
        } else {
            ""
        };
        print!(rt; "{space}{byte:02X}")?;
    }
    println!(rt)
}

// Offsets outside: what reads tell, and what a write tells and hands back.
fn outside<R: Print>(rt: &R, board: Board) -> io::Result<()> {
    print!(rt; "reads outside:")?;
    for offset in [0x3F, 0x60, 0x153] {
        reads(rt, board, offset)?;
    }
    print!(rt; "\nwrite outside while busy:")?;
    let after = writes(rt, board, 0x60, 1)?;
    println!(rt; "{}\n  ports{}", Shown(after.blitter), Shown(after.ports))?;
    block(rt, after)
}

// A board in the middle of a block.
fn busy(mut board: Board) -> Board {
    board.blitter.flags = 2;
    board.blitter.list = 85;
    board.blitter.note.code = 5;
    board.blitter.block.width0 = 3;
    board.blitter.block.control = 8;
    board.blitter.col = 2;
    board.blitter.irqe = true;
    board.blitter.irqf = true;
    board
}

// Reset, what it tells, the ports and the blitter after it.
fn resets<R: Print>(rt: &R, board: Board) -> io::Result<()> {
    let changed = board.reset();
    println!(rt;
        "reset{}{}",
        Shown(changed.report),
        Shown(changed.state.ports)
    )?;
    all(rt, "after reset", changed.state)
}

// What each call tells of a board, and the board that the last hands back.
fn calls<R: Print>(rt: &R, name: &str, board: Board, mem: &mut [u8]) -> io::Result<()> {
    print!(rt; "{name}: read")?;
    reads(rt, board, 0x60)?;
    print!(rt; " write{}", Shown(board.write(0x60, 1).report))?;
    let cleared = board.reset();
    print!(rt; " reset{}", Shown(cleared.report))?;
    ticks(rt, "", cleared.state, mem)
}

fn ticks<R: Print>(rt: &R, name: &str, board: Board, mem: &mut [u8]) -> io::Result<()> {
    let run = board.tick(mem);
    println!(rt;
        "{name} tick{}{}",
        Shown(run.report),
        Shown(run.state.blitter)
    )
}

// Ports out of their widths.
fn wide_ports<R: Print>(rt: &R, mem: &mut [u8]) -> io::Result<()> {
    calls(
        rt,
        "VIDEO_CONTROL 16",
        changed(Board::new(), |b| b.ports.video = 16),
        mem,
    )?;
    calls(
        rt,
        "XDL_ADR 524288",
        changed(Board::new(), |b| b.ports.xdladr = 524288),
        mem,
    )?;
    calls(
        rt,
        "BL_ADR 524288",
        changed(Board::new(), |b| b.ports.bladr = 524288),
        mem,
    )
}

// A blitter with these fields and one byte of its block.
fn with(flags: u8, list: u32, row: u16, col: u16, control: u8) -> Board {
    changed(Board::new(), |b| {
        b.blitter.flags = flags;
        b.blitter.list = list;
        b.blitter.row = row;
        b.blitter.col = col;
        b.blitter.block.control = control;
    })
}

// Out of its width or range; idle, and something held; about to load, and something held; busy, and outside the block.
fn unsound<R: Print>(rt: &R, mem: &mut [u8]) -> io::Result<()> {
    for (name, board) in [
        ("list 524288", with(0, 524288, 0, 0, 0)),
        ("flags 3", with(3, 0, 0, 0, 0)),
        ("idle, row 1", with(0, 0, 1, 0, 0)),
        ("load, control 8", with(1, 0, 0, 0, 8)),
        ("busy, column 1 of 1", with(2, 0, 0, 1, 0)),
        ("busy, row 1 of 1", with(2, 0, 1, 0, 0)),
    ] {
        calls(rt, name, board, mem)?;
    }
    Ok(())
}

// Sound, though no run leaves it so.
fn sound<R: Print>(rt: &R, mem: &mut [u8]) -> io::Result<()> {
    ticks(rt, "busy, 1 by 1", with(2, 0, 0, 0, 0), mem)?;
    ticks(rt, "idle, list 85", with(0, 85, 0, 0, 0), mem)?;
    ticks(rt, "load at 524287", with(1, 524287, 0, 0, 0), mem)
}

fn main(rt: HostRuntime) -> io::Result<()> {
    let board = widths(&rt)?;
    nothing(&rt, board)?;
    let running = busy(board);
    outside(&rt, running)?;
    all(&rt, "reads of a new board", Board::new())?;
    all(&rt, "reads while busy", running)?;
    resets(&rt, running)?;
    let mut mem = [0u8; 16384];
    wide_ports(&rt, &mut mem)?;
    unsound(&rt, &mut mem)?;
    sound(&rt, &mut mem)?;
    all(
        &rt,
        "IRQF without IRQE",
        changed(Board::new(), |b| b.blitter.irqf = true),
    )
}
