// The cases of document 01, "At the edges", that are not starred; one case for each of its traps, where a program that fell
// into it would print something else; each bit of a collision mask at the ends of what it stands for; a block of
// bytes FF; and plans.
#![tactic(auto)]

mod collisions;
mod plan_cases;

use board::Board;
use boardtext::boards::{put, started};
use engine::Counts;
use print::RefusalLine;
use refusal::Refusal;
use std::io;

fn yes_no(t: bool) -> &'static str {
    if t { "yes" } else { "no" }
}

fn told<R: Print>(rt: &R, report: Result<Counts, Refusal>) -> io::Result<()> {
    match report {
        Ok(Counts { ticks, accesses }) => println!(rt; "{ticks} ticks, {accesses} accesses"),
        Err(why) => rt.println(RefusalLine::from(why)),
    }
}

// Four bytes from each address on.
fn cells<R: Print>(rt: &R, mem: &[u8], addresses: &[u32]) -> io::Result<()> {
    for &address in addresses {
        print!(rt; "  cells ")?;
        for offset in 0..4 {
            print!(rt; "{:02X}", vram::byte_at(mem, address, offset))?;
        }
        println!(rt)?;
    }
    Ok(())
}

// Installs a list at 0, starts it, runs it and prints what is reported and the collision code; then cells.
fn run<R: Print>(
    rt: &R,
    name: &str,
    mem: &mut [u8],
    list: &[u8],
    addresses: &[u32],
) -> io::Result<()> {
    put(mem, list, 0);
    print!(rt; "{name}: ")?;
    let ran = started(0).run(mem, 1000);
    told(rt, ran.report)?;
    println!(rt; "  code {}", ran.state.blitter.note.code)?;
    cells(rt, mem, addresses)
}

// What a block of 21 bytes FF stands for: W 512, H 256, zoom 8 by 8, mode 7 with NEXT.
fn full_block<R: Print>(rt: &R) -> io::Result<()> {
    let full = block::block_at(&[255; 16384], 0);
    println!(rt;
        "a block of bytes FF: columns {}, rows {}, zoom {} by {}, Q {}, mode {}, NEXT {}",
        full.columns(),
        full.rows(),
        full.zoom_x(),
        full.zoom_y(),
        full.pattern_width(),
        full.mode(),
        yes_no(full.next())
    )
}

fn copy_and_fill<R: Print>(rt: &R, mem: &mut [u8]) -> io::Result<()> {
    run(
        rt,
        "copy of 4 bytes, mode 0",
        mem,
        b"\x00\x10\x00\x00\x00\x01\x00\x20\x00\x00\x00\x01\x03\x00\x00\xFF\x00\x00\x00\x00\x00",
        &[],
    )?;
    run(
        rt,
        "as fill",
        mem,
        b"\x00\x10\x00\x00\x00\x01\x00\x20\x00\x00\x00\x01\x03\x00\x00\x00\x55\x00\x00\x00\x00",
        &[0x2000],
    )
}

// A run of a new board, which has nothing to do.
fn idle<R: Print>(rt: &R, name: &str, mem: &mut [u8], budget: u32) -> io::Result<()> {
    print!(rt; "{name}: ")?;
    told(rt, Board::new().run(mem, budget).report)
}

fn lengths<R: Print>(rt: &R, mem: &mut [u8]) -> io::Result<()> {
    idle(rt, "L=16,384", mem, 0)?;
    if let Some(short) = mem.get_mut(..16383) {
        idle(rt, "L=16,383", short, 0)?;
    }
    Ok(())
}

fn budgets<R: Print>(rt: &R, mem: &mut [u8]) -> io::Result<()> {
    idle(rt, "budget 1,000,000", mem, Board::BUDGET)?;
    idle(rt, "budget 1,000,001", mem, 1000001)
}

// The first block writes 77h over the XOR mask of the second, which then fills 3000h with it.
fn trap_list<R: Print>(rt: &R, mem: &mut [u8]) -> io::Result<()> {
    run(
        rt,
        "a block overwrites a later one",
        mem,
        b"\0\0\0\0\0\0\x25\0\0\0\0\0\0\0\0\0\x77\0\0\0\x08\0\0\0\0\0\0\x00\x30\0\0\0\0\0\0\0\0\x09\0\0\0\0",
        &[0x3000],
    )
}

// d = 2 and mask 02 share a bit, but 2 is in the range of mask bit 0.
fn trap_mask<R: Print>(rt: &R, mem: &mut [u8]) -> io::Result<()> {
    put(mem, b"\x02", 0x3100);
    run(
        rt,
        "collision by ranges, not by bits",
        mem,
        b"\0\0\0\0\0\0\x00\x31\0\0\0\0\0\0\0\0\x01\x02\0\0\x01",
        &[0x3100],
    )
}

// Zoomed by 2, the destination still goes byte by byte.
fn trap_zoom<R: Print>(rt: &R, mem: &mut [u8]) -> io::Result<()> {
    put(mem, b"\x01\x02", 0x3200);
    run(
        rt,
        "zoom 2 does not zoom the step",
        mem,
        b"\x00\x32\0\0\0\x01\x00\x33\0\0\0\x01\x01\0\0\xFF\0\0\x01\0\0",
        &[0x3300],
    )
}

// Two rows of two bytes, 16 apart.
fn trap_rows<R: Print>(rt: &R, mem: &mut [u8]) -> io::Result<()> {
    run(
        rt,
        "step y counts from the row's begin",
        mem,
        b"\0\0\0\0\0\0\x00\x30\0\x10\0\x01\x01\0\x01\0\xAA\0\0\0\0",
        &[0x3000, 0x3010, 0x3012],
    )
}

// A step in x of FF goes backwards: 3500h, then 34FFh.
fn backwards<R: Print>(rt: &R, mem: &mut [u8]) -> io::Result<()> {
    run(
        rt,
        "step x byte FF",
        mem,
        b"\0\0\0\0\0\0\x00\x35\0\0\0\xFF\x01\0\0\0\xBB\0\0\0\0",
        &[0x34FE],
    )
}

fn traps<R: Print>(rt: &R, mem: &mut [u8]) -> io::Result<()> {
    trap_list(rt, mem)?;
    trap_mask(rt, mem)?;
    trap_zoom(rt, mem)?;
    trap_rows(rt, mem)
}

fn main(rt: HostRuntime) -> io::Result<()> {
    let mut mem = [0u8; 16384];
    println!(&rt;
        "step y bytes FF 3F: -1? {}",
        yes_no(step::step_y(0xFF, 0x3F) == -1)
    )?;
    collisions::all(&rt)?;
    full_block(&rt)?;
    copy_and_fill(&rt, &mut mem)?;
    lengths(&rt, &mut mem)?;
    budgets(&rt, &mut mem)?;
    traps(&rt, &mut mem)?;
    plan_cases::all(&rt)?;
    backwards(&rt, &mut mem)
}
