// One overlay line at its edges. A case names itself; under it stand the line's first sixteen pixels, its last four, and whether the
// entries behind them are as before. The lent line is 680 sevens.
#![tactic(auto)]

use board::Board;
use boardtext::boards::changed;
use print::RefusalLine;
use settings::Settings;
use std::io;

// Some entries of the line.
fn entries<R: Print>(rt: &R, line: &[u16], from: usize, to: usize) -> io::Result<()> {
    for v in line.iter().take(to).skip(from) {
        print!(rt; " {v}")?;
    }
    println!(rt)
}

// Whether all entries from a place on are still 7.
fn behind<R: Print>(rt: &R, line: &[u16], from: usize) -> io::Result<()> {
    let stay = line.iter().skip(from).all(|&v| v == 7);
    println!(rt; "  behind: {}", if stay { "as before" } else { "changed" })
}

fn counted<R: Print>(rt: &R, line: &[u16], n: usize) -> io::Result<()> {
    println!(rt; "{n} pixels")?;
    if 16 <= n {
        print!(rt; "  first:")?;
        entries(rt, line, 0, 16)?;
        print!(rt; "  last:")?;
        entries(rt, line, n - 4, n)?;
    }
    behind(rt, line, n)
}

// What a line is drawn from, and into how many entries: its settings, a memory, and a board whose VIDEO_CONTROL is so much.
#[derive(Clone, Copy)]
struct Case<'a> {
    control: u8,
    settings: Settings,
    mem: &'a [u8],
    room: usize,
}

// Draws into the first `room` entries of the line, on a board that is sound else.
fn into<R: Print>(rt: &R, line: &mut [u16], case: Case) -> io::Result<()> {
    let mut board = Board::new();
    board.ports.video = case.control;
    let Some(lent) = line.get_mut(..case.room) else {
        return Ok(());
    };
    match pixels::draw(board, case.settings, case.mem, lent) {
        Ok(n) => counted(rt, line, n as usize),
        Err(why) => {
            rt.println(RefusalLine::from(why))?;
            behind(rt, line, 0)
        }
    }
}

fn drawn<R: Print>(rt: &R, title: &str, case: Case) -> io::Result<()> {
    let mut line = [7u16; 680];
    print!(rt; "{title}: ")?;
    into(rt, &mut line, case)
}

// A line of a mode and a width, in a palette, with its data at an address; font 1, font line 3, and a vscroll that is not added to it.
fn picture(mode: u8, width: u8, palette: u8, address: u32) -> Settings {
    let mut s = Settings::new();
    s.overlay.mode = mode;
    s.overlay.address = address;
    s.overlay.font = 1;
    s.overlay.counter = 3;
    s.overlay.vscroll = 2;
    s.look.width = width;
    s.look.palette = palette;
    s
}

// A whole line, with a VIDEO_CONTROL of 0.
fn whole<'a>(settings: Settings, mem: &'a [u8]) -> Case<'a> {
    Case {
        control: 0,
        settings,
        mem,
        room: 680,
    }
}

// Under each of the four settings of no_trans and trans15; bit 0, xdl_enabled, does not matter.
fn four<R: Print>(rt: &R, title: &str, case: Case) -> io::Result<()> {
    println!(rt; "{title}")?;
    for (flags, control) in [
        ("no flags", 0),
        ("no_trans", 4),
        ("trans15", 9),
        ("both", 13),
    ] {
        drawn(rt, flags, Case { control, ..case })?;
    }
    Ok(())
}

// Over the top of memory stand 1F 80 03 00 0F 00; at 100 F0 1F; at 200 two characters with their attributes, and 64 characters behind the
// first another with 85; characters 2, 3 and 128 have the font lines A1, 80 and 01.
fn place(mem: &mut [u8], attribute: u8, other: u8) {
    let cells: [(u32, &[u8]); 6] = [
        (524286, b"\x1F\x80\x03\x00\x0F\x00"),
        (100, b"\xF0\x1F"),
        (200, &[2, attribute, 3, other]),
        (328, b"\x02\x85"),
        (2067, b"\xA1\0\0\0\0\0\0\0\x80"),
        (3075, b"\x01"),
    ];
    for (at, bytes) in cells {
        let _ = vram::install(mem, bytes, at);
    }
}

fn modes<R: Print>(rt: &R, mem: &[u8]) -> io::Result<()> {
    let mut hr = picture(3, 1, 1, 100);
    hr.overlay.hscroll = 5;
    for (title, settings) in [
        ("SR over the top, palette 2", picture(2, 1, 2, 524286)),
        ("LR there", picture(4, 1, 2, 524286)),
        ("HR, palette 1, hscroll 5", hr),
        (
            "Text, palette 2, attributes 0F and 8F",
            picture(1, 1, 2, 200),
        ),
    ] {
        four(rt, title, whole(settings, mem))?;
    }
    Ok(())
}

// One character more, only where the line is scrolled; the map on, with a palette that its cells, which are 0, do not have; data that goes over the top, and over
// memory's end.
fn scrolled<R: Print>(rt: &R, mem: &[u8]) -> io::Result<()> {
    let mut case = whole(picture(1, 0, 0, 200), mem);
    drawn(rt, "Text, narrow, not scrolled", case)?;
    case.settings.overlay.hscroll = 1;
    drawn(rt, "hscroll 1", case)?;
    case.settings.overlay.hscroll = 7;
    drawn(rt, "hscroll 7", case)?;
    case.settings.map.on = true;
    case.settings.look.palette = 2;
    drawn(rt, "hscroll 7, the map on", case)?;
    case.control = 4;
    case.settings.overlay.address = 524287;
    drawn(rt, "hscroll 7, over the top", case)?;
    case.settings.overlay.address = 16383;
    drawn(rt, "hscroll 7, over memory's end", case)
}

// Each mode in each width.
fn counts<R: Print>(rt: &R, mem: &[u8]) -> io::Result<()> {
    for (title, mode) in [("Off", 0), ("Text", 1), ("SR", 2), ("HR", 3), ("LR", 4)] {
        println!(rt; "{title}")?;
        for (name, width) in [("narrow", 0), ("normal", 1), ("wide", 2)] {
            drawn(rt, name, whole(picture(mode, width, 3, 0), mem))?;
        }
    }
    Ok(())
}

// 17: too few entries.
fn rooms<R: Print>(rt: &R, mem: &[u8]) -> io::Result<()> {
    for (title, mode, width, room) in [
        ("Off, into no entries", 0, 1, 0),
        ("SR, into no entries", 2, 1, 0),
        ("SR, into 319", 2, 1, 319),
        ("SR, into 320", 2, 1, 320),
        ("Text, wide, into 671", 1, 2, 671),
        ("Text, wide, into 672", 1, 2, 672),
    ] {
        let line = whole(picture(mode, width, 1, 0), mem);
        drawn(rt, title, Case { room, ..line })?;
    }
    Ok(())
}

// 15 and 1, each where it begins to hold, and the order of all three.
fn refusals<R: Print>(rt: &R, mem: &[u8]) -> io::Result<()> {
    let sr = whole(picture(2, 1, 1, 0), mem);
    let field = changed(sr, |c| {
        c.settings.map.height = 4;
        c.settings.map.counter = 4;
        c.room = 319;
    });
    let origin = changed(sr, |c| {
        c.settings.origin = 524289;
        c.room = 320;
    });
    let both = Case {
        control: 16,
        room: 319,
        ..sr
    };
    for (title, case) in [
        ("Field counter 4 of 4", field),
        ("Origin 524289", origin),
        ("Mode 5", changed(sr, |c| c.settings.overlay.mode = 5)),
        (
            "hscroll 8 in SR",
            changed(sr, |c| c.settings.overlay.hscroll = 8),
        ),
        ("VIDEO_CONTROL 16", both),
        ("VIDEO_CONTROL 15", Case { control: 15, ..sr }),
    ] {
        drawn(rt, title, case)?;
    }
    if let Some(mem) = mem.get(..16383) {
        drawn(
            rt,
            "Memory of 16383, VIDEO_CONTROL 16",
            Case { mem, ..both },
        )?;
    }
    Ok(())
}

fn main(rt: HostRuntime) -> io::Result<()> {
    let mut mem = [0u8; 16384];
    place(&mut mem, 0x0F, 0x8F);
    modes(&rt, &mem)?;
    scrolled(&rt, &mem)?;
    counts(&rt, &mem)?;
    rooms(&rt, &mem)?;
    refusals(&rt, &mem)?;
    place(&mut mem, 0x80, 0x00);
    four(
        &rt,
        "Text, attributes 80 and 00",
        whole(picture(1, 0, 2, 200), &mem),
    )
}
