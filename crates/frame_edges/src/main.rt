// The display list at its edges: lists, frames that no list gives, and boards. A case names itself; under it stands what the
// frame's next line tells.
#![tactic(auto)]

mod list_cases;

use board::Board;
use boardtext::boards::changed;
use boardtext::lines;
use frame::Frame;
use record::Reader;
use settings::{Look, Map, Overlay, Settings};
use std::io;

// A frame that is on, as it begins.
fn begun() -> Frame {
    Frame {
        reader: Reader::new(0),
        line: 0,
        on: true,
    }
}

// SR at 5, 7 bytes a line, by a record at 77.
fn picture() -> Frame {
    let mut f = begun();
    f.reader.settings.overlay.mode = 2;
    f.reader.settings.overlay.address = 5;
    f.reader.settings.overlay.step = 7;
    f.reader.settings.origin = 77;
    f
}

// What the frame's next line tells, of a memory of zeros.
fn ask<R: Print>(rt: &R, title: &str, frame: Frame) -> io::Result<()> {
    let mem = [0u8; 16384];
    print!(rt; "{title}")?;
    lines::ask(rt, frame, &mem)
}

// Frames that no frame start gives: sound, so they are answered.
fn states<R: Print>(rt: &R) -> io::Result<()> {
    let mut f = picture();
    f.on = false;
    f.reader.repeat = 9;
    ask(rt, "Not on, whatever is held:\n", f)?;
    f.reader.ended = true;
    f.reader.settings.map.on = true;
    ask(rt, "Not on, ended, the map on:\n", f)?;
    f = picture();
    f.reader.ended = true;
    ask(rt, "Ended and SR:\n", f)?;
    f = picture();
    f.reader.repeat = 1;
    ask(rt, "With a repeat the list is not read:\n", f)?;
    f.reader.position = 524287;
    ask(rt, "The same wherever it is:\n", f)?;
    f = picture();
    f.reader.ended = true;
    f.reader.repeat = 2;
    println!(rt; "Ended, with two lines more:")?;
    let mem = [0u8; 16384];
    lines::runs(rt, f, &mem, 4)
}

// Around the last line.
fn last_line<R: Print>(rt: &R) -> io::Result<()> {
    let mut f = begun();
    f.line = 239;
    f.reader.repeat = 5;
    f.reader.settings.overlay.mode = 2;
    f.reader.settings.overlay.address = 7;
    f.reader.settings.overlay.step = 3;
    ask(rt, "The last line advances too:\n", f)?;
    f = begun();
    f.line = 240;
    ask(rt, "Line 240: ", f)?;
    f.reader.ended = true;
    ask(rt, "Line 240, ended: ", f)?;
    f.on = false;
    ask(rt, "Line 240, not on: ", f)?;
    f.line = 241;
    ask(rt, "Line 241: ", f)
}

// Each field at its highest.
fn highest() -> Frame {
    Frame {
        reader: Reader {
            settings: Settings {
                overlay: Overlay {
                    mode: 4,
                    address: 524287,
                    step: 4095,
                    hscroll: 7,
                    vscroll: 7,
                    font: 255,
                    counter: 7,
                },
                map: Map {
                    on: true,
                    address: 524287,
                    step: 4095,
                    hscroll: 31,
                    vscroll: 31,
                    width: 32,
                    height: 32,
                    counter: 31,
                },
                look: Look {
                    width: 2,
                    palette: 3,
                    playfield: 3,
                    priority: 255,
                },
                origin: 524288,
            },
            position: 524287,
            repeat: 255,
            ended: false,
        },
        line: 239,
        on: true,
    }
}

// The highest with other settings.
fn ask_highest<R: Print>(rt: &R, title: &str, settings: Settings) -> io::Result<()> {
    let mut f = highest();
    f.reader.settings = settings;
    ask(rt, title, f)
}

// One more than the highest.
fn unsound_overlay<R: Print>(rt: &R) -> io::Result<()> {
    let top = highest().reader.settings;
    for (title, settings) in [
        ("Mode 5: ", changed(top, |s| s.overlay.mode = 5)),
        (
            "Overlay address 524,288: ",
            changed(top, |s| s.overlay.address = 524288),
        ),
        (
            "Overlay step 4,096: ",
            changed(top, |s| s.overlay.step = 4096),
        ),
        ("hscroll 8: ", changed(top, |s| s.overlay.hscroll = 8)),
        ("vscroll 8: ", changed(top, |s| s.overlay.vscroll = 8)),
        ("Text counter 8: ", changed(top, |s| s.overlay.counter = 8)),
    ] {
        ask_highest(rt, title, settings)?;
    }
    Ok(())
}

fn unsound_map<R: Print>(rt: &R) -> io::Result<()> {
    let top = highest().reader.settings;
    for (title, settings) in [
        (
            "Map address 524,288: ",
            changed(top, |s| s.map.address = 524288),
        ),
        ("Map step 4,096: ", changed(top, |s| s.map.step = 4096)),
        ("Map hscroll 32: ", changed(top, |s| s.map.hscroll = 32)),
        ("Map vscroll 32: ", changed(top, |s| s.map.vscroll = 32)),
        ("Field width 33: ", changed(top, |s| s.map.width = 33)),
        ("Field width 7: ", changed(top, |s| s.map.width = 7)),
        ("Field height 33: ", changed(top, |s| s.map.height = 33)),
        (
            "Field counter 31 of 31: ",
            changed(top, |s| s.map.height = 31),
        ),
    ] {
        ask_highest(rt, title, settings)?;
    }
    Ok(())
}

fn unsound_counter<R: Print>(rt: &R) -> io::Result<()> {
    let mut f = begun();
    f.reader.settings.map.height = 0;
    ask(rt, "Field height 0: ", f)?;
    f.reader.settings.map.height = 4;
    f.reader.settings.map.counter = 4;
    ask(rt, "Field counter 4 of 4: ", f)?;
    f.reader.settings.map.counter = 3;
    ask(rt, "Field counter 3 of 4, the map off:\n", f)
}

fn unsound_rest<R: Print>(rt: &R) -> io::Result<()> {
    let top = highest().reader.settings;
    for (title, settings) in [
        ("Width 3: ", changed(top, |s| s.look.width = 3)),
        ("Overlay palette 4: ", changed(top, |s| s.look.palette = 4)),
        (
            "Playfield palette 4: ",
            changed(top, |s| s.look.playfield = 4),
        ),
        ("Record 524,289: ", changed(top, |s| s.origin = 524289)),
        ("Record 524,287:\n", changed(top, |s| s.origin = 524287)),
    ] {
        ask_highest(rt, title, settings)?;
    }
    let position = changed(highest(), |f| f.reader.position = 524288);
    ask(rt, "List position 524,288: ", position)
}

// The next line with the first bytes of a memory lent.
fn ask_first<R: Print>(rt: &R, title: &str, frame: Frame, mem: &[u8], n: usize) -> io::Result<()> {
    if let Some(first) = mem.get(..n) {
        print!(rt; "{title}")?;
        lines::ask(rt, frame, first)?;
    }
    Ok(())
}

// Lengths that no board has come first of all refusals.
fn lengths<R: Print>(rt: &R, mem: &[u8]) -> io::Result<()> {
    let mut f = begun();
    for (title, n) in [
        ("L 0: ", 0),
        ("L 8,192: ", 8192),
        ("L 16,383: ", 16383),
        ("L 24,576: ", 24576),
        ("L 524,287: ", 524287),
        ("L 524,288:\n", 524288),
    ] {
        ask_first(rt, title, f, mem, n)?;
    }
    f.line = 240;
    ask_first(rt, "L 100, line 240: ", f, mem, 100)?;
    f.line = 241;
    ask_first(rt, "L 100, line 241: ", f, mem, 100)
}

// The largest memory, of which each case lends the first bytes.
fn firsts<R: Print>(rt: &R) -> io::Result<()> {
    let mem = [0u8; 524288];
    lengths(rt, &mem)
}

fn start<R: Print>(rt: &R, title: &str, board: Board) -> io::Result<()> {
    print!(rt; "{title}")?;
    lines::begun(rt, board, |_| println!(rt; "started"))
}

// Frame start takes a sound board alone.
fn boards<R: Print>(rt: &R) -> io::Result<()> {
    let mut b = Board::new();
    start(rt, "Frame start, a new board: ", b)?;
    b.ports.xdladr = 524287;
    b.ports.video = 15;
    start(rt, "Frame start, XDL_ADR 524,287 and VIDEO_CONTROL 0F: ", b)?;
    b.ports.xdladr = 524288;
    start(rt, "Frame start, XDL_ADR 524,288: ", b)?;
    b = Board::new();
    b.ports.video = 16;
    start(rt, "Frame start, VIDEO_CONTROL 10: ", b)?;
    b = Board::new();
    b.blitter.flags = 3;
    start(rt, "Frame start, flags 3: ", b)
}

fn main(rt: HostRuntime) -> io::Result<()> {
    list_cases::all(&rt)?;
    states(&rt)?;
    last_line(&rt)?;
    ask(&rt, "Each field at its highest:\n", highest())?;
    unsound_overlay(&rt)?;
    unsound_map(&rt)?;
    unsound_counter(&rt)?;
    unsound_rest(&rt)?;
    firsts(&rt)?;
    boards(&rt)
}
