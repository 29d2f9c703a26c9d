// The lines of a frame as text, for the programs that show them: those that are all alike as one, or as many as show each band.
ghost use Rattle.std.specs.Prelude.{◌≡◌};
ghost use Rattle.std.specs.Fn.{FnOnceReturns};
ghost use Rattle.refusal.specs.Sheet.{done};
ghost use Rattle.frame.specs.Frame.{start_answer};

use super::Shown;
use super::boards::pointed;
use super::frames::{Held, Lines, refused};
use board::Board;
use frame::Frame;
use print::RefusalLine;
use record::Reader;
use settings::Settings;
use std::io;

// A memory, and where a plan's list stands in it; none where lines are told without their items, or where no address is.
#[derive(Clone, Copy)]
struct Memory<'a> {
    bytes: &'a [u8],
    list: Option<u32>,
}

impl<'a> Memory<'a> {
    fn bare(bytes: &'a [u8]) -> Self {
        Memory { bytes, list: None }
    }

    fn listed(bytes: &'a [u8], at: u32) -> Self {
        let list = if at < Settings::NO_RECORD {
            Some(at)
        } else {
            None
        };
        Memory { bytes, list }
    }

    // The number of the item whose record is at an address: each item of a plan has one record, in the same order. It has 240 items
    // at most.
    fn item_of(self, origin: u32) -> Option<u16> {
        let mut reader = Reader::new(self.list?);
        for i in 0..Frame::LINES {
            if reader.position == origin {
                return Some(i);
            }
            reader = reader.read(self.bytes);
        }
        None
    }
}

// A line or lines that are all alike, with the item that made them where the plan's list is known.
fn tell<R: Print>(rt: &R, mem: Memory, lines: Lines) -> io::Result<()> {
    print!(rt; "{lines}")?;
    if let Some(item) = mem.item_of(lines.settings.origin) {
        print!(rt; "; item {item}")?;
    }
    println!(rt)
}

// The settings without what moves from line to line.
fn still(mut s: Settings) -> Settings {
    s.overlay.address = 0;
    s.overlay.counter = 0;
    s.map.address = 0;
    s.map.counter = 0;
    s
}

// Whether the frame has a next line, and it is like this.
fn next_is<F: FnOnce(Settings) -> bool>(frame: Frame, mem: &[u8], like: F) -> bool
    requires { F.IsAlwaysCallable like }
{
    match frame.next_line(mem).report {
        Ok(s) => like(s),
        Err(_) => false,
    }
}

// The next lines of a frame, those that are all alike as one, and the frame behind them. Lines of different records are not alike.
fn joined<R: Print>(rt: &R, mut frame: Frame, mem: Memory, count: u16) -> io::Result<Frame> {
    let mut from = frame.line;
    for i in 0..count {
        let to = frame.line;
        let next = frame.next_line(mem.bytes);
        frame = next.state;
        match next.report {
            Err(why) => refused(rt, to, why)?,
            Ok(settings) => {
                if i + 1 == count || !next_is(frame, mem.bytes, |s| s == settings) {
                    tell(rt, mem, Lines { from, to, settings })?;
                    from = frame.line;
                }
            }
        }
    }
    Ok(frame)
}

// The same, and the frame printed.
pub fn runs<R: Print>(rt: &R, frame: Frame, mem: &[u8], count: u16) -> io::Result<()> {
    println!(rt; "{}", Shown(joined(rt, frame, Memory::bare(mem), count)?))
}

// The 240 lines of a frame: those where a band begins or ends, and each ninth line, so that every counter is met.
fn samples<R: Print>(rt: &R, mut frame: Frame, mem: Memory) -> io::Result<()> {
    let mut before = Settings::new();
    for _ in 0..Frame::LINES {
        let line = frame.line;
        let next = frame.next_line(mem.bytes);
        frame = next.state;
        match next.report {
            Err(why) => refused(rt, line, why)?,
            Ok(settings) => {
                let first = still(before) != still(settings);
                let last = !next_is(frame, mem.bytes, |s| still(s) == still(settings));
                if first || last || line % 9 == 0 {
                    tell(rt, mem, Lines::one(line, settings))?;
                }
                before = settings;
            }
        }
    }
    Ok(())
}

// A frame's next line, and the frame that comes back.
pub fn ask<R: Print>(rt: &R, frame: Frame, mem: &[u8]) -> io::Result<()> {
    let next = frame.next_line(mem);
    let after = next.state;
    match next.report {
        Err(why) => {
            let back = if after == frame {
                "the frame as it was"
            } else {
                "another frame"
            };
            print!(rt; "{back}, ")?;
            rt.println(RefusalLine::from(why))
        }
        Ok(settings) => {
            tell(rt, Memory::bare(mem), Lines::one(frame.line, settings))?;
            println!(rt; "{}", Held(after))
        }
    }
}

// What is shown of a board's frame, or why it does not start.
pub fn begun<R: Print, F: FnOnce(Frame) -> io::Result<()>>(
    rt: &R,
    board: Board,
    shown: F,
) -> io::Result<()>
    requires { F.IsAlwaysCallable shown }
    ensures { (frame : _) → start_answer board ≡ done frame → FnOnceReturns F.FnOnce shown (frame, tt) result }
{
    match Frame::start(board) {
        Ok(frame) => shown(frame),
        Err(why) => rt.println(RefusalLine::from(why)),
    }
}

// The first lines of a frame of the list at the address.
pub fn show<R: Print>(rt: &R, mem: &[u8], address: u32, video: u8, count: u16) -> io::Result<()> {
    begun(
        rt,
        pointed(address, video),
        |frame| runs(rt, frame, mem, count),
    )
}

// A whole frame of the plan's list at the address, switched on: as many lines as show each band.
pub fn show_bands<R: Print>(rt: &R, mem: &[u8], address: u32) -> io::Result<()> {
    begun(
        rt,
        pointed(address, 1),
        |frame| samples(rt, frame, Memory::listed(mem, address)),
    )
}

// The frame after some lines.
fn lines_on(mut frame: Frame, mem: &[u8], count: u16) -> Frame {
    for _ in 0..count {
        frame = frame.next_line(mem).state;
    }
    frame
}

// So many lines of the plan's frame from one on, those that are all alike as one.
pub fn show_joined<R: Print>(
    rt: &R,
    mem: &[u8],
    address: u32,
    from: u16,
    count: u16,
) -> io::Result<()> {
    begun(rt, pointed(address, 1), |frame| {
        joined(
            rt,
            lines_on(frame, mem, from),
            Memory::listed(mem, address),
            count,
        )?;
        Ok(())
    })
}
