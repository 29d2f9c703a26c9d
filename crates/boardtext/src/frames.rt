// A frame as text. A line's settings are printed as
//   MODE ADDRESS step N scroll H V font F counter N; map on|off ADDRESS step N scroll H V field WxH counter N;
//   width N palettes OVERLAY PLAYFIELD priority P; record ADDRESS|no record
// with addresses, font and priority in hex. The record is the one last read for the line.
ghost use Rattle.std.specs.Prelude.{◌≡◌};

use super::Shown;
use frame::Frame;
use print::{Address, RefusalLine};
use refusal::Refusal;
use settings::{Look, Map, Overlay, Settings};
use std::{fmt, io};

#[derive(Clone, Copy)]
struct Mode(u8);

// What stands before the address. An unsound mode is printed as its number, with nothing behind it.
impl fmt::Display for Mode {
    fn fmt<W: fmt::Write>(&self, f: &mut fmt::Formatter<W>) -> fmt::Result {
        match self.0 {
            0 => f.write_str("off "),
            1 => f.write_str("text "),
            2 => f.write_str("SR "),
            3 => f.write_str("HR "),
            4 => f.write_str("LR "),
            m => write!(f, "mode {m}"),
        }
    }
}

impl fmt::Display for Shown<Overlay> {
    fn fmt<W: fmt::Write>(&self, f: &mut fmt::Formatter<W>) -> fmt::Result {
        let Overlay {
            mode,
            address,
            step,
            hscroll,
            vscroll,
            font,
            counter,
        } = self.0;
        let mode = Mode(mode);
        let address = Address(address);
        write!(
            f,
            "{mode}{address} step {step} scroll {hscroll} {vscroll} font {font:02X} counter {counter}"
        )
    }
}

impl fmt::Display for Shown<Map> {
    fn fmt<W: fmt::Write>(&self, f: &mut fmt::Formatter<W>) -> fmt::Result {
        let Map {
            on,
            address,
            step,
            hscroll,
            vscroll,
            width,
            height,
            counter,
        } = self.0;
        let on = if on { "on" } else { "off" };
        let address = Address(address);
        write!(
            f,
            "map {on} {address} step {step} scroll {hscroll} {vscroll} field {width}x{height} counter {counter}"
        )
    }
}

impl fmt::Display for Shown<Look> {
    fn fmt<W: fmt::Write>(&self, f: &mut fmt::Formatter<W>) -> fmt::Result {
        let Look {
            width,
            palette,
            playfield,
            priority,
        } = self.0;
        write!(
            f,
            "width {width} palettes {palette} {playfield} priority {priority:02X}"
        )
    }
}

impl fmt::Display for Shown<Settings> {
    fn fmt<W: fmt::Write>(&self, f: &mut fmt::Formatter<W>) -> fmt::Result {
        let s = self.0;
        write!(
            f,
            "{}; {}; {}",
            Shown(s.overlay),
            Shown(s.map),
            Shown(s.look)
        )?;
        if s.origin < Settings::NO_RECORD {
            write!(f, "; record {}", Address(s.origin))
        } else {
            f.write_str("; no record")
        }
    }
}

// A line, or lines that are all alike.
#[derive(Clone, Copy)]
pub struct Lines {
    pub from: u16,
    pub to: u16,
    pub settings: Settings,
}

impl Lines {
    // A single line.
    pub fn one(line: u16, settings: Settings) -> Self
        ensures { (result.from ≡ line) × (result.to ≡ line) × (result.settings ≡ settings) }
    {
        Lines {
            from: line,
            to: line,
            settings,
        }
    }
}

impl fmt::Display for Lines {
    fn fmt<W: fmt::Write>(&self, f: &mut fmt::Formatter<W>) -> fmt::Result {
        let Lines { from, to, settings } = *self;
        if from == to {
            write!(f, "line {to}: {}", Shown(settings))
        } else {
            write!(f, "lines {from} to {to}: {}", Shown(settings))
        }
    }
}

// What a frame holds beside its settings.
impl fmt::Display for Shown<Frame> {
    fn fmt<W: fmt::Write>(&self, f: &mut fmt::Formatter<W>) -> fmt::Result {
        let Frame { reader, line, on } = self.0;
        write!(
            f,
            "frame: line {line} repeat {} list {} {}{}",
            reader.repeat,
            Address(reader.position),
            if on { "on" } else { "not on" },
            if reader.ended { " ended" } else { "" }
        )
    }
}

// All that a frame holds.
#[derive(Clone, Copy)]
pub struct Held(pub Frame);

impl fmt::Display for Held {
    fn fmt<W: fmt::Write>(&self, f: &mut fmt::Formatter<W>) -> fmt::Result {
        let frame = self.0;
        write!(
            f,
            "{}\nholds: {}",
            Shown(frame),
            Shown(frame.reader.settings)
        )
    }
}

// A line that is refused.
pub fn refused<R: Print>(rt: &R, line: u16, why: Refusal) -> io::Result<()> {
    print!(rt; "line {line}: ")?;
    rt.println(RefusalLine::from(why))
}
