// What the programs at the edges print of a board: how it stands, what a call told, cells of memory.
use super::Shown;
use blitter::Blitter;
use board::Ports;
use engine::Counts;
use refusal::Refusal;
use std::{fmt, io};

// The blitter between two ticks.
impl fmt::Display for Shown<Blitter> {
    fn fmt<W: fmt::Write>(&self, f: &mut fmt::Formatter<W>) -> fmt::Result {
        let b = self.0;
        write!(
            f,
            "; flags {} list {} code {} row {} col {} irqe {} irqf {}",
            b.flags, b.list, b.note.code, b.row, b.col, b.irqe as u8, b.irqf as u8
        )
    }
}

// The registers that are only written to.
impl fmt::Display for Shown<Ports> {
    fn fmt<W: fmt::Write>(&self, f: &mut fmt::Formatter<W>) -> fmt::Result {
        let p = self.0;
        write!(
            f,
            "; video {} xdl {} bl {} p {} {} {} {}",
            p.video, p.xdladr, p.bladr, p.p0, p.p1, p.p2, p.p3
        )
    }
}

impl fmt::Display for Shown<Refusal> {
    fn fmt<W: fmt::Write>(&self, f: &mut fmt::Formatter<W>) -> fmt::Result {
        write!(f, "refused {}", self.0.number())
    }
}

// What a run reports.
impl fmt::Display for Shown<Result<Counts, Refusal>> {
    fn fmt<W: fmt::Write>(&self, f: &mut fmt::Formatter<W>) -> fmt::Result {
        match self.0 {
            Ok(Counts { ticks, accesses }) => { write!(f, ": ticks {ticks} accesses {accesses}") }
            Err(why) => write!(f, ": {}", Shown(why)),
        }
    }
}

// Whether a call was done.
impl fmt::Display for Shown<Result<(), Refusal>> {
    fn fmt<W: fmt::Write>(&self, f: &mut fmt::Formatter<W>) -> fmt::Result {
        match self.0 {
            Ok(()) => f.write_str(" done"),
            Err(why) => write!(f, " {}", Shown(why)),
        }
    }
}

// Eight cells from an address on, in a line.
pub fn cells<R: Print>(rt: &R, mem: &[u8], at: u32) -> io::Result<()> {
    print!(rt; "  {at}:")?;
    for offset in 0..8 {
        print!(rt; " {:02X}", vram::byte_at(mem, at, offset))?;
    }
    println!(rt)
}
