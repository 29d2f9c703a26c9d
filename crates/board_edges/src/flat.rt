// Rows of eight bytes that lie one after the other in memory, as most do: over themselves, past the memory's end, in a
// mode that skips, and without a source. The list is at 100, since a row may be at 0.
use super::blitlist::{self, Bench};
use block::Block;
use boardtext::boards::put;
use std::io;

// A row of eight from page s to page d.
fn row(s: u8, d: u8) -> Block {
    Block {
        width0: 7,
        ..blitlist::plain(s, d)
    }
}

const EIGHT: &[u8] = b"\x01\x02\x03\x04\x05\x06\x07\x08";

// Each byte is read after the one before was written: the first goes on and on.
fn further<R: Print>(bench: &mut Bench<R>) -> io::Result<()> {
    put(bench.mem, EIGHT, 0x2000);
    let mut block = row(0x20, 0x20);
    block.dest.adr0 = 1;
    bench.single("8 bytes one further", 100, block, 0x2000)
}

// Each byte is read before it is written: they move.
fn back<R: Print>(bench: &mut Bench<R>) -> io::Result<()> {
    put(bench.mem, b"\x01\x02\x03\x04\x05\x06\x07\x08\x09", 0x2000);
    let mut block = row(0x20, 0x20);
    block.source.adr0 = 1;
    bench.single("8 bytes one back", 100, block, 0x2000)
}

// One byte, zoomed, that is itself the fourth of those written.
fn among<R: Print>(bench: &mut Bench<R>) -> io::Result<()> {
    put(bench.mem, EIGHT, 0x2000);
    let mut block = blitlist::plain(0x20, 0x20);
    block.source.adr0 = 3;
    block.xormask = 1;
    block.zoom = 7;
    bench.single("8 of one byte among them", 100, block, 0x2000)
}

// Four bytes at the memory's end, and four at its beginning.
fn past<R: Print>(bench: &mut Bench<R>) -> io::Result<()> {
    put(bench.mem, EIGHT, 0x2000);
    let mut block = row(0x20, 0x3F);
    block.dest.adr0 = 0xFC;
    bench.single("8 bytes past the end", 100, block, 16380)
}

// Mode 1 skips every second byte.
fn skipping<R: Print>(bench: &mut Bench<R>) -> io::Result<()> {
    put(bench.mem, b"\x01\x00\x02\x00\x03\x00\x04\x00", 0x2000);
    put(bench.mem, b"\x11\x12\x13\x14\x15\x16\x17\x18", 0x2100);
    let mut block = row(0x20, 0x21);
    block.control = 1;
    bench.single("8 bytes in mode 1", 100, block, 0x2100)
}

// Mode 5 without a source turns each bit.
fn turned<R: Print>(bench: &mut Bench<R>) -> io::Result<()> {
    put(bench.mem, EIGHT, 0x2100);
    let block = Block {
        width0: 7,
        control: 5,
        ..blitlist::fill(0x21, 255)
    };
    bench.single("8 bytes in mode 5, AND 0", 100, block, 0x2100)
}

pub fn all<R: Print>(bench: &mut Bench<R>) -> io::Result<()> {
    further(bench)?;
    back(bench)?;
    among(bench)?;
    past(bench)?;
    skipping(bench)?;
    turned(bench)
}
