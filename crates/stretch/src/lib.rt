#![tactic(auto)]

ghost use Rattle.std.specs.Prelude.{◌≡◌, true, cond, ◌+◌, ◌*◌, ◌≤◌, ◌<◌, length, set};
ghost use Rattle.std.specs.Int.Bits.{bit_and, bit_xor};
ghost use Rattle.vram.specs.Memory.{good_length, place, cell_at};
ghost use Rattle.block.specs.Block.{mode_of};
ghost use Rattle.block.specs.Byte.{reads_source, noted};
ghost use Rattle.stretch.specs.Stretch.{Draws, Covers, trace, trace_of};

pub mod flat;

use block::{Block, Note, Struck};
use mode::Stroke;

// A stretch of a block's bytes: so many, one after the other, whose source and destination go on by fixed
// steps. Addresses and steps are counted without wrapping; an access wraps them.
#[derive(Clone, Copy)]
pub struct Stretch {
    pub from: u32,
    pub along: u32,
    pub to: u32,
    pub step: u32,
    pub count: u16,
}

// What a stretch leaves beside memory: the note of collisions after it, and its accesses.
#[derive(Clone, Copy)]
pub struct Drawn {
    pub note: Note,
    pub accesses: u32,
}

// Where an address falls in a memory of n bytes: n is a power of two that divides 524,288, so n - 1 is a mask.
fn index(n: usize, address: usize) -> usize
    requires { good_length n ≡ true }
    ensures { (result ≡ place n address) × (result < n) }
{
    address & (n - 1)
}

// A good length is asked for each time: a struct of memory and this fact would say each time that its memory is the same.

// The byte at an address.
fn cell(mem: &[u8], address: usize) -> u8
    requires { good_length (length mem.now) ≡ true }
    ensures { result ≡ cell_at mem.now address }
{
    mem[index(mem.len(), address)]
}

// Puts a byte at an address.
fn put(mem: &mut [u8], address: usize, value: u8)
    requires { good_length (length mem.old) ≡ true }
    ensures { mem.new ≡ set mem.old (place (length mem.old) address) value }
{
    mem[index(mem.len(), address)] = value;
}

// A source byte after both masks.
fn masked(block: Block, byte: u8) -> u8
    ensures { result ≡ bit_xor (bit_and byte block.andmask) block.xormask }
{
    (byte & block.andmask) ^ block.xormask
}

// Writes what a stroke writes, and counts the source's access with its own.
fn settle(block: Block, mem: &mut [u8], to: usize, stroke: Stroke) -> Struck
    requires good { good_length (length mem.old) ≡ true }
    requires few { stroke.accesses ≤ 2 }
    ensures struck { (result.note ≡ noted stroke) × (result.accesses ≡ stroke.accesses + cond (reads_source block) 1 0) }
    ensures memory { mem.new ≡ cond stroke.written (set mem.old (place (length mem.old) to) stroke.value) mem.old }
{
    if stroke.written {
        put(mem, to, stroke.value);
    }
    Struck {
        note: Note { code: stroke.code },
        accesses: stroke.accesses + block.reads() as u8,
    }
}

// The loops: one for each kind of mode. The source is read also with an AND mask of 0, where it counts for nothing.
impl Stretch {
    // Mode 0 with an AND mask of 0: every byte is the XOR mask, by one access.
    fn fill(self, block: Block, mem: &mut [u8])
        requires good { good_length (length mem.old) ≡ true }
        requires mode { mode_of block ≡ 0 }
        requires unread { block.andmask ≡ 0 }
        ensures { Covers block self mem.old mem.new self.count }
    {
        let mut to = self.to as usize;
        for _ in 0..self.count {
            put(mem, to, block.xormask);
            to += self.step as usize;
        }
    }

    // Mode 0: the source is copied, by two accesses.
    fn copy(self, block: Block, mem: &mut [u8])
        requires good { good_length (length mem.old) ≡ true }
        requires mode { mode_of block ≡ 0 }
        requires read { block.andmask ≡ 0 → ⊥ }
        ensures { Covers block self mem.old mem.new (2 * self.count) }
    {
        let mut from = self.from as usize;
        let mut to = self.to as usize;
        for _ in 0..self.count {
            put(mem, to, masked(block, cell(mem, from)));
            from += self.along as usize;
            to += self.step as usize;
        }
    }

    // Modes 1 to 6. The mode is a constant, so that the compiler leaves the others out of each loop.
    fn blend<const MODE: u8>(self, block: Block, mem: &mut [u8], mut note: Note) -> Drawn
        requires good { good_length (length mem.old) ≡ true }
        requires mode { mode_of block ≡ MODE }
        requires under { MODE < 7 }
        ensures { Draws block self mem.old note mem.new result }
    {
        let mut from = self.from as usize;
        let mut to = self.to as usize;
        let mut accesses = 0;
        for _ in 0..self.count {
            let s = masked(block, cell(mem, from));
            let stroke = mode::stroke_of(MODE, block.hitmask, s, cell(mem, to), note.code);
            let struck = settle(block, mem, to, stroke);
            note = struck.note;
            accesses += struck.accesses as u32;
            from += self.along as usize;
            to += self.step as usize;
        }
        Drawn { note, accesses }
    }

    // Mode 0: how many accesses it has.
    fn replace(self, block: Block, mem: &mut [u8]) -> u32
        requires good { good_length (length mem.old) ≡ true }
        requires mode { mode_of block ≡ 0 }
        ensures { Covers block self mem.old mem.new result }
    {
        if block.andmask == 0 {
            self.fill(block, mem);
            return self.count as u32;
        }
        self.copy(block, mem);
        2 * self.count as u32
    }
}

// A stretch of a block's bytes, by the loop of its mode; mode 7 does nothing. In a memory of no board's
// length nothing is done.
#[tactic(auto, unfolding(crate::specs::Stretch::trace_of))]
pub fn draw(block: Block, mem: &mut [u8], stretch: Stretch, note: Note) -> Drawn
    ensures { trace mem.new result.note result.accesses ≡ trace_of block stretch mem.old note }
{
    if !vram::good_length(mem.len()) {
        return Drawn { note, accesses: 0 };
    }
    match block.mode() {
        0 => Drawn {
            note,
            accesses: stretch.replace(block, mem),
        },
        1 => stretch.blend::<1>(block, mem, note),
        2 => stretch.blend::<2>(block, mem, note),
        3 => stretch.blend::<3>(block, mem, note),
        4 => stretch.blend::<4>(block, mem, note),
        5 => stretch.blend::<5>(block, mem, note),
        6 => stretch.blend::<6>(block, mem, note),
        _ => Drawn { note, accesses: 0 },
    }
}
