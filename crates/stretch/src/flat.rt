// Flat stretches. A stretch is flat where its bytes lie one after the other in memory: a step of 1 and no wrap between
// them; and the same of its sources, where they are read. There a loop goes over indices, masks no address, and the
// compiler does many bytes at once. Its tests for an overlap are its own: a loop over one memory means what it says.
ghost use Rattle.std.specs.Prelude.{◌≡◌, true, cond, ◌||◌, ◌+◌, ◌*◌, ◌≤◌, ◌<◌, leb, ltb, length};
ghost use Rattle.vram.specs.Memory.{good_length, place};
ghost use Rattle.mode.specs.Mode.{value_in, writes_in};
ghost use Rattle.block.specs.Block.{mode_of};
ghost use Rattle.stretch.specs.Stretch.{Makes, Covers, trace, trace_of};
ghost use Rattle.stretch.specs.Flat.{level_of, until_end, before_wrap, flat_count, first_of, Flat, Within, Lies, painted};

use crate::{Stretch, index, masked};
use block::{Block, Note};

// What was drawn of a stretch: so many of its bytes, and what they leave beside memory.
#[derive(Clone, Copy)]
pub struct Part {
    pub count: u32,
    pub note: Note,
    pub accesses: u32,
}

// The first test, of a block and the steps of its stretches. Sources must be a step of 1 apart where they are read; in
// mode 0 they may be one byte. Where a collision can be seen its code is looked for byte by byte, and not here.
#[tactic(auto, unfolding(crate::specs::Flat::level_of))]
pub fn level(block: Block, along: u32, step: u32) -> bool
    ensures { result ≡ level_of block along step }
{
    if step != 1 {
        return false;
    }
    let unread = block.andmask == 0;
    if block.mode() == 0 {
        return unread | (along <= 1);
    }
    (block.hitmask == 0) & (unread | (along == 1))
}

// How many of so many bytes, from an address on, come before memory's end.
#[tactic(auto, unfolding(crate::specs::Flat::until_end))]
fn until_end(n: usize, address: u32, count: u16) -> u16
    requires { good_length n ≡ true }
    ensures { result ≡ until_end n address count }
{
    let left = n - index(n, address as usize);
    if left < count as usize {
        left as u16
    } else {
        count
    }
}

// The second test: how many bytes of a stretch come before a wrap, of theirs or of their sources.
#[tactic(auto, unfolding(crate::specs::Flat::before_wrap))]
fn before_wrap(n: usize, block: Block, stretch: Stretch) -> u16
    requires { good_length n ≡ true }
    ensures { result ≡ before_wrap n block stretch }
{
    let count = until_end(n, stretch.to, stretch.count);
    if block.andmask == 0 {
        return count;
    }
    until_end(n, stretch.from, count)
}

// A byte after its stroke: what the mode writes, or as it was.
fn after(mode: u8, s: u8, d: u8) -> u8
    ensures { result ≡ cond (writes_in mode s) (value_in mode s d) d }
{
    if mode::writes(mode, s) {
        mode::value(mode, s, d)
    } else {
        d
    }
}

// Where a flat stretch lies: the first place of its sources and of its bytes, and how many they are.
#[derive(Clone, Copy)]
struct Places {
    from: usize,
    at: usize,
    count: u16,
}

impl Places {
    // Where no source is read any place does for the first: one before the bytes, so that the compiler's test finds no
    // overlap.
    fn of(n: usize, block: Block, stretch: Stretch) -> Places
        requires good { good_length n ≡ true }
        requires flat { Flat n block stretch }
        ensures { Lies n block stretch result }
    {
        let at = index(n, stretch.to as usize);
        let count = stretch.count as usize;
        let from = if block.andmask != 0 {
            index(n, stretch.from as usize)
        } else if count <= at {
            at - count
        } else {
            at
        };
        Places {
            from,
            at,
            count: stretch.count,
        }
    }

    // One value in each byte.
    fn paint(self, mem: &mut [u8], value: u8)
        requires { Within (length mem.old) self }
        ensures { mem.new ≡ painted value mem.old self.at self.count }
    {
        for k in 0..self.count as usize {
            mem[self.at + k] = value;
        }
    }

    // Mode 0: the sources are copied, whether they overlap the bytes or not.
    fn copy(self, block: Block, mem: &mut [u8])
        requires within { Within (length mem.old) self }
        requires mode { mode_of block ≡ 0 }
        requires read { block.andmask ≡ 0 → ⊥ }
        ensures { Makes block 1 1 self.count self.from self.at mem.old mem.new (2 * self.count) }
    {
        for k in 0..self.count as usize {
            mem[self.at + k] = masked(block, mem[self.from + k]);
        }
    }

    // Modes 1 to 6, where no collision can be seen. Every byte is written, if only as it was; those that the mode writes
    // cost the same each.
    fn mix<const MODE: u8>(self, block: Block, mem: &mut [u8]) -> u32
        requires within { Within (length mem.old) self }
        requires mode { mode_of block ≡ MODE }
        requires under { MODE < 7 }
        requires clear { block.hitmask ≡ 0 }
        ensures { Makes block 1 1 self.count self.from self.at mem.old mem.new result }
    {
        let mut wrote: u16 = 0;
        for k in 0..self.count as usize {
            let s = masked(block, mem[self.from + k]);
            mem[self.at + k] = after(MODE, s, mem[self.at + k]);
            wrote += mode::writes(MODE, s) as u16;
        }
        wrote as u32 * mode::cost(MODE, block.hitmask) as u32
            + self.count as u32 * block.reads() as u32
    }

    // The same, with the mode as a constant, so that the compiler leaves the others out of each loop.
    fn blend(self, block: Block, mem: &mut [u8]) -> u32
        requires within { Within (length mem.old) self }
        requires some { mode_of block ≡ 0 → ⊥ }
        requires under { mode_of block < 7 }
        requires clear { block.hitmask ≡ 0 }
        ensures { Makes block 1 1 self.count self.from self.at mem.old mem.new result }
    {
        match block.mode() {
            1 => self.mix::<1>(block, mem),
            2 => self.mix::<2>(block, mem),
            3 => self.mix::<3>(block, mem),
            4 => self.mix::<4>(block, mem),
            5 => self.mix::<5>(block, mem),
            _ => self.mix::<6>(block, mem),
        }
    }

    // Whether the first source is none of the bytes.
    fn apart(self) -> bool
        requires { self.at + self.count < 18446744073709551616 }
        ensures { result ≡ (ltb self.from self.at || leb (self.at + self.count) self.from) }
    {
        (self.from < self.at) | (self.at + self.count as usize <= self.from)
    }

    // Mode 0: a fill, a copy, or one byte copied many times. Where that byte is written on the way it is read each time.
    fn replace(self, block: Block, mem: &mut [u8], stretch: Stretch) -> u32
        requires flat { Flat (length mem.old) block stretch }
        requires lies { Lies (length mem.old) block stretch self }
        requires mode { mode_of block ≡ 0 }
        ensures { Covers block stretch mem.old mem.new result }
    {
        if block.andmask == 0 {
            self.paint(mem, block.xormask);
            return self.count as u32;
        }
        if stretch.along == 1 {
            self.copy(block, mem);
        } else if self.apart() {
            let s = masked(block, mem[self.from]);
            self.paint(mem, s);
        } else {
            stretch.copy(block, mem);
        }
        2 * self.count as u32
    }
}

// A flat stretch, by the loop of its mode; mode 7 does nothing.
fn whole(block: Block, mem: &mut [u8], stretch: Stretch) -> u32
    requires good { good_length (length mem.old) ≡ true }
    requires flat { Flat (length mem.old) block stretch }
    ensures { Covers block stretch mem.old mem.new result }
{
    let places = Places::of(mem.len(), block, stretch);
    match block.mode() {
        0 => places.replace(block, mem, stretch),
        7 => 0,
        _ => places.blend(block, mem),
    }
}

// The bytes of a stretch before a wrap, if they are flat; else none.
#[tactic(auto, using(crate::proofs::Whole::by_nothing), unfolding(crate::specs::Stretch::trace_of, crate::specs::Flat::flat_count))]
pub fn draw(block: Block, mem: &mut [u8], mut stretch: Stretch, note: Note) -> Part
    ensures count { result.count ≡ flat_count (length mem.old) block stretch }
    ensures drawn { trace mem.new result.note result.accesses ≡ trace_of block (first_of stretch result.count) mem.old note }
{
    if !(vram::good_length(mem.len()) & level(block, stretch.along, stretch.step)) {
        return Part {
            count: 0,
            note,
            accesses: 0,
        };
    }
    stretch.count = before_wrap(mem.len(), block, stretch);
    Part {
        count: stretch.count as u32,
        note,
        accesses: whole(block, mem, stretch),
    }
}
