#![tactic(auto)]

ghost use Rattle.std.specs.Prelude.{◌≡◌, true, ◌+◌, ◌≤◌, ◌<◌, length};
ghost use Rattle.refusal.specs.Sheet.{told};
ghost use Rattle.vram.specs.Memory.{good_length};
ghost use Rattle.blitter.specs.State.{sound_blitter};
ghost use Rattle.engine.specs.Tick.{load_tick, ended};
ghost use Rattle.engine.specs.Run.{run_for, begun, engine_answer, engine_blitter, engine_memory};
ghost use Rattle.engine.specs.Engine.{place_at, tall_of, source_step, dest_step, ahead_row, ahead_col, after_row, after_col, level_block, stretch_at, left_at, so_far, Placed, Reach, BurstFrom, BurstTo};

use blitter::Blitter;
use block::{Block, Note};
use refusal::{After, Refusal, ask};
use stretch::{Stretch, flat};

// What a run reports: ticks done and accesses made.
#[derive(Clone, Copy, Debug, PartialEq, Eq, Default)]
pub struct Counts {
    pub ticks: u32,
    pub accesses: u32,
}

impl Counts {
    // The most ticks that one run may ask for.
    pub const BUDGET: u32 = 1000000;
}

// A run so far, beside memory.
#[derive(Clone, Copy)]
struct Sofar {
    blitter: Blitter,
    counts: Counts,
}

// A place in a block: its row and column, how far it is down and across in the rows and columns that show
// one source byte, and the row and column of that byte. Kept from stretch to stretch, so that none divides.
#[derive(Clone, Copy)]
struct Place {
    row: u32,
    col: u32,
    down: u32,
    across: u32,
    sourcerow: u32,
    sourcecol: u32,
}

// Whether a block is one column that is not zoomed in y: then its bytes are a step in y apart.
fn tall(block: Block) -> bool
    ensures { result ≡ tall_of block }
{
    (block.columns() == 1) & (block.zoom_y() == 1)
}

// How much further the next source byte is inside a stretch.
fn source_step(block: Block) -> u32
    ensures { result ≡ source_step block }
{
    if tall(block) {
        block.source.down()
    } else if block.zoom_x() == 1 {
        block.source.across()
    } else {
        0
    }
}

// How much further the next destination byte is.
fn dest_step(block: Block) -> u32
    ensures { result ≡ dest_step block }
{
    if tall(block) {
        block.dest.down()
    } else {
        block.dest.across()
    }
}

impl Place {
    // The place at a row and a column.
    #[tactic(auto, using(block::proofs::Sizes::pattern_pos))]
    fn at(block: Block, row: u16, col: u16) -> Place
        ensures { result ≡ place_at block row col }
    {
        let zx = block.zoom_x();
        let zy = block.zoom_y();
        Place {
            row: row as u32,
            col: col as u32,
            down: (row % zy) as u32,
            across: (col % zx) as u32,
            sourcerow: (row / zy) as u32,
            sourcecol: (col / zx % block.pattern_width()) as u32,
        }
    }

    // The next column: the same source column, or the next of the pattern, or its first.
    #[tactic(auto, using(crate::proofs::Following::next_column_is))]
    fn next_col(&mut self, block: Block)
        requires { (self.old ≡ place_at block self.old.row self.old.col) × (self.old.col < 65535) }
        ensures { self.new ≡ place_at block self.old.row (self.old.col + 1) }
    {
        self.col += 1;
        if self.across + 1 < block.zoom_x() as u32 {
            self.across += 1;
        } else if self.sourcecol + 1 < block.pattern_width() as u32 {
            self.across = 0;
            self.sourcecol += 1;
        } else {
            self.across = 0;
            self.sourcecol = 0;
        }
    }

    // The first column of the next row: of the same source row, or of the next.
    #[tactic(auto, using(crate::proofs::Following::next_row_is))]
    fn next_row(&mut self, block: Block)
        requires { (self.old ≡ place_at block self.old.row self.old.col) × (self.old.row < 65535) }
        ensures { self.new ≡ place_at block (self.old.row + 1) 0 }
    {
        self.row += 1;
        self.col = 0;
        self.across = 0;
        self.sourcecol = 0;
        if self.down + 1 < block.zoom_y() as u32 {
            self.down += 1;
        } else {
            self.down = 0;
            self.sourcerow += 1;
        }
    }

    // The place behind so many bytes of a stretch. Behind the block's last byte it is the first of a row that is not there.
    #[tactic(auto, using(crate::proofs::Reaching::last_is, crate::proofs::Reaching::small))]
    fn after(&mut self, block: Block, count: u32)
        requires { Placed block self.old × (0 < count) × Reach block self.old.row self.old.col count }
        ensures { self.new ≡ place_at block (after_row block self.old.row self.old.col count) (after_col block self.old.col count) }
    {
        self.ahead(block, count - 1);
        if self.col + 1 < block.columns() as u32 {
            self.next_col(block);
        } else {
            self.next_row(block);
        }
    }

    // How many bytes from here on are the two steps apart: all that are left of a tall block; else those left of the
    // row, of the pattern's columns or of the columns that show one source byte.
    #[tactic(auto, using(crate::proofs::Reaching::sourcecol_in, crate::proofs::Reaching::reach_plain))]
    fn reach(self, block: Block) -> u32
        requires { Placed block self }
        ensures { (0 < result) × Reach block self.row self.col result }
    {
        if tall(block) {
            return block.rows() as u32 - self.row;
        }
        let left = block.columns() as u32 - self.col;
        if block.zoom_x() == 1 {
            left.min(block.pattern_width() as u32 - self.sourcecol)
        } else {
            left.min(block.zoom_x() as u32 - self.across)
        }
    }

    // The place k bytes on, inside a stretch.
    #[tactic(auto, using(crate::proofs::Reaching::ahead_is, crate::proofs::Reaching::small))]
    fn ahead(&mut self, block: Block, k: u32)
        requires { Placed block self.old × Reach block self.old.row self.old.col (k + 1) }
        ensures { self.new ≡ place_at block (ahead_row block self.old.row k) (ahead_col block self.old.col k) }
    {
        if tall(block) {
            self.row += k;
            self.sourcerow += k;
        } else if block.zoom_x() == 1 {
            self.col += k;
            self.sourcecol += k;
        } else {
            self.col += k;
            self.across += k;
        }
    }

    // The stretch of so many bytes from here on.
    #[tactic(auto, using(crate::proofs::Following::source_is, crate::proofs::Reaching::small))]
    fn stretch(self, block: Block, count: u32) -> Stretch
        requires { Placed block self × (count ≤ 65535) }
        ensures { result ≡ stretch_at block self.row self.col count }
    {
        Stretch {
            from: block
                .source
                .address(self.sourcerow as u16, self.sourcecol as u16),
            along: source_step(block),
            to: block.destination(self.row as u16, self.col as u16),
            step: dest_step(block),
            count: count as u16,
        }
    }
}

// A load tick: the 21 bytes at the list address.
#[tactic(auto, unfolding(crate::specs::Tick::load_tick))]
fn load(blitter: &mut Blitter, mem: &[u8])
    ensures { blitter.new ≡ load_tick blitter.old mem.now }
{
    blitter.block = block::block_at(mem, blitter.list);
    blitter.list = (blitter.list % 524288 + 21) % 524288;
    blitter.flags = 2;
    blitter.row = 0;
    blitter.col = 0;
}

// After a block's last byte: the next block, or the list's end with its interrupt.
#[tactic(auto, unfolding(crate::specs::Tick::ended))]
fn end(blitter: &mut Blitter, note: Note)
    ensures { blitter.new ≡ ended blitter.old note }
{
    let next = blitter.block.next();
    blitter.block = Block::none();
    blitter.row = 0;
    blitter.col = 0;
    blitter.note = note;
    if next {
        blitter.flags = 1;
    } else {
        blitter.flags = 0;
        blitter.irqf |= blitter.irqe;
    }
}

// The blitter at a place that a burst has come to, or behind the block's last byte.
fn leave(blitter: &mut Blitter, place: Place, note: Note)
    requires { (place.row < 65536) × (place.col < 65536) }
    ensures { blitter.new ≡ left_at blitter.old place.row place.col note }
{
    if blitter.block.rows() as u32 <= place.row {
        end(blitter, note);
    } else {
        blitter.row = place.row as u16;
        blitter.col = place.col as u16;
        blitter.note = note;
    }
}

// Whether a block's stretches are drawn at once: they are flat, and the longest has 8 bytes or more. Shorter ones are
// drawn as quickly by the other loops.
#[tactic(auto, using(crate::proofs::Reaching::first_placed))]
fn at_once(block: Block) -> bool
    ensures { result ≡ true → level_block block ≡ true }
{
    (8 <= Place::at(block, 0, 0).reach(block))
        & flat::level(block, source_step(block), dest_step(block))
}

impl Sofar {
    // The byte ticks of one block, a stretch at a time. The block stands in a
    // local that the loop never assigns, so that it is taken apart once.
    #[tactic(auto, using(crate::proofs::Bursts::placed_in, crate::proofs::Reaching::small))]
    fn burst_each(mut self, mem: &mut [u8], budget: u32) -> Sofar
        requires { BurstFrom self mem.old budget }
        ensures { BurstTo self mem.old budget result mem.new }
    {
        let block = self.blitter.block;
        let columns = block.columns() as u32;
        let rows = block.rows() as u32;
        let mut place = Place::at(block, self.blitter.row, self.blitter.col);
        let mut note = self.blitter.note;
        let mut counts = self.counts;
        while counts.ticks < budget {
            let count = place.reach(block).min(budget - counts.ticks);
            let drawn = stretch::draw(block, mem, place.stretch(block, count), note);
            note = drawn.note;
            counts.accesses += drawn.accesses;
            counts.ticks += count;
            place.ahead(block, count - 1);
            if place.col + 1 < columns {
                place.next_col(block);
            } else if place.row + 1 < rows {
                place.next_row(block);
            } else {
                self.counts = counts;
                end(&mut self.blitter, note);
                return self;
            }
        }
        self.counts = counts;
        leave(&mut self.blitter, place, note);
        self
    }

    // The byte ticks of one block whose stretches are flat, each up to a wrap. Its loops stand apart from those of
    // `burst_each`, so that blocks that are not flat keep the loop they had (measured: docs/SPEED.md).
    #[tactic(auto, using(crate::proofs::Bursts::placed_in, crate::proofs::Reaching::small))]
    fn burst_flat(mut self, mem: &mut [u8], budget: u32) -> Sofar
        requires { BurstFrom self mem.old budget × (level_block self.blitter.block ≡ true) }
        ensures { BurstTo self mem.old budget result mem.new }
    {
        let block = self.blitter.block;
        let rows = block.rows() as u32;
        let mut place = Place::at(block, self.blitter.row, self.blitter.col);
        let mut note = self.blitter.note;
        let mut counts = self.counts;
        while (place.row < rows) & (counts.ticks < budget) {
            let most = place.reach(block).min(budget - counts.ticks);
            let part = flat::draw(block, mem, place.stretch(block, most), note);
            note = part.note;
            counts.accesses += part.accesses;
            counts.ticks += part.count;
            place.after(block, part.count);
        }
        self.counts = counts;
        leave(&mut self.blitter, place, note);
        self
    }

    // The byte ticks of one block, until the block or the budget ends.
    fn burst(self, mem: &mut [u8], budget: u32) -> Sofar
        requires { BurstFrom self mem.old budget }
        ensures { BurstTo self mem.old budget result mem.new }
    {
        if at_once(self.blitter.block) {
            self.burst_flat(mem, budget)
        } else {
            self.burst_each(mem, budget)
        }
    }
}

// Ticks until the budget is used or the flags are 0: loads, and bursts over one block each. A turn goes on by as many ticks as it did.
fn run_for(blitter: Blitter, mem: &mut [u8], budget: u32) -> Sofar
    requires { (good_length (length mem.old) ≡ true) × (sound_blitter blitter ≡ true) × (budget ≤ 1000000) }
    ensures run { so_far result mem.new ≡ run_for budget (begun blitter mem.old) }
{
    let mut run = Sofar {
        blitter,
        counts: Counts::default(),
    };
    while run.counts.ticks < budget {
        match run.blitter.flags {
            0 => return run,
            1 => {
                load(&mut run.blitter, mem);
                run.counts.ticks += 1;
                run.counts.accesses += 21;
            }
            _ => run = run.burst(mem, budget),
        }
    }
    run
}

// A run: refused 1, 15 and 2 in that order, and then the blitter and memory are as they were.
#[tactic(auto, unfolding(crate::specs::Run::engine_answer, crate::specs::Run::engine_blitter, crate::specs::Run::engine_memory))]
fn ran(blitter: &mut Blitter, mem: &mut [u8], budget: u32) -> Result<Counts, Refusal>
    ensures report { told result ≡ engine_answer blitter.old mem.old budget }
    ensures blitter { blitter.new ≡ engine_blitter blitter.old mem.old budget }
    ensures memory { mem.new ≡ engine_memory blitter.old mem.old budget }
{
    ask(vram::good_length(mem.len()), Refusal::Board)?;
    ask(blitter.sound(), Refusal::State)?;
    ask(budget <= Counts::BUDGET, Refusal::Budget)?;
    let run = run_for(*blitter, mem, budget);
    *blitter = run.blitter;
    Ok(run.counts)
}

// The blitter after a run, and what is reported.
pub fn run(mut blitter: Blitter, mem: &mut [u8], budget: u32) -> After<Blitter, Counts>
    ensures report { told result.report ≡ engine_answer blitter mem.old budget }
    ensures blitter { result.state ≡ engine_blitter blitter mem.old budget }
    ensures memory { mem.new ≡ engine_memory blitter mem.old budget }
{
    let report = ran(&mut blitter, mem, budget);
    After {
        state: blitter,
        report,
    }
}
