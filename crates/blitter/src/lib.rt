#![tactic(auto, unfolding(crate::specs::State::sound_blitter, crate::specs::State::started, crate::specs::State::stopped, crate::specs::State::interrupts))]

ghost use Rattle.std.specs.Prelude.{◌≡◌, cond, eqb};
ghost use Rattle.blitter.specs.State.{new_blitter, inside, blank, sound_blitter, started, stopped, interrupts};

use block::{Block, Note};
use vram::Vram;

// The blitter between two ticks: the interrupt's enable and request, the list address, the flags
// (0 idle, 1 BCB_LOAD, 2 BUSY), what collisions left, the block being done, and the position in it.
// The flags are a number: a state with other flags can be handed in, and is refused.
#[derive(Clone, Copy, Debug, PartialEq, Eq, Default)]
pub struct Blitter {
    pub irqe: bool,
    pub irqf: bool,
    pub list: u32,
    pub flags: u8,
    pub note: Note,
    pub block: Block,
    pub row: u16,
    pub col: u16,
}

impl Blitter {
    // An idle blitter: every field 0.
    #[tactic(auto, unfolding(block::specs::Block::no_block, block::specs::Block::no_side))]
    pub fn new() -> Blitter
        ensures { result ≡ new_blitter }
    {
        Blitter::default()
    }

    // While BUSY: the position is inside the block.
    fn inside(self) -> bool
        ensures { result ≡ inside self.block self.row self.col }
    {
        (self.row < self.block.rows()) & (self.col < self.block.columns())
    }

    // While not BUSY: the block's bytes and the position are 0.
    fn blank(self) -> bool
        ensures { result ≡ blank self.block self.row self.col }
    {
        self.block.is_none() & (self.row == 0) & (self.col == 0)
    }

    fn placed(self) -> bool
        ensures { result ≡ cond (eqb self.flags 2) (inside self.block self.row self.col) (blank self.block self.row self.col) }
    {
        if self.flags == 2 {
            self.inside()
        } else {
            self.blank()
        }
    }

    pub fn sound(self) -> bool
        ensures { result ≡ sound_blitter self }
    {
        (self.list < Vram::ADDRESSES) & (self.flags <= 2) & self.placed()
    }

    // START: the list begins at BL_ADR, also when already running.
    pub fn start(mut self, list: u32) -> Blitter
        ensures { result ≡ started list self }
    {
        self.list = list;
        self.flags = 1;
        self.note = Note::default();
        self.block = Block::none();
        self.row = 0;
        self.col = 0;
        self
    }

    // Stop: no interrupt; the collision code and the list address stay.
    pub fn stop(mut self) -> Blitter
        ensures { result ≡ stopped self }
    {
        self.flags = 0;
        self.block = Block::none();
        self.row = 0;
        self.col = 0;
        self
    }

    // IRQ_CONTROL: the enable is set, and the request taken away.
    pub fn interrupts(mut self, irqe: bool) -> Blitter
        ensures { result ≡ interrupts irqe self }
    {
        self.irqe = irqe;
        self.irqf = false;
        self
    }
}
