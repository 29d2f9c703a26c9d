#![tactic(auto)]

ghost use Rattle.std.specs.Prelude.{◌≡◌};
ghost use Rattle.refusal.specs.Sheet.{told};
ghost use Rattle.board.specs.Ports.{new_ports, sound_ports, byte_set, ports_written};
ghost use Rattle.board.specs.Board.{new_board, sound_board, register, blitter_written, write_answer, write_board, read_byte, read_answer, reset_answer, reset_board, run_answer, run_board, run_memory, tick_answer, tick_board, tick_mem};

use blitter::Blitter;
use engine::Counts;
use refusal::{After, Refusal, ask};
use vram::Vram;

// The registers that are only written to: VIDEO_CONTROL, XDL_ADR, BL_ADR, P0 to P3.
#[derive(Clone, Copy, PartialEq, Eq, Default)]
pub struct Ports {
    pub video: u8,
    pub xdladr: u32,
    pub bladr: u32,
    pub p0: u8,
    pub p1: u8,
    pub p2: u8,
    pub p3: u8,
}

// The desk board. Video memory is lent to each call that needs it.
#[derive(Clone, Copy, PartialEq, Eq)]
pub struct Board {
    pub ports: Ports,
    pub blitter: Blitter,
}

// An address register with one of its three bytes written: 0 is bits 0 to 7, 1 bits 8 to 15, 2 bits 16 to 18.
fn byte_set(address: u32, k: u32, value: u8) -> u32
    ensures { result ≡ byte_set address k value }
{
    let [low, middle, high, _] = address.to_le_bytes();
    match k {
        0 => vram::number_19(value, middle, high),
        1 => vram::number_19(low, value, high),
        _ => vram::number_19(low, middle, value),
    }
}

// Whether the card answers at this offset.
fn is_register(offset: u32) -> bool
    ensures { result ≡ register offset }
{
    (Ports::FIRST <= offset) & (offset <= Ports::LAST)
}

impl Ports {
    // The offsets at which the card answers.
    pub const FIRST: u32 = 0x40;

    pub const LAST: u32 = 0x5F;

    fn new() -> Ports
        ensures { result ≡ new_ports }
    {
        Ports::default()
    }

    fn sound(self) -> bool
        ensures { result ≡ sound_ports self }
    {
        (self.video < 16) & (self.xdladr < Vram::ADDRESSES) & (self.bladr < Vram::ADDRESSES)
    }

    #[tactic(auto, unfolding(crate::specs::Ports::ports_written))]
    fn write(mut self, offset: u32, value: u8) -> Ports
        ensures { result ≡ ports_written offset value self }
    {
        match offset {
            0x40 => self.video = value % 16,
            0x41..=0x43 => self.xdladr = byte_set(self.xdladr, offset - 0x41, value),
            0x50..=0x52 => self.bladr = byte_set(self.bladr, offset - 0x50, value),
            0x55 => self.p0 = value,
            0x56 => self.p1 = value,
            0x57 => self.p2 = value,
            0x58 => self.p3 = value,
            _ => (),
        }
        self
    }
}

// BLITTER_START starts by bit 0, else stops; IRQ_CONTROL sets the interrupt's enable and takes its request away.
#[tactic(auto, unfolding(crate::specs::Board::blitter_written))]
fn blitter_write(blitter: Blitter, bladr: u32, offset: u32, value: u8) -> Blitter
    ensures { result ≡ blitter_written bladr offset value blitter }
{
    match offset {
        0x53 if value % 2 == 1 => blitter.start(bladr),
        0x53 => blitter.stop(),
        0x54 => blitter.interrupts(value % 2 == 1),
        _ => blitter,
    }
}

impl Board {
    // The most ticks that one run may ask for.
    pub const BUDGET: u32 = Counts::BUDGET;

    pub fn new() -> Board
        ensures { result ≡ new_board }
    {
        Board {
            ports: Ports::new(),
            blitter: Blitter::new(),
        }
    }

    #[tactic(auto, unfolding(crate::specs::Board::sound_board))]
    pub fn sound(self) -> bool
        ensures { result ≡ sound_board self }
    {
        self.ports.sound() & self.blitter.sound()
    }

    // What a write and a read of a register ask: 15 and 3 in that order.
    #[tactic(auto, unfolding(crate::specs::Board::write_answer))]
    fn reached(self, offset: u32) -> Result<(), Refusal>
        ensures { told result ≡ write_answer self offset }
    {
        ask(self.sound(), Refusal::State)?;
        ask(is_register(offset), Refusal::Register)
    }

    // A register written; where it is refused the board is as it was.
    #[tactic(auto, unfolding(crate::specs::Board::write_answer, crate::specs::Board::write_board))]
    fn set(&mut self, offset: u32, value: u8) -> Result<(), Refusal>
        ensures report { told result ≡ write_answer self.old offset }
        ensures board { self.new ≡ write_board self.old offset value }
    {
        self.reached(offset)?;
        self.blitter = blitter_write(self.blitter, self.ports.bladr, offset, value);
        self.ports = self.ports.write(offset, value);
        Ok(())
    }

    // Writes a register: refused 15 and 3 in that order.
    pub fn write(mut self, offset: u32, value: u8) -> After<Board, ()>
        ensures report { told result.report ≡ write_answer self offset }
        ensures board { result.state ≡ write_board self offset value }
    {
        let report = self.set(offset, value);
        After {
            state: self,
            report,
        }
    }

    #[tactic(auto, unfolding(crate::specs::Board::read_byte))]
    fn read_byte(self, offset: u32) -> u8
        ensures { result ≡ read_byte self offset }
    {
        match offset {
            0x40 => 0x10,
            0x41 => 0x24,
            0x4A => 0,
            0x50 => self.blitter.note.code,
            0x53 => self.blitter.flags,
            0x54 => self.blitter.irqf as u8,
            0x5E => 0,
            0x5F => 0,
            _ => 255,
        }
    }

    // Reads a register: refused 15 and 3 in that order.
    #[tactic(auto, unfolding(crate::specs::Board::write_answer, crate::specs::Board::read_answer))]
    pub fn read(self, offset: u32) -> Result<u8, Refusal>
        ensures { told result ≡ read_answer self offset }
    {
        self.reached(offset)?;
        Ok(self.read_byte(offset))
    }

    // The machine's RESET; where it is refused the board is as it was.
    #[tactic(auto, unfolding(crate::specs::Board::reset_answer, crate::specs::Board::reset_board))]
    fn clear(&mut self) -> Result<(), Refusal>
        ensures report { told result ≡ reset_answer self.old }
        ensures board { self.new ≡ reset_board self.old }
    {
        ask(self.sound(), Refusal::State)?;
        self.ports.video = 0;
        self.blitter = self.blitter.stop().interrupts(false);
        Ok(())
    }

    // The machine's RESET: refused 15.
    pub fn reset(mut self) -> After<Board, ()>
        ensures report { told result.report ≡ reset_answer self }
        ensures board { result.state ≡ reset_board self }
    {
        let report = self.clear();
        After {
            state: self,
            report,
        }
    }

    // A run; where it is refused board and memory are as they were.
    #[tactic(auto, using(crate::proofs::Answer::as_blitter), unfolding(crate::specs::Board::run_answer, crate::specs::Board::run_board, crate::specs::Board::run_memory, crate::specs::Board::sound_board))]
    fn ran(&mut self, mem: &mut [u8], budget: u32) -> Result<Counts, Refusal>
        ensures report { told result ≡ run_answer self.old mem.old budget }
        ensures board { self.new ≡ run_board self.old mem.old budget }
        ensures memory { mem.new ≡ run_memory self.old mem.old budget }
    {
        ask(vram::good_length(mem.len()), Refusal::Board)?;
        ask(self.ports.sound(), Refusal::State)?;
        let ran = engine::run(self.blitter, mem, budget);
        self.blitter = ran.state;
        ran.report
    }

    // Ticks until the budget is used or the flags are 0: refused 1, 15 and 2 in that order.
    pub fn run(mut self, mem: &mut [u8], budget: u32) -> After<Board, Counts>
        ensures report { told result.report ≡ run_answer self mem.old budget }
        ensures board { result.state ≡ run_board self mem.old budget }
        ensures memory { mem.new ≡ run_memory self mem.old budget }
    {
        let report = self.ran(mem, budget);
        After {
            state: self,
            report,
        }
    }

    // One tick: refused 1 and 15 in that order. It is the run with a budget of 1.
    #[tactic(auto, using(crate::proofs::Answer::tick_answer_lem, crate::proofs::Answer::tick_board_lem, crate::proofs::Answer::tick_memory_lem))]
    pub fn tick(mut self, mem: &mut [u8]) -> After<Board, Counts>
        ensures report { told result.report ≡ tick_answer self mem.old }
        ensures board { result.state ≡ tick_board self mem.old }
        ensures memory { mem.new ≡ tick_mem self mem.old }
    {
        self.run(mem, 1)
    }
}
