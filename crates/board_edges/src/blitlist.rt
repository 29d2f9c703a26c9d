// A blitter list: its blocks, laid into memory, started, run and shown.
use block::Block;
use board::Board;
use boardtext::boards::{put, started};
use boardtext::{Shown, blocks, show};
use std::io;

// One byte from page s to page d, both steps in x 1.
pub fn plain(s: u8, d: u8) -> Block {
    let mut block = Block::none();
    block.source.adr1 = s;
    block.source.x = 1;
    block.dest.adr1 = d;
    block.dest.x = 1;
    block.andmask = 255;
    block
}

// The same without a source: a fill with one value.
pub fn fill(d: u8, value: u8) -> Block {
    Block {
        andmask: 0,
        xormask: value,
        ..plain(0, d)
    }
}

// Writes a block's 21 bytes into a list.
pub fn lay(mem: &mut [u8], at: u32, block: Block) {
    put(mem, &blocks::bytes(block), at);
}

// What the cases work on: where they print, and a memory.
#[derive(Drop)]
pub struct Bench<'r, 'm, R> {
    pub rt: &'r R,
    pub mem: &'m mut [u8],
}

impl<R: Print> Bench<'_, '_, R> {
    // A run, what it reports, and how the board stands after it.
    pub fn ran(&mut self, name: &str, board: Board, budget: u32) -> io::Result<Board> {
        let run = board.run(self.mem, budget);
        println!(self.rt; "{name}{}{}", Shown(run.report), Shown(run.state.blitter))?;
        Ok(run.state)
    }

    // The first run of the list at 0.
    pub fn first(&mut self, name: &str, budget: u32) -> io::Result<Board> {
        self.ran(name, started(0), budget)
    }

    // The list at 0 in runs of so many ticks.
    pub fn in_runs(&mut self, pieces: &[(&str, u32)]) -> io::Result<()> {
        let mut board = started(0);
        for &(name, budget) in pieces {
            board = self.ran(name, board, budget)?;
        }
        Ok(())
    }

    // Eight cells from an address on.
    pub fn cells(&self, at: u32) -> io::Result<()> {
        show::cells(self.rt, self.mem, at)
    }

    // A list of one block, run to its end, and the eight cells from an address on.
    pub fn single(&mut self, name: &str, list: u32, block: Block, at: u32) -> io::Result<()> {
        lay(self.mem, list, block);
        self.ran(name, started(list), 100)?;
        self.cells(at)
    }
}
