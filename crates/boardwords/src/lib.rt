// A board as words, and back.
#![tactic(auto)]

ghost use Rattle.std.specs.Prelude.{◌≡◌, ◌≤◌, length};
ghost use Rattle.words.specs.Words.{laid};
ghost use Rattle.boardwords.specs.Board.{board_size, ports_of, side_of, block_of, blitter_of, board_of, register_words, side_words, block_words, board_words, board_fits};

use blitter::Blitter;
use block::{Block, Note};
use board::{Board, Ports};
use step::Side;
use words::{all_within, byte, half, lay, read_whole};

// The words of a board.
pub const BOARD_WORDS: usize = 35;

#[tactic(auto, unfolding(crate::specs::Board::ports_of))]
fn ports_of(words: &[u32]) -> Ports
    requires { board_size ≤ length words.now }
    ensures { result ≡ ports_of words.now }
{
    Ports {
        video: byte(words[0]),
        xdladr: words[1],
        bladr: words[2],
        p0: byte(words[3]),
        p1: byte(words[4]),
        p2: byte(words[5]),
        p3: byte(words[6]),
    }
}

// The six bytes of a side from place k on.
#[tactic(auto, unfolding(crate::specs::Board::side_of))]
fn side_of(words: &[u32], k: usize) -> Side
    requires { (board_size ≤ length words.now) × (k ≤ 18) }
    ensures { result ≡ side_of words.now k }
{
    Side {
        adr0: byte(words[k]),
        adr1: byte(words[k + 1]),
        adr2: byte(words[k + 2]),
        y0: byte(words[k + 3]),
        y1: byte(words[k + 4]),
        x: byte(words[k + 5]),
    }
}

#[tactic(auto, unfolding(crate::specs::Board::block_of))]
fn block_of(words: &[u32]) -> Block
    requires { board_size ≤ length words.now }
    ensures { result ≡ block_of words.now }
{
    Block {
        source: side_of(words, 12),
        dest: side_of(words, 18),
        width0: byte(words[24]),
        width1: byte(words[25]),
        height: byte(words[26]),
        andmask: byte(words[27]),
        xormask: byte(words[28]),
        hitmask: byte(words[29]),
        zoom: byte(words[30]),
        pattern: byte(words[31]),
        control: byte(words[32]),
    }
}

#[tactic(auto, unfolding(crate::specs::Board::blitter_of))]
fn blitter_of(words: &[u32]) -> Blitter
    requires { board_size ≤ length words.now }
    ensures { result ≡ blitter_of words.now }
{
    Blitter {
        irqe: words[7] == 1,
        irqf: words[8] == 1,
        list: words[9],
        flags: byte(words[10]),
        note: Note {
            code: byte(words[11]),
        },
        block: block_of(words),
        row: half(words[33]),
        col: half(words[34]),
    }
}

#[tactic(auto, unfolding(crate::specs::Board::board_of))]
fn read_board(words: &[u32]) -> Board
    requires { board_size ≤ length words.now }
    ensures { result ≡ board_of words.now }
{
    Board {
        ports: ports_of(words),
        blitter: blitter_of(words),
    }
}

// The board that the words say. Of words that fit, every word counts; those that are missing are 0.
#[tactic(auto, using(crate::proofs::Same::board_same))]
pub fn board_of(words: &[u32]) -> Board
    ensures { result ≡ board_of words.now }
{
    read_whole::<_, _, BOARD_WORDS>(words, read_board)
}

// Whether each word of a board is within its field's type.
#[tactic(auto, unfolding(crate::specs::Board::board_most))]
pub fn board_fits(words: &[u32]) -> bool
    ensures { result ≡ board_fits words.now }
{
    // a byte, but for these
    let mut most = [u32::from(u8::MAX); BOARD_WORDS];
    most[1] = u32::MAX;
    most[2] = u32::MAX;
    most[7] = 1;
    most[8] = 1;
    most[9] = u32::MAX;
    most[33] = u32::from(u16::MAX);
    most[34] = u32::from(u16::MAX);
    all_within(words, &most)
}

fn put_side(words: &mut [u32], side: Side)
    ensures { words.new ≡ laid (side_words side) words.old }
{
    lay(
        words,
        &[
            u32::from(side.adr0),
            u32::from(side.adr1),
            u32::from(side.adr2),
            u32::from(side.y0),
            u32::from(side.y1),
            u32::from(side.x),
        ],
    );
}

// The words of a block: those of its source, of its destination, and nine.
fn put_block(words: &mut [u32], block: Block)
    ensures { words.new ≡ laid (block_words block) words.old }
{
    if words.len() < 21 {
        return;
    }
    put_side(words, block.source);
    put_side(&mut words[6..], block.dest);
    lay(
        &mut words[12..],
        &[
            u32::from(block.width0),
            u32::from(block.width1),
            u32::from(block.height),
            u32::from(block.andmask),
            u32::from(block.xormask),
            u32::from(block.hitmask),
            u32::from(block.zoom),
            u32::from(block.pattern),
            u32::from(block.control),
        ],
    );
}

// The words before those of the block: the registers, the switches, the list, the flags and the code.
fn put_registers(words: &mut [u32], board: Board)
    ensures { words.new ≡ laid (register_words board) words.old }
{
    let Board { ports, blitter } = board;
    lay(
        words,
        &[
            u32::from(ports.video),
            ports.xdladr,
            ports.bladr,
            u32::from(ports.p0),
            u32::from(ports.p1),
            u32::from(ports.p2),
            u32::from(ports.p3),
            u32::from(blitter.irqe),
            u32::from(blitter.irqf),
            blitter.list,
            u32::from(blitter.flags),
            u32::from(blitter.note.code),
        ],
    );
}

// The words of a board, laid over what is lent: its registers, its block, and its position.
#[tactic(auto, unfolding(crate::specs::Board::board_words))]
pub fn put_board(words: &mut [u32], board: Board)
    ensures { words.new ≡ laid (board_words board) words.old }
{
    if words.len() < BOARD_WORDS {
        return;
    }
    put_registers(words, board);
    put_block(&mut words[12..], board.blitter.block);
    lay(
        &mut words[33..],
        &[u32::from(board.blitter.row), u32::from(board.blitter.col)],
    );
}
