#![tactic(auto, unfolding(crate::specs::Block::side_at, crate::specs::Block::block_at, crate::specs::Block::pattern_of, crate::specs::Block::columns_of, crate::specs::Block::rows_of, crate::specs::Block::dest_address, crate::specs::Block::source_address, crate::specs::Byte::reads_source))]

ghost use Rattle.std.specs.Prelude.{◌≡◌, ◌≤◌};
ghost use Rattle.block.specs.Block.{side_at, block_at, is_none, no_block, width_of, zoom_x, zoom_y, pattern_of, columns_of, rows_of, mode_of, next_of, dest_address, source_address};
ghost use Rattle.block.specs.Byte.{reads_source};

use step::Side;

// The 21 bytes of a block, as read: the source's side, the destination's, and nine bytes.
// Unused bits stay where they are and count for nothing.
#[derive(Clone, Copy, Debug, PartialEq, Eq, Default)]
pub struct Block {
    pub source: Side,
    pub dest: Side,
    pub width0: u8,
    pub width1: u8,
    pub height: u8,
    pub andmask: u8,
    pub xormask: u8,
    pub hitmask: u8,
    pub zoom: u8,
    pub pattern: u8,
    pub control: u8,
}

// What the bytes of a block leave of collisions: the code of the last.
#[derive(Clone, Copy, Debug, PartialEq, Eq, Default)]
pub struct Note {
    pub code: u8,
}

// What one destination byte leaves beside memory: the note after it, and its accesses.
#[derive(Clone, Copy, Debug, PartialEq, Eq, Default)]
pub struct Struck {
    pub note: Note,
    pub accesses: u8,
}

// The six bytes of a side, k bytes behind the block's first.
fn side_at(mem: &[u8], list: u32, k: u8) -> Side
    requires { k ≤ 6 }
    ensures { result ≡ side_at mem.now list k }
{
    Side {
        adr0: vram::byte_at(mem, list, k),
        adr1: vram::byte_at(mem, list, k + 1),
        adr2: vram::byte_at(mem, list, k + 2),
        y0: vram::byte_at(mem, list, k + 3),
        y1: vram::byte_at(mem, list, k + 4),
        x: vram::byte_at(mem, list, k + 5),
    }
}

// The block at a list address.
pub fn block_at(mem: &[u8], list: u32) -> Block
    ensures { result ≡ block_at mem.now list }
{
    Block {
        source: side_at(mem, list, 0),
        dest: side_at(mem, list, 6),
        width0: vram::byte_at(mem, list, 12),
        width1: vram::byte_at(mem, list, 13),
        height: vram::byte_at(mem, list, 14),
        andmask: vram::byte_at(mem, list, 15),
        xormask: vram::byte_at(mem, list, 16),
        hitmask: vram::byte_at(mem, list, 17),
        zoom: vram::byte_at(mem, list, 18),
        pattern: vram::byte_at(mem, list, 19),
        control: vram::byte_at(mem, list, 20),
    }
}

impl Block {
    // No block: every byte 0.
    #[tactic(auto, unfolding(crate::specs::Block::no_side, crate::specs::Block::no_block))]
    pub fn none() -> Block
        ensures { result ≡ no_block }
    {
        Block::default()
    }

    // Whether every byte is 0.
    #[tactic(auto, unfolding(crate::specs::Block::no_side, crate::specs::Block::no_block, crate::specs::Block::none_side, crate::specs::Block::is_none))]
    pub fn is_none(self) -> bool
        ensures { result ≡ is_none self }
    {
        self == Block::none()
    }

    fn width(self) -> u16
        ensures { result ≡ width_of self }
    {
        u16::from_le_bytes([self.width0, self.width1 % 2]) + 1
    }

    // How many destination columns show one source column.
    pub fn zoom_x(self) -> u16
        ensures { result ≡ zoom_x self }
    {
        self.zoom as u16 % 8 + 1
    }

    // How many destination rows show one source row.
    pub fn zoom_y(self) -> u16
        ensures { result ≡ zoom_y self }
    {
        self.zoom as u16 / 16 % 8 + 1
    }

    // The destination's columns: the width, zoomed.
    pub fn columns(self) -> u16
        ensures { result ≡ columns_of self }
    {
        self.width() * self.zoom_x()
    }

    // The destination's rows: the height, zoomed.
    pub fn rows(self) -> u16
        ensures { result ≡ rows_of self }
    {
        (self.height as u16 + 1) * self.zoom_y()
    }

    // The source columns before the pattern begins again: the pattern's width when IN_USE, else the block's.
    pub fn pattern_width(self) -> u16
        ensures { result ≡ pattern_of self }
    {
        if self.pattern / 128 % 2 == 1 {
            self.pattern as u16 % 64 + 1
        } else {
            self.width()
        }
    }

    pub fn mode(self) -> u8
        ensures { result ≡ mode_of self }
    {
        self.control % 8
    }

    // Whether another block follows: NEXT, bit 3.
    pub fn next(self) -> bool
        ensures { result ≡ next_of self }
    {
        self.control / 8 % 2 == 1
    }

    // Whether the source is read: not with an AND mask of 0, and not in mode 7.
    pub fn reads(self) -> bool
        ensures { result ≡ reads_source self }
    {
        (self.andmask != 0) & (self.mode() != 7)
    }

    // The address of the destination byte at a row and a column.
    pub fn destination(self, row: u16, col: u16) -> u32
        ensures { result ≡ dest_address self row col }
    {
        self.dest.address(row, col)
    }

    // The address of its source byte: zoom repeats a source byte, the pattern a row's first columns.
    pub fn source(self, row: u16, col: u16) -> u32
        ensures { result ≡ source_address self row col }
    {
        self.source.address(
            row / self.zoom_y(),
            col / self.zoom_x() % self.pattern_width(),
        )
    }
}
