// A block as the bytes of a list.
ghost use Rattle.std.specs.Prelude.{◌≡◌};
ghost use Rattle.boardtext.specs.Begun.{bytes_of};

use block::Block;

// The 21 bytes: six for the source and six for the destination, three for the size, three masks, and the rest.
pub fn bytes(block: Block) -> [u8; 21]
    ensures { result ≡ bytes_of block }
{
    let source = block.source;
    let dest = block.dest;
    [
        source.adr0,
        source.adr1,
        source.adr2,
        source.y0,
        source.y1,
        source.x,
        dest.adr0,
        dest.adr1,
        dest.adr2,
        dest.y0,
        dest.y1,
        dest.x,
        block.width0,
        block.width1,
        block.height,
        block.andmask,
        block.xormask,
        block.hitmask,
        block.zoom,
        block.pattern,
        block.control,
    ]
}
