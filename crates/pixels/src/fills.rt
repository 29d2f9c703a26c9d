// One pixel's entry, and the lines of SR, LR and HR: from a line's data to the entries of the lent line.
ghost use Rattle.std.specs.Prelude.{◌≡◌, ◌*◌, ◌≤◌, length};
ghost use Rattle.laws.specs.Bit.{bit};
ghost use Rattle.vram.specs.Memory.{byte_at};
ghost use Rattle.pixels.specs.Pixels.{plain, shade_of, each};
ghost use Rattle.pixels.specs.Fills.{byte_pixel, nibble_colour, nibble_pixel};

use settings::further;
use vram::byte_at;

// A pixel before palette and flags: its colour, and whether it is clear, that is transparent while no_trans is 0.
#[derive(Clone, Copy)]
pub struct Dot {
    pub colour: u8,
    pub clear: bool,
}

impl Dot {
    // SR, LR and HR: colour 0 is clear.
    fn plain(colour: u8) -> Dot
        ensures { result ≡ plain colour }
    {
        Dot {
            colour,
            clear: colour == 0,
        }
    }
}

// The entry of a transparent pixel.
pub const TRANSPARENT: u16 = 65535;

// A byte of the line's data.
fn data_byte(mem: &[u8], address: u32, offset: usize) -> u8
    requires { offset ≤ 1000 }
    ensures { result ≡ byte_at mem.now address offset }
{
    byte_at(mem, further(address, offset as u16), 0)
}

// A line's data in one piece, byte by byte: where it does not end inside memory.
#[tactic(auto, using(crate::proofs::Each::each_all))]
pub fn gather(mem: &[u8], address: u32, piece: &mut [u8])
    requires { length piece.old ≤ 1000 }
    ensures { piece.new ≡ each (byte_at mem.now address) 0 (length piece.old) }
{
    for (k, byte) in piece.iter_mut().enumerate() {
        *byte = data_byte(mem, address, k);
    }
}

// HR: the colours of its bytes. The left one is the high nibble.
#[tactic(auto, using(crate::proofs::Each::each_all))]
fn split(piece: &[u8], colours: &mut [u8])
    requires { length colours.old ≡ length piece.now * 2 }
    ensures { colours.new ≡ each (nibble_colour piece.now) 0 (length colours.old) }
{
    for k in 0..piece.len() {
        let v = piece[k];
        colours[k * 2] = v / 16;
        colours[k * 2 + 1] = v % 16;
    }
}

// What decides on a dot's entry: VIDEO_CONTROL and the line's palette.
#[derive(Clone, Copy)]
pub struct Shades {
    pub video: u8,
    pub palette: u8,
}

impl Shades {
    // Two bits of VIDEO_CONTROL.
    pub fn no_trans(self) -> bool
        ensures { result ≡ bit self.video 2 }
    {
        self.video / 4 % 2 == 1
    }

    pub fn trans15(self) -> bool
        ensures { result ≡ bit self.video 3 }
    {
        self.video / 8 % 2 == 1
    }

    // Transparent or not, by the manual's paragraphs. With the flags asked one after the other the compiler makes a loop for each (docs/SPEED.md).
    pub fn shade(self, dot: Dot) -> u16
        ensures { result ≡ shade_of self.video self.palette dot }
    {
        let shown = self.palette as u16 * 256 + dot.colour as u16;
        if self.no_trans() {
            return shown;
        }
        if dot.clear {
            return TRANSPARENT;
        }
        if self.trans15() && dot.colour % 16 == 15 {
            return TRANSPARENT;
        }
        shown
    }

    // A pixel a byte: SR and LR, and the colours of HR.
    #[tactic(auto, using(crate::proofs::Each::each_all))]
    pub fn bytes(self, piece: &[u8], line: &mut [u16])
        requires { length line.old ≡ length piece.now }
        ensures { line.new ≡ each (byte_pixel piece.now self.video self.palette) 0 (length line.old) }
    {
        for k in 0..piece.len() {
            line[k] = self.shade(Dot::plain(piece[k]));
        }
    }

    // HR: its colours, drawn as those of SR. In one loop the compiler draws fewer at once (docs/SPEED.md).
    pub fn nibbles(self, piece: &[u8], line: &mut [u16])
        requires two { length line.old ≡ length piece.now * 2 }
        requires most { length line.old ≤ 672 }
        ensures { line.new ≡ each (nibble_pixel piece.now self.video self.palette) 0 (length line.old) }
    {
        let mut room = [0u8; 672];
        let colours = &mut room[..line.len()];
        split(piece, colours);
        self.bytes(colours, line);
    }
}
