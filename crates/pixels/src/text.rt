// A line of text: from its characters, attributes and font to the entries of the lent line.
ghost use Rattle.std.specs.Prelude.{◌≡◌, true, cond, ◌+◌, ◌*◌, ◌/◌, ◌%◌, ◌≤◌, ◌<◌, eqb, length};
ghost use Rattle.vram.specs.Memory.{good_length, byte_at};
ghost use Rattle.pixels.specs.Pixels.{each};
ghost use Rattle.pixels.specs.Fills.{inks_of, ink_of, background_of, lit_table, lit_of, glyph_of, glyph_pixel, column_pixel};

use super::fills::{Dot, Shades, TRANSPARENT};

// What a character shows on one font line: the line's bits, and the entries of its pixels that are set and that are not.
#[derive(Clone, Copy)]
pub struct Glyph {
    pub bits: u8,
    pub set: u16,
    pub unset: u16,
}

// What a line is coloured by, worked out once: its palette, the entry of a background without a colour, and whether trans15 hides colours.
#[derive(Clone, Copy)]
pub struct Inks {
    pub palette: u8,
    pub bare: u16,
    pub fifteen: bool,
}

impl Inks {
    // The inks of a line. A background without a colour is colour 128, and clear.
    pub fn new(shades: Shades) -> Inks
        ensures { result ≡ inks_of shades.video shades.palette }
    {
        let bare = Dot {
            colour: 128,
            clear: true,
        };
        Inks {
            palette: shades.palette,
            bare: shades.shade(bare),
            fifteen: !shades.no_trans() & shades.trans15(),
        }
    }

    // The entry of a colour that is not clear.
    fn ink(self, colour: u8) -> u16
        ensures { result ≡ ink_of self colour }
    {
        if self.fifteen & (colour % 16 == 15) {
            return TRANSPARENT;
        }
        self.palette as u16 * 256 + colour as u16
    }

    // A pixel that is not set has the background, which bit 7 of the attribute decides. The coloured one is always worked out: then no step hangs on the attribute.
    fn background(self, attribute: u8) -> u16
        ensures { result ≡ background_of self attribute }
    {
        let coloured = self.ink(attribute);
        if attribute < 128 { self.bare } else { coloured }
    }
}

// For each nibble whether its bits are set, the highest first. It is copied before it is lent: the browser's module has no global (docs/PROMISES.md).
const LITS: [u16; 64] = [
    0, 0, 0, 0, 0, 0, 0, 1, 0, 0, 1, 0, 0, 0, 1, 1, 0, 1, 0, 0, 0, 1, 0, 1, 0, 1, 1, 0, 0, 1, 1, 1,
    1, 0, 0, 0, 1, 0, 0, 1, 1, 0, 1, 0, 1, 0, 1, 1, 1, 1, 0, 0, 1, 1, 0, 1, 1, 1, 1, 0, 1, 1, 1, 1,
];

// Whether a part of a font line is set, as a number.
fn lit(lits: &[u16; 64], bits: u8, part: usize) -> u16
    requires table { lits.now ≡ lit_table }
    requires part { part < 8 }
    ensures { result ≡ lit_of bits part }
{
    if part < 4 {
        return lits[bits as usize / 16 * 4 + part];
    }
    lits[bits as usize % 16 * 4 + (part - 4)]
}

// One of two entries, by a number that is 1 or 0.
fn chosen(lit: u16, set: u16, unset: u16) -> u16
    requires { lit ≤ 1 }
    ensures { result ≡ cond (eqb lit 1) set unset }
{
    lit * set + (1 - lit) * unset
}

impl Glyph {
    // A pixel of it: part 0 is the leftmost, bit 7.
    fn pixel(self, part: u8) -> u16
        requires { part < 8 }
        ensures { result ≡ glyph_pixel self part }
    {
        if (self.bits >> (7 - part)) % 2 == 1 {
            self.set
        } else {
            self.unset
        }
    }

    // All eight. By a table and a sum, where nothing is asked, the compiler draws them at once (docs/SPEED.md).
    #[tactic(auto, using(crate::proofs::Each::each_all))]
    fn put(self, lits: &[u16; 64], line: &mut [u16])
        requires table { lits.now ≡ lit_table }
        requires eight { length line.old ≡ 8 }
        ensures { line.new ≡ each (glyph_pixel self) 0 8 }
    {
        for part in 0..8 {
            line[part] = chosen(lit(lits, self.bits, part), self.set, self.unset);
        }
    }
}

// What a line of text is drawn from: its data in one piece, memory, the address of character 0's font line, and its inks.
#[derive(Clone, Copy)]
pub struct Text<'a> {
    pub piece: &'a [u8],
    pub mem: &'a [u8],
    pub font: u32,
    pub inks: Inks,
    ghost good: { good_length (length mem.now) ≡ true },
}

impl Text<'_> {
    // A character's byte on the font line. A good length less one is a mask.
    fn font_byte(self, char: u8) -> u8
        ensures { result ≡ byte_at self.entry.mem.now self.entry.font (char * 8) }
    {
        self.mem[(self.font as usize + char as usize * 8) & (self.mem.len() - 1)]
    }

    // Character c of the line on its font line. A set pixel has the attribute's low seven bits.
    fn glyph_at(self, c: usize) -> Glyph
        requires { c * 2 + 1 < length self.piece.now }
        ensures { result ≡ glyph_of self.entry.piece.now self.entry.mem.now self.entry.font self.entry.inks c }
    {
        let attribute = self.piece[c * 2 + 1];
        Glyph {
            bits: self.font_byte(self.piece[c * 2]),
            set: self.inks.ink(attribute % 128),
            unset: self.inks.background(attribute),
        }
    }

    // Pixels of character c, from a part on: of one that is cut.
    fn cut(self, c: usize, part: usize, line: &mut [u16])
        requires within { c * 2 + 1 < length self.piece.now }
        requires parts { part + length line.old ≤ 8 }
        ensures { line.new ≡ each (column_pixel self.entry.piece.now self.entry.mem.now self.entry.font self.entry.inks (c * 8 + part)) 0 (length line.old) }
    {
        let glyph = self.glyph_at(c);
        for (i, entry) in line.iter_mut().enumerate() {
            *entry = glyph.pixel((part + i) as u8);
        }
    }

    // Whole characters, from one on.
    fn characters(self, from: usize, line: &mut [u16])
        requires whole { length line.old % 8 ≡ 0 }
        requires within { (from + length line.old / 8) * 2 ≤ length self.piece.now }
        ensures { line.new ≡ each (column_pixel self.entry.piece.now self.entry.mem.now self.entry.font self.entry.inks (from * 8)) 0 (length line.old) }
    {
        let lits = LITS;
        for c in 0..line.len() / 8 {
            let at = c * 8;
            self.glyph_at(from + c).put(&lits, &mut line[at..at + 8]);
        }
    }

    // The whole line. With hscroll the first character is cut on the left, and the one more on the right.
    pub fn fill(self, hscroll: usize, line: &mut [u16])
        requires cells { length line.old % 8 ≡ 0 }
        requires some { 8 ≤ length line.old }
        requires scroll { hscroll < 8 }
        requires even { length self.piece.now % 2 ≡ 0 }
        requires room { length line.old + hscroll ≤ length self.piece.now * 4 }
        ensures { line.new ≡ each (column_pixel self.entry.piece.now self.entry.mem.now self.entry.font self.entry.inks hscroll) 0 (length line.old) }
    {
        if hscroll == 0 {
            self.characters(0, line);
            return;
        }
        let count = line.len();
        let (first, rest) = line.split_at_mut(8 - hscroll);
        let (whole, last) = rest.split_at_mut(count - 8);
        self.cut(0, hscroll, first);
        self.characters(1, whole);
        self.cut(count / 8, 0, last);
    }
}
