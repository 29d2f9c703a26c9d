#![tactic(auto)]

ghost use Rattle.std.specs.Prelude.{◌≡◌, not, ◌&&◌, ◌⊎◌, ◌/◌, ◌<◌, eqb};
ghost use Rattle.laws.specs.Bit.{bit};
ghost use Rattle.mode.specs.Mode.{over_nibble, over, value_in, writes_in, cost_in, accesses_in, hits, code_by, code_nibbles, code_in, stroke_of};

// What one destination byte comes to: whether it is written and with what, the collision code after it,
// and the accesses to the destination.
#[derive(Clone, Copy, PartialEq, Eq, Default)]
pub struct Stroke {
    pub written: bool,
    pub value: u8,
    pub code: u8,
    pub accesses: u8,
}

// "each nibble of s that is not 0 replaces that of d"
#[tactic(auto, unfolding(crate::specs::Mode::over_nibble))]
fn over_nibble(s: u8, d: u8) -> u8
    ensures { result ≡ over_nibble s d }
{
    if s == 0 { d } else { s }
}

#[tactic(auto, using(crate::proofs::Laws::over_high, crate::proofs::Laws::over_low), unfolding(crate::specs::Mode::over))]
fn over_byte(s: u8, d: u8) -> u8
    ensures { result ≡ over s d }
{
    over_nibble(s / 16, d / 16) * 16 + over_nibble(s % 16, d % 16)
}

// The columns of the mode table. Mode 7 does nothing. A mode is a number, since each column answers for every byte.
#[tactic(auto, unfolding(crate::specs::Mode::value_in))]
pub fn value(mode: u8, s: u8, d: u8) -> u8
    ensures { result ≡ value_in mode s d }
{
    match mode {
        0 | 1 => s,
        2 => ((d as u16 + s as u16) % 256) as u8,
        3 => d | s,
        4 => d & s,
        5 => d ^ s,
        6 => over_byte(s, d),
        _ => d,
    }
}

#[tactic(auto, unfolding(crate::specs::Mode::writes_in))]
pub fn writes(mode: u8, s: u8) -> bool
    ensures { result ≡ writes_in mode s }
{
    match mode {
        0 | 4 | 5 => true,
        1 | 2 | 3 | 6 => s != 0,
        _ => false,
    }
}

// Mode 1 reads the destination only where a collision can be seen.
#[tactic(auto, unfolding(crate::specs::Mode::cost_in))]
fn cost_1(mask: u8) -> u8
    ensures { result ≡ cost_in 1 mask }
{
    if mask == 0 { 1 } else { 2 }
}

#[tactic(auto, unfolding(crate::specs::Mode::cost_in))]
pub fn cost(mode: u8, mask: u8) -> u8
    ensures { result ≡ cost_in mode mask }
{
    match mode {
        0 => 1,
        1 => cost_1(mask),
        2..=6 => 2,
        _ => 0,
    }
}

#[tactic(auto, unfolding(crate::specs::Mode::accesses_in))]
fn accesses(mode: u8, mask: u8, s: u8) -> u8
    ensures { result ≡ accesses_in mode mask s }
{
    if writes(mode, s) { cost(mode, mask) } else { 0 }
}

// The manual's collision_sr, line by line: the eight ranges of 32 colours, and the mask's bit for each. The
// first begins at 1, where the manual's text says 0-31: 0 is transparent, no object's colour, so it meets nothing.
#[tactic(auto, using(crate::proofs::Ranges::in_range))]
fn collision_sr(mask: u8, d: u8) -> bool
    ensures { result ≡ (not (eqb d 0) && bit mask (d / 32)) }
{
    match d {
        1..=31 => mask & 1 != 0,
        32..=63 => mask & 2 != 0,
        64..=95 => mask & 4 != 0,
        96..=127 => mask & 8 != 0,
        128..=159 => mask & 16 != 0,
        160..=191 => mask & 32 != 0,
        192..=223 => mask & 64 != 0,
        224..=255 => mask & 128 != 0,
        0 => false,
    }
}

// The manual's collision_hr: the same for the eight pairs of a nibble's 16 colours. The first is 1 alone.
#[tactic(auto, using(crate::proofs::Ranges::in_range))]
fn collision_hr(mask: u8, d: u8) -> bool
    requires { d < 16 }
    ensures { result ≡ (not (eqb d 0) && bit mask (d / 2)) }
{
    match d {
        1 => mask & 1 != 0,
        2..=3 => mask & 2 != 0,
        4..=5 => mask & 4 != 0,
        6..=7 => mask & 8 != 0,
        8..=9 => mask & 16 != 0,
        10..=11 => mask & 32 != 0,
        12..=13 => mask & 64 != 0,
        14..=15 => mask & 128 != 0,
        _ => false,
    }
}

// A collision, by the mask's bit for the range of colours that d is in: 32 of a byte, 2 of a nibble. Two masks are
// asked for first: 0 has no range's bit and 255 has each, so there is none to look for.
fn hit(colours: u8, mask: u8, s: u8, d: u8) -> bool
    requires { (colours ≡ 32) ⊎ ((colours ≡ 2) × (d < 16)) }
    ensures { result ≡ hits colours mask s d }
{
    if s == 0 {
        return false;
    }
    if mask == 0 {
        return false;
    }
    if mask == 255 {
        return d != 0;
    }
    if colours == 32 {
        collision_sr(mask, d)
    } else {
        collision_hr(mask, d)
    }
}

#[tactic(auto, unfolding(crate::specs::Mode::code_by))]
fn code_by(colours: u8, mask: u8, s: u8, d: u8, code: u8) -> u8
    requires { (colours ≡ 32) ⊎ ((colours ≡ 2) × (d < 16)) }
    ensures { result ≡ code_by colours mask s d code }
{
    if hit(colours, mask, s, d) { d } else { code }
}

#[tactic(auto, using(crate::proofs::Laws::code_high, crate::proofs::Laws::code_low), unfolding(crate::specs::Mode::code_nibbles))]
fn code_nibbles(mask: u8, s: u8, d: u8, code: u8) -> u8
    ensures { result ≡ code_nibbles mask s d code }
{
    code_by(2, mask, s / 16, d / 16, code / 16) * 16 + code_by(2, mask, s % 16, d % 16, code % 16)
}

// The collision code after a byte: modes 1 to 5 have one rule.
#[tactic(auto, unfolding(crate::specs::Mode::code_in, crate::specs::Mode::code_byte))]
fn code_in(mode: u8, mask: u8, s: u8, d: u8, code: u8) -> u8
    ensures { result ≡ code_in mode mask s d code }
{
    match mode {
        0 => code,
        1..=5 => code_by(32, mask, s, d, code),
        6 => code_nibbles(mask, s, d, code),
        _ => code,
    }
}

// One destination byte: s is the source byte after both masks, d the destination byte before.
#[tactic(auto, unfolding(crate::specs::Mode::stroke_of))]
pub fn stroke_of(mode: u8, mask: u8, s: u8, d: u8, code: u8) -> Stroke
    ensures { result ≡ stroke_of mode mask s d code }
{
    Stroke {
        written: writes(mode, s),
        value: value(mode, s, d),
        code: code_in(mode, mask, s, d, code),
        accesses: accesses(mode, mask, s),
    }
}
