#![tactic(auto, unfolding(crate::specs::Step::signed, crate::specs::Step::step_x, crate::specs::Step::step_y, crate::specs::Step::wrap19, crate::specs::Step::across_of, crate::specs::Step::down_of))]

ghost use Rattle.std.specs.Prelude.{◌≡◌, ◌*◌, ◌≤◌, pos, ◌*ℤ◌};
ghost use Rattle.std.specs.Int.RustNames.{unsigned_abs};
ghost use Rattle.step.specs.Step.{step_x, step_y, wrap19, side_address, across_of, down_of};

// The source's or the destination's six bytes of a block, as the manual orders them:
// the address, the step in y, the step in x.
#[derive(Clone, Copy, Debug, PartialEq, Eq, Default)]
pub struct Side {
    pub adr0: u8,
    pub adr1: u8,
    pub adr2: u8,
    pub y0: u8,
    pub y1: u8,
    pub x: u8,
}

// The step in x: a signed byte.
pub fn step_x(x: u8) -> i32
    ensures { result ≡ step_x x }
{
    i32::from(x.cast_signed())
}

// The step in y: the low byte and five bits of the high byte, signed.
pub fn step_y(low: u8, high: u8) -> i32
    ensures { result ≡ step_y low high }
{
    let bits = i32::from(u16::from_le_bytes([low, high % 32]));
    if bits < 4096 { bits } else { bits - 8192 }
}

// A sum reduced to 19 bits. The machine reads a negative one 2^32 higher, a multiple of 524,288.
fn wrap_19(z: i32) -> u32
    ensures { result ≡ wrap19 z }
{
    z.cast_unsigned() % 524288
}

// Some steps, along a row or a column.
fn steps(n: u16, step: i32) -> i32
    requires { unsigned_abs step ≤ 4096 }
    ensures value { result ≡ pos n *ℤ step }
    ensures size { unsigned_abs result ≤ 65535 * 4096 }
{
    n as i32 * step
}

impl Side {
    // The address of the byte at a row and a column: both steps are taken from the start,
    // and the sum is reduced once.
    pub fn address(self, row: u16, col: u16) -> u32
        ensures { result ≡ side_address self row col }
    {
        let start = vram::number_19(self.adr0, self.adr1, self.adr2);
        let down = steps(row, step_y(self.y0, self.y1));
        let along = steps(col, step_x(self.x));
        wrap_19(start as i32 + down + along)
    }

    // How much further the next column's address is, reduced to 19 bits.
    pub fn across(self) -> u32
        ensures { result ≡ across_of self }
    {
        wrap_19(step_x(self.x))
    }

    // How much further the next row's address is, reduced to 19 bits.
    pub fn down(self) -> u32
        ensures { result ≡ down_of self }
    {
        wrap_19(step_y(self.y0, self.y1))
    }
}
