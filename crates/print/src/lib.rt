// What the programs print alike.
#![tactic(auto)]

ghost use Rattle.std.specs.Prelude.{◌≡◌};

use refusal::Refusal;
use std::fmt;

// Bytes as two digits each, a space before each.
#[derive(Clone, Copy)]
pub struct HexBytes<'a>(pub &'a [u8]);

impl fmt::Display for HexBytes<'_> {
    fn fmt<W: fmt::Write>(&self, f: &mut fmt::Formatter<W>) -> fmt::Result {
        for b in self.0 {
            write!(f, " {b:02X}")?;
        }
        Ok(())
    }
}

// The 20 low bits of an address, as five digits.
#[derive(Clone, Copy)]
pub struct Address(pub u32);

impl fmt::Display for Address {
    fn fmt<W: fmt::Write>(&self, f: &mut fmt::Formatter<W>) -> fmt::Result {
        write!(f, "{:05X}", self.0 % 0x100000)
    }
}

// A refusal as the desk prints it, with the item of a plan that it is of. Its fields are those of `plan::ItemRefusal`, which programs without
// plans do not know.
#[derive(Clone, Copy)]
pub struct RefusalLine {
    pub why: Refusal,
    pub item: u32,
}

// A refusal that has no item of its own has item 0.
impl From<Refusal> for RefusalLine {
    ghost from_gives = { λ why r. (r.why ≡ why) × (r.item ≡ 0) };

    fn from(why: Refusal) -> RefusalLine {
        RefusalLine { why, item: 0 }
    }
}

impl fmt::Display for RefusalLine {
    fn fmt<W: fmt::Write>(&self, f: &mut fmt::Formatter<W>) -> fmt::Result {
        let number = self.why.number();
        let item = self.item;
        write!(f, "refused {number} item {item}")
    }
}
