#![tactic(auto)]

ghost use Rattle.std.specs.Prelude.{◌≡◌, ◌+◌, ◌≤◌, ◌<◌, length};
ghost use Rattle.refusal.specs.Sheet.{told};
ghost use Rattle.vram.specs.Memory.{good_length, byte_at, number12, number19};
ghost use Rattle.vram.specs.Install.{poured, install_answer, install_memory};

use refusal::{Refusal, ask};

// Video memory is a lent slice and has no type of its own: its limits stand here.
#[derive(Clone, Copy)]
pub struct Vram {}

impl Vram {
    // The lengths that a memory may have.
    pub const SHORTEST: usize = 16384;

    pub const LONGEST: usize = 524288;

    // An address has 19 bits: it is below the first, and at most the second.
    pub const ADDRESSES: u32 = 524288;

    pub const HIGHEST: u32 = 524287;

    // The most bytes that are installed at once.
    pub const INSTALLED: usize = 5280;
}

// "a number with exactly one bit set, from 16,384 to 524,288"
pub fn good_length(len: usize) -> bool
    ensures { result ≡ good_length len }
{
    (usize::count_ones(len) == 1) & (Vram::SHORTEST <= len) & (len <= Vram::LONGEST)
}

// The byte at an address, some bytes further on. The address is reduced first, so that the sum fits;
// of a memory with no bytes, which every call refuses, it is 0. Where the address is inside, nothing is divided.
pub fn byte_at(mem: &[u8], address: u32, offset: u8) -> u8
    ensures { result ≡ byte_at mem.now address offset }
{
    if mem.len() == 0 {
        return 0;
    }
    let i = ((address % 524288 + offset as u32) % 524288) as usize;
    if i < mem.len() {
        return mem[i];
    }
    mem[i % mem.len()]
}

// The 12 bits of a step in the display list: the low byte and four bits of the high one.
pub fn number_12(low: u8, high: u8) -> u16
    ensures { result ≡ number12 low high }
{
    u16::from_le_bytes([low, high % 16])
}

// The 19 bits of an address: two bytes and three bits of the third.
pub fn number_19(low: u8, middle: u8, high: u8) -> u32
    ensures { result ≡ number19 low middle high }
{
    u32::from_le_bytes([low, middle, high % 8, 0])
}

// Writes the bytes of the list from the address on.
fn pour(mem: &mut [u8], list: &[u8], address: u32)
    requires { (0 < length mem.old) × (address + length list.now ≤ 1000000) }
    ensures { mem.new ≡ poured (length mem.old) mem.old address list.now }
{
    let n = mem.len();
    for i in 0..list.len() {
        mem[(address as usize + i) % 524288 % n] = list[i];
    }
}

// Writes a list of bytes at an address of video memory, or refuses and writes nothing.
pub fn install(mem: &mut [u8], list: &[u8], address: u32) -> Result<(), Refusal>
    ensures answer { told result ≡ install_answer mem.old list.now address }
    ensures memory { mem.new ≡ install_memory mem.old list.now address }
{
    ask(good_length(mem.len()), Refusal::Board)?;
    ask(address <= Vram::HIGHEST, Refusal::Address)?;
    ask(list.len() <= Vram::INSTALLED, Refusal::Room)?;
    pour(mem, list, address);
    Ok(())
}
