// A number as an argument writes it: an address or a line, decimal, or 0x and hex.
ghost use Rattle.std.specs.Prelude.{◌≤◌};

use plantext::files::Host;
use std::env::Env;
use std::str;

// A word's digits, at least one; none where another character stands among them, or the number has more than 32 bits.
fn digits(word: &[u8], radix: u32) -> Option<u32>
    requires { (2 ≤ radix) × (radix ≤ 36) }
{
    // The library would take a sign.
    if word.starts_with(b"+") {
        return None;
    }
    u32::from_str_radix(str::from_utf8(word).ok()?, radix).ok()
}

fn parsed(word: &[u8]) -> Option<u32> {
    let hex = word.strip_prefix(b"0x").or(word.strip_prefix(b"0X"));
    match hex {
        Some(hex) => digits(hex, 16),
        None => digits(word, 10),
    }
}

// The number that an argument writes; none where it has more than 4,096 bytes.
pub fn of<R: Env, E>(host: &Host<R, E>, i: usize) -> Option<u32> {
    parsed(host.argument(i, &mut [0u8; 4096]))
}
