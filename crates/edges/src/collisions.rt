// Collision codes, byte by byte: each bit of the mask at the ends of what it stands for.
use std::io;

// The collision code that a source byte 11h leaves over d.
fn left(mode: u8, mask: u8, d: u8) -> u8 {
    mode::stroke_of(mode, mask, 0x11, d, 0).code
}

// A mask over four colours, and the codes left.
fn over<R: Print>(rt: &R, mode: u8, mask: u8, colours: [u8; 4]) -> io::Result<()> {
    print!(rt; "mode {mode}, mask {mask:02X} over")?;
    for d in colours {
        print!(rt; " {d:02X}")?;
    }
    print!(rt; ": codes")?;
    for d in colours {
        print!(rt; " {:02X}", left(mode, mask, d))?;
    }
    println!(rt)
}

// Each bit of the mask, over its range of 32 colours and, in both nibbles, over its pair: the colour before, the two ends
// and the colour behind. The first range and the first pair begin at 1; behind the last colour comes 0.
fn ranges_and_pairs<R: Print>(rt: &R) -> io::Result<()> {
    for (mask, range, pair) in [
        (0x01, [0, 1, 31, 32], [0x00, 0x11, 0x11, 0x22]),
        (0x02, [31, 32, 63, 64], [0x11, 0x22, 0x33, 0x44]),
        (0x04, [63, 64, 95, 96], [0x33, 0x44, 0x55, 0x66]),
        (0x08, [95, 96, 127, 128], [0x55, 0x66, 0x77, 0x88]),
        (0x10, [127, 128, 159, 160], [0x77, 0x88, 0x99, 0xAA]),
        (0x20, [159, 160, 191, 192], [0x99, 0xAA, 0xBB, 0xCC]),
        (0x40, [191, 192, 223, 224], [0xBB, 0xCC, 0xDD, 0xEE]),
        (0x80, [223, 224, 255, 0], [0xDD, 0xEE, 0xFF, 0x00]),
    ] {
        over(rt, 1, mask, range)?;
        over(rt, 6, mask, pair)?;
    }
    Ok(())
}

// Masks that are asked for first, no bit and every bit, and the ones beside them.
fn masks<R: Print>(rt: &R) -> io::Result<()> {
    for (mode, colours) in [(1, [0, 1, 31, 32]), (6, [0x00, 0x01, 0x10, 0x22])] {
        for mask in [0x00, 0xFE, 0xFF] {
            over(rt, mode, mask, colours)?;
        }
    }
    Ok(())
}

pub fn all<R: Print>(rt: &R) -> io::Result<()> {
    // The case of document 01.
    for d in [63, 64] {
        let stroke = mode::stroke_of(1, 2, 1, d, 0);
        println!(rt; "mode 1, s=1, mask 02, d={d}: code {}", stroke.code)?;
    }
    ranges_and_pairs(rt)?;
    masks(rt)
}
