// Display lists. A case names itself and its list; under it stand the lines of the frame, those that are all alike as one,
// and the frame that is left.
ghost use Rattle.std.specs.Prelude.{◌≤◌};

use boardtext::lines;
use print::{HexBytes, RefusalLine};
use std::io;

// The list that the paper works out.
const WORKED: &[u8] = b"\x62\x80\x02\x00\x10\x00\x40\x01";

// A list, the address that it is written at, XDL_ADR, VIDEO_CONTROL, the number of lines that are asked for, and whether memory
// is the largest.
#[derive(Clone, Copy)]
struct Case<'a> {
    title: &'a str,
    list: &'a [u8],
    at: u32,
    address: u32,
    video: u8,
    count: u16,
    large: bool,
}

impl<'a> Case<'a> {
    // A whole frame of a list at 0, switched on, in the smallest memory.
    fn new(title: &'a str, list: &'a [u8]) -> Self {
        Case {
            title,
            list,
            at: 0,
            address: 0,
            video: 1,
            count: 240,
            large: false,
        }
    }

    // The list at one address, and XDL_ADR another.
    fn at(self, at: u32, address: u32) -> Self {
        Case {
            at,
            address,
            ..self
        }
    }

    fn video(self, video: u8) -> Self {
        Case { video, ..self }
    }

    // The first lines only; or, with 241, a line too many.
    fn lines(self, count: u16) -> Self {
        Case { count, ..self }
    }

    // In the largest memory.
    fn large(self) -> Self {
        Case {
            large: true,
            ..self
        }
    }
}

// The list written into memory, which is else 0, and the first lines of its frame.
fn shown<R: Print>(rt: &R, mem: &mut [u8], case: &Case) -> io::Result<()> {
    println!(rt;
        "{}{} at {}, XDL_ADR {}, VIDEO_CONTROL {:02X}, L {}",
        case.title,
        HexBytes(case.list),
        case.at,
        case.address,
        case.video,
        mem.len()
    )?;
    match vram::install(mem, case.list, case.at) {
        Err(why) => rt.println(RefusalLine::from(why)),
        Ok(()) => lines::show(rt, mem, case.address, case.video, case.count),
    }
}

// In a memory of N bytes, the largest at most.
fn sized<const N: usize, R: Print>(rt: &R, case: &Case) -> io::Result<()>
    requires { N ≤ 524288 }
{
    let mut mem = [0u8; N];
    shown(rt, &mut mem, case)
}

// Each in a memory of its own.
fn each<R: Print>(rt: &R, cases: &[Case]) -> io::Result<()> {
    for case in cases {
        if case.large {
            sized::<524288, R>(rt, case)?;
        } else {
            sized::<16384, R>(rt, case)?;
        }
    }
    Ok(())
}

// What the paper works out, and lists without an end.
fn worked<R: Print>(rt: &R) -> io::Result<()> {
    each(
        rt,
        &[
            Case::new("The worked list, and a line too many:", WORKED).lines(241),
            Case::new("SR over the top:", b"\x62\x80\x02\xFF\xFF\x07\x01\x00"),
            Case::new("Text over the top:", b"\x61\x80\x09\xFF\xFF\x07\x01\x00"),
            Case::new(
                "A map over the top:",
                b"\x28\x86\x02\xFF\xFF\x07\x01\x00\x00\x00\x07\x00",
            ),
            Case::new("TMON and GMON:", b"\x02\x00\x03\x00").lines(2),
            Case::new("No END, 240 records:", b"\x00\x00").lines(241),
            Case::new("No END, the mode runs on:", b"\x42\x00\x00\x10\x00\x40\x01").lines(4),
            Case::new("No END, over the top:", b"\x00\x00").at(524000, 524000),
            Case::new("Not switched on:", WORKED).video(0),
            Case::new("Not switched on by bits 1 to 3:", WORKED).video(14),
            Case::new("Switched on with bits 1 to 3:", WORKED).video(15),
        ],
    )
}

// Lists over the top of memory: addresses wrap at 524,288, cells at L.
fn wraps<R: Print>(rt: &R) -> io::Result<()> {
    each(
        rt,
        &[
            Case::new("Over 524,288:", WORKED).at(524286, 524286),
            Case::new("Between the control bytes:", WORKED).at(524287, 524287),
            Case::new("The list position at the wrap:", WORKED).at(524280, 524280),
            Case::new("Over 524,288 in the largest memory:", WORKED)
                .at(524286, 524286)
                .large(),
            Case::new("Over L:", WORKED).at(16380, 16380),
            Case::new("No wrap at 16,384:", WORKED)
                .at(16380, 16380)
                .large(),
            Case::new("XDL_ADR above L:", WORKED).at(4096, 20480),
            Case::new("XDL_ADR below L:", WORKED)
                .at(4096, 20480)
                .lines(3)
                .large(),
            Case::new(
                "A record up to the top, and one at 0:",
                b"\x62\x00\x02\x00\x10\x00\x40\x01\x00\x80",
            )
            .at(524280, 524280),
            Case::new(
                "A record of 22 bytes over the top, and one behind it:",
                b"\xEA\x1F\x00\x21\x43\x05\x65\x07\x03\x04\x12\x98\xBA\x01\xDC\x0E\x05\x06\x0F\x03\x92\x5A\x00\x80",
            )
            .at(524276, 524276),
        ],
    )
}

// All lines of one frame: SR, text whose row runs on through a record, HR with a map, LR. END's repeats reach the last line.
fn whole<R: Print>(rt: &R) -> io::Result<()> {
    each(
        rt,
        &[Case::new(
            "All lines of a list with repeats:",
            b"\x62\x00\x27\x00\x10\x00\x40\x01\x21\x01\x3B\x05\xA0\x08\x13\x03\x02\x62\x0F\x6A\x16\x31\x00\x00\x07\xA0\x00\x00\x80\x00\x28\x00\x01\x02\x0F\x04\x02\x20\x20\x80\x44",
        )
        .lines(241)],
    )
}

// The overlay's mode.
fn modes<R: Print>(rt: &R) -> io::Result<()> {
    each(
        rt,
        &[
            Case::new("TMON with HR and LR is text:", b"\x01\x30").lines(2),
            Case::new("GMON with HR and LR is off:", b"\x02\x30").lines(2),
            Case::new("Off by HR and LR after SR:", b"\x02\x00\x02\x30").lines(2),
            Case::new("HR and LR alone do nothing:", b"\x02\x00\x00\x30").lines(3),
            Case::new("HR, LR, SR:", b"\x02\x10\x02\x20\x02\x80"),
            Case::new(
                "Off by HR and LR, and still a record:",
                b"\x42\xB0\x00\x10\x00\x40\x01",
            ),
            Case::new(
                "Two or three of TMON, GMON, OVOFF are off:",
                b"\x02\x00\x03\x00\x02\x00\x06\x00\x01\x00\x05\x00\x01\x00\x07\x00\x02\x00\x04\x80",
            ),
            Case::new("Off adds nothing:", b"\x60\x80\x03\x00\x10\x00\x40\x01"),
            Case::new("Bit 6 of the second byte is ignored:", b"\x02\x40\x00\x80"),
            Case::new("The same without it:", b"\x02\x00\x00\x80"),
        ],
    )
}

// The text counter.
fn rows<R: Print>(rt: &R) -> io::Result<()> {
    each(
        rt,
        &[
            Case::new(
                "TMON not alone keeps the counter:",
                b"\x21\x00\x02\x02\x00\x05\x00\x00\x80",
            ),
            Case::new("TMON alone restarts the row:", b"\x21\x00\x02\x01\x80"),
            Case::new(
                "OVADR restarts the row:",
                b"\x21\x00\x02\x40\x80\x00\x10\x00\x40\x01",
            ),
            Case::new(
                "TMON and OVADR:",
                b"\x21\x00\x02\x41\x80\x00\x10\x00\x40\x01",
            ),
            Case::new(
                "A row runs on through a record:",
                b"\x61\x00\x04\x00\x10\x00\xA0\x00\xA0\x01\x04\x03\x02\x07\x00\x80",
            ),
            Case::new(
                "Ten lines of text, and what is held:",
                b"\x61\x80\x09\x00\x10\x00\xA0\x00",
            ),
        ],
    )
}

// Where a reset puts the text counter: to the vscroll that the record ends with.
fn row_starts<R: Print>(rt: &R) -> io::Result<()> {
    each(
        rt,
        &[
            Case::new(
                "Text from the fourth line of its row on:",
                b"\xE1\x80\x09\x00\x10\x00\xA0\x00\x00\x03",
            ),
            Case::new("TMON alone, the vscroll held:", b"\x84\x00\x00\x03\x01\x80"),
            Case::new(
                "OVADR while off, the vscroll held:",
                b"\x84\x00\x00\x03\x40\x80\x00\x10\x00\xA0\x00",
            ),
            Case::new(
                "OVADR in SR, with a vscroll of its own:",
                b"\x84\x00\x00\x03\xE2\x80\x01\x00\x10\x00\x40\x01\x02\x06",
            ),
            Case::new(
                "OVSCRL without a reset:",
                b"\x81\x00\x00\x03\x80\x80\x00\x05",
            ),
        ],
    )
}

// Where a reset puts the field counter: to the map's vscroll modulo the field height.
fn field_starts<R: Print>(rt: &R) -> io::Result<()> {
    each(
        rt,
        &[
            Case::new(
                "Fields of 4 lines, a map scrolled by 10:",
                b"\x28\x86\x05\x00\x00\x00\x05\x00\x00\x0A\x07\x03",
            ),
            Case::new(
                "MAPADR alone, vscroll and height held:",
                b"\x28\x04\x02\x00\x0A\x07\x03\x20\x82\x01\x01\x00\x01\x05\x00",
            ),
            Case::new(
                "MAPPAR with the map off:",
                b"\x30\x04\x01\x00\x1F\x07\x06\x20\x84\x01\x00\x04\x07\x03",
            ),
            Case::new(
                "OVADR does not restart the field:",
                b"\x28\x04\x01\x00\x05\x07\x07\xC0\x80\x00\x10\x00\xA0\x00\x00\x02",
            ),
        ],
    )
}

// The map and the field counter.
fn maps<R: Print>(rt: &R) -> io::Result<()> {
    each(
        rt,
        &[
            Case::new(
                "MAPON does not restart the field:",
                b"\x28\x06\x02\x00\x00\x00\x05\x00\x00\x00\x07\x07\x10\x00\x08\x80",
            ),
            Case::new("MAPON and MAPOFF are off:", b"\x08\x00\x18\x80"),
            Case::new(
                "MAPADR and MAPPAR restart the field:",
                b"\x28\x04\x02\x00\x00\x07\x07\x20\x02\x01\x00\x00\x01\x05\x00\x00\x84\x00\x00\x07\x07",
            ),
            Case::new(
                "Fields of 5 lines:",
                b"\x28\x86\x0B\x00\x80\x00\x28\x00\x01\x02\x0F\x04",
            ),
            Case::new(
                "MAPPAR has five bits, and a width of 8 at least:",
                b"\x08\x04\xFF\xFF\x03\xFF\x00\x04\x1F\x1F\x06\x00\x00\x04\xE0\xE0\xE7\xE4\x00\x84\x00\x00\x08\x1F",
            ),
        ],
    )
}

// The other data of a record, and repeats.
fn data<R: Print>(rt: &R) -> io::Result<()> {
    each(
        rt,
        &[
            Case::new(
                "OVATT:",
                b"\x00\x08\xFE\x12\x00\x08\x03\x34\x00\x08\x9D\x56\x00\x88\x00\x00",
            ),
            Case::new(
                "19 bits, 12 and 3:",
                b"\xC2\x80\xFF\xFF\xFF\xFF\xFF\xFF\xFF",
            ),
            Case::new(
                "The font is a byte, the map has 19 bits and 12:",
                b"\x00\x83\xFF\xFF\xFF\xFF\xFF\xFF",
            ),
            Case::new(
                "The bits above:",
                b"\xC0\x82\x00\x00\xF8\x00\xF0\xF8\xF8\x00\x00\xF8\x00\xF0",
            ),
            Case::new(
                "A record without RPTL is one line:",
                b"\x22\x00\x02\x01\x00\x04\x80",
            ),
            Case::new("A repeat past the last line:", b"\x22\x00\xFF\x01\x00").lines(241),
            Case::new("END with a repeat past the last line:", b"\x22\x80\xFF").lines(241),
        ],
    )
}

// All of them.
pub fn all<R: Print>(rt: &R) -> io::Result<()> {
    worked(rt)?;
    wraps(rt)?;
    whole(rt)?;
    modes(rt)?;
    rows(rt)?;
    row_starts(rt)?;
    maps(rt)?;
    field_starts(rt)?;
    data(rt)
}
