// Plans, compiled: what one shows as a frame, and what one needs of room. F() is a full band of one line that is off, its fields
// 8 by 8; R() is a running-on item of one line.
use boardtext::boards::put;
use boardtext::lines;
use plan::ItemRefusal;
use print::{HexBytes, RefusalLine};
use std::io;

// F(), whose list has 22 bytes.
const BAND: &[u8; 27] = b"\x17\0\x01\0\x01\0\0\0\0\0\0\0\0\0\0\0\0\0\0\0\0\0\x08\x08\x01\x01\xFF";

// A plan whose list has 30 bytes, and the lines of its frame.
fn shown<R: Print>(rt: &R, title: &str, plan: &[u8]) -> io::Result<()> {
    let mut mem = [0u8; 16384];
    let mut list = [0u8; 30];
    let _ = plan::compile(plan, &mut list);
    put(&mut mem, &list, 0);
    println!(rt; "{title}")?;
    lines::show(rt, &mem, 0, 1, 240)
}

// Text at 0, step 160: three lines, then six that run on. The row goes on, and steps after its eighth line; so it does where the
// item that runs on has another vscroll.
fn rows<R: Print>(rt: &R) -> io::Result<()> {
    shown(
        rt,
        "text steps every eight lines, and runs on",
        b"\x17\0\x01\0\x03\x01\0\0\0\xA0\0\0\0\0\0\0\0\0\0\0\0\0\x08\x08\x01\x01\xFF\x07\0\x02\0\x06\0\0\0\x01\x01\xFF",
    )?;
    shown(
        rt,
        "a vscroll that runs on moves no counter",
        b"\x17\0\x01\0\x03\x01\0\0\0\xA0\0\0\0\0\0\0\0\0\0\0\0\0\x08\x08\x01\x01\xFF\x07\0\x02\0\x06\0\x05\0\x01\x01\xFF",
    )
}

// SR at 1000h, step 140h: three lines, then two with hscroll 5 and palettes 6. Below them what is left is held.
fn below<R: Print>(rt: &R) -> io::Result<()> {
    shown(
        rt,
        "below the plan",
        b"\x17\0\x01\0\x03\x02\0\x10\0\x40\x01\0\0\0\0\0\0\0\0\0\0\0\x08\x08\x01\x01\xFF\x07\0\x02\0\x02\x05\0\0\x01\x06\xFF",
    )
}

// A plan into a lent buffer: what is told.
fn told<R: Print>(rt: &R, title: &str, plan: &[u8], out: &mut [u8]) -> io::Result<()> {
    print!(rt; "{title} into {}: ", out.len())?;
    match plan::compile(plan, out) {
        Ok(bytes) => println!(rt; "{bytes} bytes"),
        Err(ItemRefusal { why, item }) => rt.println(RefusalLine { why, item }),
    }
}

// Bytes of a buffer, in a line.
fn held<R: Print>(rt: &R, out: &[u8]) -> io::Result<()> {
    println!(rt; " {}", HexBytes(out))
}

// What is told, and all that the buffer holds.
fn compiled<R: Print>(rt: &R, title: &str, plan: &[u8], out: &mut [u8]) -> io::Result<()> {
    told(rt, title, plan, out)?;
    held(rt, out)
}

// Buffers of EE around 22 bytes. With a stray byte behind the plan, an item's refusal comes before the room's.
fn rooms_of_one<R: Print>(rt: &R) -> io::Result<()> {
    compiled(rt, "F()", BAND, &mut [0xEE; 21])?;
    compiled(rt, "F()", BAND, &mut [0xEE; 22])?;
    compiled(rt, "F()", BAND, &mut [0xEE; 25])?;
    compiled(
        rt,
        "F()+00",
        b"\x17\0\x01\0\x01\0\0\0\0\0\0\0\0\0\0\0\0\0\0\0\0\0\x08\x08\x01\x01\xFF\0",
        &mut [0xEE; 21],
    )
}

// A plan of two items, whose list has 30 bytes.
fn two<R: Print>(rt: &R, out: &mut [u8]) -> io::Result<()> {
    compiled(
        rt,
        "F()+R()",
        b"\x17\0\x01\0\x01\0\0\0\0\0\0\0\0\0\0\0\0\0\0\0\0\0\x08\x08\x01\x01\xFF\x07\0\x02\0\x01\0\0\0\x01\x01\xFF",
        out,
    )
}

// Buffers of EE around 30 bytes; a fault in the last item, with room for the first; and a stray byte.
fn rooms_of_two<R: Print>(rt: &R) -> io::Result<()> {
    two(rt, &mut [0xEE; 29])?;
    two(rt, &mut [0xEE; 30])?;
    compiled(
        rt,
        "F()+R(hs 8)",
        b"\x17\0\x01\0\x01\0\0\0\0\0\0\0\0\0\0\0\0\0\0\0\0\0\x08\x08\x01\x01\xFF\x07\0\x02\0\x01\x08\0\0\x01\x01\xFF",
        &mut [0xEE; 22],
    )?;
    compiled(
        rt,
        "F()+R()+00",
        b"\x17\0\x01\0\x01\0\0\0\0\0\0\0\0\0\0\0\0\0\0\0\0\0\x08\x08\x01\x01\xFF\x07\0\x02\0\x01\0\0\0\x01\x01\xFF\0",
        &mut [0xEE; 29],
    )
}

// F() over and over, from end to end.
fn fill(plan: &mut [u8]) {
    for (i, byte) in plan.iter_mut().enumerate() {
        *byte = BAND[i % 27];
    }
}

// The longest list, of 240 records of 22 bytes: into buffers of EE around it, and what their last 22 bytes hold.
fn longest<R: Print>(rt: &R) -> io::Result<()> {
    let mut plan = [0u8; 6480];
    fill(&mut plan);
    let mut short = [0xEEu8; 5279];
    told(rt, "240 F()", &plan, &mut short)?;
    held(rt, &short[5257..])?;
    let mut exact = [0xEEu8; 5280];
    told(rt, "240 F()", &plan, &mut exact)?;
    held(rt, &exact[5258..])
}

// One band more is refused by its lines, whatever room there is.
fn too_many<R: Print>(rt: &R) -> io::Result<()> {
    let mut plan = [0u8; 6507];
    fill(&mut plan);
    let mut room = [0xEEu8; 5280];
    told(rt, "241 F()", &plan, &mut room)?;
    held(rt, &room[5258..])?;
    told(rt, "241 F()", &plan, &mut [])
}

// All of them, each in memory of its own.
pub fn all<R: Print>(rt: &R) -> io::Result<()> {
    rows(rt)?;
    below(rt)?;
    rooms_of_one(rt)?;
    rooms_of_two(rt)?;
    longest(rt)?;
    too_many(rt)
}
