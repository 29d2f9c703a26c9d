#![tactic(auto)]

ghost use Rattle.std.specs.Prelude.{◌≡◌, true, ◌++◌, ◌≤◌, length, drop};
ghost use Rattle.item.specs.Item.{sound_full, sound_running, sound_item, item_at};
ghost use Rattle.plan.specs.Plan.{good, parse, items_of};
ghost use Rattle.plan.specs.Xdl.{overlay_bit, map_bit, resolution_bit, end_bit, full_record, running_record, record_size, record_bytes, xdl_bytes};
ghost use Rattle.plan.specs.Compile.{at_item, numbered, checked_of, compile_told, compile_answer, compile_output};

use item::{Full, Item, ItemRead, Running};
use refusal::{Refusal, ask};

// Why a plan is refused, and at which item.
#[derive(Clone, Copy, Debug, PartialEq, Eq)]
pub struct ItemRefusal {
    pub why: Refusal,
    pub item: u32,
}

// A refusal that has no item of its own has item 0.
impl From<Refusal> for ItemRefusal {
    ghost from_gives = { λ why r. r ≡ at_item why 0 };

    fn from(why: Refusal) -> ItemRefusal {
        ItemRefusal { why, item: 0 }
    }
}

// TMON for text, GMON for the pixel modes, OVOFF where the overlay is off.
fn overlay_bit(mode: u8) -> u8
    ensures { (result ≡ overlay_bit mode) × (result ≤ 4) }
{
    match mode {
        0 => 4,
        1 => 1,
        _ => 2,
    }
}

// MAPON or MAPOFF.
fn map_bit(map: u8) -> u8
    ensures { (result ≡ map_bit map) × (result ≤ 16) }
{
    if map == 0 { 16 } else { 8 }
}

// HR or LR, which stand beside GMON.
fn resolution_bit(mode: u8) -> u8
    ensures { (result ≡ resolution_bit mode) × (result ≤ 32) }
{
    match mode {
        3 => 16,
        4 => 32,
        _ => 0,
    }
}

// END, on the last record.
fn end_bit(last: bool) -> u8
    ensures { (result ≡ end_bit last) × (result ≤ 128) }
{
    if last { 128 } else { 0 }
}

// Bytes laid at the start of what is lent; how many they are. By index: over two slices an iterator hands out pairs of pointers, which the
// page in a browser does not allow for (docs/PROMISES.md).
fn copy(bytes: &[u8], out: &mut [u8]) -> usize
    requires { length bytes.now ≤ length out.old }
    ensures count { result ≡ length bytes.now }
    ensures laid { out.new ≡ bytes.now ++ drop (length bytes.now) out.old }
{
    for i in 0..bytes.len() {
        out[i] = bytes[i];
    }
    bytes.len()
}

// A kind 1 record: all seven data groups, in the manual's fetch order.
#[tactic(auto, using(item::proofs::Ranges::full_fits), unfolding(crate::specs::Xdl::full_record))]
fn write_full(out: &mut [u8], b: Full, last: bool) -> usize
    requires { (22 ≤ length out.old) × (sound_full b ≡ true) }
    ensures { (result ≡ 22) × (out.new ≡ full_record b last ++ drop 22 out.old) }
{
    let address = b.address.to_le_bytes();
    let step = b.step.to_le_bytes();
    let mapaddress = b.mapaddress.to_le_bytes();
    let mapstep = b.mapstep.to_le_bytes();
    let bytes = [
        224 + overlay_bit(b.mode) + map_bit(b.map),
        15 + resolution_bit(b.mode) + end_bit(last),
        b.lines - 1,
        address[0],
        address[1],
        address[2],
        step[0],
        step[1],
        b.hscroll,
        b.vscroll,
        b.font,
        mapaddress[0],
        mapaddress[1],
        mapaddress[2],
        mapstep[0],
        mapstep[1],
        b.maphscroll,
        b.mapvscroll,
        b.fieldwidth - 1,
        b.fieldheight - 1,
        b.width + 16 * b.palettes,
        b.priority,
    ];
    copy(&bytes, out)
}

// A kind 2 record: RPTL, OVSCRL, CHBASE and OVATT.
#[tactic(auto, using(item::proofs::Ranges::running_fits), unfolding(crate::specs::Xdl::running_record))]
fn write_running(out: &mut [u8], b: Running, last: bool) -> usize
    requires { (8 ≤ length out.old) × (sound_running b ≡ true) }
    ensures { (result ≡ 8) × (out.new ≡ running_record b last ++ drop 8 out.old) }
{
    let bytes = [
        160,
        9 + end_bit(last),
        b.lines - 1,
        b.hscroll,
        b.vscroll,
        b.font,
        b.width + 16 * b.palettes,
        b.priority,
    ];
    copy(&bytes, out)
}

// The item's record at the start of what is lent; how many bytes it has.
fn write_record(out: &mut [u8], it: Item, last: bool) -> usize
    requires { (record_size it ≤ length out.old) × (sound_item it ≡ true) }
    ensures { (result ≡ record_size it) × (out.new ≡ record_bytes it last ++ drop (record_size it) out.old) }
{
    match it {
        Item::Full(b) => write_full(out, b, last),
        Item::Running(b) => write_running(out, b, last),
    }
}

fn size_of(it: Item) -> usize
    ensures { result ≡ record_size it }
{
    match it {
        Item::Full(_) => 22,
        Item::Running(_) => 8,
    }
}

// The item at a place, or why it is refused, with its number.
fn read_at(plan: &[u8], at: usize, n: u32, total: u8) -> Result<ItemRead, ItemRefusal>
    ensures { result ≡ numbered n (item_at plan.now at n total) }
{
    item::item_at(plan, at, n, total).map_err(|why| ItemRefusal { why, item: n })
}

// The first pass goes over the whole plan and writes nothing: how many bytes the list has, or the refusal. A turn goes on by an item's length.
#[tactic(auto, using(crate::proofs::Checking::check_bad, crate::proofs::Checking::check_end, crate::proofs::Walk::parse_none, crate::proofs::Walk::parse_rest))]
fn check(plan: &[u8]) -> Result<usize, ItemRefusal>
    ensures { result ≡ checked_of (parse plan.now) }
{
    ask(0 < plan.len(), Refusal::NoBand)?;
    let mut at = 0;
    let mut n = 0;
    let mut total = 0;
    let mut bytes = 0;
    while at < plan.len() {
        let read = read_at(plan, at, n, total)?;
        bytes += size_of(read.item);
        total += item::lines_of(read.item);
        at = read.next;
        n += 1;
    }
    Ok(bytes)
}

// The second pass: the first found every item sound, so none is tested again, and none is refused.
// The rest of the output, from its middle on, is lent to the record writer.
fn write_all(plan: &[u8], out: &mut [u8])
    requires { (parse plan.now ≡ good (items_of (parse plan.now))) × (length (xdl_bytes plan.now) ≤ length out.old) }
    ensures { out.new ≡ xdl_bytes plan.now ++ drop (length (xdl_bytes plan.now)) out.old }
{
    let mut at = 0;
    let mut to = 0;
    while at < plan.len() {
        let Ok(read) = item::known_at(plan, at) else {
            return;
        };
        to += write_record(&mut out[to..], read.item, read.next == plan.len());
        at = read.next;
    }
}

// A plan's display list into the output; bytes past it stay. A refusal writes nothing.
#[tactic(auto, using(crate::proofs::Compiling::write_may_begin), unfolding(crate::specs::Compile::compile_answer, crate::specs::Compile::compile_output))]
pub fn compile(plan: &[u8], out: &mut [u8]) -> Result<usize, ItemRefusal>
    ensures answer { compile_told result ≡ compile_answer plan.now (length out.old) }
    ensures output { out.new ≡ compile_output plan.now out.old }
{
    let bytes = check(plan)?;
    ask(bytes <= out.len(), Refusal::Room)?;
    write_all(plan, out);
    Ok(bytes)
}
