#![tactic(auto)]

ghost use Rattle.std.specs.Prelude.{◌≡◌, ◌≢◌, ◌+◌, ◌≤◌, length, MatchOption};
ghost use Rattle.item.specs.Item.{number2, number3, full_at, running_at, sound_full, sound_running, sound_item, lines_of, is_full, body_size, body_at, fitted, kind_number, item_told, item_answer, known_at};

use refusal::{Refusal, ask};

// Kind 1, a full band, field by field as the plan has it.
#[derive(Clone, Copy)]
pub struct Full {
    pub lines: u8,
    pub mode: u8,
    pub address: u32,
    pub step: u16,
    pub hscroll: u8,
    pub vscroll: u8,
    pub font: u8,
    pub map: u8,
    pub mapaddress: u32,
    pub mapstep: u16,
    pub maphscroll: u8,
    pub mapvscroll: u8,
    pub fieldwidth: u8,
    pub fieldheight: u8,
    pub width: u8,
    pub palettes: u8,
    pub priority: u8,
}

// Kind 2, running on: all else runs on from above.
#[derive(Clone, Copy)]
pub struct Running {
    pub lines: u8,
    pub hscroll: u8,
    pub vscroll: u8,
    pub font: u8,
    pub width: u8,
    pub palettes: u8,
    pub priority: u8,
}

// One item of a plan.
#[derive(Clone, Copy)]
pub enum Item {
    Full(Full),
    Running(Running),
}

impl Item {
    // The lines of the screen: an item has no more, nor have all items of a plan together.
    pub const LINES: u8 = 240;

    // The highest address.
    pub const ADDRESS: u32 = 524287;
}

// What is read at a place of a plan: an item, and where the next begins.
#[derive(Clone, Copy)]
pub struct ItemRead {
    pub item: Item,
    pub next: usize,
}

// The kinds of an item.
#[derive(Clone, Copy)]
enum ItemKind {
    Full,
    Running,
}

// Two bytes, low first. All bits count, where `vram` cuts the last byte to those that the card has.
fn number_2(plan: &[u8], at: usize) -> u16
    requires { at + 2 ≤ length plan.now }
    ensures { result ≡ number2 plan.now at }
{
    u16::from_le_bytes([plan[at], plan[at + 1]])
}

// Three bytes, low first.
fn number_3(plan: &[u8], at: usize) -> u32
    requires { at + 3 ≤ length plan.now }
    ensures { result ≡ number3 plan.now at }
{
    u32::from_le_bytes([plan[at], plan[at + 1], plan[at + 2], 0])
}

// The 23 bytes of a full band's body.
#[tactic(auto, unfolding(crate::specs::Item::full_at))]
fn full_at(plan: &[u8], at: usize) -> Full
    requires { at + 23 ≤ length plan.now }
    ensures { result ≡ full_at plan.now at }
{
    Full {
        lines: plan[at],
        mode: plan[at + 1],
        address: number_3(plan, at + 2),
        step: number_2(plan, at + 5),
        hscroll: plan[at + 7],
        vscroll: plan[at + 8],
        font: plan[at + 9],
        map: plan[at + 10],
        mapaddress: number_3(plan, at + 11),
        mapstep: number_2(plan, at + 14),
        maphscroll: plan[at + 16],
        mapvscroll: plan[at + 17],
        fieldwidth: plan[at + 18],
        fieldheight: plan[at + 19],
        width: plan[at + 20],
        palettes: plan[at + 21],
        priority: plan[at + 22],
    }
}

// The 7 bytes of a running-on body.
#[tactic(auto, unfolding(crate::specs::Item::running_at))]
fn running_at(plan: &[u8], at: usize) -> Running
    requires { at + 7 ≤ length plan.now }
    ensures { result ≡ running_at plan.now at }
{
    Running {
        lines: plan[at],
        hscroll: plan[at + 1],
        vscroll: plan[at + 2],
        font: plan[at + 3],
        width: plan[at + 4],
        palettes: plan[at + 5],
        priority: plan[at + 6],
    }
}

// Every field of a full band within its range, in the paper's order.
fn sound_full(b: Full) -> bool
    ensures { result ≡ sound_full b }
{
    (1 <= b.lines)
        & (b.lines <= Item::LINES)
        & (b.mode <= 4)
        & (b.address <= Item::ADDRESS)
        & (b.step <= 4095)
        & (b.hscroll <= 7)
        & (b.vscroll <= 7)
        & (b.map <= 1)
        & (b.mapaddress <= Item::ADDRESS)
        & (b.mapstep <= 4095)
        & (b.maphscroll <= 31)
        & (b.mapvscroll <= 31)
        & (8 <= b.fieldwidth)
        & (b.fieldwidth <= 32)
        & (1 <= b.fieldheight)
        & (b.fieldheight <= 32)
        & (b.width <= 2)
        & (b.palettes <= 15)
}

// The same of a running-on item.
fn sound_running(b: Running) -> bool
    ensures { result ≡ sound_running b }
{
    (1 <= b.lines)
        & (b.lines <= Item::LINES)
        & (b.hscroll <= 7)
        & (b.vscroll <= 7)
        & (b.width <= 2)
        & (b.palettes <= 15)
}

fn sound_item(it: Item) -> bool
    ensures { result ≡ sound_item it }
{
    match it {
        Item::Full(b) => sound_full(b),
        Item::Running(b) => sound_running(b),
    }
}

// How many lines an item has.
pub fn lines_of(it: Item) -> u8
    ensures { result ≡ lines_of it }
{
    match it {
        Item::Full(b) => b.lines,
        Item::Running(b) => b.lines,
    }
}

fn is_full(it: Item) -> bool
    ensures { result ≡ is_full it }
{
    matches!(it, Item::Full(_))
}

// An item as it was read, if it may stand there: 10 first, 9 field, 11 lines.
#[tactic(auto, unfolding(crate::specs::Item::fitted))]
fn fitting(item: Item, n: u32, total: u8, next: usize) -> Result<ItemRead, Refusal>
    ensures { result ≡ fitted item n total next }
{
    ask(is_full(item) | (0 < n), Refusal::First)?;
    ask(sound_item(item), Refusal::Field)?;
    ask(
        total as u16 + lines_of(item) as u16 <= Item::LINES as u16,
        Refusal::Lines,
    )?;
    Ok(ItemRead { item, next })
}

// The kind that a number stands for, if it is one.
fn kind_of(number: u16) -> Option<ItemKind>
    ensures { MatchOption result ((number ≢ 1) × (number ≢ 2)) (λ kind. number ≡ kind_number kind) }
{
    match number {
        1 => Some(ItemKind::Full),
        2 => Some(ItemKind::Running),
        _ => None,
    }
}

// The length of a body.
fn body_size(kind: ItemKind) -> u16
    ensures { result ≡ body_size (kind_number kind) }
{
    match kind {
        ItemKind::Full => 23,
        ItemKind::Running => 7,
    }
}

fn body_at(plan: &[u8], at: usize, kind: ItemKind) -> Item
    requires { at + body_size (kind_number kind) ≤ length plan.now }
    ensures { result ≡ body_at plan.now at (kind_number kind) }
{
    match kind {
        ItemKind::Full => Item::Full(full_at(plan, at)),
        ItemKind::Running => Item::Running(running_at(plan, at)),
    }
}

// The item at a place of a plan: n is its number, total the lines of the items before it.
// 5 header, 7 kind, 8 length, 5 body, then the item's own. The compiler's first pass reads by this.
#[tactic(auto, unfolding(crate::specs::Item::item_at))]
pub fn item_at(plan: &[u8], at: usize, n: u32, total: u8) -> Result<ItemRead, Refusal>
    ensures { item_told n result ≡ item_answer plan.now at n total }
{
    let left = plan.len().saturating_sub(at);
    ask(4 <= left, Refusal::PlanCut)?;
    let kind = kind_of(number_2(plan, at + 2)).ok_or(Refusal::Kind)?;
    let size = body_size(kind);
    ask(number_2(plan, at) == size, Refusal::Length)?;
    ask(4 + size as usize <= left, Refusal::PlanCut)?;
    fitting(
        body_at(plan, at + 4, kind),
        n,
        total,
        at + 4 + size as usize,
    )
}

// The item at a place where one was read before: nothing is tested but that its bytes are there. The compiler's second pass
// reads by this. Each kind answers by itself and not through `body_at`, so that the item need not go through memory.
#[tactic(auto, unfolding(crate::specs::Item::known_at))]
pub fn known_at(plan: &[u8], at: usize) -> Result<ItemRead, Refusal>
    ensures { result ≡ known_at plan.now at }
{
    let left = plan.len().saturating_sub(at);
    ask(4 + 7 <= left, Refusal::PlanCut)?;
    if number_2(plan, at + 2) != 1 {
        return Ok(ItemRead {
            item: Item::Running(running_at(plan, at + 4)),
            next: at + 4 + 7,
        });
    }
    ask(4 + 23 <= left, Refusal::PlanCut)?;
    Ok(ItemRead {
        item: Item::Full(full_at(plan, at + 4)),
        next: at + 4 + 23,
    })
}
