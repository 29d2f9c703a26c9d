// One overlay line, drawn as pixels (document 02, A5). It knows neither frames nor plans.
#![tactic(auto)]

mod fills;
mod text;

ghost use Rattle.std.specs.Prelude.{◌≡◌, true, [], ◌∷◌, ◌≤◌, length, get_or};
ghost use Rattle.settings.specs.Settings.{sound_settings};
ghost use Rattle.vram.specs.Memory.{good_length};
ghost use Rattle.pixels.specs.Pixels.{line_count, pixel_count, pixel_at, each};
ghost use Rattle.pixels.specs.Reads.{data_bytes, read_bytes};
ghost use Rattle.pixels.specs.Fills.{piece_of};
ghost use Rattle.refusal.specs.Sheet.{told};
ghost use Rattle.pixels.specs.Draw.{filled, draw_answer, draw_output};

use board::Board;
use fills::Shades;
use refusal::{Refusal, ask};
use settings::Settings;
use text::{Inks, Text};
use vram::good_length;

// One of three by the width.
fn by_width(width: u8, narrow: u16, normal: u16, wide: u16) -> u16
    ensures { result ≡ get_or (narrow ∷ normal ∷ wide ∷ []) width 0 }
{
    match width {
        0 => narrow,
        1 => normal,
        2 => wide,
        _ => 0,
    }
}

// The pixels of a line. None where the overlay is off. This table and the next are matches: a lent constant would be a global, and the
// browser's module has none (docs/PROMISES.md).
#[tactic(auto, using(crate::proofs::Counts::count_else), unfolding(crate::specs::Pixels::pixel_count))]
fn count_of(mode: u8, width: u8) -> u16
    ensures { result ≡ pixel_count mode width }
{
    match mode {
        1 | 3 => by_width(width, 512, 640, 672),
        2 => by_width(width, 256, 320, 336),
        4 => by_width(width, 128, 160, 168),
        _ => 0,
    }
}

// The bytes of a line's data.
#[tactic(auto, using(crate::proofs::Counts::bytes_else), unfolding(crate::specs::Reads::data_bytes))]
fn data_bytes(mode: u8, width: u8) -> u16
    ensures { result ≡ data_bytes mode width }
{
    match mode {
        1 | 4 => by_width(width, 128, 160, 168),
        2 | 3 => by_width(width, 256, 320, 336),
        _ => 0,
    }
}

// The bytes that a line is drawn from: scrolled text has one character more.
#[tactic(auto, using(crate::proofs::Counts::bytes_most))]
fn read_bytes(settings: Settings) -> u16
    ensures { result ≡ read_bytes settings }
{
    let overlay = settings.overlay;
    let bytes = data_bytes(overlay.mode, settings.look.width);
    if (overlay.mode == 1) & (0 < overlay.hscroll) {
        return bytes + 2;
    }
    bytes
}

// The pixels of sound settings, from data in one piece.
fn paint(piece: &[u8], mem: &[u8], video: u8, settings: Settings, line: &mut [u16])
    requires sound { sound_settings settings ≡ true }
    requires count { length line.old ≡ line_count settings }
    requires piece { piece.now ≡ piece_of mem.now settings }
    requires good { good_length (length mem.now) ≡ true }
    ensures { line.new ≡ each (pixel_at mem.now video settings) 0 (length line.old) }
{
    let overlay = settings.overlay;
    let shades = Shades {
        video,
        palette: settings.look.palette,
    };
    match overlay.mode {
        1 => {
            let text = Text {
                piece,
                mem,
                font: overlay.font as u32 * 2048 + overlay.counter as u32,
                inks: Inks::new(shades),
            };
            text.fill(overlay.hscroll as usize, line);
        }
        3 => shades.nibbles(piece, line),
        _ => shades.bytes(piece, line),
    }
}

// The same from memory, in a line that has room: its own bytes where the data ends inside it.
fn fill(mem: &[u8], video: u8, settings: Settings, line: &mut [u16], count: usize)
    requires { (sound_settings settings ≡ true) × (count ≡ line_count settings) × (count ≤ length line.old) × (good_length (length mem.now) ≡ true) }
    ensures { line.new ≡ filled (pixel_at mem.now video settings) count line.old }
{
    let line = &mut line[..count];
    let n = read_bytes(settings) as usize;
    let from = settings.overlay.address as usize;
    let to = from + n;
    if to <= mem.len() {
        paint(&mem[from..to], mem, video, settings, line);
        return;
    }
    let mut room = [0u8; 336];
    let piece = &mut room[..n];
    fills::gather(mem, settings.overlay.address, piece);
    paint(piece, mem, video, settings, line);
}

// Draws one line: fills the entries of a lent line from its first on, and tells how many. Those past them stay.
#[tactic(auto, using(crate::proofs::Answer::draw_short), unfolding(crate::specs::Draw::draw_answer))]
pub fn draw(board: Board, settings: Settings, mem: &[u8], line: &mut [u16]) -> Result<u16, Refusal>
    ensures answer { told result ≡ draw_answer board settings mem.now (length line.old) }
    ensures line { line.new ≡ draw_output board settings mem.now line.old }
{
    ask(good_length(mem.len()), Refusal::Board)?;
    ask(board.sound() & settings.sound(), Refusal::State)?;
    let count = count_of(settings.overlay.mode, settings.look.width);
    ask(count as usize <= line.len(), Refusal::Short)?;
    fill(mem, board.ports.video, settings, line, count as usize);
    Ok(count)
}
