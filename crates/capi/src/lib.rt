// What C and Rust call: include/deskboard.h says each call in words.
// A call tests in the order of the refusal sheet: memory (1), its states (15), then its own, and last the room of its report (13).
#![tactic(auto)]

ghost use Rattle.std.specs.Prelude.{◌≡◌, [], length, ◌≤◌, IfErr};
ghost use Rattle.refusal.specs.Sheet.{done, told, unless};
ghost use Rattle.vram.specs.Install.{install_answer, install_memory};
ghost use Rattle.pixels.specs.Draw.{draw_answer};
ghost use Rattle.plan.specs.Compile.{compile_told};
ghost use Rattle.boardwords.specs.Board.{board_size, board_of, board_fits};
ghost use Rattle.framewords.specs.Frame.{settings_size, frame_size, settings_of, settings_fits, frame_of, frame_fits};
ghost use Rattle.capi.specs.Calls.{
  number_told,
  whole,
  new_call,
  new_words,
  write_call,
  write_words,
  read_call,
  read_report,
  reset_call,
  reset_words,
  tick_call,
  tick_words,
  tick_bytes,
  tick_report,
  run_call,
  run_unreported,
  run_words,
  run_bytes,
  run_report,
  start_call,
  start_words,
  line_call,
  line_words,
  line_settings,
  reportable,
  draw_call,
  draw_line,
  draw_report,
  compile_call,
  compile_bytes,
  compile_report,
};

use board::Board;
use boardwords::{BOARD_WORDS, board_fits, board_of, put_board};
use engine::Counts;
use frame::Frame;
use framewords::{
    FRAME_WORDS, SETTINGS_WORDS, frame_fits, frame_of, put_frame, put_settings, settings_fits,
    settings_of,
};
use plan::ItemRefusal;
use refusal::{Refusal, ask};
use settings::Settings;
use vram::good_length;
use words::lay;

// What C knows an answer by: 0, or the number of its refusal.
fn number<T: Copy>(answer: Result<T, Refusal>) -> u32
    ensures { result ≡ number_told (told answer) }
{
    match answer {
        Ok(_) => 0,
        Err(why) => why.number() as u32,
    }
}

// The same of a plan, whose refusals have an item, which is at most 240: the low byte is the number.
fn item_number(answer: Result<usize, ItemRefusal>) -> u32
    requires { IfErr answer (λ r. r.item ≤ 240) }
    ensures { result ≡ number_told (compile_told answer) }
{
    match answer {
        Ok(_) => 0,
        Err(refusal) => refusal.why.number() as u32 + 256 * refusal.item,
    }
}

// The states that words say: refused 15 where they are too few, or one is above its field. One function for the three would take a test and
// a reader as closures, and its promise would say of each what it gives: no plainer.
fn board_in(words: &[u32]) -> Result<Board, Refusal>
    ensures { told result ≡ whole board_size words.now (unless (board_fits words.now) 15 (done (board_of words.now))) }
{
    ask(BOARD_WORDS <= words.len(), Refusal::State)?;
    ask(board_fits(words), Refusal::State)?;
    Ok(board_of(words))
}

fn frame_in(words: &[u32]) -> Result<Frame, Refusal>
    ensures { told result ≡ whole frame_size words.now (unless (frame_fits words.now) 15 (done (frame_of words.now))) }
{
    ask(FRAME_WORDS <= words.len(), Refusal::State)?;
    ask(frame_fits(words), Refusal::State)?;
    Ok(frame_of(words))
}

fn settings_in(words: &[u32]) -> Result<Settings, Refusal>
    ensures { told result ≡ whole settings_size words.now (unless (settings_fits words.now) 15 (done (settings_of words.now))) }
{
    ask(SETTINGS_WORDS <= words.len(), Refusal::State)?;
    ask(settings_fits(words), Refusal::State)?;
    Ok(settings_of(words))
}

#[tactic(auto, unfolding(crate::specs::Calls::new_call))]
fn new(board: &mut [u32]) -> Result<(), Refusal>
    ensures answer { told result ≡ new_call board.old }
    ensures board { board.new ≡ new_words board.old }
{
    ask(BOARD_WORDS <= board.len(), Refusal::State)?;
    put_board(board, Board::new());
    Ok(())
}

#[unsafe(no_mangle)]
pub extern "C" fn deskboard_new(board: &mut [u32]) -> u32
    ensures number { result ≡ number_told (new_call board.old) }
    ensures board { board.new ≡ new_words board.old }
{
    number(new(board))
}

#[tactic(auto, unfolding(crate::specs::Calls::write_call))]
fn write(board: &mut [u32], offset: u32, value: u8) -> Result<(), Refusal>
    ensures answer { told result ≡ write_call board.old offset }
    ensures board { board.new ≡ write_words board.old offset value }
{
    let written = board_in(board)?.write(offset, value);
    written.report?;
    put_board(board, written.state);
    Ok(())
}

#[unsafe(no_mangle)]
pub extern "C" fn deskboard_write(board: &mut [u32], offset: u32, value: u8) -> u32
    ensures number { result ≡ number_told (write_call board.old offset) }
    ensures board { board.new ≡ write_words board.old offset value }
{
    number(write(board, offset, value))
}

// Room is tested last: a refusal of the read itself comes before it.
#[tactic(auto, unfolding(crate::specs::Calls::read_call))]
fn read(board: &[u32], offset: u32, report: &mut [u32]) -> Result<u8, Refusal>
    ensures answer { told result ≡ read_call board.now offset report.old }
    ensures report { report.new ≡ read_report board.now offset report.old }
{
    let value = board_in(board)?.read(offset)?;
    ask(1 <= report.len(), Refusal::Room)?;
    lay(report, &[value as u32]);
    Ok(value)
}

#[unsafe(no_mangle)]
pub extern "C" fn deskboard_read(board: &[u32], offset: u32, report: &mut [u32]) -> u32
    ensures number { result ≡ number_told (read_call board.now offset report.old) }
    ensures report { report.new ≡ read_report board.now offset report.old }
{
    number(read(board, offset, report))
}

#[tactic(auto, unfolding(crate::specs::Calls::reset_call))]
fn reset(board: &mut [u32]) -> Result<(), Refusal>
    ensures answer { told result ≡ reset_call board.old }
    ensures board { board.new ≡ reset_words board.old }
{
    let cleared = board_in(board)?.reset();
    cleared.report?;
    put_board(board, cleared.state);
    Ok(())
}

#[unsafe(no_mangle)]
pub extern "C" fn deskboard_reset(board: &mut [u32]) -> u32
    ensures number { result ≡ number_told (reset_call board.old) }
    ensures board { board.new ≡ reset_words board.old }
{
    number(reset(board))
}

// A run whose counts have no room is refused before it begins, since a refused call changes no memory: by its other refusals, then 13.
fn run_unreported(board: Board, budget: u32) -> Result<Counts, Refusal>
    ensures { told result ≡ run_unreported board budget }
{
    ask(board.sound(), Refusal::State)?;
    ask(budget <= Board::BUDGET, Refusal::Budget)?;
    Err(Refusal::Room)
}

#[tactic(auto, unfolding(crate::specs::Calls::run_call))]
fn run(
    board: &mut [u32],
    mem: &mut [u8],
    budget: u32,
    report: &mut [u32],
) -> Result<Counts, Refusal>
    ensures answer { told result ≡ run_call board.old mem.old budget report.old }
    ensures board { board.new ≡ run_words board.old mem.old budget report.old }
    ensures memory { mem.new ≡ run_bytes board.old mem.old budget report.old }
    ensures report { report.new ≡ run_report board.old mem.old budget report.old }
{
    ask(good_length(mem.len()), Refusal::Board)?;
    let before = board_in(board)?;
    if report.len() < 2 {
        return run_unreported(before, budget);
    }
    let ran = before.run(mem, budget);
    let counts = ran.report?;
    put_board(board, ran.state);
    lay(report, &[counts.ticks, counts.accesses]);
    Ok(counts)
}

#[unsafe(no_mangle)]
pub extern "C" fn deskboard_run(
    board: &mut [u32],
    mem: &mut [u8],
    budget: u32,
    report: &mut [u32],
) -> u32
    ensures number { result ≡ number_told (run_call board.old mem.old budget report.old) }
    ensures board { board.new ≡ run_words board.old mem.old budget report.old }
    ensures memory { mem.new ≡ run_bytes board.old mem.old budget report.old }
    ensures report { report.new ≡ run_report board.old mem.old budget report.old }
{
    number(run(board, mem, budget, report))
}

// One tick is the run with a budget of 1.
#[unsafe(no_mangle)]
pub extern "C" fn deskboard_tick(board: &mut [u32], mem: &mut [u8], report: &mut [u32]) -> u32
    ensures number { result ≡ number_told (tick_call board.old mem.old report.old) }
    ensures board { board.new ≡ tick_words board.old mem.old report.old }
    ensures memory { mem.new ≡ tick_bytes board.old mem.old report.old }
    ensures report { report.new ≡ tick_report board.old mem.old report.old }
{
    deskboard_run(board, mem, 1, report)
}

#[tactic(auto, unfolding(crate::specs::Calls::start_call))]
fn start(board: &[u32], frame: &mut [u32]) -> Result<Frame, Refusal>
    ensures answer { told result ≡ start_call board.now frame.old }
    ensures frame { frame.new ≡ start_words board.now frame.old }
{
    ask(FRAME_WORDS <= frame.len(), Refusal::State)?;
    let started = Frame::start(board_in(board)?)?;
    put_frame(frame, started);
    Ok(started)
}

#[unsafe(no_mangle)]
pub extern "C" fn deskboard_start(board: &[u32], frame: &mut [u32]) -> u32
    ensures number { result ≡ number_told (start_call board.now frame.old) }
    ensures frame { frame.new ≡ start_words board.now frame.old }
{
    number(start(board, frame))
}

// Room is tested before either buffer is written, since a refused call changes nothing.
#[tactic(auto, unfolding(crate::specs::Calls::line_call))]
fn next_line(frame: &mut [u32], mem: &[u8], settings: &mut [u32]) -> Result<Settings, Refusal>
    ensures answer { told result ≡ line_call frame.old mem.now settings.old }
    ensures frame { frame.new ≡ line_words frame.old mem.now settings.old }
    ensures settings { settings.new ≡ line_settings frame.old mem.now settings.old }
{
    ask(good_length(mem.len()), Refusal::Board)?;
    let next = frame_in(frame)?.next_line(mem);
    let line = next.report?;
    ask(SETTINGS_WORDS <= settings.len(), Refusal::Room)?;
    put_frame(frame, next.state);
    put_settings(settings, line);
    Ok(line)
}

#[unsafe(no_mangle)]
pub extern "C" fn deskboard_next_line(frame: &mut [u32], mem: &[u8], settings: &mut [u32]) -> u32
    ensures number { result ≡ number_told (line_call frame.old mem.now settings.old) }
    ensures frame { frame.new ≡ line_words frame.old mem.now settings.old }
    ensures settings { settings.new ≡ line_settings frame.old mem.now settings.old }
{
    number(next_line(frame, mem, settings))
}

// A line whose count has no room is drawn into one of our own, which has room for every line: refusals 1 and 15 come as always, 17 by
// its count and the room, and a line that has none of these is refused 13.
#[tactic(auto, using(crate::proofs::Drawn::refused_too))]
fn draw_unreported(
    board: Board,
    settings: Settings,
    mem: &[u8],
    room: usize,
) -> Result<u16, Refusal>
    ensures { told result ≡ reportable 1 [] (draw_answer board settings mem.now room) }
{
    let mut line = [0; 672];
    let count = pixels::draw(board, settings, mem, &mut line)?;
    ask(count as usize <= room, Refusal::Short)?;
    Err(Refusal::Room)
}

#[tactic(auto, unfolding(crate::specs::Calls::draw_call))]
fn draw(
    board: &[u32],
    settings: &[u32],
    mem: &[u8],
    line: &mut [u16],
    report: &mut [u32],
) -> Result<u16, Refusal>
    ensures answer { told result ≡ draw_call board.now settings.now mem.now (length line.old) report.old }
    ensures line { line.new ≡ draw_line board.now settings.now mem.now line.old report.old }
    ensures report { report.new ≡ draw_report board.now settings.now mem.now (length line.old) report.old }
{
    ask(good_length(mem.len()), Refusal::Board)?;
    let board = board_in(board)?;
    let settings = settings_in(settings)?;
    if report.len() < 1 {
        return draw_unreported(board, settings, mem, line.len());
    }
    let count = pixels::draw(board, settings, mem, line)?;
    lay(report, &[count as u32]);
    Ok(count)
}

#[unsafe(no_mangle)]
pub extern "C" fn deskboard_draw(
    board: &[u32],
    settings: &[u32],
    mem: &[u8],
    line: &mut [u16],
    report: &mut [u32],
) -> u32
    ensures number { result ≡ number_told (draw_call board.now settings.now mem.now (length line.old) report.old) }
    ensures line { line.new ≡ draw_line board.now settings.now mem.now line.old report.old }
    ensures report { report.new ≡ draw_report board.now settings.now mem.now (length line.old) report.old }
{
    number(draw(board, settings, mem, line, report))
}

// A plan whose count has no room is compiled into no room at all: its other refusals come as always, and a plan that has none is refused 13,
// since no list is empty.
#[tactic(auto, using(crate::proofs::Passed::compile_passed, crate::proofs::Passed::compile_short, crate::proofs::Passed::compile_out, plan::proofs::Compiling::compiled_at_most), unfolding(crate::specs::Calls::compile_call))]
fn compile(plan: &[u8], out: &mut [u8], report: &mut [u32]) -> Result<usize, ItemRefusal>
    ensures answer { compile_told result ≡ compile_call plan.now (length out.old) report.old }
    ensures output { out.new ≡ compile_bytes plan.now out.old report.old }
    ensures report { report.new ≡ compile_report plan.now (length out.old) report.old }
{
    if report.len() < 1 {
        return plan::compile(plan, &mut []);
    }
    let bytes = plan::compile(plan, out)?;
    lay(report, &[bytes as u32]);
    Ok(bytes)
}

#[unsafe(no_mangle)]
#[tactic(auto, using(crate::proofs::Passed::few_items))]
pub extern "C" fn deskboard_compile(plan: &[u8], out: &mut [u8], report: &mut [u32]) -> u32
    ensures number { result ≡ number_told (compile_call plan.now (length out.old) report.old) }
    ensures output { out.new ≡ compile_bytes plan.now out.old report.old }
    ensures report { report.new ≡ compile_report plan.now (length out.old) report.old }
{
    item_number(compile(plan, out, report))
}

#[unsafe(no_mangle)]
pub extern "C" fn deskboard_install(mem: &mut [u8], list: &[u8], address: u32) -> u32
    ensures number { result ≡ number_told (install_answer mem.old list.now address) }
    ensures memory { mem.new ≡ install_memory mem.old list.now address }
{
    number(vram::install(mem, list, address))
}
