#![tactic(auto)]

ghost use Rattle.std.specs.Prelude.{◌≡◌};
ghost use Rattle.refusal.specs.Sheet.{told};
ghost use Rattle.frame.specs.Frame.{
  sound_frame,
  fetched,
  line_answer,
  line_frame,
  start_answer,
};

use board::Board;
use record::Reader;
use refusal::{After, Refusal, ask};
use settings::Settings;
use vram::{Vram, good_length};

// A frame: the reader of its display list, with the settings of the line; how many lines were given; whether
// the display list is switched on.
#[derive(Clone, Copy, PartialEq, Eq)]
pub struct Frame {
    pub reader: Reader,
    pub line: u16,
    pub on: bool,
}

// The reader as its next line is shown.
#[tactic(auto, unfolding(crate::specs::Frame::fetched))]
fn fetch(reader: &mut Reader, mem: &[u8])
    ensures { reader.new ≡ fetched mem.now reader.old }
{
    if 0 < reader.repeat {
        reader.repeat -= 1;
    } else if reader.ended {
        reader.settings = reader.settings.dark();
    } else {
        *reader = reader.read(mem);
    }
}

impl Frame {
    // The lines of a frame.
    pub const LINES: u16 = 240;

    // A frame made anew, from XDL_ADR and bit 0 of VIDEO_CONTROL: refused 15.
    #[tactic(auto, unfolding(crate::specs::Frame::start_answer))]
    pub fn start(board: Board) -> Result<Frame, Refusal>
        ensures { told result ≡ start_answer board }
    {
        ask(board.sound(), Refusal::State)?;
        Ok(Frame {
            reader: Reader::new(board.ports.xdladr),
            line: 0,
            on: board.ports.video % 2 == 1,
        })
    }

    fn sound(self) -> bool
        ensures { result ≡ sound_frame self }
    {
        self.reader.settings.sound()
            & (self.reader.position < Vram::ADDRESSES)
            & (self.line <= Frame::LINES)
    }

    // The settings of the next line; where it is refused the frame is as it was.
    #[tactic(auto, unfolding(crate::specs::Frame::fetched, crate::specs::Frame::shown, crate::specs::Frame::next_frame))]
    fn give(&mut self, mem: &[u8]) -> Result<Settings, Refusal>
        ensures report { told result ≡ line_answer self.old mem.now }
        ensures frame { self.new ≡ line_frame self.old mem.now }
    {
        ask(good_length(mem.len()), Refusal::Board)?;
        ask(self.sound(), Refusal::State)?;
        ask(self.line < Frame::LINES, Refusal::FrameOver)?;
        self.line += 1;
        if !self.on {
            return Ok(Settings::new());
        }
        fetch(&mut self.reader, mem);
        let settings = self.reader.settings;
        self.reader.settings = settings.advance();
        Ok(settings)
    }

    // The next line of the frame: its settings, or a refusal with the frame as it was handed in.
    pub fn next_line(mut self, mem: &[u8]) -> After<Frame, Settings>
        ensures report { told result.report ≡ line_answer self mem.now }
        ensures frame { result.state ≡ line_frame self mem.now }
    {
        let report = self.give(mem);
        After {
            state: self,
            report,
        }
    }
}
