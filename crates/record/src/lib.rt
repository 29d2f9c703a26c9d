#![tactic(auto)]

ghost use Rattle.std.specs.Prelude.{◌≡◌, ◌%◌, ◌<◌};
ghost use Rattle.laws.specs.Bit.{bit};
ghost use Rattle.record.specs.Parts.{begun_at, read_on};
ghost use Rattle.record.specs.Record.{
  pixel_mode,
  overlay_mode,
  map_switch,
  address_at,
  step_at,
  look_at,
  text_restarts,
  field_restarts,
  field_width,
  display_width,
  controlled,
  repeat_group,
  address_group,
  scroll_group,
  font_group,
  map_group,
  field_group,
  look_group,
  restarted,
  record_of,
};

use settings::{Look, Settings, further};
use vram::{byte_at, number_12, number_19};

// What a record of the display list changes: the settings, where the list is read on, how many lines
// more have these settings, and whether this was the last record.
#[derive(Clone, Copy, Debug, PartialEq, Eq)]
pub struct Reader {
    pub settings: Settings,
    pub position: u32,
    pub repeat: u8,
    pub ended: bool,
}

impl Reader {
    // A reader that begins: with the settings that a frame begins with, at a place of the display list, no line more, and not ended.
    pub fn new(position: u32) -> Self
        ensures { result ≡ begun_at position }
    {
        Reader {
            settings: Settings::new(),
            position,
            repeat: 0,
            ended: false,
        }
    }
}

// Whether bit k of v is set.
fn bit(v: u8, k: u32) -> bool
    requires { k < 8 }
    ensures { result ≡ bit v k }
{
    (v >> k) % 2 == 1
}

// The two control bytes of a record, with the manual's names for their bits.
#[derive(Clone, Copy)]
struct Control {
    c: u8,
    d: u8,
}

impl Control {
    // GMON's mode, by HR and LR.
    fn pixel_mode(self) -> u8
        ensures { result ≡ pixel_mode self.d }
    {
        match self.d / 16 % 4 {
            0 => 2,
            1 => 3,
            2 => 4,
            _ => 0,
        }
    }

    // TMON, GMON, OVOFF: one of them alone, or off.
    fn mode(self, mode: u8) -> u8
        ensures { result ≡ overlay_mode self.c self.d mode }
    {
        match self.c % 8 {
            0 => mode,
            1 => 1,
            2 => self.pixel_mode(),
            _ => 0,
        }
    }

    // MAPON, MAPOFF.
    fn map(self, on: bool) -> bool
        ensures { result ≡ map_switch self.c on }
    {
        match self.c / 8 % 4 {
            0 => on,
            1 => true,
            _ => false,
        }
    }

    fn rptl(self) -> bool
        ensures { result ≡ bit self.c 5 }
    {
        bit(self.c, 5)
    }

    fn ovadr(self) -> bool
        ensures { result ≡ bit self.c 6 }
    {
        bit(self.c, 6)
    }

    fn ovscrl(self) -> bool
        ensures { result ≡ bit self.c 7 }
    {
        bit(self.c, 7)
    }

    fn chbase(self) -> bool
        ensures { result ≡ bit self.d 0 }
    {
        bit(self.d, 0)
    }

    fn mapadr(self) -> bool
        ensures { result ≡ bit self.d 1 }
    {
        bit(self.d, 1)
    }

    fn mappar(self) -> bool
        ensures { result ≡ bit self.d 2 }
    {
        bit(self.d, 2)
    }

    fn ovatt(self) -> bool
        ensures { result ≡ bit self.d 3 }
    {
        bit(self.d, 3)
    }

    // XDLC_END
    fn end(self) -> bool
        ensures { result ≡ bit self.d 7 }
    {
        bit(self.d, 7)
    }

    // TMON alone, or OVADR.
    fn restarts_text(self) -> bool
        ensures { result ≡ text_restarts self.c }
    {
        self.c % 8 == 1 || self.ovadr()
    }

    // MAPADR or MAPPAR.
    fn restarts_field(self) -> bool
        ensures { result ≡ field_restarts self.d }
    {
        self.mapadr() || self.mappar()
    }
}

// A field of the map is at least 8 wide.
fn field_width(b: u8) -> u8
    ensures { result ≡ field_width b }
{
    (b % 32 + 1).max(8)
}

fn display_width(b: u8) -> u8
    ensures { result ≡ display_width b }
{
    match b % 4 {
        3 => 1,
        w => w,
    }
}

// OVATT's two bytes.
fn look_at(mem: &[u8], at: u32) -> Look
    ensures { result ≡ look_at mem.now at 0 }
{
    let b = byte_at(mem, at, 0);
    Look {
        width: display_width(b),
        palette: b / 16 % 4,
        playfield: b / 64 % 4,
        priority: byte_at(mem, at, 1),
    }
}

// Where the field counter starts. A field has a height in every sound state; without one the remainder is the number itself.
fn field_start(vscroll: u8, height: u8) -> u8
    ensures { result ≡ vscroll % height }
{
    vscroll.checked_rem(height).unwrap_or(vscroll)
}

impl Reader {
    // What the control bytes say by themselves: the mode, the map, the end.
    #[tactic(auto, unfolding(crate::specs::Record::controlled))]
    fn switch(mut self, control: Control) -> Self
        ensures { result ≡ controlled control.c control.d self }
    {
        self.settings.overlay.mode = control.mode(self.settings.overlay.mode);
        self.settings.map.on = control.map(self.settings.map.on);
        // this record begins where the reader stands
        self.settings.origin = self.position;
        self.ended = control.end();
        self.position = further(self.position, 2);
        self
    }

    // The address and the step of OVADR and MAPADR: five bytes.
    fn address_step(&mut self, mem: &[u8]) -> (u32, u16)
        ensures address { result.0 ≡ address_at mem.now self.old.position 0 }
        ensures step { result.1 ≡ step_at mem.now self.old.position 3 }
        ensures reader { self.new ≡ read_on 5 self.old.settings self.old }
    {
        let at = self.position;
        self.position = further(at, 5);
        (
            number_19(
                byte_at(mem, at, 0),
                byte_at(mem, at, 1),
                byte_at(mem, at, 2),
            ),
            number_12(byte_at(mem, at, 3), byte_at(mem, at, 4)),
        )
    }

    // RPTL
    #[tactic(auto, unfolding(crate::specs::Record::repeat_group))]
    fn repeat_group(mut self, mem: &[u8], control: Control) -> Self
        ensures { result ≡ repeat_group mem.now control.c self }
    {
        self.repeat = 0;
        if control.rptl() {
            self.repeat = byte_at(mem, self.position, 0);
            self.position = further(self.position, 1);
        }
        self
    }

    // OVADR
    #[tactic(auto, unfolding(crate::specs::Record::address_group))]
    fn address_group(mut self, mem: &[u8], control: Control) -> Self
        ensures { result ≡ address_group mem.now control.c self }
    {
        if control.ovadr() {
            (self.settings.overlay.address, self.settings.overlay.step) = self.address_step(mem);
        }
        self
    }

    // OVSCRL
    #[tactic(auto, unfolding(crate::specs::Record::scroll_group))]
    fn scroll_group(mut self, mem: &[u8], control: Control) -> Self
        ensures { result ≡ scroll_group mem.now control.c self }
    {
        if control.ovscrl() {
            self.settings.overlay.hscroll = byte_at(mem, self.position, 0) % 8;
            self.settings.overlay.vscroll = byte_at(mem, self.position, 1) % 8;
            self.position = further(self.position, 2);
        }
        self
    }

    // CHBASE
    #[tactic(auto, unfolding(crate::specs::Record::font_group))]
    fn font_group(mut self, mem: &[u8], control: Control) -> Self
        ensures { result ≡ font_group mem.now control.d self }
    {
        if control.chbase() {
            self.settings.overlay.font = byte_at(mem, self.position, 0);
            self.position = further(self.position, 1);
        }
        self
    }

    // MAPADR
    #[tactic(auto, unfolding(crate::specs::Record::map_group))]
    fn map_group(mut self, mem: &[u8], control: Control) -> Self
        ensures { result ≡ map_group mem.now control.d self }
    {
        if control.mapadr() {
            (self.settings.map.address, self.settings.map.step) = self.address_step(mem);
        }
        self
    }

    // MAPPAR
    #[tactic(auto, unfolding(crate::specs::Record::field_group))]
    fn field_group(mut self, mem: &[u8], control: Control) -> Self
        ensures { result ≡ field_group mem.now control.d self }
    {
        if control.mappar() {
            let map = &mut self.settings.map;
            map.hscroll = byte_at(mem, self.position, 0) % 32;
            map.vscroll = byte_at(mem, self.position, 1) % 32;
            map.width = field_width(byte_at(mem, self.position, 2));
            map.height = byte_at(mem, self.position, 3) % 32 + 1;
            self.position = further(self.position, 4);
        }
        self
    }

    // OVATT
    #[tactic(auto, unfolding(crate::specs::Record::look_group))]
    fn look_group(mut self, mem: &[u8], control: Control) -> Self
        ensures { result ≡ look_group mem.now control.d self }
    {
        if control.ovatt() {
            self.settings.look = look_at(mem, self.position);
            self.position = further(self.position, 2);
        }
        self
    }

    // The counters start again after all data are read, so at the scrolls as they are then: this record's, or those held.
    #[tactic(auto, unfolding(crate::specs::Record::restarted))]
    fn restart(mut self, control: Control) -> Self
        ensures { result ≡ restarted control.c control.d self }
    {
        if control.restarts_text() {
            self.settings.overlay.counter = self.settings.overlay.vscroll;
        }
        if control.restarts_field() {
            let map = &mut self.settings.map;
            map.counter = field_start(map.vscroll, map.height);
        }
        self
    }

    // One record: its control bytes, then the data that they announce.
    pub fn read(self, mem: &[u8]) -> Self
        ensures { result ≡ record_of mem.now self }
    {
        let control = Control {
            c: byte_at(mem, self.position, 0),
            d: byte_at(mem, self.position, 1),
        };
        self.switch(control)
            .repeat_group(mem, control)
            .address_group(mem, control)
            .scroll_group(mem, control)
            .font_group(mem, control)
            .map_group(mem, control)
            .field_group(mem, control)
            .look_group(mem, control)
            .restart(control)
    }
}
