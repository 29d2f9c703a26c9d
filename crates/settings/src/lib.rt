#![tactic(auto)]

ghost use Rattle.std.specs.Prelude.{◌≡◌, ◌+◌, ◌%◌};
ghost use Rattle.settings.specs.Settings.{
  beginning,
  sound_overlay,
  sound_map,
  sound_look,
  sound_settings,
  advanced_overlay,
  advanced_map,
  advanced,
  off,
};

// The overlay: mode 0 off, 1 text, 2 SR, 3 HR, 4 LR; the address and step of its data; the text counter.
// The mode is a number: a state with another one can be handed in, and is refused.
#[derive(Clone, Copy, Debug, Default, PartialEq, Eq)]
pub struct Overlay {
    pub mode: u8,
    pub address: u32,
    pub step: u16,
    pub hscroll: u8,
    pub vscroll: u8,
    pub font: u8,
    pub counter: u8,
}

// The attribute map: its data, the size of its fields, and the field counter.
#[derive(Clone, Copy, Debug, PartialEq, Eq)]
pub struct Map {
    pub on: bool,
    pub address: u32,
    pub step: u16,
    pub hscroll: u8,
    pub vscroll: u8,
    pub width: u8,
    pub height: u8,
    pub counter: u8,
}

// What OVATT sets: the display's width, the palettes of overlay and playfield, the priority.
#[derive(Clone, Copy, Debug, PartialEq, Eq)]
pub struct Look {
    pub width: u8,
    pub palette: u8,
    pub playfield: u8,
    pub priority: u8,
}

// The settings of one scanline, and its origin: the address of the record last read for it, or NO_RECORD, which is a number since C and
// document 02 have it so.
#[derive(Clone, Copy, Debug, PartialEq, Eq)]
pub struct Settings {
    pub overlay: Overlay,
    pub map: Map,
    pub look: Look,
    pub origin: u32,
}

// An address one step further, in 19 bits. It is reduced first, so that the sum fits.
pub fn further(address: u32, step: u16) -> u32
    ensures { result ≡ (address + step) % 524288 }
{
    (address % 524288 + step as u32) % 524288
}

impl Overlay {
    // "each field within its width or range"
    fn sound(self) -> bool
        ensures { result ≡ sound_overlay self }
    {
        self.mode <= 4
            && self.address < Settings::ADDRESSES
            && self.step < 4096
            && self.hscroll < 8
            && self.vscroll < 8
            && self.counter < 8
    }

    // A text row has eight lines and is then stepped over; a pixel line at once.
    #[tactic(auto, unfolding(crate::specs::Settings::advanced_overlay))]
    fn advance(mut self) -> Self
        ensures { result ≡ advanced_overlay self }
    {
        match self.mode {
            0 => {}
            1 if self.counter < 7 => self.counter += 1,
            1 => {
                self.counter = 0;
                self.address = further(self.address, self.step);
            }
            _ => self.address = further(self.address, self.step),
        }
        self
    }
}

impl Map {
    fn sound(self) -> bool
        ensures { result ≡ sound_map self }
    {
        self.address < Settings::ADDRESSES
            && self.step < 4096
            && self.hscroll < 32
            && self.vscroll < 32
            && (8..=32).contains(&self.width)
            && (1..=32).contains(&self.height)
            && self.counter < self.height
    }

    // A field has `height` lines. Counted in 16 bits, so that the sum fits whatever the counter is. Its turn and its switch are not the
    // overlay's, so the two advances share no text.
    #[tactic(auto, unfolding(crate::specs::Settings::advanced_map))]
    fn advance(mut self) -> Self
        ensures { result ≡ advanced_map self }
    {
        if self.on {
            if self.counter as u16 + 1 < self.height as u16 {
                self.counter += 1;
            } else {
                self.counter = 0;
                self.address = further(self.address, self.step);
            }
        }
        self
    }
}

impl Look {
    fn sound(self) -> bool
        ensures { result ≡ sound_look self }
    {
        self.width <= 2 && self.palette < 4 && self.playfield < 4
    }
}

impl Settings {
    // The addresses of 19 bits.
    pub const ADDRESSES: u32 = 524288;

    // The origin where no record has been read in the frame.
    pub const NO_RECORD: u32 = 524288;

    // How a frame begins.
    pub fn new() -> Self
        ensures { result ≡ beginning }
    {
        Self {
            overlay: Overlay::default(),
            map: Map {
                on: false,
                address: 0,
                step: 0,
                hscroll: 0,
                vscroll: 0,
                width: 8,
                height: 8,
                counter: 0,
            },
            look: Look {
                width: 1,
                palette: 1,
                playfield: 0,
                priority: 255,
            },
            origin: Settings::NO_RECORD,
        }
    }

    pub fn sound(self) -> bool
        ensures { result ≡ sound_settings self }
    {
        self.overlay.sound()
            && self.map.sound()
            && self.look.sound()
            && self.origin <= Settings::NO_RECORD
    }

    // What one displayed line leaves for the next.
    #[tactic(auto, unfolding(crate::specs::Settings::advanced))]
    pub fn advance(self) -> Self
        ensures { result ≡ advanced self }
    {
        Self {
            overlay: self.overlay.advance(),
            map: self.map.advance(),
            ..self
        }
    }

    // Overlay and map off, all else held: the lines below the list's end.
    #[tactic(auto, unfolding(crate::specs::Settings::off))]
    pub fn dark(mut self) -> Self
        ensures { result ≡ off self }
    {
        self.overlay.mode = 0;
        self.map.on = false;
        self
    }
}
