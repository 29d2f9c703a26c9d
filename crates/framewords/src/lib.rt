// A line's settings and a frame as words, and back.
#![tactic(auto)]

ghost use Rattle.std.specs.Prelude.{◌≡◌, ◌≤◌, length};
ghost use Rattle.words.specs.Words.{laid};
ghost use Rattle.framewords.specs.Frame.{settings_size, frame_size, overlay_of, map_of, look_of, settings_of, settings_words, settings_fits, frame_of, frame_words, frame_most, frame_fits};

use frame::Frame;
use record::Reader;
use settings::{Look, Map, Overlay, Settings};
use words::{all_within, byte, half, lay, read_whole};

// The words of a line's settings, and of a frame.
pub const SETTINGS_WORDS: usize = 20;

pub const FRAME_WORDS: usize = 25;

#[tactic(auto, unfolding(crate::specs::Frame::overlay_of))]
fn overlay_of(words: &[u32]) -> Overlay
    requires { settings_size ≤ length words.now }
    ensures { result ≡ overlay_of words.now }
{
    Overlay {
        mode: byte(words[0]),
        address: words[1],
        step: half(words[2]),
        hscroll: byte(words[3]),
        vscroll: byte(words[4]),
        font: byte(words[5]),
        counter: byte(words[6]),
    }
}

#[tactic(auto, unfolding(crate::specs::Frame::map_of))]
fn map_of(words: &[u32]) -> Map
    requires { settings_size ≤ length words.now }
    ensures { result ≡ map_of words.now }
{
    Map {
        on: words[7] == 1,
        address: words[8],
        step: half(words[9]),
        hscroll: byte(words[10]),
        vscroll: byte(words[11]),
        width: byte(words[12]),
        height: byte(words[13]),
        counter: byte(words[14]),
    }
}

#[tactic(auto, unfolding(crate::specs::Frame::look_of))]
fn look_of(words: &[u32]) -> Look
    requires { settings_size ≤ length words.now }
    ensures { result ≡ look_of words.now }
{
    Look {
        width: byte(words[15]),
        palette: byte(words[16]),
        playfield: byte(words[17]),
        priority: byte(words[18]),
    }
}

#[tactic(auto, unfolding(crate::specs::Frame::settings_of))]
fn read_settings(words: &[u32]) -> Settings
    requires { settings_size ≤ length words.now }
    ensures { result ≡ settings_of words.now }
{
    Settings {
        overlay: overlay_of(words),
        map: map_of(words),
        look: look_of(words),
        origin: words[19],
    }
}

// The settings that the words say. Of words that fit, every word counts; those that are missing are 0.
#[tactic(auto, using(crate::proofs::Same::settings_same))]
pub fn settings_of(words: &[u32]) -> Settings
    ensures { result ≡ settings_of words.now }
{
    read_whole::<_, _, SETTINGS_WORDS>(words, read_settings)
}

// The words of a line's settings, laid over what is lent.
#[tactic(auto, unfolding(crate::specs::Frame::settings_words))]
pub fn put_settings(words: &mut [u32], settings: Settings)
    ensures { words.new ≡ laid (settings_words settings) words.old }
{
    let Settings {
        overlay,
        map,
        look,
        origin,
    } = settings;
    lay(
        words,
        &[
            u32::from(overlay.mode),
            overlay.address,
            u32::from(overlay.step),
            u32::from(overlay.hscroll),
            u32::from(overlay.vscroll),
            u32::from(overlay.font),
            u32::from(overlay.counter),
            u32::from(map.on),
            map.address,
            u32::from(map.step),
            u32::from(map.hscroll),
            u32::from(map.vscroll),
            u32::from(map.width),
            u32::from(map.height),
            u32::from(map.counter),
            u32::from(look.width),
            u32::from(look.palette),
            u32::from(look.playfield),
            u32::from(look.priority),
            origin,
        ],
    );
}

#[tactic(auto, unfolding(crate::specs::Frame::frame_of))]
fn read_frame(words: &[u32]) -> Frame
    requires { frame_size ≤ length words.now }
    ensures { result ≡ frame_of words.now }
{
    Frame {
        reader: Reader {
            settings: read_settings(words),
            position: words[20],
            repeat: byte(words[21]),
            ended: words[23] == 1,
        },
        line: half(words[22]),
        on: words[24] == 1,
    }
}

// The frame that the words say, as of settings.
#[tactic(auto, using(crate::proofs::Same::frame_same))]
pub fn frame_of(words: &[u32]) -> Frame
    ensures { result ≡ frame_of words.now }
{
    read_whole::<_, _, FRAME_WORDS>(words, read_frame)
}

// The largest word of each field of a frame, its settings first: that of a byte, but for these.
#[tactic(auto, unfolding(crate::specs::Frame::frame_most, crate::specs::Frame::settings_most))]
fn largest() -> [u32; FRAME_WORDS]
    ensures { result ≡ frame_most }
{
    let mut most = [u32::from(u8::MAX); FRAME_WORDS];
    most[1] = u32::MAX;
    most[2] = u32::from(u16::MAX);
    most[7] = 1;
    most[8] = u32::MAX;
    most[9] = u32::from(u16::MAX);
    most[19] = u32::MAX;
    most[20] = u32::MAX;
    most[22] = u32::from(u16::MAX);
    most[23] = 1;
    most[24] = 1;
    most
}

// Whether each word of a line's settings is within its field's type.
#[tactic(auto, unfolding(crate::specs::Frame::frame_most, crate::specs::Frame::settings_most))]
pub fn settings_fits(words: &[u32]) -> bool
    ensures { result ≡ settings_fits words.now }
{
    all_within(words, &largest()[..SETTINGS_WORDS])
}

// Whether each word of a frame is.
pub fn frame_fits(words: &[u32]) -> bool
    ensures { result ≡ frame_fits words.now }
{
    all_within(words, &largest())
}

// The words of a frame, laid over what is lent: those of its settings, and five.
#[tactic(auto, unfolding(crate::specs::Frame::frame_words, crate::specs::Frame::settings_words))]
pub fn put_frame(words: &mut [u32], frame: Frame)
    ensures { words.new ≡ laid (frame_words frame) words.old }
{
    if words.len() < FRAME_WORDS {
        return;
    }
    let Frame { reader, line, on } = frame;
    put_settings(words, reader.settings);
    lay(
        &mut words[SETTINGS_WORDS..],
        &[
            reader.position,
            u32::from(reader.repeat),
            u32::from(line),
            u32::from(reader.ended),
            u32::from(on),
        ],
    );
}
