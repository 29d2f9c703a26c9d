// What a plan shows of a memory, as a picture. The plan's list goes to the end of memory, is pointed at and switched on; the 240 lines of its
// frame are drawn and written as they come.
#![tactic(auto)]

ghost use Rattle.std.specs.Prelude.{◌≤◌, length, IfSome};

mod picture;

use boardtext::boards::pointed;
use plantext::files::Host;
use print::RefusalLine;
use std::env::Env;
use std::io;
use std::rt::Files;
use vram::Vram;

// Where the list goes: the last 5,280 bytes, the most that a list has.
const LIST: u32 = 519008;

// Bits of VIDEO_CONTROL: the list is on; no colour is transparent; colours 15, 31, .. 255 are too.
const LIST_ON: u8 = 1;

const NO_TRANS: u8 = 4;

const TRANS15: u8 = 8;

const USAGE: &str = "usage: planpic [--no-trans | --trans15] PLAN MEMORY\n";

// What --help prints below the usage.
const HELP: &str = "\
Writes a picture, 672 by 240, of what PLAN shows of MEMORY, to standard output, as a PPM
(P6). MEMORY is a file of up to 524288 bytes of video memory, from address 0 on; the rest
is 0. The plan's display list is put into the last 5280 bytes, from 0x7EB60 on.
A pixel of text or HR is one point of the picture wide, one of SR two, one of LR four; a
narrower line stands in the middle.
Colours: the model has no palettes. Colour c of any palette is shown with red c / 32 and
green c / 4 % 8, of 7 each, and blue c % 4, of 3. A transparent pixel is a dark blue (32,
32, 48); beside a narrower line, and where the overlay is off, it is nearly black (16, 16,
16). The playfield, sprites and the attribute map are not drawn.
--no-trans and --trans15 set that bit of VIDEO_CONTROL: with the first no colour is
transparent, with the second colours 15, 31, .. 255 are too. Without them it is colour 0; in
text it is the background of an attribute below 128 alone.
A plan that is refused, or a file that cannot be read, is told on standard error, and
nothing is written. examples/png makes a PNG of a PPM:
./desk-run planpic examples/small_screen.plan examples/small_screen.mem | examples/png > x.png
";

// A plan's list, and the VIDEO_CONTROL that it is shown with.
#[derive(Clone, Copy)]
struct Screen<'a> {
    list: &'a [u8],
    video: u8,
}

// The list goes into memory, and what a board that is pointed at it shows is written.
fn installed<R: Print, E: Print>(
    host: &Host<R, E>,
    mem: &mut [u8],
    screen: Screen,
) -> io::Result<()> {
    match vram::install(mem, screen.list, LIST) {
        Ok(()) => picture::write(host, pointed(LIST, screen.video), mem),
        Err(why) => host.errors.println(RefusalLine::from(why)),
    }
}

// Memory is the image without its last byte, see below.
fn in_memory<R: Print, E: Print>(
    host: &Host<R, E>,
    image: &mut [u8],
    screen: Screen,
) -> io::Result<()> {
    match image.split_last_mut() {
        Some((_, mem)) => installed(host, mem, screen),
        None => Ok(()),
    }
}

// The image that a file has, read into what is lent.
fn with_image<R: Env + Files + Print, E: Print>(
    host: &Host<R, E>,
    image: &mut [u8],
    screen: Screen,
    memory: usize,
) -> io::Result<()> {
    match host.read_file(memory, image) {
        Some(read) if read.len() <= Vram::LONGEST => in_memory(host, image, screen),
        Some(_) => println!(host.errors; "MEMORY has more than 524288 bytes"),
        None => Ok(()),
    }
}

// The image, with room for one byte more than memory has, so that a longer one is seen.
fn with_list<R: Env + Files + Print, E: Print>(
    host: &Host<R, E>,
    screen: Screen,
    memory: usize,
) -> io::Result<()> {
    let mut image = [0u8; 524289];
    with_image(host, &mut image, screen, memory)
}

// The list of the plan in the file that an argument names, compiled into what is lent.
fn list_of<'w, R: Env + Files, E: Print>(
    host: &Host<R, E>,
    plan: usize,
    list: &'w mut [u8],
) -> Option<&'w [u8]>
    ensures { IfSome result (λ l. length l.now ≤ length list.old) }
{
    let mut bytes = [0u8; 8192];
    let plan = host.read_file(plan, &mut bytes)?;
    let n = plantext::compiled(plan, list, host.errors)?;
    Some(&list[..n])
}

// The plan and the memory in the files that two arguments name.
fn shown<R: Env + Files + Print, E: Print>(
    host: &Host<R, E>,
    plan: usize,
    memory: usize,
    video: u8,
) -> io::Result<()> {
    let mut list = [0u8; Vram::INSTALLED];
    match list_of(host, plan, &mut list) {
        Some(list) => with_list(host, Screen { list, video }, memory),
        None => Ok(()),
    }
}

fn main(rt: HostRuntime) -> io::Result<()> {
    let errors = rt.stderr();
    let host = Host {
        rt: &rt,
        errors: &errors,
    };
    let arguments = host.count();
    if host.is(1, b"--help") {
        print!(rt; "{USAGE}{HELP}")
    } else if (arguments == 4) & host.is(1, b"--no-trans") {
        shown(&host, 2, 3, LIST_ON | NO_TRANS)
    } else if (arguments == 4) & host.is(1, b"--trans15") {
        shown(&host, 2, 3, LIST_ON | TRANS15)
    } else if (arguments == 3) & !host.is_option(1) {
        shown(&host, 1, 2, LIST_ON)
    } else {
        errors.print(USAGE)
    }
}
