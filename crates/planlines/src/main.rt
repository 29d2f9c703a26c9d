// What the lines of a plan show, and which of its records and items made them. The plan is compiled, its list installed at an
// address, pointed at and switched on; the lines of its frame are printed, those that are all alike as one. With --bands each
// plan that an argument names is installed over the top of memory, and the lines are printed where a band begins or ends, and
// each ninth: so the plans beside this program are shown, and compared with what is worked out from the plan and the address
// alone. Beside the example plans there are, with F a full band and R a running-on item:
//   below.plan          F(3, SR, 1000h, step 140h) R(2, hscroll 5, palettes 6): below the plan what is left is held
//   row_runs_on.plan    F(3, text, 1000h, step A0h) R(6, vscroll 5): the row of text runs on
//   field_runs_on.plan  F(3, text, 7FFFFh, step FFFh, vscroll 2, map at 7FFF0h, step 10h, vscroll 30, fields 17 by 5) R(9, vscroll 6)
//                       F(12, LR, map) R(1, vscroll 3): the field runs on
//   two_records.plan    F(5, SR, 1000h, step 0) R(4, else the same): nine lines alike but for the record
//   row_scrolled.plan   F(6, text, 1000h, step A0h, vscroll 3) R(2, vscroll 6): five lines of the first row, and no start at R's vscroll
//   field_scrolled.plan F(9, HR, 2000h, step 140h, vscroll 3, map at 100h, step 5, vscroll 13, fields 8 by 4) R(4, vscroll 1): the field
//                       counter starts at 13 mod 4
//   starts_held.plan    F(3, off, 9, step 7, vscroll 5, map off, its vscroll 9, fields 8 by 4) F(2, SR, 5, step 7, vscroll 3, map off, its
//                       vscroll 10, fields 8 by 4): the counters hold where they start
#![tactic(auto)]

mod number;

use boardtext::lines;
use frame::Frame;
use plantext::files::Host;
use print::RefusalLine;
use std::env::Env;
use std::rt::Files;
use std::{fmt, io};
use vram::Vram;

// Where a list's first record goes over the top of memory.
const TOP: u32 = 524280;

const USAGE: &str = "usage: planlines FILE [ADDRESS [LINE]]\n       planlines --bands FILE..\n";

// What --help prints below the usage.
const HELP: &str = "\
Installs the display list of FILE's plan at ADDRESS and switches it on, and prints
the settings of each of the 240 lines, lines that are alike as one, or of LINE alone;
then the address of the record that made the line, and the number of its item in the
plan, from 0. ADDRESS is 0 to 524287, or 0x0 to 0x7FFFF, and 0 where it is not given;
LINE is 0 to 239, or 0x0 to 0xEF. A plan that is refused prints the number of the
refusal and the item (docs/HELP.md).
--bands installs each list over the top of memory, at 524280, and prints the lines
where a band begins or ends, and each ninth.
Beside it: planxdl prints the list; desk-run, at the top of the repository, builds
a program and runs it: ./desk-run planxdl --help
";

// Why the arguments are not taken.
#[derive(Clone, Copy)]
enum Misuse {
    Count,
    Address,
    Line,
}

impl fmt::Display for Misuse {
    fn fmt<W: fmt::Write>(&self, f: &mut fmt::Formatter<W>) -> fmt::Result {
        f.write_str(match self {
            Misuse::Count => "",
            Misuse::Address => "ADDRESS is 0 to 524287, or 0x0 to 0x7FFFF\n",
            Misuse::Line => "LINE is 0 to 239, or 0x0 to 0xEF\n",
        })?;
        f.write_str(USAGE)
    }
}

// Where the list goes, and which lines are printed: so many from one on.
#[derive(Clone, Copy)]
struct Wanted {
    at: u32,
    from: u16,
    count: u16,
}

fn address<R: Env, E>(host: &Host<R, E>, i: usize) -> Result<u32, Misuse> {
    match number::of(host, i) {
        Some(at) if at < Vram::ADDRESSES => Ok(at),
        _ => Err(Misuse::Address),
    }
}

fn line<R: Env, E>(host: &Host<R, E>, i: usize) -> Result<u16, Misuse> {
    match number::of(host, i) {
        Some(line) if line < u32::from(Frame::LINES) => Ok(line as u16),
        _ => Err(Misuse::Line),
    }
}

fn lines_at(at: u32) -> Wanted {
    Wanted {
        at,
        from: 0,
        count: Frame::LINES,
    }
}

// Where both are wrong, the line is told.
fn line_at<R: Env, E>(host: &Host<R, E>) -> Result<Wanted, Misuse> {
    let from = line(host, 3)?;
    Ok(Wanted {
        at: address(host, 2)?,
        from,
        count: 1,
    })
}

fn asked<R: Env, E>(host: &Host<R, E>) -> Result<Wanted, Misuse> {
    match host.count() {
        2 => Ok(lines_at(0)),
        3 => Ok(lines_at(address(host, 2)?)),
        4 => line_at(host),
        _ => Err(Misuse::Count),
    }
}

// A plan's list at an address, as `show` prints the memory. Memory is not 0, so that a record read past the list would show.
fn shown<R: Print, F: FnOnce(&[u8]) -> io::Result<()>>(
    rt: &R,
    plan: &[u8],
    at: u32,
    show: F,
) -> io::Result<()>
    requires { F.IsAlwaysCallable show }
{
    let mut list = [0u8; Vram::INSTALLED];
    let Some(n) = plantext::compiled(plan, &mut list, rt) else {
        return Ok(());
    };
    let mut mem = [0xEEu8; 16384];
    match vram::install(&mut mem, &list[..n], at) {
        Ok(()) => show(&mem),
        Err(why) => rt.println(RefusalLine::from(why)),
    }
}

// The plan in the file that an argument behind --bands names.
fn bands_of<R: Env + Files + Input + Print, E: Print>(
    host: &Host<R, E>,
    i: usize,
) -> io::Result<()> {
    let rt = host.rt;
    host.with_plan(i, |plan| {
        host.print_name(i, b"\n")?;
        shown(rt, plan, TOP, |mem| lines::show_bands(rt, mem, TOP))
    })
}

fn bands<R: Env + Files + Input + Print, E: Print>(host: &Host<R, E>) -> io::Result<()> {
    let arguments = host.count();
    if arguments < 3 {
        host.errors.print(USAGE)?;
    }
    for i in 2..arguments {
        bands_of(host, i)?;
    }
    Ok(())
}

// The plan in the file that the first argument names.
fn joined<R: Env + Files + Input + Print, E: Print>(
    host: &Host<R, E>,
    asked: Wanted,
) -> io::Result<()> {
    let rt = host.rt;
    let Wanted { at, from, count } = asked;
    host.with_plan(1, |plan| {
        shown(rt, plan, at, |mem| {
            lines::show_joined(rt, mem, at, from, count)
        })
    })
}

fn main(rt: HostRuntime) -> io::Result<()> {
    let errors = rt.stderr();
    let host = Host {
        rt: &rt,
        errors: &errors,
    };
    if host.is(1, b"--help") {
        return print!(rt; "{USAGE}{HELP}");
    }
    if host.is(1, b"--bands") {
        return bands(&host);
    }
    if host.is_option(1) {
        return errors.print(USAGE);
    }
    match asked(&host) {
        Ok(asked) => joined(&host, asked),
        Err(why) => errors.print(why),
    }
}
