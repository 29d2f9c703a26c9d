// The picture of a memory's display list: 240 lines of 672 points, three bytes a point.
ghost use Rattle.std.specs.Prelude.{◌≤◌, length};

use board::Board;
use frame::Frame;
use plantext::files::Host;
use print::RefusalLine;
use settings::Settings;
use std::io;

// Red, green and blue.
type Point = [u8; 3];

const WIDTH: usize = 672;

// Beside a line, and where none is drawn.
const BESIDE: Point = [16, 16, 16];

// A transparent pixel.
const CLEAR: Point = [32, 32, 48];

// 65,535 is transparent; else the colour is the low byte: three bits of red, three of green, two of blue.
fn point(pixel: u16) -> Point {
    if pixel == 65535 {
        return CLEAR;
    }
    let c = pixel % 256;
    [
        (c / 32 * 255 / 7) as u8,
        (c / 4 % 8 * 255 / 7) as u8,
        (c % 4 * 85) as u8,
    ]
}

// How many points a pixel is wide: two in SR, four in LR.
fn points(mode: u8) -> usize
    ensures { (1 ≤ result) × (result ≤ 4) }
{
    match mode {
        2 => 2,
        4 => 4,
        _ => 1,
    }
}

// A line in the middle of its row; none where it is too long.
fn row(line: &[u16], points: usize) -> Option<[Point; WIDTH]>
    requires { (length line.now ≤ WIDTH) × (1 ≤ points) × (points ≤ 4) }
{
    let left = WIDTH.checked_sub(line.len() * points)? / 2;
    let mut row = [BESIDE; WIDTH];
    for (wide, pixel) in row[left..].chunks_exact_mut(points).zip(line) {
        wide.fill(point(*pixel));
    }
    Some(row)
}

fn write_row<R: Print>(rt: &R, line: &[u16], points: usize) -> io::Result<()>
    requires { (length line.now ≤ WIDTH) × (1 ≤ points) × (points ≤ 4) }
{
    match row(line, points) {
        Some(row) => rt.write_all(row.as_flattened()),
        None => Ok(()),
    }
}

// One line by its settings.
fn write_line<R: Print, E: Print>(
    host: &Host<R, E>,
    board: Board,
    settings: Settings,
    mem: &[u8],
) -> io::Result<()> {
    let mut line = [0u16; WIDTH];
    match pixels::draw(board, settings, mem, &mut line) {
        Ok(n) => match line.get(..usize::from(n)) {
            Some(line) => write_row(host.rt, line, points(settings.overlay.mode)),
            None => Ok(()),
        },
        Err(why) => host.errors.println(RefusalLine::from(why)),
    }
}

// Each line of the frame.
fn write_lines<R: Print, E: Print>(
    host: &Host<R, E>,
    board: Board,
    mut frame: Frame,
    mem: &[u8],
) -> io::Result<()> {
    for _ in 0..Frame::LINES {
        let next = frame.next_line(mem);
        match next.report {
            Ok(settings) => write_line(host, board, settings, mem)?,
            Err(why) => host.errors.println(RefusalLine::from(why))?,
        }
        frame = next.state;
    }
    Ok(())
}

// The picture of the frame that a board shows of a memory.
pub fn write<R: Print, E: Print>(host: &Host<R, E>, board: Board, mem: &[u8]) -> io::Result<()> {
    match Frame::start(board) {
        Ok(frame) => {
            print!(host.rt; "P6\n672 240\n255\n")?;
            write_lines(host, board, frame, mem)
        }
        Err(why) => host.errors.println(RefusalLine::from(why)),
    }
}
