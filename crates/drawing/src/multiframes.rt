// The multiframes of a line, two rows each: a block's eight frames, and how it compares with the check behind it.
ghost use Rattle.std.specs.Prelude.{◌≡◌, ◌<◌, ◌≤◌, length};
ghost use Rattle.drawing.specs.Marks.{mark_of};

use crate::{Drawn, frames};
use crc::table::Remainders;
use std::io::{Result, Write};

// how a block compares
#[derive(Clone, Copy)]
enum Mark {
    Clean,
    Errored,
    NotCompared,
}

// block b from the start on
fn mark_of(line: Drawn, b: usize) -> Mark
    ensures { result ≡ mark_of line.entry.image.now line.entry.r.start line.entry.r.compared b }
{
    let Drawn { image, r } = line;
    if r.compared <= b {
        return Mark::NotCompared;
    }
    if e1::agrees(image, r.start + 2048 * b, &Remainders::new()) {
        return Mark::Clean;
    }
    Mark::Errored
}

// a mark at the end of the row at y
fn print_mark<W: Write>(to: &mut W, mark: Mark, y: usize) -> Result<()> {
    let (class, words) = match mark {
        Mark::Clean => ("clean", "clean"),
        Mark::Errored => ("wrong", "&#215; errored"),
        Mark::NotCompared => ("dashed", "not compared"),
    };
    write!(
        to,
        "<g transform='translate(804 {y})'><g class='cell {class}'>\
<rect width='100' height='24'/><text x='50' y='16'>{words}</text></g></g>"
    )
}

// opens multiframe m, with its number and those of its frames in front
fn opened<W: Write>(to: &mut W, m: usize) -> Result<()>
    requires { m ≤ 16 }
{
    let y = 348 + 68 * m;
    let first = 16 * m;
    let last = first + 15;
    write!(
        to,
        "<g transform='translate(148 {y})'><text class='name' x='-124' y='16'>multiframe {m}</text>
<text class='note' x='-124' y='36'>frames {first} to {last}</text>\n"
    )
}

// multiframe m, its frames as they stand in slot0
fn multiframe<W: Write>(to: &mut W, line: Drawn, slot0: &[u8; 256], m: usize) -> Result<()>
    requires { m < 16 }
{
    opened(to, m)?;
    for f in 16 * m..16 * m + 16 {
        frames::frame(to, slot0, f)?;
    }
    print_mark(to, mark_of(line, 2 * m), 0)?;
    print_mark(to, mark_of(line, 2 * m + 1), 28)?;
    to.write_all(b"</g>\n")
}

// those that are used
pub fn multiframes<W: Write>(to: &mut W, line: Drawn, slot0: &[u8; 256]) -> Result<()> {
    for m in 0..line.r.used {
        multiframe(to, line, slot0, m)?;
    }
    Ok(())
}

// the multiframe behind them, in which alignment is lost at a frame
pub fn loss<W: Write>(to: &mut W, g: usize, frame: usize) -> Result<()>
    requires { g ≤ 16 }
{
    opened(to, g)?;
    let x = 100 * (frame % 8);
    let y = 28 * (frame / 8 % 2);
    let wrong = if frame % 2 == 0 {
        "The word is wrong"
    } else {
        "Bit 2 of an odd frame is 0"
    };
    write!(
        to,
        "<g class='dashed'><rect width='796' height='24'/><rect y='28' width='796' height='24'/></g>
<g class='cell wrong' transform='translate({x} {y})'>
<rect width='96' height='24'/><text x='48' y='16'>&#215; lost at {frame}</text></g>
<text y='72'>{wrong} for the third time in a row: this multiframe and what follows are not used.</text></g>\n"
    )
}
