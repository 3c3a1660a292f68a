// The whole line as one bar: where alignment is found, the multiframes, and where alignment is lost.
ghost use Rattle.std.specs.Prelude.{◌<◌, ◌≤◌};

use crate::asked::Asked;
use crate::report::by_rule;
use crate::{Drawn, asked};
use std::io::{Result, Write};

// how far along the bar a place of a line of so many octets stands
pub fn along(octets: usize, place: usize) -> usize
    requires { (2048 ≤ octets) × (octets ≤ 8192) × (place ≤ 131072) }
    ensures { result < 4294967296 }
{
    1032 * place / (8 * octets)
}

// a multiframe of the bar
fn multiframe<W: Write>(to: &mut W, x: usize, width: usize, m: usize, is_used: bool) -> Result<()>
    requires { (x < 4294967296) × (width < 4294967296) }
{
    let used = is_used as u8;
    let middle = x + width / 2;
    write!(
        to,
        "<g class='cell used{used}'><rect x='{x}' width='{width}' height='24'/><text x='{middle}' y='16'>{m}</text></g>\n"
    )
}

fn multiframes<W: Write>(to: &mut W, line: Drawn) -> Result<()> {
    let Drawn { image, r } = line;
    let octets = image.len();
    let width = along(octets, 4096);
    for m in 0..r.whole {
        let x = along(octets, r.start + 4096 * m);
        multiframe(to, x, width, m, m < r.used)?;
    }
    Ok(())
}

// opens words beside a mark at x along the bar, y below its top, on the side that has the room
pub fn beside<W: Write>(to: &mut W, x: usize, y: usize) -> Result<()> {
    if x < 516 {
        return write!(to, "<text class='label' x='{x}' y='{y}' dx='4'>");
    }
    write!(
        to,
        "<text class='label' x='{x}' y='{y}' dx='-4' text-anchor='end'>"
    )
}

// where alignment is lost, if it is, and by which rule
fn loss<W: Write>(to: &mut W, line: Drawn) -> Result<()> {
    let Drawn { image, r } = line;
    let Some(frame) = r.loss else {
        return Ok(());
    };
    let x = along(image.len(), r.start + 4096 * r.used + 256 * (frame % 16));
    let rule = by_rule(frame);
    write!(to, "<path d='M{x} 0V54'/>")?;
    beside(to, x, 54)?;
    write!(to, "lost: frame {frame}{rule}</text>\n")
}

// where alignment is found, and the first bit of a multiframe
fn found<W: Write>(to: &mut W, line: Drawn) -> Result<()> {
    let octets = line.image.len();
    let place = line.r.place;
    let start = line.r.start;
    let x = along(octets, place);
    write!(
        to,
        "<path d='M{x} 24V-14'/><text class='label' x='{x}' y='-6' dx='4'>found: place {place}</text>\n"
    )?;
    let x = along(octets, start);
    write!(
        to,
        "<path d='M{x} 0V38'/><text class='label' x='{x}' y='38' dx='4'>first multiframe: start {start}</text>\n"
    )
}

// the marks that reach down furthest come first, so that the words of the others lie over them
pub fn ruler<W: Write>(to: &mut W, line: Drawn, asked: Option<Asked>) -> Result<()> {
    to.write_all(
        b"<g transform='translate(24 168)'><rect class='rest' width='1032' height='24'/>\n",
    )?;
    multiframes(to, line)?;
    if let Some(asked) = asked {
        asked::marked(to, line.image.len(), asked)?;
    }
    loss(to, line)?;
    found(to, line)?;
    to.write_all(b"</g>\n")
}
