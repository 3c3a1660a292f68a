// A place that is asked about: its mark on the bar of the whole line, with what is said of it, and the frame that holds
// it.
ghost use Rattle.std.specs.Prelude.{◌≤◌};

use crate::ruler;
use align::Why;
use read::Reading;
use std::fmt;
use std::fmt::{Display, Formatter};
use std::io::{Result, Write};

// a place that a picture is to mark, and what is said of it
#[derive(Clone, Copy)]
pub struct Asked {
    pub place: usize,
    pub why: Why,
}

// what is said of a place, in words
#[derive(Clone, Copy)]
pub struct Said(pub Why);

impl Display for Said {
    fn fmt<W: fmt::Write>(&self, f: &mut Formatter<W>) -> fmt::Result {
        match self.0 {
            Why::NoneFails { k } => write!(f, "stands, k {k}"),
            Why::FirstWord { bit } => write!(f, "first word wrong at bit {bit}"),
            Why::Bit2 => write!(f, "bit 257 after it is 0"),
            Why::SecondWord { bit } => write!(f, "second word wrong at bit {bit}"),
            Why::NoPair => write!(f, "no pair of signals"),
        }
    }
}

// a mark at x along the bar
fn mark<W: Write>(to: &mut W, x: usize, asked: Asked) -> Result<()> {
    let place = asked.place;
    let said = Said(asked.why);
    write!(to, "<g class='asked'><path d='M{x} -4V70'/>")?;
    ruler::beside(to, x, 70)?;
    write!(to, "asked: place {place}, {said}</text></g>\n")
}

// on the bar of a line of so many octets; a place past its end is marked at the end
pub fn marked<W: Write>(to: &mut W, octets: usize, asked: Asked) -> Result<()>
    requires { (2048 ≤ octets) × (octets ≤ 8192) }
{
    let place = asked.place.min(8 * octets);
    mark(to, ruler::along(octets, place), asked)
}

// the frame that holds the place, outlined where it is drawn
pub fn outlined<W: Write>(to: &mut W, r: Reading, asked: Asked) -> Result<()>
    requires { r.used ≤ 16 }
{
    let place = asked.place;
    if place < r.start {
        return Ok(());
    }
    let f = (place - r.start) / 256;
    if 16 * r.used <= f {
        return Ok(());
    }
    let x = 146 + 100 * (f % 8);
    let y = 346 + 68 * (f / 16) + 28 * (f / 8 % 2);
    write!(
        to,
        "<rect class='holds' x='{x}' y='{y}' width='100' height='28'><title>place {place}</title></rect>\n"
    )
}
