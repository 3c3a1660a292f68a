// Pictures as SVG: a line, and the live map. Each answers whether all of it was written, or why not.
#![tactic(auto)]

mod asked;
mod crossing;
mod frames;
mod legend;
mod multiframes;
mod page;
mod report;
mod ruler;
mod slot16;

ghost use Rattle.std.specs.Prelude.{◌≤◌, length};
ghost use Rattle.drawing.specs.Shown.{Shown};

pub use asked::{Asked, Said};
pub use crossing::map;
use page::page;
use read::Reading;
use signals::Signalling;
use std::io::{Result, Write};

// a line, and what `read` read of it
#[derive(Clone, Copy)]
struct Drawn<'a> {
    image: &'a [u8],
    r: Reading,
    ghost shown: { Shown (length image.now) r },
}

impl<'a> Drawn<'a> {
    // how many multiframes are drawn: those that are used, and one in which alignment is lost, if it is
    fn multiframes(self) -> usize
        ensures { result ≤ 17 }
    {
        self.r.used + self.r.loss.is_some() as usize
    }
}

// all but the multiframes
fn page_of<W: Write>(to: &mut W, line: Drawn, s: &Signalling, asked: Option<Asked>) -> Result<()> {
    let octets = line.image.len();
    let r = line.r;
    let below = 372 + 68 * line.multiframes();
    page(to, 1080, below + 138)?;
    legend::style(to)?;
    write!(
        to,
        "<text class='title' x='24' y='40'>A line of {octets} octets</text>\n"
    )?;
    report::report(to, r)?;
    ruler::ruler(to, line, asked)?;
    slot16::slot16(to, octets, r.start, s)?;
    legend::legend(to, below)
}

// a line, with what `read` and `signals` read of it, and with a place that is asked about, if one is
pub fn line<W: Write + Drop>(
    mut to: W,
    image: &[u8],
    r: Reading,
    slot0: &[u8; 256],
    s: &Signalling,
    asked: Option<Asked>,
) -> Result<()>
    requires { Shown (length image.now) r }
{
    let line = Drawn { image, r };
    page_of(&mut to, line, s, asked)?;
    multiframes::multiframes(&mut to, line, slot0)?;
    if let Some(asked) = asked {
        asked::outlined(&mut to, r, asked)?;
    }
    if let Some(frame) = r.loss {
        multiframes::loss(&mut to, r.used, frame)?;
    }
    to.write_all(b"</svg>\n")
}
