// Slot 16: the signalling multiframes that are read, along the same way as the bar of the whole line.
ghost use Rattle.std.specs.Prelude.{◌≤◌};

use crate::ruler::along;
use signals::Signalling;
use std::io::{Result, Write};

// how many are read
fn number_read<W: Write>(to: &mut W, n: usize) -> Result<()> {
    match n {
        0 => write!(to, ", none read"),
        _ => write!(to, ", {n} read"),
    }
}

// how many losses there are
fn losses<W: Write>(to: &mut W, n: usize) -> Result<()> {
    match n {
        0 => write!(to, ", no loss"),
        1 => write!(to, ", 1 loss"),
        _ => write!(to, ", {n} losses"),
    }
}

// what is said of all of them
fn said<W: Write>(to: &mut W, s: &Signalling) -> Result<()> {
    let first = s.first;
    if first == 0 {
        return write!(to, "no signalling alignment");
    }
    write!(to, "signalling: frame {first}")?;
    number_read(to, s.multiframes)?;
    losses(to, s.losses)?;
    let held = if s.held { "held" } else { "not held" };
    write!(to, ", {held} at the end")
}

// the one that begins with frame f, by how many times 2 ms come before it; no line has more than 256 frames
fn multiframe<W: Write>(to: &mut W, octets: usize, start: usize, f: usize) -> Result<()>
    requires { (2048 ≤ octets) × (octets ≤ 8192) × (start ≤ 65536) }
{
    if 256 <= f {
        return Ok(());
    }
    let x = along(octets, start + 256 * f);
    let width = along(octets, 4096);
    let middle = x + width / 2;
    let times = f / 16;
    write!(
        to,
        "<g class='cell heard'><title>frame {f}</title>\
<rect x='{x}' width='{width}' height='20'/><text x='{middle}' y='14'>{times}</text></g>\n"
    )
}

fn multiframes<W: Write>(to: &mut W, octets: usize, start: usize, s: &Signalling) -> Result<()>
    requires { (2048 ≤ octets) × (octets ≤ 8192) × (start ≤ 65536) }
{
    for f in s.starts.iter().take(s.multiframes) {
        multiframe(to, octets, start, *f)?;
    }
    Ok(())
}

pub fn slot16<W: Write>(to: &mut W, octets: usize, start: usize, s: &Signalling) -> Result<()>
    requires { (2048 ≤ octets) × (octets ≤ 8192) × (start ≤ 65536) }
{
    to.write_all(b"<text x='24' y='256'><tspan class='name'>Slot 16.</tspan> ")?;
    said(to, s)?;
    to.write_all(
        b"</text>
<g transform='translate(24 264)'><rect class='rest' width='1032' height='20'/>\n",
    )?;
    multiframes(to, octets, start, s)?;
    to.write_all(b"</g>\n")
}
