// Slot 0 of a frame: its bit 1 in a cell, the other seven bits in a wider one beside it.
ghost use Rattle.std.specs.Prelude.{◌<◌};

use std::io::{Result, Write};

// the middle of a word's seven bits: that of their cell, or to the right of it where a cross comes before them
fn middle_of_word(wrong: u32) -> usize {
    if wrong == 0 { 60 } else { 69 }
}

// an even frame: the check bit and the alignment word, where it is wrong with a cross and the number of its wrong bits
fn even<W: Write>(to: &mut W, octet: u8, wrong: u32) -> Result<()> {
    let is_right = (wrong == 0) as u8;
    let check = octet >> 7;
    let word = octet & 127;
    let middle = middle_of_word(wrong);
    write!(
        to,
        "<g class='right{is_right}'>\
<g class='cell bits check'><rect width='24' height='24'/><text x='12' y='16'>{check}</text></g>\
<g class='cell bits word'><rect x='24' width='72' height='24'/>\
<text class='cross' x='33' y='16'>&#215;<tspan class='many'>{wrong}</tspan></text>\
<text x='{middle}' y='16'>{word:07b}</text></g></g>"
    )
}

// bit 1 of an odd frame below 12 of its multiframe: the signal 001011, with a cross where it is wrong
fn signal<W: Write>(to: &mut W, n: usize, bit: u8) -> Result<()> {
    let is_one = matches!(n, 5 | 9 | 11);
    let is_right = ((bit == 1) == is_one) as u8;
    write!(
        to,
        "<g class='right{is_right}'><g class='cell bits signal'><rect width='24' height='24'/>\
<text x='12' y='16'><tspan class='cross'>&#215;</tspan>{bit}</text></g></g>"
    )
}

// bit 1 of frame 13 or 15: E
fn far<W: Write>(to: &mut W, bit: u8) -> Result<()> {
    write!(
        to,
        "<g class='cell bits e{bit}'><rect width='24' height='24'/><text x='12' y='16'>E{bit}</text></g>"
    )
}

// bits 2 to 8 of an odd frame: 1, A, Sa4 to Sa8
fn overhead<W: Write>(to: &mut W, octet: u8) -> Result<()> {
    let one = octet >> 6 & 1;
    let a = octet >> 5 & 1;
    let sa = octet & 31;
    write!(
        to,
        "<g class='cell bits a{a}'><rect x='24' width='72' height='24'/>\
<text x='60' y='16'>{one} {a} {sa:05b}</text></g>"
    )
}

// a wrong bit 2, in a cell with a cross that covers it and leaves A as it shows
fn bit2<W: Write>(to: &mut W, octet: u8) -> Result<()> {
    if octet >> 6 & 1 == 1 {
        return Ok(());
    }
    to.write_all(
        b"<g class='cell bits wrong'><rect x='24' width='16' height='24'/><text x='32' y='16'>&#215;0</text></g>",
    )
}

fn odd<W: Write>(to: &mut W, octet: u8, n: usize) -> Result<()> {
    if n < 12 {
        signal(to, n, octet >> 7)?;
    } else {
        far(to, octet >> 7)?;
    }
    overhead(to, octet)?;
    bit2(to, octet)
}

// frame f of the line, in its place among the sixteen of its multiframe; its number shows under a pointer
pub fn frame<W: Write>(to: &mut W, slot0: &[u8; 256], f: usize) -> Result<()>
    requires { f < 256 }
{
    let n = f % 16;
    let x = 100 * (n % 8);
    let y = 28 * (n / 8);
    write!(
        to,
        "<g transform='translate({x} {y})'><title>frame {f}</title>"
    )?;
    if n % 2 == 0 {
        even(to, slot0[f], e1::wrong_bits(slot0, 8 * f))?;
    } else {
        odd(to, slot0[f], n)?;
    }
    to.write_all(b"</g>\n")
}
