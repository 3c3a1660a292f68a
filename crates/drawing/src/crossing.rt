// The live map as a crossing: input slots along the top, output slots down the side, a mark where one takes the other.
ghost use Rattle.std.specs.Prelude.{◌<◌};

use crate::page::page;
use exchange::State;
use std::io::{Result, Write};

// what output j takes, as a host reads it
fn entry(state: &State, j: usize) -> usize
    requires { j < 32 }
    ensures { result < 256 }
{
    let mut read = *state;
    read.host(&[3, j as u8, 0, 0]).unwrap_or(0) as usize
}

// what is the same in every map
fn grid<W: Write>(to: &mut W) -> Result<()> {
    to.write_all(
        b"<style>
.axis{font-weight:bold}.top{text-anchor:middle}.side{text-anchor:end}
path{fill:none;stroke:#ccd4da}circle,.idle rect{fill:#fff;stroke:#8a96a1}.moved0 path{display:none}
.moved1 path{stroke:#1d5f8a;stroke-width:2.4;stroke-opacity:.6}.moved0 text,.idle text{fill:#55626d}
.moved1 circle{fill:#1d5f8a;stroke:#1d5f8a;stroke-width:4}.moved1 text{font-weight:bold;fill:#1d5f8a}
.idle path{stroke:#8a96a1;stroke-dasharray:3 3}
</style>
<pattern id='lines' width='20' height='20' patternUnits='userSpaceOnUse'><path d='M0 0H20M0 0V20'/></pattern>
<text class='title' x='24' y='40'>The live map</text>
<text x='24' y='62'>A ring: the output takes its own input. A dot: it takes another. A square: it is idle.</text>
<g transform='translate(110 124)'><rect width='640' height='640' fill='url(#lines)'/>
<text class='axis top' x='320' y='-30'>input slot</text><text class='axis side' x='-10' y='-8'>output slot</text>
<text class='top' y='-8'>
<tspan x='20'>1</tspan><tspan x='40'>2</tspan><tspan x='60'>3</tspan><tspan x='80'>4</tspan>
<tspan x='100'>5</tspan><tspan x='120'>6</tspan><tspan x='140'>7</tspan><tspan x='160'>8</tspan>
<tspan x='180'>9</tspan><tspan x='200'>10</tspan><tspan x='220'>11</tspan><tspan x='240'>12</tspan>
<tspan x='260'>13</tspan><tspan x='280'>14</tspan><tspan x='300'>15</tspan><tspan x='320'>16</tspan>
<tspan x='340'>17</tspan><tspan x='360'>18</tspan><tspan x='380'>19</tspan><tspan x='400'>20</tspan>
<tspan x='420'>21</tspan><tspan x='440'>22</tspan><tspan x='460'>23</tspan><tspan x='480'>24</tspan>
<tspan x='500'>25</tspan><tspan x='520'>26</tspan><tspan x='540'>27</tspan><tspan x='560'>28</tspan>
<tspan x='580'>29</tspan><tspan x='600'>30</tspan><tspan x='620'>31</tspan></text>
",
    )
}

// output j, which takes i: from the side to the crossing and up, drawn thick where the slot is moved
fn takes<W: Write>(to: &mut W, j: usize, i: usize) -> Result<()>
    requires { (j < 32) × (i < 256) }
{
    let moved = (i != j) as usize;
    let x = 20 * i;
    let y = 20 * j;
    let below = y + 4;
    write!(
        to,
        "<g class='moved{moved}'><text class='side' x='-10' y='{below}'>{j} takes {i}</text>\
<path d='M0 {y}H{x}V0'/><circle r='5' cx='{x}' cy='{y}'/></g>\n"
    )
}

// output j, which takes none
fn idle<W: Write>(to: &mut W, j: usize) -> Result<()>
    requires { (0 < j) × (j < 32) }
{
    let y = 20 * j;
    let below = y + 4;
    let above = y - 5;
    write!(
        to,
        "<g class='idle'><text class='side' x='-10' y='{below}'>{j} idle</text>\
<path d='M0 {y}H640'/><rect x='640' y='{above}' width='10' height='10'/></g>\n"
    )
}

// The live map. Answers whether all was written, or why not.
pub fn map<W: Write + Drop>(mut to: W, state: &State) -> Result<()> {
    page(&mut to, 800, 800)?;
    grid(&mut to)?;
    for j in 1..32 {
        match entry(state, j) {
            0 => idle(&mut to, j)?,
            i => takes(&mut to, j, i)?,
        }
    }
    to.write_all(b"</g>\n</svg>\n")
}
