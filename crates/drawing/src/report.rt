// The report's numbers, a tile each.
use read::Reading;
use std::io::{Result, Write};

fn tiles<W: Write>(to: &mut W) -> Result<()> {
    to.write_all(
        b"<g transform='translate(0 60)'><g fill='#f2f5f7'>
<rect x='24' width='100.5' height='74'/><rect x='127.5' width='100.5' height='74'/>
<rect x='231' width='100.5' height='74'/><rect x='334.5' width='100.5' height='74'/>
<rect x='438' width='100.5' height='74'/><rect x='541.5' width='100.5' height='74'/>
<rect x='645' width='100.5' height='74'/><rect x='748.5' width='100.5' height='74'/>
<rect x='852' width='100.5' height='74'/><rect x='955.5' width='100.5' height='74'/>
</g>
<text class='name' y='20'>
<tspan x='34'>place</tspan><tspan x='137.5'>start</tspan><tspan x='241'>whole</tspan>
<tspan x='344.5'>used</tspan><tspan x='448'>lost</tspan><tspan x='551.5'>words</tspan>
<tspan x='655'>wordbits</tspan><tspan x='758.5'>compared</tspan><tspan x='862'>errored</tspan>
<tspan x='965.5'>farend</tspan></text>
<text class='note' y='64'>
<tspan x='34'>alignment</tspan><tspan x='137.5'>first multiframe</tspan><tspan x='241'>multiframes</tspan>
<tspan x='344.5'>multiframes</tspan><tspan x='551.5'>wrong</tspan>
<tspan x='655'>wrong bits</tspan><tspan x='758.5'>blocks</tspan><tspan x='862'>blocks</tspan>
<tspan x='965.5'>reported errors</tspan></text>
<text class='value' y='46'>
",
    )
}

// by which rule alignment is lost, at a frame
pub fn by_rule(frame: usize) -> &'static str {
    if frame % 2 == 0 {
        ", by words"
    } else {
        ", by bits 2"
    }
}

// the frame of the loss, or no
fn lost<W: Write>(to: &mut W, loss: Option<usize>) -> Result<()> {
    match loss {
        None => write!(to, "<tspan x='448'>no</tspan>\n"),
        Some(frame) => write!(to, "<tspan x='448'>{frame}</tspan>\n"),
    }
}

pub fn report<W: Write>(to: &mut W, r: Reading) -> Result<()> {
    tiles(to)?;
    write!(
        to,
        "<tspan x='34'>{}</tspan><tspan x='137.5'>{}</tspan><tspan x='241'>{}</tspan><tspan x='344.5'>{}</tspan>",
        r.place, r.start, r.whole, r.used
    )?;
    lost(to, r.loss)?;
    write!(
        to,
        "<tspan x='551.5'>{}</tspan><tspan x='655'>{}</tspan><tspan x='758.5'>{}</tspan>
<tspan x='862'>{}</tspan><tspan x='965.5'>{}</tspan>
</text>\n",
        r.words, r.wordbits, r.compared, r.errored, r.farend
    )?;
    let rule = r.loss.map_or("", by_rule);
    write!(
        to,
        "<text class='note' x='448' y='64'>frame{rule}</text></g>\n"
    )
}
