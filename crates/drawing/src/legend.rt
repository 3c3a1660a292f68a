// What is the same in every picture of a line: its style, the heads of the columns, and what each cell means.
use std::io::{Result, Write};

pub fn style<W: Write>(to: &mut W) -> Result<()> {
    to.write_all(
        b"<style>
.name{font-weight:bold}.note{font-size:11px;fill:#55626d}.value{font-size:20px}.rest{fill:#d9dde0}
path{stroke:#1f2a33;stroke-width:1.4}.label{stroke:#fff;stroke-width:3;paint-order:stroke}
.cell rect,.dashed rect{fill:#fff;stroke:#6b7782;stroke-width:.8}.cell text{text-anchor:middle}
.bits text{font-family:'DejaVu Sans Mono',Menlo,Consolas,monospace}
.used1 rect,.check rect{fill:#d6e6f4}.word rect{fill:#edf3f8}.signal rect{fill:#e8e1f2}.e1 rect{fill:#fbf3d0}
.e0 rect{fill:#e69f00;stroke:#1f2a33;stroke-width:1.6}.a1 rect{stroke:#9c3500;stroke-width:2.4}
.wrong rect,.right0 .word rect,.right0 .signal rect{fill:#9c3500;stroke:#9c3500}.cross{display:none}
.wrong text,.right0 .word text,.right0 .signal text{fill:#fff;font-weight:bold}.right0 .cross{display:inline}
.many{font-size:9px}.asked path{stroke:#1d5f8a;stroke-width:2.4}.asked text{fill:#1d5f8a;font-weight:bold}
.holds{fill:none;stroke:#1d5f8a;stroke-width:2.4}.heard rect{fill:#dbeee3}
.clean rect{stroke:#2f6f86}.clean text{fill:#2f6f86}.used0 rect,.dashed rect{stroke-dasharray:3 2}
</style>
",
    )
}

// the heads stand over the rows, and what each cell means from y on
pub fn legend<W: Write>(to: &mut W, y: usize) -> Result<()> {
    write!(
        to,
        "<text x='24' y='310'><tspan class='name'>Slot 0, a block a row.</tspan> \
A block's own check is carried in C1 to C4 of the next row.</text>
<g class='cell' transform='translate(148 340)'>
<text x='12'>C1</text><text x='60'>word</text><text x='112'>S</text><text x='160'>1 A Sa4-8</text>
<text x='212'>C2</text><text x='260'>word</text><text x='312'>S</text><text x='360'>1 A Sa4-8</text>
<text x='412'>C3</text><text x='460'>word</text><text x='512'>S/E</text><text x='560'>1 A Sa4-8</text>
<text x='612'>C4</text><text x='660'>word</text><text x='712'>S/E</text><text x='760'>1 A Sa4-8</text>
<text x='854'>block</text></g>
<g transform='translate(0 {y})'>
<g transform='translate(24 0)'><text x='92' y='16'>C1 to C4, check bits</text>
<g class='cell bits check'><rect width='84' height='24'/><text x='42' y='16'>1</text></g></g>
<g transform='translate(24 30)'><text x='92' y='16'>S, the multiframe signal</text>
<g class='cell bits signal'><rect width='84' height='24'/><text x='42' y='16'>0</text></g></g>
<g transform='translate(24 60)'><text x='92' y='16'>S, wrong</text>
<g class='cell bits wrong'><rect width='84' height='24'/><text x='42' y='16'>&#215;1</text></g></g>
<g transform='translate(274 0)'><text x='92' y='16'>far end: no error</text>
<g class='cell bits e1'><rect width='84' height='24'/><text x='42' y='16'>E1</text></g></g>
<g transform='translate(274 30)'><text x='92' y='16'>far end: errored</text>
<g class='cell bits e0'><rect width='84' height='24'/><text x='42' y='16'>E0</text></g></g>
<g transform='translate(274 60)'><text x='92' y='16'>a signalling multiframe</text>
<g class='cell heard'><rect width='84' height='24'/><text x='42' y='16'>3</text></g></g>
<g transform='translate(578 0)'><text x='92' y='16'>the alignment word</text>
<g class='cell bits word'><rect width='84' height='24'/><text x='42' y='16'>0011011</text></g></g>
<g transform='translate(578 30)'><text x='92' y='16'>a word, 2 bits wrong</text>
<g class='cell bits wrong'><rect width='84' height='24'/>\
<text x='15' y='16'>&#215;<tspan class='many'>2</tspan></text><text x='52' y='16'>0001001</text></g></g>
<g transform='translate(578 60)'><text x='92' y='16'>A is 1: alarm</text>
<g class='cell bits a1'><rect width='84' height='24'/><text x='42' y='16'>1 1 11111</text></g></g>
<g transform='translate(578 90)'><text x='92' y='16'>bit 2 is 0: wrong</text>
<g class='cell bits wrong'><rect width='24' height='24'/><text x='12' y='16'>&#215;0</text></g>
<g class='cell bits'><rect x='24' width='60' height='24'/><text x='54' y='16'>0 11111</text></g></g>
<g transform='translate(800 0)'><text x='92' y='16'>the next row's check agrees</text>
<g class='cell clean'><rect width='84' height='24'/><text x='42' y='16'>clean</text></g></g>
<g transform='translate(800 30)'><text x='92' y='16'>the next row's check differs</text>
<g class='cell wrong'><rect width='84' height='24'/><text x='42' y='16'>&#215; errored</text></g></g>
<g transform='translate(800 60)'><text x='92' y='16'>no used row follows</text>
<g class='cell dashed'><rect width='84' height='24'/><text x='42' y='16'>not compared</text></g></g>
</g>
"
    )
}
