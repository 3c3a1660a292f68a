// How every picture begins.
use std::io::{Result, Write};

// an empty page of so many pixels
pub fn page<W: Write>(to: &mut W, width: usize, height: usize) -> Result<()> {
    write!(
        to,
        "<svg xmlns='http://www.w3.org/2000/svg' width='{width}' height='{height}' viewBox='0 0 {width} {height}'>
<style>text{{font:12px Helvetica,Arial,sans-serif;fill:#1f2a33}}.title{{font-size:20px;font-weight:bold}}</style>
<rect width='100%' height='100%' fill='#fff'/>
"
    )
}
