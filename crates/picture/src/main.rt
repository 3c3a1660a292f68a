// Reads a line, from the file that the argument names or from standard input, and writes its picture, an SVG. Behind
// `--why`, before the file, comes a place to mark.
#![tactic(auto)]

use base::Refused;
use drawing::Asked;
use program::{Kind, Printed, Program};
use std::io::writer;

const PICTURE: Program<'static> = Program {
    name: "picture",
    kind: Kind::E1,
};

// the picture, with a place marked, if one is
fn drawn(rt: &impl Print, image: &[u8], asked: Option<Asked>) -> Result<Printed, Refused> {
    let mut payload = [0u8; 7936];
    let mut slot0 = [0u8; 256];
    let mut abcd = [0u8; 450];
    let r = read::read(image, &mut payload, &mut slot0)?;
    let s = signals::signals(image, &mut abcd)?;
    Ok(drawing::line(writer(rt), image, r, &slot0, &s, asked))
}

// the same with the place that is asked about
fn marked(rt: &impl Print, image: &[u8], place: u64) -> Result<Printed, Refused> {
    let why = align::ask::why(image, place)?;
    let place = place as usize;
    drawn(rt, image, Some(Asked { place, why }))
}

// on standard error, why there is no picture
fn answer(drawn: Result<Printed, Refused>) {
    match drawn {
        Ok(printed) => PICTURE.written(printed),
        Err(why) => {
            PICTURE.refused(why);
            PICTURE.name_place(why);
        }
    }
}

// No line over 8,192 octets is read, so one octet more is enough to know that it is longer.
fn main(rt: HostRuntime) {
    let mut image = [0u8; 8193];
    if program::is_first(&rt, b"--why") {
        let Some(place) = PICTURE.place(&rt, 2) else {
            return;
        };
        if let Some(n) = PICTURE.read(&rt, 3, &mut image) {
            answer(marked(&rt, &image[..n], place));
        }
        return;
    }
    if let Some(n) = PICTURE.read(&rt, 1, &mut image) {
        answer(drawn(&rt, &image[..n], None));
    }
}
