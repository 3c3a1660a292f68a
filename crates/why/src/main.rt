// Says of a place of a line that it stands, or why it does not. The place is the first argument; the line comes from the
// file that the second names, or from standard input.
#![tactic(auto)]

use drawing::Said;
use program::{Kind, Program};

const WHY: Program<'static> = Program {
    name: "why",
    kind: Kind::E1,
};

// what is said of the place, or the refusal: its number is printed, and said in words on standard error
fn why(rt: &impl Print, image: &[u8], place: u64) {
    match align::ask::why(image, place) {
        Ok(why) => WHY.written(rt.println(Said(why))),
        Err(refused) => WHY.answer_refused(rt, refused),
    }
}

// No line over 8,192 octets is taken, so one octet more is enough to know that it is longer.
fn main(rt: HostRuntime) {
    let Some(place) = WHY.place(&rt, 1) else {
        return;
    };
    let mut image = [0u8; 8193];
    if let Some(n) = WHY.read(&rt, 2, &mut image) {
        why(&rt, &image[..n], place);
    }
}
