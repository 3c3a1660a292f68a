// Reads a line, from the file that the argument names or from standard input, and prints its report.
#![tactic(auto)]

use printed::Report;
use program::{Kind, Program};

const REPORT: Program<'static> = Program {
    name: "report",
    kind: Kind::E1,
};

fn answer(rt: &impl Print, image: &[u8]) {
    let mut payload = [0u8; 7936];
    let mut slot0 = [0u8; 256];
    let read = read::read(image, &mut payload, &mut slot0);
    REPORT.answer(rt, read.map(|r| Report(r)));
}

// No line over 8,192 octets is read, so one octet more is enough to know that it is longer.
fn main(rt: HostRuntime) {
    let mut image = [0u8; 8193];
    if let Some(n) = REPORT.read(&rt, 1, &mut image) {
        answer(&rt, &image[..n]);
    }
}
