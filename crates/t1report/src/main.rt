// Reads a T1 line, from the file that the argument names or from standard input, and prints its report.
#![tactic(auto)]

use program::{Kind, Program};
use std::fmt;
use std::fmt::{Display, Formatter};
use t1read::Reading;

const T1REPORT: Program<'static> = Program {
    name: "t1report",
    kind: Kind::T1,
};

#[derive(Clone, Copy)]
struct Report(Reading);

impl Display for Report {
    fn fmt<W: fmt::Write>(&self, f: &mut Formatter<W>) -> fmt::Result {
        let r = self.0;
        writeln!(f, "place {}", r.place)?;
        writeln!(f, "whole {}", r.whole)?;
        writeln!(f, "compared {}", r.compared)?;
        writeln!(f, "errored {}", r.errored)
    }
}

fn answer(rt: &impl Print, image: &[u8]) {
    let mut payload = [0u8; 8064];
    let mut link = [0u8; 168];
    let read = t1read::read(image, &mut payload, &mut link);
    T1REPORT.answer(rt, read.map(|r| Report(r)));
}

// No line over 8,192 octets is read, so one octet more is enough to know that it is longer.
fn main(rt: HostRuntime) {
    let mut image = [0u8; 8193];
    if let Some(n) = T1REPORT.read(&rt, 1, &mut image) {
        answer(&rt, &image[..n]);
    }
}
