// What several programs print: the report of a line, and what its telephones say.
#![tactic(auto)]

use program::Printed;
use read::Reading;
use signals::Signalling;
use std::fmt;
use std::fmt::{Display, Formatter};

#[derive(Clone, Copy)]
pub struct Report(pub Reading);

impl Display for Report {
    fn fmt<W: fmt::Write>(&self, f: &mut Formatter<W>) -> fmt::Result {
        let r = self.0;
        writeln!(f, "place {}", r.place)?;
        writeln!(f, "start {}", r.start)?;
        writeln!(f, "whole {}", r.whole)?;
        writeln!(f, "used {}", r.used)?;
        match r.loss {
            None => writeln!(f, "lost no")?,
            Some(frame) => {
                let cause = if r.cause() == 1 { "word" } else { "bit2" };
                writeln!(f, "lost {frame}\ncause {cause}")?;
            }
        }
        writeln!(f, "words {}", r.words)?;
        writeln!(f, "wordbits {}", r.wordbits)?;
        writeln!(f, "compared {}", r.compared)?;
        writeln!(f, "errored {}", r.errored)?;
        writeln!(f, "farend {}", r.farend)
    }
}

// ABCD of a channel in a signalling multiframe, and in the one read before it
#[derive(Clone, Copy)]
pub struct Change {
    pub was: u8,
    pub is: u8,
}

impl Change {
    // a line for a channel that changes, in the signalling multiframe that begins with frame f
    pub fn print(self, rt: &impl Print, f: usize, channel: usize) -> Printed {
        if self.was == self.is {
            return Ok(());
        }
        let was = self.was % 16;
        let is = self.is % 16;
        println!(rt; "2 ms {}  channel {channel}  {was:04b} -> {is:04b}", f / 16)
    }
}

// what the telephones of a line say in all
#[derive(Clone, Copy)]
pub struct Values(pub Signalling);

impl Display for Values {
    fn fmt<W: fmt::Write>(&self, f: &mut Formatter<W>) -> fmt::Result {
        let s = self.0;
        writeln!(f, "multiframes {}", s.multiframes)?;
        match s.first {
            0 => writeln!(f, "first no")?,
            frame => writeln!(f, "first {frame}")?,
        }
        writeln!(f, "losses {}", s.losses)?;
        let held = if s.held { "yes" } else { "no" };
        writeln!(f, "held {held}")?;
        writeln!(f, "x0 {}", s.x0)?;
        writeln!(f, "x1 {}", s.x1)?;
        writeln!(f, "x2 {}", s.x2)?;
        writeln!(f, "y {}", s.y)
    }
}
