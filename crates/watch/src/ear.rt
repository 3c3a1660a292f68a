// Signalling, heard as the payload leaves.
ghost use Rattle.std.specs.Prelude.{◌^◌, ◌≤◌, length};
ghost use Rattle.heard.specs.Hearing.{Few};
ghost use Rattle.watch.specs.Watch.{Adds};

use heard::Hearing;
use printed::{Change, Values};
use program::Printed;
use signals::Signalling;

// What is heard behind the last frame that left, and what was when a signalling multiframe was last read.
#[derive(Clone, Copy)]
pub struct Heard {
    pub now: Hearing,
    pub last: Hearing,
}

impl Heard {
    pub fn nothing() -> Heard
        ensures { Few result.now 0 }
    {
        Heard {
            now: Hearing::nothing(),
            last: Hearing::nothing(),
        }
    }

    // a line for each channel that changes with the signalling multiframe that is read now; the first has none before it
    fn print_changes(&self, rt: &impl Print) -> Printed {
        if self.last.multiframes == 0 {
            return Ok(());
        }
        for c in 1..31 {
            let change = Change {
                was: self.last.channel(c),
                is: self.now.channel(c),
            };
            change.print(rt, self.now.began(), c)?;
        }
        Ok(())
    }

    // one frame more, its slot 16 this octet
    fn hear_frame(&mut self, rt: &impl Print, octet: u8) -> Printed
        requires { Few self.old.now (2 ^ 40) }
        ensures { Adds 1 self.old.now self.new.now }
    {
        self.now = self.now.hear(octet);
        if !self.now.is_read() {
            return Ok(());
        }
        let printed = self.print_changes(rt);
        self.last = self.now;
        printed
    }

    // the frames of a payload that leaves, up to one of which a change cannot be printed
    pub fn hear(&mut self, rt: &impl Print, payload: &[u8]) -> Printed
        requires { Few self.old.now (2 ^ 39) × (length payload.now ≤ 5952) }
        ensures { Adds 192 self.old.now self.new.now }
    {
        // kept: an index: how many octets `skip(15).step_by(31)` gives, the proof did not find (tried)
        for f in 0..payload.len() / 31 {
            self.hear_frame(rt, payload[31 * f + 15])?;
        }
        Ok(())
    }

    // what is heard, as a reading of signalling answers it
    pub fn values(&self) -> Values {
        let heard = self.now;
        let xy = heard.xy();
        Values(Signalling {
            multiframes: heard.multiframes,
            first: heard.first,
            losses: heard.losses,
            held: heard.is_held(),
            x0: xy / 8 % 2,
            x1: xy / 2 % 2,
            x2: xy % 2,
            y: xy / 4 % 2,
            starts: [0; 16],
        })
    }
}
