// The words for each refusal, with no line end.
use base::Refused;

// the kind of a line, whose calls have words of their own
#[derive(Clone, Copy)]
pub enum Kind {
    E1,
    T1,
}

impl Kind {
    pub fn words(self, why: Refused) -> &'static str {
        match self {
            Kind::E1 => e1_words(why),
            Kind::T1 => t1_words(why),
        }
    }
}

fn e1_words(why: Refused) -> &'static str {
    match why {
        Refused::TooShort => {
            "the line is under 2,048 octets; four multiframes are the least that can be read"
        }
        Refused::TooLong => {
            "the line is over 8,192 octets, the most that is read at once; watch takes it in chunks"
        }
        Refused::NoFrames => {
            "no frames are found: no place with 16,384 bits to the line's end has basic alignment"
        }
        Refused::NoRoom => "an output has no room for what is to be written",
        Refused::Payload => {
            "the payload is not 1 to 16 multiframes of 496 octets (504 with their overhead, 535 with signalling too)"
        }
        Refused::Overhead => {
            "the overhead is not 8 octets a multiframe, or one has a bit that must be 0"
        }
        Refused::Check => "the check that is carried in is over 15",
        Refused::Record => "a host record is four octets: kind, output slot, input slot, host",
        Refused::Kind => {
            "the kind of a host record is 1 (stage), 2 (commit), 3 (read) or 4 (drop)"
        }
        Refused::Slot => "an output slot is 1 to 31, and an input slot 1 to 31, or 0 for idle",
        Refused::Locked => "the key is off; stage, commit and drop need it on",
        Refused::NothingStaged => "nothing is staged; commit and drop need a staged map",
        Refused::Position => "the key's position is 0 (off) or 1 (on)",
        Refused::Place => "fewer than 16,384 bits are left from that place to the line's end",
        Refused::NoSignals { place: _ } => {
            "basic alignment is found, but no pair of multiframe signals with it; is the sender's CRC-4 on?"
        }
        Refused::Signalling => {
            "XY is not an octet from 0 to 15 a multiframe, or ABCD is not thirty from 1 to 15"
        }
        Refused::Endless => {
            "the line goes on past 16,777,216 octets, the most that is taken in chunks"
        }
        Refused::Ended => {
            "the stream has ended, or was not made by calls; another one can be started"
        }
    }
}

// what T1 says in other words than E1
fn t1_words(why: Refused) -> &'static str {
    match why {
        Refused::TooShort => {
            "the line is under 1,158 octets; two superframes are the least that can be read"
        }
        Refused::TooLong => {
            "the line is over 8,192 octets, the most that is read at once; cut it, and read the rest by itself"
        }
        Refused::NoFrames => {
            "no superframes are found: nowhere do two follow each other, the first without an error; \
             an E1 line is for report"
        }
        Refused::Payload => {
            "the payload is not 1 to 14 superframes of 576 octets (588 with their data link, 684 with signalling too)"
        }
        Refused::Overhead => {
            "the data link is not 12 octets a superframe, or one is neither 0 nor 1"
        }
        Refused::Check => "the check that is carried in is over 63",
        Refused::Signalling => {
            "the signalling is not 96 octets a superframe, or one is neither 0 nor 1"
        }
        _ => e1_words(why),
    }
}
