// What everything else is said with: tables, sums, counts and searches by an index; answers and refusals. The only code
// is the refusal itself.
#![tactic(auto)]

ghost use Rattle.std.specs.Prelude.{◌≡◌};
ghost use Rattle.base.specs.Number.{refusal_number, refusal_place};

// Why a call is refused, in the order of the numbers (KIT §8).
#[derive(Clone, Copy, Debug, PartialEq, Eq)]
pub enum Refused {
    TooShort,
    TooLong,
    NoFrames,
    NoRoom,
    Payload,
    Overhead,
    Check,
    Record,
    Kind,
    Slot,
    Locked,
    NothingStaged,
    Position,
    Place,
    // with the first place with basic alignment
    NoSignals { place: usize },
    Signalling,
    Endless,
    Ended,
}

impl Refused {
    // its number in the table
    pub fn number(self) -> u64
        ensures { result ≡ refusal_number self }
    {
        match self {
            Refused::TooShort => 1,
            Refused::TooLong => 2,
            Refused::NoFrames => 3,
            Refused::NoRoom => 4,
            Refused::Payload => 5,
            Refused::Overhead => 6,
            Refused::Check => 7,
            Refused::Record => 8,
            Refused::Kind => 9,
            Refused::Slot => 10,
            Refused::Locked => 11,
            Refused::NothingStaged => 12,
            Refused::Position => 13,
            Refused::Place => 14,
            Refused::NoSignals { place: _ } => 15,
            Refused::Signalling => 16,
            Refused::Endless => 17,
            Refused::Ended => 21,
        }
    }

    // the place that goes with it, 0 where none does
    pub fn place(self) -> usize
        ensures { result ≡ refusal_place self }
    {
        match self {
            Refused::NoSignals { place } => place,
            _ => 0,
        }
    }
}
