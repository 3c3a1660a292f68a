// The steps of a case. Those up to Room make something, here; those behind it call.
ghost use Rattle.std.specs.Prelude.{◌≤◌};

#[derive(Clone, Copy, PartialEq, Eq)]
pub enum Step {
    Payload,
    Overhead,
    Alike,
    Xy,
    Abcd,
    Fill,
    Line,
    Signalled,
    Front,
    Hit,
    Word,
    Bit2,
    Signal,
    Slot16,
    Part,
    Bits,
    AlikeBits,
    T1Line,
    Room,
    Read,
    Write,
    Row,
    Start,
    Host,
    Key,
    Boundary,
    Map,
    Why,
    Signals,
    WriteSignalled,
    Stream,
    Feed,
    Feeds,
    End,
    T1Read,
    T1Write,
    T1WriteSignalled,
    TwoHits,
    T1TwoHits,
}

impl Step {
    // the step that has this word
    pub fn of(word: &[u8]) -> Option<Step> {
        match word {
            b"payload" => Some(Step::Payload),
            b"overhead" => Some(Step::Overhead),
            b"alike" => Some(Step::Alike),
            b"xy" => Some(Step::Xy),
            b"abcd" => Some(Step::Abcd),
            b"fill" => Some(Step::Fill),
            b"line" => Some(Step::Line),
            b"signalled" => Some(Step::Signalled),
            b"front" => Some(Step::Front),
            b"hit" => Some(Step::Hit),
            b"word" => Some(Step::Word),
            b"bit2" => Some(Step::Bit2),
            b"signal" => Some(Step::Signal),
            b"slot16" => Some(Step::Slot16),
            b"part" => Some(Step::Part),
            b"bits" => Some(Step::Bits),
            b"alike-bits" => Some(Step::AlikeBits),
            b"t1-line" => Some(Step::T1Line),
            b"room" => Some(Step::Room),
            b"read" => Some(Step::Read),
            b"write" => Some(Step::Write),
            b"row" => Some(Step::Row),
            b"start" => Some(Step::Start),
            b"host" => Some(Step::Host),
            b"key" => Some(Step::Key),
            b"boundary" => Some(Step::Boundary),
            b"map" => Some(Step::Map),
            b"why" => Some(Step::Why),
            b"signals" => Some(Step::Signals),
            b"write-signalled" => Some(Step::WriteSignalled),
            b"stream" => Some(Step::Stream),
            b"feed" => Some(Step::Feed),
            b"feeds" => Some(Step::Feeds),
            b"end" => Some(Step::End),
            b"t1-read" => Some(Step::T1Read),
            b"t1-write" => Some(Step::T1Write),
            b"t1-write-signalled" => Some(Step::T1WriteSignalled),
            b"two-hits" => Some(Step::TwoHits),
            b"t1-two-hits" => Some(Step::T1TwoHits),
            _ => None,
        }
    }
}

// The numbers behind a step's word, eight at most, and zeros behind them.
// kept: a row and a length: there is no heap, and the row is lent whole to the reader of numbers
#[derive(Clone, Copy)]
pub struct Numbers {
    row: [u64; 8],
    n: usize,
    ghost few: { n ≤ 8 },
}

impl Numbers {
    pub fn of(row: [u64; 8], n: usize) -> Numbers
        requires { n ≤ 8 }
    {
        Numbers { row, n }
    }

    // number i, 0 where there is none
    pub fn at(&self, i: usize) -> u64 {
        self.all().get(i).copied().unwrap_or(0)
    }

    pub fn all(&self) -> &[u64] {
        &self.row[..self.n]
    }

    // those behind the first
    pub fn behind(&self) -> &[u64] {
        self.all().get(1..).unwrap_or(&[])
    }

    // the numbers as octets, each modulo 256
    pub fn octets(&self) -> [u8; 8] {
        self.row.map(low)
    }
}

pub fn low(x: u64) -> u8 {
    (x % 256) as u8
}
