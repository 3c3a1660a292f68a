// A line that comes in chunks: a stream is started, fed and ended. What it is, beside its numbers, is the window, which
// is lent.
#![tactic(auto)]

ghost use Rattle.std.specs.Prelude.{◌≡◌};
ghost use Rattle.std.specs.List.{list_any};
ghost use Rattle.measure.specs.Reading.{lost_at, cause_of};
ghost use Rattle.stream.specs.Answer.{fed_answer, end_answer};
ghost use Rattle.stream.specs.Entry.{starting, is_large, is_over, Feeds, cause_by, ending};

use align::Found;
use base::Refused;
use growth::Line;
use read::Reading;

// The numbers of a stream: whether it has ended, how many octets of the window are filled, and what is known of the line.
#[derive(Clone, Copy)]
pub struct Stream {
    pub ended: bool,
    pub fill: usize,
    pub line: Line,
}

impl Stream {
    // A stream to which nothing has come.
    pub fn start() -> Stream
        ensures { result ≡ starting }
    {
        Stream {
            ended: false,
            fill: 0,
            line: Line::nothing(),
        }
    }

    // it has ended, or comes from no calls
    fn is_over(&self) -> bool
        ensures { result ≡ is_over self.now }
    {
        if self.ended | (2048 < self.fill) {
            return true;
        }
        let line = self.line;
        let numbers = [
            line.found.place(),
            line.found.k(),
            line.before,
            line.used,
            line.lost,
            line.words,
            line.errored,
            line.farend,
            line.wordbits,
        ];
        any_large(&numbers)
    }

    // A chunk comes: what leaves with it goes to the front of the two outputs, and that many multiframes are answered.
    pub fn feed(
        &mut self,
        window: &mut [u8],
        chunk: &[u8],
        payload: &mut [u8],
        slot0: &mut [u8],
    ) -> Result<usize, Refused>
        ensures { Feeds self.old window.old chunk.now payload.old slot0.old
            (fed_answer self.new result) window.new payload.new slot0.new }
    {
        if self.is_over() {
            return Err(Refused::Ended);
        }
        let Some(window) = window.as_mut_array::<2048>() else {
            return Err(Refused::Ended);
        };
        let came = self.line.before + self.fill;
        if 16777216 < came + chunk.len() {
            return Err(Refused::Endless);
        }
        let took = chunk::take(self.line, self.fill, chunk, window, payload, slot0)?;
        self.fill = took.fill;
        self.line = took.line;
        Ok(took.multiframes)
    }

    // The line ends: what it tells, or why it tells nothing yet.
    pub fn end(&mut self) -> Result<Reading, Refused>
        ensures { end_answer self.new result ≡ ending self.old }
    {
        if self.is_over() {
            return Err(Refused::Ended);
        }
        let line = self.line;
        let came = line.before + self.fill;
        if came < 2048 {
            return Err(Refused::TooShort);
        }
        match line.found {
            Found::At { place, k: _ } => {
                self.ended = true;
                let start = line.found.start();
                Ok(Reading {
                    place,
                    start,
                    whole: chunk::whole(came, start),
                    used: line.used,
                    loss: loss_of(line.lost),
                    words: line.words,
                    compared: measure::compared(line.used),
                    errored: line.errored,
                    farend: line.farend,
                    wordbits: line.wordbits,
                })
            }
            Found::BasicAt { place } => Err(Refused::NoSignals { place }),
            Found::Nothing => Err(Refused::NoFrames),
        }
    }
}

// one of them is over the bits of the longest line
fn any_large(numbers: &[usize]) -> bool
    ensures { result ≡ list_any is_large numbers.now }
{
    numbers.iter().any(|n| 134217728 < *n)
}

// the loss at a frame, which is never 0: by 0 there is none
fn loss_of(lost: usize) -> Option<usize>
    ensures { (lost_at result ≡ lost) × (cause_of result ≡ cause_by lost) }
{
    if lost == 0 { None } else { Some(lost) }
}
