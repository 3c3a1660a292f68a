// Reading an image from the first place that stands.
#![tactic(auto)]

ghost use Rattle.std.specs.Prelude.{◌≡◌};
ghost use Rattle.std.specs.Prelude.{Some};
ghost use Rattle.align.specs.Place.{first_standing};
ghost use Rattle.measure.specs.Reading.{lost_at, cause_of};
ghost use Rattle.read.specs.Answer.{answered};
ghost use Rattle.read.specs.Entry.{Read, GoodLength, located, Locates};

use align::Found;
use base::Refused;

// What is read.
#[derive(Clone, Copy)]
pub struct Reading {
    pub place: usize,
    pub start: usize,
    pub whole: usize,
    pub used: usize,
    pub loss: Option<usize>,
    pub words: usize,
    pub compared: usize,
    pub errored: usize,
    pub farend: usize,
    pub wordbits: usize,
}

impl Reading {
    // the frame of the loss, 0 where there is none
    pub fn lost(&self) -> usize
        ensures { result ≡ lost_at self.now.loss }
    {
        self.loss.unwrap_or(0)
    }

    // its cause: 1 by words, at an even frame, 2 by bits 2, at an odd one; 0 where there is no loss
    pub fn cause(&self) -> u64
        ensures { result ≡ cause_of self.now.loss }
    {
        match self.loss {
            Some(f) => 1 + f as u64 % 2,
            None => 0,
        }
    }
}

// Where an image is read from, and how far.
#[derive(Clone, Copy)]
pub struct Located {
    pub place: usize,
    pub start: usize,
    pub whole: usize,
    pub used: usize,
    pub loss: Option<usize>,
    pub words: usize,
    pub wordbits: usize,
}

// from the first place that stands, with its least k
fn located_at(image: &[u8], place: usize, k: usize) -> Located
    requires { GoodLength image.now × (first_standing image.now ≡ Some (record { place = place; k = k })) }
    ensures { result ≡ located image.now }
{
    let start = place + 512 * k;
    let whole = (8 * image.len() - start) / 4096;
    let tracked = measure::track(image, start, 0, whole);
    Located {
        place,
        start,
        whole,
        used: tracked.used,
        loss: tracked.loss,
        words: tracked.words,
        wordbits: tracked.wordbits,
    }
}

// The first place that stands in an image, and what is used from there on.
pub fn locate(image: &[u8]) -> Result<Located, Refused>
    ensures { Locates image.now result }
{
    if image.len() < 2048 {
        return Err(Refused::TooShort);
    }
    if 8192 < image.len() {
        return Err(Refused::TooLong);
    }
    match align::find(image) {
        Found::At { place, k } => Ok(located_at(image, place, k)),
        Found::BasicAt { place } => Err(Refused::NoSignals { place }),
        Found::Nothing => Err(Refused::NoFrames),
    }
}

// An image is read: its payload and its slots 0 go to the two outputs.
pub fn read(image: &[u8], payload: &mut [u8], slot0: &mut [u8]) -> Result<Reading, Refused>
    ensures { Read image.now payload.old slot0.old
        (answered result) payload.new slot0.new }
{
    let located = locate(image)?;
    let start = located.start;
    let used = located.used;
    if (payload.len() < 496 * used) | (slot0.len() < 16 * used) {
        return Err(Refused::NoRoom);
    }
    let compared = measure::compared(used);
    let errored = measure::judge(image, start, compared);
    let farend = measure::far_end(image, start, used);
    measure::payload_of(image, start, used, payload);
    measure::slot0_of(image, start, used, slot0);
    Ok(Reading {
        place: located.place,
        start,
        whole: located.whole,
        used,
        loss: located.loss,
        words: located.words,
        compared,
        errored,
        farend,
        wordbits: located.wordbits,
    })
}
