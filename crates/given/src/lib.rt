// What the cases are made of: a payload, an overhead, signalling, bits for T1, and a line with its damage.
#![tactic(auto)]

pub mod hits;
pub mod step;

ghost use Rattle.std.specs.Prelude.{◌<◌, ◌≤◌};

use program::text::limited;
use std::array::from_fn;
use step::{Numbers, Step, low};

// A payload, an overhead, XY and ABCD, of one multiframe more than a call takes; bits for T1's data link and signalling,
// of one superframe more; an image; which of its octets are read, and into how much room.
#[derive(Clone, Copy)]
pub struct Bench {
    pub payload: [u8; 8432],
    pub overhead: [u8; 136],
    pub xy: [u8; 17],
    pub abcd: [u8; 510],
    pub bits: [u8; 1440],
    pub image: [u8; 8193],
    pub from: u64,
    pub to: u64,
    pub payload_room: u64,
    pub slot0_room: u64,
}

// A number that is no index changes nothing.
fn set(octets: &mut [u8], at: u64, octet: u8) {
    let i = limited(at, octets.len());
    if let Some(place) = octets.get_mut(i) {
        *place = octet;
    }
}

// the octets at the numbers behind the first are that first number
fn put(octets: &mut [u8], numbers: &Numbers) {
    for at in numbers.behind() {
        set(octets, *at, low(numbers.at(0)));
    }
}

// slot 16 of the frames behind the first number is that first number
fn put_slot16(image: &mut [u8; 8193], numbers: &Numbers) {
    for f in numbers.behind() {
        set(
            image,
            (32 * limited(*f, 256) + 16) as u64,
            low(numbers.at(0)),
        );
    }
}

// the octet that starts o bits before the second of two
fn between(first: u8, second: u8, o: usize) -> u8
    requires { o < 8 }
{
    (((256 * (first as u64) + second as u64) >> o) % 256) as u8
}

// b bits 0, then the first 2,048 octets of an image, then bits 0
// kept: an index: each octet written is of two that are read, the first of which is that of the step before
fn front(image: &[u8; 8193], b: usize) -> [u8; 8193]
    requires { b < 64 }
{
    let mut octets = [0; 8193];
    let mut before: u8 = 0;
    for i in 0..2049 {
        octets[b / 8 + i] = between(before, image[i], b % 8);
        before = image[i];
    }
    octets
}

// the bit that a step hits: the last of a frame's word, a frame's bit 2, the first of a multiframe's signal, or the given
// one
fn place(step: Step, x: u64) -> usize
    ensures { result < 65544 }
{
    match step {
        Step::Word => 256 * limited(x, 255) + 7,
        Step::Bit2 => 256 * limited(x, 255) + 1,
        Step::Signal => 256 * (16 * limited(x, 15) + 1),
        _ => limited(x, 65543),
    }
}

fn turn_over(image: &mut [u8; 8193], p: usize)
    requires { p < 65544 }
{
    image[p / 8] ^= 128 >> (p % 8);
}

// the bits turned over that a step hits, for each number
fn hit(image: &mut [u8; 8193], step: Step, numbers: &Numbers) {
    for x in numbers.all() {
        turn_over(image, place(step, *x));
    }
}

impl Bench {
    // No image, and room for all that one can hold. E is 1 in every frame 13 and 15, and no channel has 0000.
    pub fn new() -> Bench {
        Bench {
            payload: from_fn(|i| ((7 * i + 5 * (i / 31)) % 256) as u8),
            overhead: from_fn(|j| ((5 * j + 31) % 64 + 64 * (j % 8 / 6)) as u8),
            xy: from_fn(|m| ((5 * m + 11) % 16) as u8),
            abcd: from_fn(|i| (1 + (7 * i + 3 * (i / 30)) % 15) as u8),
            bits: from_fn(|j| ((7 * j + 5 * (j / 31)) / 4 % 2) as u8),
            image: [0; 8193],
            from: 0,
            to: 0,
            payload_room: 7936,
            slot0_room: 256,
        }
    }

    // the octets of the image that are read
    pub fn read(&self) -> &[u8] {
        let to = limited(self.to, 8193);
        let from = limited(self.from, to);
        &self.image[from..to]
    }

    fn imaged(&mut self, image: [u8; 8193], from: u64, to: u64) {
        self.image = image;
        self.from = from;
        self.to = to;
    }

    // a line of n multiframes, the first block carrying the check 5
    fn line(&self, n: usize) -> [u8; 8193]
        requires { n ≤ 16 }
    {
        let mut octets = [0; 8193];
        let _ = write::write(
            &self.payload[..496 * n],
            &self.overhead[..8 * n],
            5,
            &mut octets[..512 * n],
        );
        octets
    }

    // the same with signalling
    // kept: three functions: what differs is the call and what it is lent
    fn signalled_line(&self, n: usize) -> [u8; 8193]
        requires { n ≤ 16 }
    {
        let mut octets = [0; 8193];
        let _ = signalled::write_signalled(
            &self.payload[..496 * n],
            &self.overhead[..8 * n],
            5,
            &self.xy[..n],
            &self.abcd[..30 * n],
            &mut octets[..512 * n],
        );
        octets
    }

    // a T1 line of n superframes, the first carrying the check 5
    fn t1_line(&self, n: usize) -> [u8; 8193]
        requires { n ≤ 14 }
    {
        let mut octets = [0; 8193];
        let _ = t1write::write(
            &self.payload[..576 * n],
            &self.bits[..12 * n],
            5,
            &mut octets[..579 * n],
        );
        octets
    }

    // b bits 0 in front of the image
    fn pushed(&mut self, b: usize)
        requires { b < 64 }
    {
        let to = limited(self.to, 8193) + b.div_ceil(8);
        self.image = front(&self.image, b);
        self.to = to as u64;
    }

    // what a step makes, by its numbers
    pub fn make(&mut self, step: Step, numbers: &Numbers) {
        let first = numbers.at(0);
        let second = numbers.at(1);
        let n = limited(first, 16);
        let t1_n = limited(first, 14);
        match step {
            Step::Payload => put(&mut self.payload, numbers),
            Step::Overhead => put(&mut self.overhead, numbers),
            Step::Alike => self.payload = [low(first); 8432],
            Step::Xy => put(&mut self.xy, numbers),
            Step::Abcd => put(&mut self.abcd, numbers),
            Step::Fill => self.imaged([low(first); 8193], 0, second),
            Step::Line => self.imaged(self.line(n), 0, (512 * n) as u64),
            Step::Signalled => self.imaged(self.signalled_line(n), 0, (512 * n) as u64),
            Step::Front => self.pushed(limited(first, 63)),
            Step::Hit | Step::Word | Step::Bit2 | Step::Signal => {
                hit(&mut self.image, step, numbers)
            }
            Step::Slot16 => put_slot16(&mut self.image, numbers),
            Step::Part => {
                self.from = first;
                self.to = second;
            }
            Step::Bits => put(&mut self.bits, numbers),
            Step::AlikeBits => self.bits = [low(first); 1440],
            Step::T1Line => self.imaged(self.t1_line(t1_n), 0, (579 * t1_n) as u64),
            Step::Room => {
                self.payload_room = first;
                self.slot0_room = second;
            }
            _ => {}
        }
    }
}
