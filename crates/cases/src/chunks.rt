// The calls on a stream, each with the line that it prints.
use crate::lines::{BEFORE, fill, number_of, show_values};
use crate::teller::Teller;
use base::Refused;
use given::Bench;
use given::step::Numbers;
use program::text::limited;
use stream::Stream;

// the octets of the image from one number to another
fn part(bench: &Bench, from: u64, to: u64) -> &[u8] {
    let to = limited(to, 8193);
    &bench.image[limited(from, to)..to]
}

// a stream, and the window that it is lent at each call
#[derive(Drop)]
pub struct Streamed {
    stream: Stream,
    window: [u8; 2048],
}

impl Streamed {
    pub fn new() -> Streamed {
        Streamed {
            stream: Stream::start(),
            window: [0; 2048],
        }
    }

    // the stream is started, and the window left as it is
    pub fn start(&mut self) {
        self.stream = Stream::start();
    }

    // octets of the image come
    pub fn feed<P: Print>(&mut self, t: &Teller<'_, P>, bench: &Bench, numbers: &Numbers) {
        let payload_room = limited(bench.payload_room, 7936);
        let slot0_room = limited(bench.slot0_room, 256);
        let chunk = part(bench, numbers.at(0), numbers.at(1));
        fill(t, payload_room, b" slot0 ", slot0_room, |payload, slot0| {
            let left = self.stream.feed(&mut self.window, chunk, payload, slot0);
            t.called(number_of(&left));
            t.count(b" multiframes ", left.unwrap_or(0));
        });
    }

    // into outputs that nobody looks at
    fn feed_once(&mut self, chunk: &[u8]) -> Result<usize, Refused> {
        let mut payload = [BEFORE; 9920];
        let mut slot0 = [BEFORE; 320];
        self.stream
            .feed(&mut self.window, chunk, &mut payload, &mut slot0)
    }

    // the same octets so many times: the last number, and how many multiframes left in all
    pub fn feeds<P: Print>(&mut self, t: &Teller<'_, P>, bench: &Bench, numbers: &Numbers) {
        let chunk = part(bench, numbers.at(1), numbers.at(2));
        let mut number = 0;
        let mut left: usize = 0;
        for _time in 0..limited(numbers.at(0), 2048) {
            let fed = self.feed_once(chunk);
            number = number_of(&fed);
            left = left.saturating_add(fed.unwrap_or(0));
        }
        t.called(number);
        t.count(b" multiframes ", left);
        t.end();
    }

    // the line ends
    pub fn end<P: Print>(&mut self, t: &Teller<'_, P>) {
        let read = self.stream.end();
        t.called(number_of(&read));
        show_values(t, &read);
        t.end();
    }
}
