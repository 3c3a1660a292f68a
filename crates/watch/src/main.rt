// Reads a line as it comes, from the file that the argument names or from standard input, and prints at its end what
// `report` prints of a line that is read at once. Before the file, `--payload FILE` puts the payload into that file as it
// leaves, and `--phones` prints which channels change, as they are heard.
#![tactic(auto)]

mod asked;
mod ear;

ghost use Rattle.std.specs.Prelude.{◌≡◌, ◌^◌, ◌≤◌, length};
ghost use Rattle.heard.specs.Hearing.{Few};
ghost use Rattle.watch.specs.Watch.{Adds, Goes};

use asked::Output;
use ear::Heard;
use printed::Report;
use program::{Input, Kind, Program};
use std::io::{Read, Write};
use stream::Stream;

const WATCH: Program<'static> = Program {
    name: "watch",
    kind: Kind::E1,
};

// What is watched: the stream, how many octets came, and what is heard.
#[derive(Clone, Copy)]
struct Watched {
    stream: Stream,
    came: usize,
    heard: Heard,
}

// why nothing more comes: the line has ended, or goes on too long; or something failed
#[derive(Clone, Copy, PartialEq)]
enum Stopped {
    Ended,
    Failed,
}

// Where octets come from, and the name of that; where the payload goes, if it is asked for; and whether changes are
// printed.
#[derive(Drop)]
struct Ends<'a, 'b, S, F> {
    line: S,
    name: &'a [u8],
    payload: Option<Output<'b, F>>,
    phones: bool,
}

// How many octets are asked for: what still fits, and one where nothing does, which tells whether the line goes on.
fn room(came: usize) -> usize
    ensures { result ≤ 4096 }
{
    16777216usize.saturating_sub(came).clamp(1, 4096)
}

impl Watched {
    fn nothing() -> Watched
        ensures { Few result.heard.now 0 × (result.came ≡ 0) }
    {
        Watched {
            stream: Stream::start(),
            came: 0,
            heard: Heard::nothing(),
        }
    }

    // the payload that leaves goes where it is asked for
    fn hand_on<S, F: Write>(
        &mut self,
        rt: &impl Print,
        ends: &mut Ends<S, F>,
        payload: &[u8],
    ) -> Result<(), Stopped>
        requires { Few self.old.heard.now (2 ^ 39) × (length payload.now ≤ 5952) }
        ensures { (self.new.came ≡ self.old.came) × Adds 192 self.old.heard.now self.new.heard.now }
    {
        let printed = if ends.phones {
            self.heard.hear(rt, payload)
        } else {
            Ok(())
        };
        WATCH.written(printed);
        let put = match &mut ends.payload {
            Some(output) => output.put(payload),
            None => Ok(()),
        };
        printed.and(put).map_err(|_| Stopped::Failed)
    }

    // A chunk comes. With 4,096 octets no more than 12 multiframes leave.
    fn feed<S, F: Write>(
        &mut self,
        rt: &impl Print,
        ends: &mut Ends<S, F>,
        chunk: &[u8],
        window: &mut [u8; 2048],
    ) -> Result<(), Stopped>
        requires { Few self.old.heard.now (2 ^ 39) × (self.old.came ≤ 2 ^ 39) × (length chunk.now ≤ 4096) }
        ensures { Goes self.old self.new }
    {
        let mut payload = [0u8; 5952];
        let mut slot0 = [0u8; 192];
        match self.stream.feed(window, chunk, &mut payload, &mut slot0) {
            Ok(multiframes) => {
                self.came += chunk.len();
                let e = 496 * multiframes.min(12);
                self.hand_on(rt, ends, &payload[..e])
            }
            Err(why) => {
                WATCH.refused(why);
                Err(Stopped::Ended)
            }
        }
    }

    // One read is one chunk. Where it fails, that is said.
    fn turn<S: Read, F: Write>(
        &mut self,
        rt: &impl Print,
        ends: &mut Ends<S, F>,
        window: &mut [u8; 2048],
    ) -> Result<(), Stopped>
        requires { Few self.old.heard.now (2 ^ 39) × (self.old.came ≤ 2 ^ 39) }
        ensures { Goes self.old self.new }
    {
        let mut chunk = io::buffer();
        let most = room(self.came);
        match ends.line.read(&mut chunk[..most]) {
            Ok(0) => Err(Stopped::Ended),
            Ok(n) => self.feed(rt, ends, &chunk[..n], window),
            Err(why) => {
                WATCH.fail(ends.name, why);
                Err(Stopped::Failed)
            }
        }
    }

    // the line has ended
    fn answer(&mut self, rt: &impl Print, is_phones: bool) {
        match self.stream.end() {
            Ok(r) if is_phones => {
                WATCH.written(print!(rt; "{}{}", Report(r), self.heard.values()));
            }
            answered => WATCH.answer(rt, answered.map(|r| Report(r))),
        }
    }
}

// A turn after which more may come has taken an octet, so there are no more than 16,777,217.
fn watch<S: Read, F: Write>(rt: &impl Print, ends: &mut Ends<S, F>) {
    let mut window = [0u8; 2048];
    let mut watched = Watched::nothing();
    for _turn in 0..16777217u64 {
        match watched.turn(rt, ends, &mut window) {
            Ok(()) => {}
            Err(Stopped::Ended) => break,
            Err(Stopped::Failed) => return,
        }
    }
    watched.answer(rt, ends.phones);
}

fn main(rt: HostRuntime) {
    let given = asked::arguments(&rt);
    let phones = given.phones;
    let mut from = io::buffer();
    let Some(input) = WATCH.open(&rt, given.line, &mut from) else {
        return;
    };
    let Input { source: line, n } = input;
    let name = &from[..n];
    let mut to = io::buffer();
    let Ok(payload) = given.create(&rt, &mut to) else {
        return;
    };
    watch(
        &rt,
        &mut Ends {
            line,
            name,
            payload,
            phones,
        },
    );
}
