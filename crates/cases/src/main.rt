// The bench cases that are not proved, and more of their kind. A text of cases, from the file that the argument names
// or from standard input, has a line for each: a label, a colon, and steps with semicolons between them. Each call that
// a step makes prints a line.
#![tactic(auto)]

mod chunks;
mod hits;
mod lines;
mod machine;
mod superframes;
mod teller;

use chunks::Streamed;
use exchange::State;
use given::Bench;
use given::step::{Numbers, Step};
use program::text::{first_word, numbers};
use program::{Kind, Program};
use teller::Teller;

// A step, and the numbers behind it; none, with a word that is no step or no number, or with more than eight.
fn parsed(s: &[u8]) -> Option<(Step, Numbers)> {
    let (word, behind) = first_word(s);
    let mut row = [0; 8];
    let n = numbers(behind, &mut row)?;
    Some((Step::of(word)?, Numbers::of(row, n)))
}

// what goes on from case to case, unless it is started anew
#[derive(Drop)]
struct Kept {
    state: State,
    streamed: Streamed,
}

// what a step makes or calls
// kept: a teller, a bench and numbers apart: a step takes some of them, and one that makes something changes the bench
fn take<P: Print>(
    t: &Teller<'_, P>,
    bench: &mut Bench,
    kept: &mut Kept,
    step: Step,
    numbers: &Numbers,
) {
    match step {
        Step::Read => lines::read(t, bench),
        Step::Why => lines::why(t, bench, numbers.at(0)),
        Step::Signals => lines::signals(t, bench, numbers.at(0)),
        Step::Write => lines::write(t, bench, numbers),
        Step::WriteSignalled => lines::write_signalled(t, bench, numbers),
        Step::Row => lines::write_two(t, bench),
        Step::Start => kept.state = State::start(),
        Step::Host => machine::host(t, &mut kept.state, numbers),
        Step::Key => machine::tell(t, kept.state.key(numbers.at(0))),
        Step::Boundary => {
            kept.state.boundary();
            machine::tell(t, Ok(()));
        }
        Step::Map => machine::map(t, &kept.state, bench, numbers),
        Step::Stream => kept.streamed.start(),
        Step::Feed => kept.streamed.feed(t, bench, numbers),
        Step::Feeds => kept.streamed.feeds(t, bench, numbers),
        Step::End => kept.streamed.end(t),
        Step::T1Read => superframes::read(t, bench, numbers),
        Step::T1Write => superframes::write(t, bench, numbers),
        Step::T1WriteSignalled => superframes::write_signalled(t, bench, numbers),
        Step::TwoHits => hits::show(t, bench, Kind::E1, numbers),
        Step::T1TwoHits => hits::show(t, bench, Kind::T1, numbers),
        _ => bench.make(step, numbers),
    }
}

// Each case has a bench of its own.
fn case(rt: &impl Print, line: &[u8], kept: &mut Kept) {
    let c = line.iter().position(|x| *x == b':').unwrap_or(line.len());
    let mut bench = Bench::new();
    let steps = line.get(c + 1..).unwrap_or(&[]);
    for step in steps.split_inclusive(|x| *x == b';') {
        let s = step.strip_suffix(b";").unwrap_or(step);
        let t = Teller {
            rt,
            label: &line[..c],
            step: s,
        };
        match parsed(s) {
            Some((step, numbers)) => take(&t, &mut bench, kept, step, &numbers),
            None => {
                t.print(t.label);
                t.print(b": not understood:");
                t.print(s);
                t.end();
            }
        }
    }
}

// A line that is empty or begins with # is a remark: it has no steps.
fn cases(rt: &impl Print, s: &[u8]) {
    let mut kept = Kept {
        state: State::start(),
        streamed: Streamed::new(),
    };
    for line in s.split(|x| *x == b'\n') {
        if line.first().is_some_and(|x| *x != b'#') {
            case(rt, line, &mut kept);
        }
    }
}

const CASES: Program = Program {
    name: "cases",
    kind: Kind::E1,
};

fn main(rt: HostRuntime) {
    let mut room = io::large_buffer();
    if let Some(n) = CASES.read(&rt, 1, &mut room) {
        cases(&rt, &room[..n]);
    }
}
