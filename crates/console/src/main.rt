// The bench console: the key, host records and boundaries, as lines typed at a terminal, piped, or played from the file
// that the argument names; each is answered as it comes.
#![tactic(auto)]

mod parse;
mod tell;

ghost use Rattle.std.specs.Prelude.{◌≤◌, length};
ghost use Rattle.io.specs.Counts.{IsPrefixLen};
ghost use Rattle.console.specs.Line.{octet_count, Follows};

use base::Refused;
use exchange::State;
use parse::Asked;
use program::{Input, Kind, Program};
use std::io::{IsTerminal, Read};
use std::ops::ControlFlow;
use std::rt::Files;

const CONSOLE: Program<'static> = Program {
    name: "console",
    kind: Kind::E1,
};

// the next octet of the input, if any; a read that fails ends the input too, and is said
fn next(source: &mut impl Read, name: &[u8]) -> Option<u8> {
    let mut octet = [0u8; 1];
    match source.read(&mut octet) {
        Ok(0) => None,
        Ok(_) => Some(octet[0]),
        Err(why) => {
            CONSOLE.fail(name, why);
            None
        }
    }
}

// a line of the input: how many of its octets are kept, and whether more may come behind it
// kept: no option in place of `more`: the last line, which has no end, is answered as any
#[derive(Drop)]
struct Typed {
    n: usize,
    more: bool,
}

// Keeps what there is room for. Nothing says that a line ends, so its octets are counted.
fn read_line(source: &mut impl Read, name: &[u8], line: &mut [u8]) -> Typed
    ensures { IsPrefixLen result.n line.new }
{
    let mut n = 0;
    for _octet in 0..u64::MAX {
        let Some(x) = next(source, name) else {
            break;
        };
        if x == b'\n' {
            return Typed { n, more: true };
        }
        if n < line.len() {
            line[n] = x;
            n += 1;
        }
    }
    Typed { n, more: false }
}

// The call that a line asks for, and the entry that it reads. A line that asks for none leaves the state as it is.
fn call(state: &mut State, asked: Asked, octets: &[u8]) -> Result<u8, Refused>
    requires { octet_count asked ≤ length octets.now }
    ensures { Follows state.old state.new }
{
    match asked {
        Asked::Key(position) => state.key(position).map(|_| 0),
        Asked::Host(n) => state.host(&octets[..n]),
        Asked::Boundary => {
            state.boundary();
            Ok(0)
        }
        _ => Ok(0),
    }
}

// A line is answered, and another may be wanted behind it. None over 80 octets is known, so one octet more is enough to
// know that it is longer. A last line without an end is answered too. Only who types is prompted.
fn play(
    rt: &(impl Files + Print),
    state: &mut State,
    source: &mut (impl Read + IsTerminal),
    name: &[u8],
) -> ControlFlow<()>
    ensures { Follows state.old state.new }
{
    let mut line = [0u8; 81];
    let mut octets = [0u8; 8];
    let before = *state;
    let prompted = if source.is_terminal() {
        print!(rt; "> ")
    } else {
        Ok(())
    };
    let typed = read_line(source, name, &mut line);
    let line = &line[..typed.n];
    let asked = parse::line(line, &mut octets);
    let answered = call(state, asked, &octets);
    let ok = prompted.and(tell::answer(rt, &before, state, answered, asked, &octets, line));
    CONSOLE.written(ok);
    if ok.is_err() || !typed.more || matches!(asked, Asked::Quit) {
        return ControlFlow::Break(());
    }
    ControlFlow::Continue(())
}

// Nothing says that the input ends, so its lines are counted.
fn dialogue(rt: &(impl Files + Print), source: &mut (impl Read + IsTerminal), name: &[u8]) {
    let mut state = State::start();
    for _line in 0..u64::MAX {
        if play(rt, &mut state, source, name).is_break() {
            break;
        }
    }
}

fn main(rt: HostRuntime) {
    let mut path = io::buffer();
    if let Some(input) = CONSOLE.open(&rt, 1, &mut path) {
        let Input { mut source, n } = input;
        dialogue(&rt, &mut source, &path[..n]);
    }
}
