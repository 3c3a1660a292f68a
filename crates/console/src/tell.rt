// What the console prints; each function answers whether it could, or why not.
ghost use Rattle.std.specs.Prelude.{◌≤◌, length};

use crate::CONSOLE;
use crate::parse::{Asked, COMMIT, HELP, READ, STAGE, Shown, Wrong, second_word};
use base::Refused;
use exchange::State;
use program::Printed;
use std::rt::Files;

fn refused(rt: &impl Print, why: Refused) -> Printed {
    let number = why.number();
    let words = CONSOLE.kind.words(why);
    println!(rt; "{number}: {words}")
}

fn key(rt: &impl Print, is_on: bool) -> Printed {
    if is_on {
        return println!(rt; "0: the key is on");
    }
    println!(rt; "0: the key is off; nothing is staged, and nothing waits")
}

// an entry of a map
fn takes(rt: &impl Print, output: u8, input: u8) -> Printed {
    let idle = if input == 0 { " (idle)" } else { "" };
    println!(rt; "output {output} takes input {input}{idle}")
}

// a host record, and the entry that it reads
fn host(rt: &impl Print, octets: &[u8], entry: u8) -> Printed
    requires { 8 ≤ length octets.now }
{
    match octets[0] as u64 {
        STAGE => {
            print!(rt; "0: staged: ")?;
            takes(rt, octets[1], octets[2])
        }
        COMMIT => println!(rt; "0: committed: the staged map waits for the boundary"),
        READ => {
            print!(rt; "0: ")?;
            takes(rt, octets[1], entry)
        }
        _ => println!(rt; "0: dropped: nothing is staged"),
    }
}

fn boundary(rt: &impl Print, before: &State) -> Printed {
    if before.pending {
        return println!(rt; "0: boundary: the map that waited is live");
    }
    println!(rt; "0: boundary: no map waited, the live one stays")
}

// entries of a map, in columns of three
fn row(rt: &impl Print, label: &str, entries: &[u8]) -> Printed {
    print!(rt; "{label}")?;
    for entry in entries {
        print!(rt; " {entry:>2}")?;
    }
    println!(rt; "")
}

// the same of a map that may not be there
fn row_of(rt: &impl Print, label: &str, is_there: bool, entries: &[u8]) -> Printed {
    if is_there {
        return row(rt, label, entries);
    }
    println!(rt; "{label} nothing")
}

// the three maps under each other, for the slots from..to
fn maps(rt: &impl Print, state: &State, from: usize, to: usize) -> Printed
    requires { (from ≤ to) × (to ≤ 32) }
{
    row(rt, "live   ", &state.live[from..to])?;
    row_of(rt, "staged ", state.staging, &state.staged[from..to])?;
    row_of(rt, "waiting", state.pending, &state.waiting[from..to])
}

fn status(rt: &impl Print, state: &State) -> Printed {
    let key = if state.flag { "on" } else { "off" };
    println!(rt; "the key is {key}")?;
    println!(rt; "output   1  2  3  4  5  6  7  8  9 10 11 12 13 14 15 16")?;
    maps(rt, state, 1, 17)?;
    println!(rt; "output  17 18 19 20 21 22 23 24 25 26 27 28 29 30 31")?;
    maps(rt, state, 17, 32)
}

fn show(rt: &impl Print, state: &State, what: Shown) -> Printed {
    match what {
        Shown::Map => row(rt, "map", &state.live[1..]),
        Shown::Status => status(rt, state),
        Shown::Help => rt.write_all(HELP.as_bytes()),
    }
}

fn wrong(rt: &impl Print, what: Wrong) -> Printed {
    match what {
        Wrong::Unknown => println!(rt; "? no such command; help lists them"),
        Wrong::TooLong => println!(rt; "? a line has at most 80 octets; help lists the commands"),
        Wrong::NoOctet => println!(rt; "? the octets of a record are 0 to 255; see help"),
        Wrong::Behind(command) => {
            let help = command.help();
            println!(rt; "? what follows the word is wrong; see help: {help}")
        }
    }
}

// the live map into the file of this name
fn draw(rt: &impl Files, state: &State, name: &[u8]) -> Printed {
    drawing::map(program::create_file(rt, name)?, state)
}

// the live map into the file that a line names behind its word; where that fails, standard error says why
fn picture(rt: &(impl Files + Print), state: &State, line: &[u8]) -> Printed {
    let name = second_word(line);
    if let Err(why) = draw(rt, state, name) {
        CONSOLE.fail(name, why);
        return println!(rt; "? the map is not drawn");
    }
    print!(rt; "drawn: ")?;
    rt.write_all(name)?;
    println!(rt; "")
}

// the answer to a line, by the states before and behind its call, and by what that answered
pub fn answer(
    rt: &(impl Files + Print),
    before: &State,
    state: &State,
    answered: Result<u8, Refused>,
    asked: Asked,
    octets: &[u8],
    line: &[u8],
) -> Printed
    requires { 8 ≤ length octets.now }
{
    let entry = match answered {
        Ok(entry) => entry,
        Err(why) => return refused(rt, why),
    };
    match asked {
        Asked::Key(_) => key(rt, state.flag),
        Asked::Host(_) => host(rt, octets, entry),
        Asked::Boundary => boundary(rt, before),
        Asked::Show(what) => show(rt, state, what),
        Asked::Picture => picture(rt, state, line),
        Asked::Wrong(what) => wrong(rt, what),
        Asked::Nothing | Asked::Quit => Ok(()),
    }
}
