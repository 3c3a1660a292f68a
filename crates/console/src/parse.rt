// What a line asks for.
ghost use Rattle.std.specs.Prelude.{◌≤◌, length};
ghost use Rattle.io.specs.Counts.{IsPrefixLen};
ghost use Rattle.console.specs.Line.{octet_count};

use program::text::{first_word, numbers};

#[derive(Clone, Copy, PartialEq)]
pub enum Command {
    Key,
    Stage,
    Commit,
    Read,
    Drop,
    Record,
    Boundary,
    Map,
    Status,
    Picture,
    Help,
    Quit,
    Exit,
}

// as help shows them
const COMMANDS: [Command; 13] = [
    Command::Key,
    Command::Stage,
    Command::Commit,
    Command::Read,
    Command::Drop,
    Command::Record,
    Command::Boundary,
    Command::Map,
    Command::Status,
    Command::Picture,
    Command::Help,
    Command::Quit,
    Command::Exit,
];

// what help shows, a line for each command; it is one text, so that it is one write
pub const HELP: &str = "\
    key N           turns the key: 1 is on, 0 is off\n\
    stage OUT IN    stages that output slot OUT takes input slot IN, or 0 for idle\n\
    commit          lets the staged map wait for the boundary\n\
    read OUT        says which input slot output slot OUT takes\n\
    drop            drops the staged map\n\
    record K A B H  sends a host record by its octets, up to eight: kind, A, B, host\n\
    boundary        is a multiframe boundary: the waiting map becomes the live one\n\
    map             shows the live map: what output slots 1 to 31 take\n\
    status          shows the key, and the live, the staged and the waiting map\n\
    picture FILE    draws the live map into FILE, as SVG\n\
    help            shows these lines\n\
    quit            ends\n\
    exit            ends, too\n";

impl Command {
    // its line of the help, which begins with its word
    pub fn help(self) -> &'static str {
        HELP.lines().nth(self as usize).unwrap_or("")
    }

    // the one with this word
    fn named(word: &[u8]) -> Option<Command> {
        let k = HELP
            .lines()
            .position(|line| first_word(line.as_bytes()).0 == word)?;
        COMMANDS.get(k).copied()
    }
}

#[derive(Clone, Copy)]
pub enum Shown {
    Map,
    Status,
    Help,
}

// what is wrong with a line: no command, more than 80 octets, a record's number that is no octet, or what follows the
// command's word
#[derive(Clone, Copy)]
pub enum Wrong {
    Unknown,
    TooLong,
    NoOctet,
    Behind(Command),
}

// the key, to a position; a host record, of so many octets; a boundary; what is shown; a picture of the live map; what is
// wrong; nothing, as an empty line or a remark; the end
// kept: a record's octets are lent, and here is how many: there is no heap
#[derive(Clone, Copy)]
pub enum Asked {
    Key(u64),
    Host(usize),
    Boundary,
    Show(Shown),
    Picture,
    Wrong(Wrong),
    Nothing,
    Quit,
}

// the kinds of a host record
pub const STAGE: u64 = 1;

pub const COMMIT: u64 = 2;

pub const READ: u64 = 3;

pub const DROP: u64 = 4;

// A number that no octet holds goes as 255, which is no slot either, so that it is refused as any that is none.
fn slot(x: u64) -> u64 {
    x.min(255)
}

// a host record by its octets
fn record(numbers: &[u64], octets: &mut [u8]) -> Asked
    requires { (length numbers.now ≤ 8) × (8 ≤ length octets.old) }
    ensures { IsPrefixLen (octet_count result) octets.new }
{
    for (octet, x) in octets.iter_mut().zip(numbers) {
        match u8::try_from(*x) {
            Ok(x) => *octet = x,
            Err(_) => return Asked::Wrong(Wrong::NoOctet),
        }
    }
    Asked::Host(numbers.len())
}

// what a command asks for, with the numbers behind it
fn meaning(command: Command, numbers: &[u64], octets: &mut [u8]) -> Asked
    requires { (length numbers.now ≤ 8) × (8 ≤ length octets.old) }
    ensures { IsPrefixLen (octet_count result) octets.new }
{
    match (command, numbers) {
        (Command::Key, [position]) => Asked::Key(*position),
        (Command::Stage, [output, input]) => record(
            &[STAGE, slot(*output), slot(*input), 0],
            octets,
        ),
        (Command::Commit, []) => record(&[COMMIT, 0, 0, 0], octets),
        (Command::Read, [output]) => record(&[READ, slot(*output), 0, 0], octets),
        (Command::Drop, []) => record(&[DROP, 0, 0, 0], octets),
        (Command::Record, _) => record(numbers, octets),
        (Command::Boundary, []) => Asked::Boundary,
        (Command::Map, []) => Asked::Show(Shown::Map),
        (Command::Status, []) => Asked::Show(Shown::Status),
        (Command::Help, []) => Asked::Show(Shown::Help),
        (Command::Quit | Command::Exit, []) => Asked::Quit,
        _ => Asked::Wrong(Wrong::Behind(command)),
    }
}

// the word behind a line's first one, empty where there is none
pub fn second_word(s: &[u8]) -> &[u8] {
    let (_, rest) = first_word(s);
    first_word(rest).0
}

// what a line asks for; the octets of a host record go where they are lent
pub fn line(s: &[u8], octets: &mut [u8]) -> Asked
    requires { 8 ≤ length octets.old }
    ensures { IsPrefixLen (octet_count result) octets.new }
{
    let (word, rest) = first_word(s);
    if word.starts_with(b"#") {
        return Asked::Nothing;
    }
    if s.len() > 80 {
        return Asked::Wrong(Wrong::TooLong);
    }
    if word.is_empty() {
        return Asked::Nothing;
    }
    let Some(command) = Command::named(word) else {
        return Asked::Wrong(Wrong::Unknown);
    };
    if command == Command::Picture && !second_word(s).is_empty() {
        return Asked::Picture;
    }
    let mut row = [0; 8];
    match numbers(rest, &mut row) {
        Some(n) => meaning(command, &row[..n], octets),
        None => Asked::Wrong(Wrong::Behind(command)),
    }
}
