// What the programs share: the input that they are given, what they print and say, and text taken apart.
#![tactic(auto)]

mod reason;
mod refusal;
pub mod text;

ghost use Rattle.std.specs.Prelude.{◌≡◌, ◌*◌, ◌<◌, ◌≤◌, length, IfOk, IfSome};
ghost use Rattle.io.specs.Counts.{IsPrefixLen};

use base::Refused;
use reason::print_reason;
pub use refusal::Kind;
use std::env::FillError;
use std::fmt::Display;
use std::io::{Error, IsTerminal, Read};
use std::rt::{Env, Files};
use std::{fmt, fs, str};
use text::numbers;

// whether what was printed is written, or why it is not
pub type Printed = std::io::Result<()>;

// the descriptor of standard error
const STDERR: i32 = 2;

// The system's numbers for an argument that is too long for its room, and for a name that no file can have: with an octet
// 0, or none that spells text.
const ENAMETOOLONG: i32 = 36;

const EINVAL: i32 = 22;

const EILSEQ: i32 = 84;

// Standard error. What it does not take is lost.
#[derive(Drop)]
struct Said;

impl fmt::Write for Said {
    fn write_str(&mut self, s: &str) -> fmt::Result {
        io::write_all(STDERR, s.as_bytes());
        Ok(())
    }
}

// a program: its name, and the kind of its lines
#[derive(Clone, Copy)]
pub struct Program<'a> {
    pub name: &'a str,
    pub kind: Kind,
}

impl<'a> Program<'a> {
    // a line on standard error: the program, and what it has to say
    pub fn say<D: Display + Drop>(self, what: D) {
        let name = self.name;
        let _ = fmt::Write::write_fmt(&mut Said, format_args!("{name}: {what}\n"));
    }

    // the same of what failed, and why, as the system says it
    // kept: no format: a file's name is octets, and need not be text
    pub fn fail(self, what: &[u8], why: Error) {
        io::write_all(STDERR, self.name.as_bytes());
        io::write_all(STDERR, b": ");
        io::write_all(STDERR, what);
        io::write_all(STDERR, b": ");
        print_reason(STDERR, why);
        io::write_all(STDERR, b"\n");
    }

    // a refusal by its number and in words
    pub fn refused(self, why: Refused) {
        let number = why.number();
        let words = self.kind.words(why);
        self.say(format_args!("refused {number}: {words}"));
    }

    // the number on standard output, and then the same
    pub fn answer_refused(self, rt: &impl Print, why: Refused) {
        let number = why.number();
        self.written(println!(rt; "refused {number}"));
        self.refused(why);
    }

    // the place that goes with a refusal, if any, of which `why` can be asked
    pub fn name_place(self, why: Refused) {
        if let Refused::NoSignals { place } = why {
            self.say(format_args!("the first place with basic alignment is {place}"));
        }
    }

    // what a call answers, on standard output; or the refusal
    pub fn answer<D: Display + Drop>(self, rt: &impl Print, answered: Result<D, Refused>) {
        match answered {
            Ok(value) => self.written(rt.print(value)),
            Err(why) => {
                self.answer_refused(rt, why);
                self.name_place(why);
            }
        }
    }

    // a line that was made, on standard output; or why there is none
    pub fn put(self, rt: &impl Print, made: Result<&[u8], Refused>) {
        match made {
            Ok(line) => self.written(rt.write_all(line)),
            Err(why) => self.refused(why),
        }
    }

    // the end of a program's output, which was written or not
    pub fn written(self, ok: Printed) {
        if let Err(why) = ok {
            self.fail(b"standard output", why);
        }
    }

    // the place that argument `at` names; where it names none, that is said
    pub fn place(self, rt: &impl Env, at: usize) -> Option<u64> {
        let place = argument(rt, at);
        if place.is_none() {
            self.say("the place to ask about is missing, or is not a decimal number");
        }
        place
    }

    // The file that argument `at` names, or standard input where there is none. It is the last argument. Where it cannot be
    // opened, that is said.
    pub fn open<R: Env + Files + std::io::Input>(
        self,
        rt: &R,
        at: usize,
        path: &mut [u8],
    ) -> Option<Input<R::Reader, R::File>>
        requires { 14 ≤ length path.old }
        ensures { IfSome result (λ input. IsPrefixLen input.n path.new) }
    {
        let given = rt.arg(at, path);
        if let Err(FillError::NotPresent) = given {
            path[..14].copy_from_slice(b"standard input");
            return Some(Input {
                source: Source::Standard(rt.reader()),
                n: 14,
            });
        }
        if !is_last(rt, at) {
            self.say("too many arguments: it reads one file, or standard input");
            return None;
        }
        let Ok(n) = given else {
            self.fail(b"its argument", Error::from_raw_os_error(ENAMETOOLONG));
            return None;
        };
        match open_file(rt, &path[..n]) {
            Ok(file) => Some(Input {
                source: Source::File(file),
                n,
            }),
            Err(why) => {
                self.fail(&path[..n], why);
                None
            }
        }
    }

    // How many octets the program's input has, of which argument `at` is the name, as far as there is room for it. Where it
    // cannot be read, that is said.
    pub fn read<R: Env + Files + std::io::Input>(
        self,
        rt: &R,
        at: usize,
        room: &mut [u8],
    ) -> Option<usize>
        ensures { IfSome result (λ n. IsPrefixLen n room.new) }
    {
        let mut path = io::buffer();
        // by `?` the open input, which has a window of 8,192 octets, would stand once more on the stack
        let Some(mut input) = self.open(rt, at, &mut path) else {
            return None;
        };
        match take(&mut input.source, room) {
            Ok(taken) => Some(taken),
            Err(why) => {
                self.fail(&path[..input.n], why);
                None
            }
        }
    }

    // the line that is framed from the program's input, of which argument `at` is the name, as far as there is room for it
    pub fn frame<
        'b,
        R: Env + Files + std::io::Input + Print,
        L: Drop,
        F: FnOnce(&[u8], L) -> Result<&'b [u8], Refused>,
    >(self, rt: &R, at: usize, room: &mut [u8], line: L, framed: F)
        requires { (octets : _) → length octets.now ≤ length room.old → F.pre framed octets line }
    {
        if let Some(n) = self.read(rt, at, room) {
            self.put(rt, framed(&room[..n], line));
        }
    }
}

// argument `at`, put where a room begins: how many octets it has, unless it is missing or has no room
fn word(rt: &impl Env, at: usize, room: &mut [u8]) -> Option<usize>
    ensures { IfSome result (λ n. IsPrefixLen n room.new) }
{
    rt.arg(at, room).ok()
}

// the one number that argument `at` spells
pub fn argument(rt: &impl Env, at: usize) -> Option<u64> {
    let mut room = io::buffer();
    let n = word(rt, at, &mut room)?;
    let mut row = [0; 8];
    if numbers(&room[..n], &mut row)? != 1 {
        return None;
    }
    Some(row[0])
}

// argument `at` is this option
pub fn is_option(rt: &impl Env, at: usize, option: &[u8]) -> bool {
    let mut room = io::buffer();
    word(rt, at, &mut room).is_some_and(|n| &room[..n] == option)
}

// the first argument is this option
pub fn is_first(rt: &impl Env, option: &[u8]) -> bool {
    is_option(rt, 1, option)
}

// the program was given an argument `at`
pub fn is_given(rt: &impl Env, at: usize) -> bool {
    let mut room = [0u8; 1];
    !matches!(rt.arg(at, &mut room), Err(FillError::NotPresent))
}

fn is_last(rt: &impl Env, at: usize) -> bool {
    at == usize::MAX || !is_given(rt, at + 1)
}

// A name of a file as text. The system knows none with an octet 0, and here it is asked for none that is no text.
fn text_of(name: &[u8]) -> std::io::Result<&str> {
    if name.contains(&0) {
        return Err(Error::from_raw_os_error(EINVAL));
    }
    str::from_utf8(name).map_err(|_| Error::from_raw_os_error(EILSEQ))
}

// the file of this name, to be read
fn open_file<R: Files>(rt: &R, name: &[u8]) -> std::io::Result<R::File> {
    fs::open(rt, text_of(name)?)
}

// the file of this name, made or emptied, to be written
pub fn create_file<R: Files>(rt: &R, name: &[u8]) -> std::io::Result<R::File> {
    fs::create(rt, text_of(name)?)
}

// how many multiframes or superframes a program is given, of so many octets each
pub fn whole(octets: &[u8], each: usize) -> Result<usize, Refused>
    requires { 0 < each }
    ensures { IfOk result (λ n. length octets.now ≡ each * n) }
{
    if octets.len() % each != 0 {
        return Err(Refused::Payload);
    }
    Ok(octets.len() / each)
}

// where octets come from
#[derive(Drop)]
pub enum Source<S, F> {
    Standard(S),
    File(F),
}

impl<S: Read, F: Read> Read for Source<S, F> {
    fn read(&mut self, buf: &mut [u8]) -> std::io::Result<usize> {
        match self {
            Source::Standard(input) => input.read(buf),
            Source::File(file) => file.read(buf),
        }
    }
}

impl<S: IsTerminal, F: IsTerminal> IsTerminal for Source<S, F> {
    fn is_terminal(&self) -> bool {
        match self {
            Source::Standard(input) => input.is_terminal(),
            Source::File(file) => file.is_terminal(),
        }
    }
}

// an open input: where its octets come from, and how many octets of a lent path are its name
// kept: no heap, and no slice: what is promised of n speaks of the path
#[derive(Drop)]
pub struct Input<S, F> {
    pub source: Source<S, F>,
    pub n: usize,
}

// reads up to the input's end or to the room's: how many octets
// kept: a loop: of std's reads that go on to the end, one wants a heap, and the other does not say how much was read
fn take(source: &mut impl Read, room: &mut [u8]) -> std::io::Result<usize>
    ensures { IfOk result (λ n. IsPrefixLen n room.new) }
{
    let mut n = 0;
    while n < room.len() {
        let more = source.read(&mut room[n..])?;
        if more == 0 {
            break;
        }
        n += more;
    }
    Ok(n)
}
