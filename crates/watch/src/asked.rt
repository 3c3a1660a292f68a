// What the arguments ask for.
ghost use Rattle.std.specs.Prelude.{◌≤◌};

use crate::{Stopped, WATCH};
use program::Printed;
use std::io::Write;
use std::rt::{Env, Files};

// The number of the argument that names the payload's file, if one does, and of the one that may name the line; and
// whether changes are printed.
#[derive(Clone, Copy)]
pub struct Asked {
    pub payload: Option<usize>,
    pub line: usize,
    pub phones: bool,
}

// from argument `at` on, where those before it ask for changes or do not
fn from(rt: &impl Env, at: usize, phones: bool) -> Asked
    requires { at ≤ 2 }
{
    if !program::is_option(rt, at, b"--payload") {
        return Asked {
            payload: None,
            line: at,
            phones,
        };
    }
    let payload = Some(at + 1);
    if program::is_option(rt, at + 2, b"--phones") {
        return Asked {
            payload,
            line: at + 3,
            phones: true,
        };
    }
    Asked {
        payload,
        line: at + 2,
        phones,
    }
}

// The options come in either order.
pub fn arguments(rt: &impl Env) -> Asked {
    if program::is_option(rt, 1, b"--phones") {
        return from(rt, 2, true);
    }
    from(rt, 1, false)
}

// an open file for the payload, and its name
#[derive(Drop)]
pub struct Output<'a, F> {
    file: F,
    name: &'a [u8],
}

impl<'a, F: Write> Output<'a, F> {
    // Where octets cannot be written, that is said.
    pub fn put(&mut self, octets: &[u8]) -> Printed {
        let written = self.file.write_all(octets);
        if let Err(why) = written {
            WATCH.fail(self.name, why);
        }
        written
    }
}

impl Asked {
    // The payload's file, made or emptied, if one is asked for. Where it cannot be, that is said.
    pub fn create<'a, R: Env + Files>(
        self,
        rt: &R,
        room: &'a mut [u8],
    ) -> Result<Option<Output<'a, R::File>>, Stopped> {
        let Some(at) = self.payload else {
            return Ok(None);
        };
        let Ok(n) = rt.arg(at, room) else {
            WATCH.say("the name of the payload's file is missing, or is too long");
            return Err(Stopped::Failed);
        };
        let name = &room[..n];
        match program::create_file(rt, name) {
            Ok(file) => Ok(Some(Output { file, name })),
            Err(why) => {
                WATCH.fail(name, why);
                Err(Stopped::Failed)
            }
        }
    }
}
