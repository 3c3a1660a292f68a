// Reads the signalling of a line, from the file that the argument names or from standard input, and prints which channels
// change. With `--table`, before the file, it prints all of them.
#![tactic(auto)]

use printed::{Change, Values};
use program::{Kind, Printed, Program};
use signals::Signalling;
use std::fmt;
use std::fmt::{Display, Formatter};

const PHONES: Program<'static> = Program {
    name: "phones",
    kind: Kind::E1,
};

// the channels of a signalling multiframe, and those of the one before it
#[derive(Clone, Copy)]
struct Rows<'a> {
    was: &'a [u8],
    is: &'a [u8],
}

// those that change
// Each function that prints stands by itself: a print has a buffer of its own, and compiled into one place they add up.
#[inline(never)]
fn print_changes(rt: &impl Print, rows: Rows, f: usize) -> Printed {
    for (c, (was, is)) in rows.was.iter().zip(rows.is).enumerate() {
        let change = Change { was: *was, is: *is };
        change.print(rt, f, c + 1)?;
    }
    Ok(())
}

// ten channels behind so many others: their numbers, and their bits below, a star before them where they change
#[derive(Clone, Copy)]
struct Ten<'a> {
    numbers: &'static str,
    rows: Rows<'a>,
    behind: usize,
}

impl Display for Ten<'_> {
    fn fmt<W: fmt::Write>(&self, f: &mut Formatter<W>) -> fmt::Result {
        let rows = self.rows;
        write!(f, "channel{}\nABCD   ", self.numbers)?;
        for (was, is) in rows.was.iter().zip(rows.is).skip(self.behind).take(10) {
            let star = if was == is { ' ' } else { '*' };
            write!(f, " {star}{is:04b}")?;
        }
        writeln!(f, "")
    }
}

// all thirty, printed at once
#[inline(never)]
fn print_channels(rt: &impl Print, rows: Rows, f: usize) -> Printed {
    let first = Ten {
        numbers: "     1     2     3     4     5     6     7     8     9    10",
        rows,
        behind: 0,
    };
    let second = Ten {
        numbers: "    11    12    13    14    15    16    17    18    19    20",
        rows,
        behind: 10,
    };
    let third = Ten {
        numbers: "    21    22    23    24    25    26    27    28    29    30",
        rows,
        behind: 20,
    };
    println!(rt; "2 ms {}  frame {f}\n{first}{second}{third}", f / 16)
}

#[inline(never)]
fn print_values(rt: &impl Print, s: &Signalling) -> Printed {
    rt.print(Values(*s))
}

// The signalling multiframes that are read, no more than 15. The first has none before it, and changes nothing.
fn print_abcd(rt: &impl Print, abcd: &[u8; 450], s: &Signalling, is_table: bool) -> Printed {
    let mut was = &abcd[..30];
    for (is, f) in abcd.chunks(30).zip(&s.starts).take(s.multiframes) {
        let rows = Rows { was, is };
        if is_table {
            print_channels(rt, rows, *f)?;
        } else {
            print_changes(rt, rows, *f)?;
        }
        was = is;
    }
    print_values(rt, s)
}

// what the telephones say, or the refusal: its number is printed, and said in words on standard error
fn phones(rt: &impl Print, image: &[u8], is_table: bool) {
    let mut abcd = [0u8; 450];
    match signals::signals(image, &mut abcd) {
        Ok(s) => PHONES.written(print_abcd(rt, &abcd, &s, is_table)),
        Err(why) => PHONES.answer_refused(rt, why),
    }
}

// No line over 8,192 octets is read, so one octet more is enough to know that it is longer.
fn main(rt: HostRuntime) {
    let is_table = program::is_first(&rt, b"--table");
    let at = if is_table { 2 } else { 1 };
    let mut image = [0u8; 8193];
    if let Some(n) = PHONES.read(&rt, at, &mut image) {
        phones(&rt, &image[..n], is_table);
    }
}
