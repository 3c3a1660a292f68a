// Two hits in one block: for each distance of a step the character that says how many blocks a reading counts as errored.
ghost use Rattle.std.specs.Prelude.{◌<◌};

use crate::lines::BEFORE;
use crate::teller::Teller;
use base::Refused;
use given::Bench;
use given::step::Numbers;
use program::Kind;
use program::text::limited;

const NO_SUCH_BITS: u8 = b'-';

const REFUSED: u8 = b'x';

fn digit(errored: Result<usize, Refused>) -> u8 {
    match errored {
        Ok(n) => b'0' + limited(n as u64, 9) as u8,
        Err(_) => REFUSED,
    }
}

// how many blocks of the line a reading counts as errored
fn errored(bench: &Bench, kind: Kind) -> Result<usize, Refused> {
    let mut payload = [BEFORE; 1984];
    let mut other = [BEFORE; 64];
    match kind {
        Kind::E1 => {
            read::read(&bench.image[..2048], &mut payload, &mut other).map(|r| r.errored)
        }
        Kind::T1 => {
            t1read::read(&bench.image[..1737], &mut payload, &mut other).map(|r| r.errored)
        }
    }
}

// what is read of two hits that lie m apart
fn character(bench: &mut Bench, kind: Kind, m: usize) -> u8
    requires { m < 2048 }
{
    if bench.hit_twice(kind, m) {
        digit(errored(bench, kind))
    } else {
        NO_SUCH_BITS
    }
}

// the distances from one number to another, on a kind of line
pub fn show<P: Print>(t: &Teller<'_, P>, bench: &Bench, kind: Kind, numbers: &Numbers) {
    let to = limited(numbers.at(1), 2047);
    let from = limited(numbers.at(0), to);
    t.print(t.label);
    t.print(b": ");
    let mut bench = *bench;
    for m in from..to + 1 {
        t.print(&[character(&mut bench, kind, m)]);
    }
    t.end();
}
