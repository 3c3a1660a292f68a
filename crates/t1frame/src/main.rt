// Frames a payload for T1: its 576n octets and then the 12n octets of the data link come from the file that the argument
// names or from standard input, and the line goes to standard output. With `--signalled`, before the file, 96n octets of
// signalling come behind them.
#![tactic(auto)]

ghost use Rattle.std.specs.Prelude.{◌≤◌, length};

use base::Refused;
use program::{Kind, Program};

const T1FRAME: Program<'static> = Program {
    name: "t1frame",
    kind: Kind::T1,
};

// the line of n superframes; the check of the superframe before the first is 0
fn framed<'a>(octets: &[u8], line: &'a mut [u8; 8106]) -> Result<&'a [u8], Refused>
    requires { length octets.now ≤ 8233 }
{
    let n = program::whole(octets, 588)?;
    let (payload, link) = octets.split_at(576 * n);
    t1write::write(payload, link, 0, line)?;
    Ok(&line[..579 * n])
}

// the same with signalling
fn framed_signalled<'a>(octets: &[u8], line: &'a mut [u8; 8106]) -> Result<&'a [u8], Refused>
    requires { length octets.now ≤ 9577 }
{
    let n = program::whole(octets, 684)?;
    let (payload, rest) = octets.split_at(576 * n);
    let (link, signalling) = rest.split_at(12 * n);
    t1write::write_signalled(payload, link, 0, signalling, line)?;
    Ok(&line[..579 * n])
}

// 14 superframes take 8,232 octets, and 9,576 with signalling, so one octet more is enough to know that there are more.
fn main(rt: HostRuntime) {
    let mut line = [0u8; 8106];
    if program::is_first(&rt, b"--signalled") {
        T1FRAME.frame(&rt, 2, &mut [0u8; 9577], &mut line, framed_signalled);
    } else {
        T1FRAME.frame(&rt, 1, &mut [0u8; 8233], &mut line, framed);
    }
}
