// Frames a payload: its 496n octets and then the 8n overhead octets come from the file that the argument names or from
// standard input, and the line goes to standard output. With `--signalled`, before the file, n octets XY and 30n octets
// ABCD come behind them.
#![tactic(auto)]

ghost use Rattle.std.specs.Prelude.{◌≤◌, length};

use base::Refused;
use program::{Kind, Program};

const FRAME: Program<'static> = Program {
    name: "frame",
    kind: Kind::E1,
};

// the line of n multiframes; the check of the block before the first is 0
fn framed<'a>(octets: &[u8], line: &'a mut [u8; 8192]) -> Result<&'a [u8], Refused>
    requires { length octets.now ≤ 8065 }
{
    let n = program::whole(octets, 504)?;
    let (payload, overhead) = octets.split_at(496 * n);
    write::write(payload, overhead, 0, line)?;
    Ok(&line[..512 * n])
}

// the same with signalling
fn framed_signalled<'a>(octets: &[u8], line: &'a mut [u8; 8192]) -> Result<&'a [u8], Refused>
    requires { length octets.now ≤ 8561 }
{
    let n = program::whole(octets, 535)?;
    let (payload, rest) = octets.split_at(496 * n);
    let (overhead, rest) = rest.split_at(8 * n);
    let (xy, abcd) = rest.split_at(n);
    signalled::write_signalled(payload, overhead, 0, xy, abcd, line)?;
    Ok(&line[..512 * n])
}

// 16 multiframes take 8,064 octets, and 8,560 with signalling, so one octet more is enough to know that there are more.
fn main(rt: HostRuntime) {
    let mut line = [0u8; 8192];
    if program::is_first(&rt, b"--signalled") {
        FRAME.frame(&rt, 2, &mut [0u8; 8561], &mut line, framed_signalled);
    } else {
        FRAME.frame(&rt, 1, &mut [0u8; 8065], &mut line, framed);
    }
}
