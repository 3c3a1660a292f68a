// Signalling in slot 16, read.
#![tactic(auto)]

ghost use Rattle.std.specs.Prelude.{◌≡◌, ◌++◌, ◌*◌, ◌≤◌, ◌<◌, length, take, drop};
ghost use Rattle.line.specs.Bit.{Room};
ghost use Rattle.signals.specs.Signalling.{signal_at, aligns, abcd_in, xy_in};
ghost use Rattle.base.specs.Number.{number_in};
ghost use Rattle.read.specs.Entry.{refused_place};
ghost use Rattle.signals.specs.Answer.{answered, place_with};
ghost use Rattle.signals.specs.Entry.{slot16_of, filled, Signalled};
ghost use Rattle.signals.specs.Follow.{begins, followed, channels};

use base::Refused;

// What is read. `starts` has the frame at which each signalling multiframe begins that is read, and zeros behind them.
// kept: no slice in place of `multiframes` and `starts`: there is no heap
// kept: what `Followed` has stands here again: callers read the fields of an answer, and no part of it
// kept: no option for `first`, 0 where there is none: the C interface answers the number
#[derive(Clone, Copy)]
pub struct Signalling {
    pub multiframes: usize,
    pub first: usize,
    pub losses: usize,
    pub held: bool,
    pub x0: u8,
    pub x1: u8,
    pub x2: u8,
    pub y: u8,
    pub starts: [usize; 16],
}

// What is found in the octets of slot 16.
#[derive(Clone, Copy)]
struct Followed {
    multiframes: usize,
    starts: [usize; 16],
    first: usize,
    losses: usize,
    held: bool,
}

impl Followed {
    // the channels of each signalling multiframe that is read, to its part of the output
    fn put_abcd(&self, t: &[u8], out: &mut [u8])
        requires { (length t.now ≤ 256) × (self.now ≡ followed t.now) × (filled t.now ≤ length out.old) }
        ensures { out.new ≡ abcd_in t.now (length t.now) ++ drop (filled t.now) out.old }
    {
        for (m, start) in self.starts[..self.multiframes].iter().enumerate() {
            let f = *start;
            // kept: by index: a proof does not know what is left in a slice under `chunks_exact_mut`
            let a = 30 * m;
            put_channels(&t[f..f + 16], &mut out[a..a + 30]);
        }
    }

    // frame 0 of the last that is read; X 1 and Y 0 where none is, or alignment is not held
    fn xy(&self, t: &[u8]) -> u8
        requires { (length t.now ≤ 256) × (self.now ≡ followed t.now) }
        ensures { result ≡ xy_in t.now (length t.now) }
    {
        if self.held & (0 < self.multiframes) {
            return t[self.starts[self.multiframes - 1]];
        }
        11
    }
}

// frame f has the signal
fn signal_at(t: &[u8], f: usize) -> bool
    requires { f < length t.now }
    ensures { result ≡ signal_at t.now f }
{
    t[f] / 16 == 0
}

// alignment can be taken at frame f
#[tactic(auto, unfolding(crate::specs::Signalling::aligns), using(crate::proofs::Laws::aligns_later))]
fn aligns(t: &[u8], f: usize) -> bool
    requires { f < length t.now }
    ensures { result ≡ aligns t.now f }
{
    if f == 0 {
        return false;
    }
    signal_at(t, f) & (t[f - 1] != 0)
}

// a signalling multiframe begins with frame f
#[tactic(auto, unfolding(crate::specs::Follow::begins))]
fn begins(t: &[u8], f: usize, held: bool, wrong: bool) -> bool
    requires { f < length t.now }
    ensures { result ≡ begins t.now f held wrong }
{
    if held {
        return !(wrong & !signal_at(t, f));
    }
    aligns(t, f)
}

// A frame at a step while alignment is searched for, a signalling multiframe at a step while it is held.
fn follow(t: &[u8]) -> Followed
    requires { length t.now ≤ 256 }
    ensures { result ≡ followed t.now }
{
    let mut multiframes: usize = 0;
    let mut starts = [0; 16];
    let mut first: usize = 0;
    let mut losses: usize = 0;
    let mut held = false;
    let mut wrong = false;
    let mut f = 0;
    // kept: no `for`: a step is one frame or sixteen
    while f < t.len() {
        if begins(t, f, held, wrong) {
            if first == 0 {
                first = f;
            }
            held = true;
            if t.len() - f < 16 {
                break;
            }
            starts[multiframes] = f;
            multiframes += 1;
            wrong = !signal_at(t, f);
            f += 16;
        } else {
            losses += held as usize;
            held = false;
            f += 1;
        }
    }
    Followed {
        multiframes,
        starts,
        first,
        losses,
        held,
    }
}

// the channels of a signalling multiframe: 1 to 15 from the high four bits of its octets, 16 to 30 from the low
fn put_channels(t: &[u8], out: &mut [u8])
    requires { (length t.now ≡ 16) × (length out.old ≡ 30) }
    ensures { out.new ≡ channels t.now 0 }
{
    for (i, octet) in t[1..].iter().enumerate() {
        out[i] = octet / 16;
        out[i + 15] = octet % 16;
    }
}

// slot 16 of the frames of g multiframes, 16 at most
fn slot16_of(s: &[u8], q: usize, g: usize) -> [u8; 256]
    requires { Room s.now q (4096 * g) × (g ≤ 16) }
    ensures { take (16 * g) result ≡ slot16_of s.now q g }
{
    let i = q >> 3;
    let o = q & 7;
    let mut octets = [0; 256];
    for (f, octet) in octets[..16 * g].iter_mut().enumerate() {
        *octet = line::octet_in(s, i + 32 * f + 16, o);
    }
    octets
}

// The signalling of an image is read: thirty octets for each signalling multiframe go to the output.
pub fn signals(image: &[u8], out: &mut [u8]) -> Result<Signalling, Refused>
    ensures answer { Signalled image.now out.old (answered result) out.new }
    ensures place { place_with result ≡ refused_place image.now (number_in result) }
{
    let located = read::locate(image)?;
    let octets = slot16_of(image, located.start, located.used);
    let t = &octets[..16 * located.used];
    let found = follow(t);
    if out.len() < 30 * found.multiframes {
        return Err(Refused::NoRoom);
    }
    let xy = found.xy(t);
    found.put_abcd(t, out);
    Ok(Signalling {
        multiframes: found.multiframes,
        first: found.first,
        losses: found.losses,
        held: found.held,
        x0: xy / 8 % 2,
        x1: xy / 2 % 2,
        x2: xy % 2,
        y: xy / 4 % 2,
        starts: found.starts,
    })
}
