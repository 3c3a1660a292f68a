// Reading a T1 image from the first place that stands.
#![tactic(auto)]

ghost use Rattle.std.specs.Prelude.{◌≡◌, ◌++◌, ◌+◌, ◌*◌, ◌^◌, ◌<◌, ◌≤◌, length, drop};
ghost use Rattle.line.specs.Bit.{Room, octet_at};
ghost use Rattle.base.specs.Tab.{tab};
ghost use Rattle.line.specs.Spelt.{digit};
ghost use Rattle.t1.specs.Superframe.{super_check};
ghost use Rattle.t1.specs.Raw.{framing_of};
ghost use Rattle.t1read.specs.Reading.{payload_of, link_of, errored};
ghost use Rattle.t1read.specs.Filled.{filled, every_eighth};
ghost use Rattle.t1read.specs.Answer.{answered};
ghost use Rattle.t1read.specs.Entry.{Read};

use base::Refused;

// what is read
#[derive(Clone, Copy)]
pub struct Reading {
    pub place: usize,
    pub whole: usize,
    pub compared: usize,
    pub errored: usize,
}

// the 24 octets from bit o of octet i on: two runs, which share eight
fn put_frame(s: &[u8], i: usize, o: usize, out: &mut [u8])
    requires { (8 * i + o + 192 ≤ 8 * length s.now) × (o < 8) × (length out.old ≡ 24) }
    ensures { out.new ≡ tab 24 (λ j. octet_at s.now (8 * i + o + 8 * j)) }
{
    for h in 0..2 {
        let a = 8 * h;
        line::put_run(line::run_in(s, i + a, o), &mut out[a..a + 16]);
    }
}

// frames g, g + 8, g + 16 and so on of n superframes, which begin at one bit of their octets, 193 octets apart
fn put_every_eighth(s: &[u8], q: usize, g: usize, n: usize, out: &mut [u8])
    requires { Room s.now q (4632 * n) × (576 * n ≤ length out.old) × (g < 8) }
    ensures { out.new ≡ filled (every_eighth g (24 * n)) s.now q out.old }
{
    let p = q + 193 * g + 1;
    let i = p >> 3;
    let o = p & 7;
    for a in 0..3 * n {
        let e = 24 * (8 * a + g);
        put_frame(s, i + 193 * a, o, &mut out[e..e + 24]);
    }
}

// the payload of n superframes, each frame to its part of the output
fn payload_of(s: &[u8], q: usize, n: usize, out: &mut [u8])
    requires { Room s.now q (4632 * n) × (576 * n ≤ length out.old) }
    ensures { out.new ≡ payload_of s.now q n ++ drop (576 * n) out.old }
{
    for g in 0..8 {
        put_every_eighth(s, q, g, n, out);
    }
}

// the data link of a superframe, from its framing bits
fn put_link(framing: u64, out: &mut [u8])
    requires { length out.old ≡ 12 }
    ensures { out.new ≡ tab 12 (λ k. digit 24 framing (2 * k)) }
{
    for k in 0..12 {
        let bit = (framing >> (23 - 2 * k)) % 2;
        out[k] = bit as u8;
    }
}

// the check of the superframe at bit o of octet i, whose framing bits are known
fn check_at(s: &[u8], i: usize, o: usize, framing: u64) -> u64
    requires { (i + 587 ≤ length s.now) × (o < 8) × (framing ≡ framing_of s.now (8 * i + o)) × (framing < 2 ^ 24) }
    ensures { result ≡ super_check s.now (8 * i + o) }
{
    let raw = t1::raw::of(&s[i..i + 579]);
    t1::check_by(t1::raw::slid(s, i, o, raw), framing)
}

// the data link of n superframes, and how many of all but the last do not agree; each framing bit is taken once
fn judge(s: &[u8], q: usize, n: usize, link: &mut [u8]) -> usize
    requires { Room s.now q (4632 * n) × (1 ≤ n) × (12 * n ≤ length link.old) }
    ensures link_after { link.new ≡ link_of s.now q n ++ drop (12 * n) link.old }
    ensures value { result ≡ errored s.now q n }
{
    let i = q >> 3;
    let o = q & 7;
    let mut framing = t1::framing(s, i, o);
    put_link(framing, &mut link[0..12]);
    let mut errored: usize = 0;
    for b in 0..n - 1 {
        let next = t1::framing(s, i + 579 * b + 579, o);
        let a = 12 * b + 12;
        put_link(next, &mut link[a..a + 12]);
        if check_at(s, i + 579 * b, o, framing) != t1::carried_by(next) {
            errored += 1;
        }
        framing = next;
    }
    errored
}

// An image is read: its payload and its data link go to the two outputs.
pub fn read(image: &[u8], payload: &mut [u8], link: &mut [u8]) -> Result<Reading, Refused>
    ensures { Read image.now payload.old link.old
        (answered result) payload.new link.new }
{
    if image.len() < 1158 {
        return Err(Refused::TooShort);
    }
    if 8192 < image.len() {
        return Err(Refused::TooLong);
    }
    let place = t1align::find(image).ok_or(Refused::NoFrames)?;
    let whole = (8 * image.len() - place) / 4632;
    if (payload.len() < 576 * whole) | (link.len() < 12 * whole) {
        return Err(Refused::NoRoom);
    }
    payload_of(image, place, whole, payload);
    let errored = judge(image, place, whole, link);
    Ok(Reading {
        place,
        whole,
        compared: whole - 1,
        errored,
    })
}
