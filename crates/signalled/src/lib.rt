// Multiframes written with signalling in slot 16.
#![tactic(auto)]

ghost use Rattle.std.specs.Prelude.{◌≡◌, ◌*◌, ◌≤◌, ◌<◌, length};
ghost use Rattle.write.specs.Answer.{answered};
ghost use Rattle.signalled.specs.Slot16.{slot16, with_slot16, nibbles, signals_fit};
ghost use Rattle.signalled.specs.Entry.{Wrote};
ghost use Rattle.signalled.specs.Given.{Given};

use base::Refused;
use write::Payload;

// n octets, each from low to 15
fn nibbles(octets: &[u8], n: usize, low: u8) -> bool
    ensures { result ≡ nibbles low n octets.now }
{
    octets.len() == n && octets.iter().all(|x| (low <= *x) & (*x <= 15))
}

// n octets XY, and 30n octets ABCD of which none is 0000
fn signals_fit(xy: &[u8], abcd: &[u8], n: usize) -> bool
    requires { n ≤ 16 }
    ensures { result ≡ signals_fit xy.now abcd.now n }
{
    nibbles(xy, n, 0) & nibbles(abcd, 30 * n, 1)
}

// a payload, and what stands in slot 16 of its frames in its place
#[derive(Clone, Copy)]
struct Signalled<'a> {
    payload: &'a [u8],
    xy: &'a [u8],
    abcd: &'a [u8],
    ghost whole: { length payload.now ≡ 496 * length xy.now },
    ghost given: { Given xy.now abcd.now (length xy.now) },
}

impl Signalled<'_> {
    fn slot_16(&self, f: usize) -> u8
        requires { f < 16 * length self.now.xy.now }
        ensures { result ≡ slot16 self.now.xy.now self.now.abcd.now f }
    {
        let m = f / 16;
        let i = f % 16;
        if i == 0 {
            return self.xy[m];
        }
        let c = 30 * m + i;
        16 * self.abcd[c - 1] + self.abcd[c + 14]
    }
}

impl Payload for Signalled<'_> {
    ghost octets = { λ s. with_slot16 s.payload.now s.xy.now s.abcd.now };

    #[tactic(auto, using(crate::proofs::Laws::with_length))]
    fn multiframe(&self, m: usize) -> Self {
        let v = 30 * m;
        Signalled {
            payload: self.payload.multiframe(m),
            xy: &self.xy[m..m + 1],
            abcd: &self.abcd[v..v + 30],
        }
    }

    fn frame(&self, f: usize) -> [u8; 31] {
        let mut octets = self.payload.frame(f);
        octets[15] = self.slot_16(f);
        octets
    }
}

// whole multiframes from the payload and the overhead, the first block carrying check, with the signalling of xy and abcd
// in slot 16; and the check of the last block
pub fn write_signalled(
    payload: &[u8],
    overhead: &[u8],
    check: u64,
    xy: &[u8],
    abcd: &[u8],
    out: &mut [u8],
) -> Result<u64, Refused>
    ensures { Wrote payload.now overhead.now check xy.now abcd.now
        out.old (answered result) out.new }
{
    write::fault(payload, overhead, check)?;
    let n = payload.len() / 496;
    if !signals_fit(xy, abcd, n) {
        return Err(Refused::Signalling);
    }
    if out.len() < 512 * n {
        return Err(Refused::NoRoom);
    }
    let payload = Signalled { payload, xy, abcd };
    Ok(u64::from(write::write_all(&payload, overhead, check as u8, n, out)))
}
