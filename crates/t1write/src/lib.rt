// Writing superframes of a T1 line.
#![tactic(auto)]

ghost use Rattle.std.specs.Prelude.{◌≡◌, ℕ, List, ◌++◌, ◌+◌, ◌-◌, ◌*◌, ◌/◌, ◌%◌, ◌^◌, ◌<◌, ◌≤◌, length, drop, IfErr};
ghost use Rattle.base.specs.Answer.{first_number};
ghost use Rattle.base.specs.Number.{number_in, refusal_place};
ghost use Rattle.line.specs.Spelt.{packed, spelt};
ghost use Rattle.t1.specs.Payload.{superframes};
ghost use Rattle.t1write.specs.Writing.{framing_bit, carries, written, with_signals};
ghost use Rattle.t1write.specs.Answer.{answered};
ghost use Rattle.t1write.specs.Entry.{are_bits, faults, Wrote, WroteSignalled};
ghost use Rattle.t1write.specs.Inputs.{OfBits, Inputs, superframe_of, frames_bit};

use base::Refused;

// the signal, as a number
const SIGNAL: u64 = 0b001011;

// the framing bits of a superframe that carries the check k, as a number, the first the highest
fn framing_of(link: &[u8], k: u64) -> u64
    requires { OfBits link.now 12 }
    ensures { (result ≡ spelt 24 (framing_bit link.now k)) × (result < 2 ^ 24) }
{
    let mut bits = 0;
    for j in 0..6 {
        bits = 16 * bits
            + 8 * (link[2 * j] as u64)
            + 4 * ((k >> (5 - j)) % 2)
            + 2 * (link[2 * j + 1] as u64)
            + (SIGNAL >> (5 - j)) % 2;
    }
    bits
}

// the last g + 1 bits of one word, and then as many of the next as make 64
fn joined(high: u64, low: u64, g: usize) -> u64
    requires { g < 8 }
    ensures { result ≡ high % 2 ^ (g + 1) * 2 ^ (63 - g) + low / 2 ^ (g + 1) }
{
    (high << (63 - g)) | (low >> (g + 1))
}

// eight frames with these octets and, as a number, these framing bits: 193 octets, of which frame g begins at bit g of octet 24g
fn write_eight(octets: &[u8], framing: u64, out: &mut [u8])
    requires { (length octets.now ≡ 192) × (length out.old ≡ 193) }
    ensures { out.new ≡ packed 193 (frames_bit octets.now framing) }
{
    let mut before = 0;
    for g in 0..8 {
        let i = 24 * g;
        let first = line::window(octets, i);
        let second = line::window(octets, i + 8);
        let third = line::window(octets, i + 16);
        line::spell(
            joined((before << 1) | ((framing >> (7 - g)) % 2), first, g),
            &mut out[i..i + 8],
        );
        line::spell(joined(first, second, g), &mut out[i + 8..i + 16]);
        line::spell(joined(second, third, g), &mut out[i + 16..i + 24]);
        before = third;
    }
    out[192] = octets[191];
}

// a superframe, which carries the check k, and its check
fn write_superframe(octets: &[u8], link: &[u8], k: u64, out: &mut [u8]) -> u64
    requires { (length octets.now ≡ 576) × OfBits link.now 12 × (length out.old ≡ 579) }
    ensures out_after { out.new ≡ written octets.now link.now k 1 }
    ensures value { result ≡ carries octets.now k 1 }
{
    let framing = framing_of(link, k);
    for a in 0..3 {
        let i = 192 * a;
        let j = 193 * a;
        write_eight(
            &octets[i..i + 192],
            (framing >> (16 - 8 * a)) % 256,
            &mut out[j..j + 193],
        );
    }
    t1::check_by(t1::raw::of(out), framing)
}

// the octets of a superframe with their signalling, by value
fn replaced(payload: &[u8], signalling: &[u8]) -> [u8; 576]
    requires { (length payload.now ≡ 576) × OfBits signalling.now 96 }
    ensures { result ≡ with_signals payload.now signalling.now }
{
    let mut octets = [0; 576];
    octets.copy_from_slice(payload);
    for k in 0..4 {
        for j in 0..24 {
            let i = 144 * k + 120 + j;
            octets[i] = 2 * (octets[i] / 2) + signalling[24 * k + j];
        }
    }
    octets
}

// what is sent, written superframe by superframe, so that of octets with signalling those of one alone need be held
trait Sent {
    ghost octets: { Self → List ℕ };

    // superframe m, which carries the check k, and its check
    fn write_at(&self, m: usize, link: &[u8], k: u64, out: &mut [u8]) -> u64
        requires { (576 * m + 576 ≤ length (octets self.now)) × OfBits link.now 12 × (length out.old ≡ 579) }
        ensures out_after { out.new ≡ written (superframe_of (octets self.now) m) link.now k 1 }
        ensures value { result ≡ carries (superframe_of (octets self.now) m) k 1 };
}

// a payload as it is
#[derive(Clone, Copy)]
struct Plain<'a> {
    payload: &'a [u8],
}

impl<'a> Sent for Plain<'a> {
    ghost octets = { λ s. s.payload.now };

    fn write_at(&self, m: usize, link: &[u8], k: u64, out: &mut [u8]) -> u64 {
        let p = 576 * m;
        write_superframe(&self.payload[p..p + 576], link, k, out)
    }
}

// a payload with signalling
#[derive(Clone, Copy)]
struct Signalled<'a> {
    payload: &'a [u8],
    signalling: &'a [u8],
    ghost bits: { OfBits signalling.now (96 * superframes payload.now) },
}

impl<'a> Sent for Signalled<'a> {
    ghost octets = { λ s. with_signals s.payload.now s.signalling.now };

    fn write_at(&self, m: usize, link: &[u8], k: u64, out: &mut [u8]) -> u64 {
        let p = 576 * m;
        let g = 96 * m;
        let octets = replaced(&self.payload[p..p + 576], &self.signalling[g..g + 96]);
        write_superframe(&octets, link, k, out)
    }
}

// n superframes, each to its part of the output, and the check of the last
fn write_all<S: Sent>(sent: &S, link: &[u8], check: u64, n: usize, out: &mut [u8]) -> u64
    requires { Inputs (S.octets sent.now) link.now check n × (579 * n ≤ length out.old) }
    ensures out_after { out.new
        ≡ written (S.octets sent.now) link.now check n ++ drop (579 * n) out.old }
    ensures value { result ≡ carries (S.octets sent.now) check n }
{
    let mut k = check;
    for m in 0..n {
        let l = 12 * m;
        let a = 579 * m;
        k = sent.write_at(m, &link[l..l + 12], k, &mut out[a..a + 579]);
    }
    k
}

// n octets of 0 or 1
fn are_bits(octets: &[u8], n: usize) -> bool
    ensures { result ≡ are_bits octets.now n }
{
    if octets.len() != n {
        return false;
    }
    let mut all = 0;
    for octet in octets {
        all |= *octet;
    }
    all < 2
}

// what is wrong with what a call is given
fn fault(payload: &[u8], link: &[u8], check: u64) -> Result<(), Refused>
    ensures number { number_in result ≡ first_number (faults payload.now link.now check) }
    ensures place { IfErr result (λ e. refusal_place e ≡ 0) }
{
    if !t1::is_sized(payload.len()) {
        return Err(Refused::Payload);
    }
    if !are_bits(link, 12 * (payload.len() / 576)) {
        return Err(Refused::Overhead);
    }
    if 63 < check {
        return Err(Refused::Check);
    }
    Ok(())
}

// Whole superframes from the payload and the data link, the first carrying check, and the check of the last.
pub fn write(payload: &[u8], link: &[u8], check: u64, out: &mut [u8]) -> Result<u64, Refused>
    ensures { Wrote payload.now link.now check out.old (answered result) out.new }
{
    fault(payload, link, check)?;
    let n = payload.len() / 576;
    if out.len() < 579 * n {
        return Err(Refused::NoRoom);
    }
    Ok(write_all(&Plain { payload }, link, check, n, out))
}

// The same, with the last bits of frames 6, 12, 18 and 24 replaced.
pub fn write_signalled(
    payload: &[u8],
    link: &[u8],
    check: u64,
    signalling: &[u8],
    out: &mut [u8],
) -> Result<u64, Refused>
    ensures { WroteSignalled payload.now link.now check signalling.now out.old (answered result) out.new }
{
    fault(payload, link, check)?;
    let n = payload.len() / 576;
    if !are_bits(signalling, 96 * n) {
        return Err(Refused::Signalling);
    }
    if out.len() < 579 * n {
        return Err(Refused::NoRoom);
    }
    let sent = Signalled {
        payload,
        signalling,
    };
    Ok(write_all(&sent, link, check, n, out))
}
