// Writing multiframes of an E1 line.
#![tactic(auto)]

ghost use Rattle.std.specs.Prelude.{◌≡◌, ℕ, List, ◌∷◌, ◌++◌, ◌+◌, ◌*◌, ◌^◌, ◌<◌, ◌≤◌, length, drop};
ghost use Rattle.std.specs.List.{between};
ghost use Rattle.e1.specs.Block.{block_check};
ghost use Rattle.write.specs.Writing.{bit1, slot0, block, carries, written};
ghost use Rattle.base.specs.Answer.{first_number};
ghost use Rattle.base.specs.Number.{number_in};
ghost use Rattle.write.specs.Answer.{answered};
ghost use Rattle.write.specs.Entry.{overhead_limit, overhead_fits, faults, Wrote};
ghost use Rattle.write.specs.Inputs.{BlockInputs, Inputs};

use base::Refused;
use crc::table::Remainders;

// the multiframe signal
const SIGNAL: [u8; 6] = [0, 0, 1, 0, 1, 1];

// bit 1 of the odd frame f, whose overhead octet is x
fn bit_1(f: usize, x: u8) -> u8
    requires { x < 128 }
    ensures { (result ≡ bit1 f x) × (result < 2) }
{
    let h = f / 2 % 8;
    // `SIGNAL.get(h)` with `unwrap_or` was slower: 3 instructions an odd frame
    if h < 6 {
        return SIGNAL[h];
    }
    x / 64
}

// slot 0 of frame f, in a block that carries the check k
pub fn slot_0(k: u8, f: usize, x: u8) -> u8
    requires { x < 128 }
    ensures { result ≡ slot0 k f x }
{
    if f % 2 == 0 {
        return 128 * ((k >> (3 - f / 2 % 4)) % 2) + 27;
    }
    128 * bit_1(f, x) + 64 + x % 64
}

// a payload, taken multiframe by multiframe, and each frame by frame
pub trait Payload: Copy {
    ghost octets: { Self → List ℕ };

    // multiframe m, lent on as a part that begins in the middle
    fn multiframe(&self, m: usize) -> Self
        requires { 496 * m + 496 ≤ length (octets self.now) }
        ensures { octets result ≡ between (496 * m) (496 * m + 496) (octets self.now) };

    // the octets of frame f, by value: they are read whole before any of them is written
    fn frame(&self, f: usize) -> [u8; 31]
        requires { 31 * f + 31 ≤ length (octets self.now) }
        ensures { result ≡ between (31 * f) (31 * f + 31) (octets self.now) };
}

// as it stands
impl Payload for &[u8] {
    ghost octets = { λ p. p.now };

    fn multiframe(&self, m: usize) -> Self {
        let p = 496 * m;
        &self[p..p + 496]
    }

    fn frame(&self, f: usize) -> [u8; 31] {
        let p = 31 * f;
        *self[p..p + 31].as_array().unwrap()
    }
}

// a frame: slot 0, and its payload in slots 1 to 31. By `copy_from_slice` it was slower: whether the two overlap is tested.
pub fn write_frame(slot: u8, octets: [u8; 31], out: &mut [u8])
    requires { length out.old ≡ 32 }
    ensures { out.new ≡ slot ∷ octets }
{
    out[0] = slot;
    for j in 0..31 {
        out[j + 1] = octets[j];
    }
}

// block b, which carries the check k: its frames, and its check
#[inline(always)]
fn write_block<P: Payload>(
    payload: &P,
    overhead: &[u8],
    k: u8,
    b: usize,
    out: &mut [u8],
    table: &Remainders,
) -> u8
    requires { BlockInputs (P.octets payload.now) overhead.now k b × (length out.old ≡ 256) }
    ensures out_after { out.new ≡ block (P.octets payload.now) overhead.now k b }
    ensures value { (result ≡ block_check out.new 0) × (result < 16) }
{
    for i in 0..8 {
        let f = 8 * b + i;
        let slot = slot_0(k, f, overhead[f / 2]);
        let a = 32 * i;
        write_frame(slot, payload.frame(f), &mut out[a..a + 32]);
    }
    e1::block_check(out, 0, k, table)
}

// a multiframe, of which the first block carries the check k: its two blocks, and the check of the second
fn write_multiframe<P: Payload>(
    payload: &P,
    overhead: &[u8],
    k: u8,
    out: &mut [u8],
    table: &Remainders,
) -> u8
    requires { Inputs (P.octets payload.now) overhead.now k 1 × (length out.old ≡ 512) }
    ensures out_after { out.new ≡ written (P.octets payload.now) overhead.now k 2 }
    ensures value { (result ≡ carries (P.octets payload.now) overhead.now k 2) × (result < 16) }
{
    let c = write_block(payload, overhead, k, 0, &mut out[0..256], table);
    write_block(payload, overhead, c, 1, &mut out[256..512], table)
}

// n multiframes, each with its part of the payload, of the overhead and of the output, and the check of the last block
pub fn write_all<P: Payload>(
    payload: &P,
    overhead: &[u8],
    check: u8,
    n: usize,
    out: &mut [u8],
) -> u8
    requires { Inputs (P.octets payload.now) overhead.now check n × (512 * n ≤ length out.old) }
    ensures out_after { out.new
        ≡ written (P.octets payload.now) overhead.now check (2 * n) ++ drop (512 * n) out.old }
    ensures value { result ≡ carries (P.octets payload.now) overhead.now check (2 * n) }
{
    let table = Remainders::new();
    let mut c = check;
    for m in 0..n {
        let h = 8 * m;
        let a = 512 * m;
        c = write_multiframe(
            &payload.multiframe(m),
            &overhead[h..h + 8],
            c,
            &mut out[a..a + 512],
            &table,
        );
    }
    c
}

// what the overhead octet of the odd frame 2h + 1 stays below
fn overhead_limit(h: usize) -> u8
    ensures { result ≡ overhead_limit h }
{
    if h % 8 < 6 {
        return 64;
    }
    128
}

// 8n octets, and in none a bit that must be 0
fn overhead_fits(overhead: &[u8], n: usize) -> bool
    requires { n < 2 ^ 60 }
    ensures { result ≡ overhead_fits overhead.now n }
{
    overhead.len() == 8 * n
        && overhead
            .iter()
            .enumerate()
            .all(|(h, x)| *x < overhead_limit(h))
}

// what is wrong with what a call is given
pub fn fault(payload: &[u8], overhead: &[u8], check: u64) -> Result<(), Refused>
    ensures { number_in result ≡ first_number (faults payload.now overhead.now check) }
{
    if !e1::is_sized(payload.len()) {
        return Err(Refused::Payload);
    }
    if !overhead_fits(overhead, payload.len() / 496) {
        return Err(Refused::Overhead);
    }
    if 15 < check {
        return Err(Refused::Check);
    }
    Ok(())
}

// whole multiframes from the payload and the overhead, the first block carrying check; and the check of the last block
pub fn write(payload: &[u8], overhead: &[u8], check: u64, out: &mut [u8]) -> Result<u64, Refused>
    ensures { Wrote payload.now overhead.now check out.old (answered result) out.new }
{
    fault(payload, overhead, check)?;
    let n = payload.len() / 496;
    if out.len() < 512 * n {
        return Err(Refused::NoRoom);
    }
    Ok(u64::from(write_all(&payload, overhead, check as u8, n, out)))
}
