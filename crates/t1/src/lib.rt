// Superframes of a T1 line: their framing bits, the check that they carry, and their own.
#![tactic(auto)]

pub mod raw;

ghost use Rattle.std.specs.Prelude.{◌≡◌, List, ℕ, ◌+◌, ◌*◌, ◌^◌, ◌<◌, ◌≤◌, length};
ghost use Rattle.t1.specs.Superframe.{carried, super_check};
ghost use Rattle.t1.specs.Payload.{sized};
ghost use Rattle.t1.specs.Raw.{raw, framing_of, fourth};

// the framing bits of the superframe that begins at bit o of octet i, as a number, the first the highest
pub fn framing(s: &[u8], i: usize, o: usize) -> u64
    requires { (8 * i + o + 4632 ≤ 8 * length s.now) × (o < 8) }
    ensures { (result ≡ framing_of s.now (8 * i + o)) × (result < 2 ^ 24) }
{
    let mut bits = 0;
    for f in 0..24 {
        bits = 2 * bits + ((line::window(s, i + 24 * f) << (o + f)) >> 63);
    }
    bits
}

// C1 to C6, from the framing bits of the superframe that carries them
pub fn carried_by(framing: u64) -> u64
    ensures { ((s : List ℕ) (q : ℕ) → framing ≡ framing_of s q → result ≡ carried s q) × (result < 64) }
{
    let mut c = 0;
    for i in 0..6 {
        let below: usize = 22 - 4 * i;
        c = 2 * c + (framing >> below) % 2;
    }
    c
}

// the digits of a remainder four apart
fn fourth(r: u64) -> u64
    ensures { (result ≡ fourth r) × (result < 2 ^ 21) }
{
    r % 2
        + 16 * (r / 2 % 2)
        + 256 * (r / 4 % 2)
        + 4096 * (r / 8 % 2)
        + 65536 * (r / 16 % 2)
        + 1048576 * (r / 32 % 2)
}

// the check of a superframe, from the remainder of its bits as they are and from its framing bits: those that are 0 are
// added, a frame counting for x^193, which is x^4, and the 192 bits behind the last for x^3
pub fn check_by(at: u64, framing: u64) -> u64
    requires { (at < 64) × (framing < 2 ^ 24) }
    ensures { ((s : List ℕ) (q : ℕ) → at ≡ raw s q → framing ≡ framing_of s q → result ≡ super_check s q) × (result < 64) }
{
    let lacking = fourth(crc::six::reduced(16777215 - framing));
    crc::six::after_zeros(crc::six::reduced(at ^ (8 * lacking)))
}

// so many octets are a payload of 1 to 14 superframes
pub fn is_sized(octets: usize) -> bool
    ensures { result ≡ sized octets }
{
    line::is_sized::<576, 14>(octets)
}
