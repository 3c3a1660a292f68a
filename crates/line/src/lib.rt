#![tactic(auto)]

ghost use Rattle.std.specs.Prelude.{◌≡◌, ◌+◌, ◌-◌, ◌*◌, ◌^◌, ◌<◌, ◌≤◌, length, take, drop};
ghost use Rattle.line.specs.Bit.{bit_at, field, octet_at};
ghost use Rattle.line.specs.Spelt.{spelt_octet};
ghost use Rattle.line.specs.Sized.{sized_by};
ghost use Rattle.line.specs.Window.{turned};
ghost use Rattle.base.specs.Tab.{tab};

// bit o of octet i
pub fn bit_in(s: &[u8], i: usize, o: usize) -> u8
    requires { (i < length s.now) × (o < 8) }
    ensures { (result ≡ bit_at s.now (8 * i + o)) × (result < 2) }
{
    (s[i] >> (7 - o)) & 1
}

// the bit at place p
pub fn bit(s: &[u8], p: usize) -> u8
    requires { p < 8 * length s.now }
    ensures { (result ≡ bit_at s.now p) × (result < 2) }
{
    bit_in(s, p >> 3, p & 7)
}

// the octet that the eight bits from bit o of octet i on spell
pub fn octet_in(s: &[u8], i: usize, o: usize) -> u8
    requires { (8 * i + o + 8 ≤ 8 * length s.now) × (o < 8) }
    ensures { result ≡ octet_at s.now (8 * i + o) }
{
    if o == 0 {
        return s[i];
    }
    (s[i] << o) | (s[i + 1] >> (8 - o))
}

// the octet that the eight bits from place p on spell
pub fn octet(s: &[u8], p: usize) -> u8
    requires { p + 8 ≤ 8 * length s.now }
    ensures { result ≡ octet_at s.now p }
{
    octet_in(s, p >> 3, p & 7)
}

// the run of 16 octets from bit o of octet i on, by value: it is read whole before any of it is written; by index, as with
// `array::from_fn` it takes three instructions more, and of what `iter_mut().enumerate()` writes no proof knows
pub fn run_in(s: &[u8], i: usize, o: usize) -> [u8; 16]
    requires { (8 * i + o + 128 ≤ 8 * length s.now) × (o < 8) }
    ensures { result ≡ tab 16 (λ j. octet_at s.now (8 * i + o + 8 * j)) }
{
    let mut octets = [0; 16];
    for j in 0..16 {
        octets[j] = octet_in(s, i + j, o);
    }
    octets
}

// writes a run to `out`, octet by octet: with `copy_from_slice` the compiler keeps the run in memory and compares places,
// and reading and writing as one function, which E1 and T1 both call, is twice as slow for E1
pub fn put_run(octets: [u8; 16], out: &mut [u8])
    requires { length out.old ≡ 16 }
    ensures { out.new ≡ octets }
{
    for j in 0..16 {
        out[j] = octets[j];
    }
}

// the seven bits from place p + 1 on, of the octet at p
pub fn word(s: &[u8], p: usize) -> u8
    requires { p + 8 ≤ 8 * length s.now }
    ensures { result ≡ field s.now (p + 1) 7 }
{
    octet(s, p) & 0x7f
}

// the eight octets from i on; with `first_chunk` or `copy_from_slice` the compiler leaves a comparison at each window
fn eight(s: &[u8], i: usize) -> [u8; 8]
    requires { i + 8 ≤ length s.now }
    ensures { result ≡ take 8 (drop i s.now) }
{
    [
        s[i],
        s[i + 1],
        s[i + 2],
        s[i + 3],
        s[i + 4],
        s[i + 5],
        s[i + 6],
        s[i + 7],
    ]
}

// the eight octets from i on as a number that, turned, the 64 bits from there on spell
pub fn eight_octets(s: &[u8], i: usize) -> u64
    requires { i + 8 ≤ length s.now }
    ensures { turned 8 result ≡ field s.now (8 * i) 64 }
{
    u64::from_le_bytes(eight(s, i))
}

// byte-reversed
pub fn turned(w: u64) -> u64
    ensures { result ≡ turned 8 w }
{
    w.swap_bytes()
}

// the number that the 64 bits from octet i on spell
pub fn window(s: &[u8], i: usize) -> u64
    requires { i + 8 ≤ length s.now }
    ensures { result ≡ field s.now (8 * i) 64 }
{
    u64::from_be_bytes(eight(s, i))
}

// writes the eight octets that spell a number
pub fn spell(n: u64, octets: &mut [u8])
    requires { length octets.old ≡ 8 }
    ensures { octets.new ≡ tab 8 (spelt_octet n) }
{
    octets.copy_from_slice(&n.to_be_bytes());
}

// how many octets there are from which on n octets stand
pub fn octets_with_room(s: &[u8], n: usize) -> usize
    requires { length s.now < 2 ^ 60 }
    ensures { result ≡ length s.now + 1 - n }
{
    (s.len() + 1).saturating_sub(n)
}

// so many octets are a payload of 1 to MOST multiframes or superframes of EACH octets
pub fn is_sized<const EACH: usize, const MOST: usize>(octets: usize) -> bool
    requires { 0 < EACH }
    ensures { result ≡ sized_by EACH MOST octets }
{
    let n = octets / EACH;
    (octets % EACH == 0) & ((1 <= n) & (n <= MOST))
}
