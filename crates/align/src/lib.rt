// The search for the first place of an image that stands.
#![tactic(auto)]

pub mod ask;

ghost use Rattle.std.specs.Prelude.{◌≡◌, ◌+◌, ◌-◌, ◌*◌, ◌^◌, ◌<◌, ◌≤◌, length};
ghost use Rattle.base.specs.Tab.{least};
ghost use Rattle.line.specs.Bit.{Room};
ghost use Rattle.align.specs.Place.{basic, signal_at, again_at, pair_at, found_in, place_of, k_of, start_of};
ghost use Rattle.align.specs.Stands.{Basic};
ghost use Rattle.align.specs.Window.{Holds, NoneFrom, Hits, Marks, SignalIn, Signals, Pairs, Paired, Wanted};

// the place that stands, with its least k; where none does, the first with basic alignment, if there is one
#[derive(Clone, Copy)]
pub enum Found {
    At { place: usize, k: usize },
    BasicAt { place: usize },
    Nothing,
}

impl Found {
    pub fn place(self) -> usize
        ensures { result ≡ place_of self }
    {
        match self {
            Found::At { place, .. } | Found::BasicAt { place } => place,
            Found::Nothing => 0,
        }
    }

    pub fn k(self) -> usize
        ensures { result ≡ k_of self }
    {
        match self {
            Found::At { k, .. } => k,
            _ => 0,
        }
    }

    // the multiframe start
    pub fn start(self) -> usize
        requires { start_of self < 2 ^ 60 }
        ensures { result ≡ start_of self }
    {
        match self {
            Found::At { place, k } => place + 512 * k,
            _ => 0,
        }
    }
}

// what is said of a place: it stands, with its least k; or the first condition that fails, of a wrong word with the
// place of its first wrong bit
#[derive(Clone, Copy)]
pub enum Why {
    NoneFails { k: usize },
    FirstWord { bit: usize },
    Bit2,
    SecondWord { bit: usize },
    NoPair,
}

// a window of the search: its octet, and its places that have basic alignment
#[derive(Clone, Copy)]
struct Hit {
    octet: usize,
    places: u64,
}

// basic alignment, left at the first thing that is wrong
#[tactic(auto, unfolding(crate::specs::Place::basic))]
fn basic(s: &[u8], p: usize) -> bool
    requires { Room s.now p 16384 }
    ensures { result ≡ basic s.now p }
{
    e1::is_word(s, p) && (line::bit(s, p + 257) == 1 && e1::is_word(s, p + 512))
}

// the signal at k, left at the first wrong mark: 0, 0, 1, 0, 1, 1 are the bits of the constant from the lowest on
fn signal(s: &[u8], p: usize, k: usize) -> bool
    requires { Room s.now p 16384 × (k ≤ 26) }
    ensures { result ≡ signal_at s.now p k }
{
    (0..6).all(|i| line::bit(s, p + 256 + 512 * (k + i)) == (0b110100 >> i) & 1)
}

// the signal once more, 8j later and within the 32 marks
fn again(s: &[u8], p: usize, k: usize, j: usize) -> bool
    requires { Room s.now p 16384 × (k ≤ 18) × (j ≤ 3) }
    ensures { result ≡ again_at s.now p k j }
{
    k + 8 * j + 5 <= 31 && signal(s, p, k + 8 * j)
}

// the signal at k, and again 8, 16 or 24 marks later
#[tactic(auto, unfolding(crate::specs::Place::pair_at))]
fn pair(s: &[u8], p: usize, k: usize) -> bool
    requires { Room s.now p 16384 × (k ≤ 18) }
    ensures { result ≡ pair_at s.now p k }
{
    signal(s, p, k) && (again(s, p, k, 1) || (again(s, p, k, 2) || again(s, p, k, 3)))
}

// the least k of the place, where there is one: past 18 none begins
fn least_k(s: &[u8], p: usize) -> Option<usize>
    requires { Room s.now p 16384 }
    ensures { result ≡ least 32 (pair_at s.now p) }
{
    (0..19).find(|k| pair(s, p, *k))
}

// Windows, for the places from octet i on: a set of them is a number whose highest bit stands for the place 8i, the next
// for the next. `ones` alone has each three bits lower.

// where both words have their ones: 11, a bit, 11
fn ones(s: &[u8], i: usize) -> u64
    requires { Room s.now (8 * i) 576 }
    ensures { Holds (Basic s.now) i 60 result }
{
    let both = line::turned(line::eight_octets(s, i) & line::eight_octets(s, i + 64));
    let twos = both & (both << 1);
    twos & (twos << 3)
}

// where both have their zeros: 00, two bits, 0
fn zeros(s: &[u8], i: usize) -> u64
    requires { Room s.now (8 * i) 576 }
    ensures { Holds (Basic s.now) i 63 result }
{
    let none = !line::turned(line::eight_octets(s, i) | line::eight_octets(s, i + 64));
    (none << 1) & (none << 2) & (none << 5)
}

// the places with basic alignment: most windows are done with at the first test
fn starts(s: &[u8], i: usize) -> u64
    requires { Room s.now (8 * i) 576 }
    ensures { Holds (Basic s.now) i 63 result }
{
    let one = ones(s, i);
    if one == 0 {
        return 0;
    }
    let with_bit_2 = (one << 3) & (line::window(s, i + 32) << 1);
    if with_bit_2 == 0 {
        return 0;
    }
    with_bit_2 & zeros(s, i)
}

// the first window from octet i on that has such places, with these; four windows go by for each look at the end
fn next_hit(s: &[u8], i: usize, end: usize) -> Option<Hit>
    requires { (length s.now < 2 ^ 60) × (i ≤ length s.now) × (end ≡ length s.now + 1 - 2048) }
    ensures { Hits s.now i end result }
{
    let mut j = i;
    // a `for` by `step_by` is no plainer: it needs its measure too, and divides at each call
    while j < end {
        for w in 0..4 {
            let octet = j + 7 * w;
            let places = starts(s, octet);
            if places != 0 {
                return (octet < end).then_some(Hit { octet, places });
            }
        }
        j += 28;
    }
    None
}

// the octets of each of the 32 marks
fn marks(s: &[u8], i: usize) -> [u64; 32]
    requires { Room s.now (8 * i) 16384 }
    ensures { Marks s.now i 32 result }
{
    std::array::from_fn(|k| line::eight_octets(s, i + 32 + 64 * k))
}

// where six marks are 0, 0, 1, 0, 1, 1; given all marks and k, the search takes a 25th more instructions
fn signal_in(a: u64, b: u64, c: u64, d: u64, e: u64, f: u64) -> u64
    ensures { SignalIn a b c d e f result }
{
    !a & !b & c & !d & e & f
}

// where the signal is at each k; past the last there is none
fn signals(m: &[u64; 32]) -> [u64; 43]
    ensures { Signals m.now 27 result }
{
    let mut g = [0u64; 43];
    // by `from_fn`, with a test of k, the search takes twice as many instructions
    for k in 0..27 {
        g[k] = signal_in(m[k], m[k + 1], m[k + 2], m[k + 3], m[k + 4], m[k + 5]);
    }
    g
}

// where a signal recurs 8, 16 or 24 marks later
fn pairs(g: &[u64; 43]) -> u64
    ensures { Pairs g.now 19 result }
{
    let mut r = 0;
    // four octets of g at each k: a fold over k is no plainer
    for k in 0..19 {
        r |= g[k] & (g[k + 8] | g[k + 16] | g[k + 24]);
    }
    r
}

// the places with a pair of signals; as all marks of a place lie at one bit of their octets, these are turned last
fn paired(s: &[u8], i: usize) -> u64
    requires { Room s.now (8 * i) 16384 }
    ensures { Holds (Paired s.now) i 63 result }
{
    let m = marks(s, i);
    let g = signals(&m);
    line::turned(pairs(&g))
}

// the places that the search has to look at, among those with basic alignment: all of them, or, once one is known, those
// with a pair of signals
fn wanted(s: &[u8], hit: Hit, known: bool) -> u64
    requires { Room s.now (8 * hit.octet) 16384 × Holds (Basic s.now) hit.octet 63 hit.places }
    ensures { Holds (Wanted s.now known) hit.octet 63 result }
{
    if !known {
        return hit.places;
    }
    hit.places & paired(s, hit.octet)
}

// past places that the search need not look at, from an octet's start on
fn onward(s: &[u8], p: usize, end: usize, known: bool) -> usize
    requires { (length s.now < 2 ^ 60) × (p ≤ 8 * length s.now) × (end ≡ length s.now + 1 - 2048) }
    ensures { (p ≤ result)
        × (result ≤ 8 * length s.now)
        × NoneFrom (Wanted s.now known) p result }
{
    if p % 8 != 0 {
        return p;
    }
    let mut i = p / 8;
    while let Some(hit) = next_hit(s, i, end) {
        let o = wanted(s, hit, known).leading_zeros() as usize;
        if o < 56 {
            return 8 * hit.octet + o;
        }
        i = hit.octet + 7;
    }
    8 * i.max(end)
}

// the first place that stands, with its least k, or else the first with basic alignment, which is noted on the way
// kept: no `least_k` in place of the loop over k: the search is one of the named forms (DECISIONS), nested and left from
// inside by its label
pub fn find(s: &[u8]) -> Found
    requires { length s.now < 2 ^ 60 }
    ensures { result ≡ found_in s.now }
{
    let bits = 8 * s.len();
    let end = line::octets_with_room(s, 2048);
    let mut p = 0;
    let mut first = None;
    'search: loop {
        p = onward(s, p, end, first.is_some());
        if bits < p + 16384 {
            break 'search match first {
                Some(place) => Found::BasicAt { place },
                None => Found::Nothing,
            };
        }
        if basic(s, p) {
            first = first.or(Some(p));
            for k in 0..19 {
                if pair(s, p, k) {
                    break 'search Found::At { place: p, k };
                }
            }
        }
        p += 1;
    }
}
