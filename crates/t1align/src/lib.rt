// The search for the first place of a T1 image that stands, 56 places at once.
#![tactic(auto)]

ghost use Rattle.std.specs.Prelude.{◌≡◌, ◌+◌, ◌-◌, ◌*◌, ◌%◌, ◌^◌, ◌<◌, ◌≤◌, length};
ghost use Rattle.line.specs.Bit.{Room};
ghost use Rattle.t1align.specs.Place.{first_standing};
ghost use Rattle.t1.specs.Raw.{raw};
ghost use Rattle.t1sliced.specs.Sliced.{Exactly};
ghost use Rattle.t1align.specs.Window.{HalfFramed, BothHalfFramed, BothFramed, FirstWindow};

// A part is 1,158 octets of the image, two superframes. A set of its first 56 places is a number whose highest bit stands
// for its place 0, the next for the next.

// a window of the image, and its places with both signals
#[derive(Clone, Copy)]
struct Candidates {
    at: usize,
    places: u64,
}

// where both superframes have the bits of the signal that lie three bits on in their octets: 0, 1, 1
fn threes(part: &[u8]) -> u64
    requires { length part.now ≡ 1158 }
    ensures { Exactly (BothHalfFramed 0 part.now) result }
{
    line::turned(
        line::eight_octets(part, 265)
            & line::eight_octets(part, 458)
            & line::eight_octets(part, 844)
            & line::eight_octets(part, 1037)
            & !(line::eight_octets(part, 72) | line::eight_octets(part, 651)),
    ) << 3
}

// where a superframe has those that lie seven bits on: 0, 0, 1
fn sevens(octets: &[u8]) -> u64
    requires { length octets.now ≡ 579 }
    ensures { Exactly (HalfFramed 1 octets.now) result }
{
    line::turned(
        line::eight_octets(octets, 554)
            & !(line::eight_octets(octets, 168) | line::eight_octets(octets, 361)),
    ) << 7
}

// the places with both signals; the first test alone rules out nine windows of ten in noise
fn signals(part: &[u8]) -> u64
    requires { length part.now ≡ 1158 }
    ensures { Exactly (BothFramed part.now) result }
{
    let most = threes(part) & sevens(&part[0..579]);
    if most == 0 {
        return 0;
    }
    most & sevens(&part[579..1158])
}

// the first window from octet i on that has such places, with these; four windows go by for each look at the end, as long
// as there are four
fn onward(s: &[u8], i: usize, end: usize) -> Option<Candidates>
    requires { (length s.now < 2 ^ 60) × (end ≡ length s.now + 1 - 1158) × (i < end + 7) }
    ensures { FirstWindow s.now i end result }
{
    let mut k = i;
    while k + 21 < end {
        for w in 0..4 {
            let at = k + 7 * w;
            let places = signals(&s[at..at + 1158]);
            if places != 0 {
                return Some(Candidates { at, places });
            }
        }
        k += 28;
    }
    for at in (k..end).step_by(7) {
        let places = signals(&s[at..at + 1158]);
        if places != 0 {
            return Some(Candidates { at, places });
        }
    }
    None
}

// from that at octet j of the image, that at octet i, some windows on: slid where that is less work
fn raw_on(s: &[u8], j: usize, at: u64, i: usize) -> u64
    requires { Room s.now (8 * i) 9264 × (j ≤ i) × (j % 7 ≡ i % 7) × (at ≡ raw s.now (8 * j)) × (at < 64) }
    ensures { (result ≡ raw s.now (8 * i)) × (result < 64) }
{
    if j + 28 < i {
        return t1::raw::of(&s[i..i + 579]);
    }
    let mut r = at;
    for k in (j..i).step_by(7) {
        r = t1::raw::slid(s, k, 56, r);
    }
    r
}

// the first place that stands; checks are taken only in windows where both signals are
pub fn find(s: &[u8]) -> Option<usize>
    requires { length s.now < 2 ^ 60 }
    ensures { result ≡ first_standing s.now }
{
    let end = line::octets_with_room(s, 1158);
    if end == 0 {
        return None;
    }
    let mut at = 0;
    let mut raw = t1::raw::of(&s[0..579]);
    let mut i = 0;
    while let Some(c) = onward(s, i, end) {
        raw = raw_on(s, at, raw, c.at);
        at = c.at;
        let o = u64::leading_zeros(c.places & t1sliced::agreeing(&s[at..at + 1158], raw)) as usize;
        if o < 56 {
            let p = 8 * at + o;
            return (p + 9264 <= 8 * s.len()).then_some(p);
        }
        i = at + 7;
    }
    None
}
