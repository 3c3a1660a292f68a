// The checks of 56 places at once, sliced: the remainders of the places of a part stand in six words, one for each
// coefficient, that of 1 first, and bit 63 - o of each belongs to the place o.
#![tactic(auto)]

ghost use Rattle.std.specs.Prelude.{◌≡◌, ◌+◌, ◌*◌, ◌<◌, ◌≤◌, length};
ghost use Rattle.t1.specs.Raw.{raw, lacking};
ghost use Rattle.t1sliced.specs.Sliced.{Exactly, AgreesAt, Sliced, Times, PlusLater, change};
ghost use Rattle.t1sliced.specs.Sliced.{BitsLater, TopBit, BitsFrom, Complement, WithFrame, WithEight};

// times x, x^2, x^4, x^8 and x^16
fn times_x(a: [u64; 6]) -> [u64; 6]
    ensures { Times 1 a result }
{
    [a[5], a[0] ^ a[5], a[1], a[2], a[3], a[4]]
}

fn times_x2(a: [u64; 6]) -> [u64; 6]
    ensures { Times 2 a result }
{
    times_x(times_x(a))
}

fn times_x4(a: [u64; 6]) -> [u64; 6]
    ensures { Times 4 a result }
{
    times_x2(times_x2(a))
}

fn times_x8(a: [u64; 6]) -> [u64; 6]
    ensures { Times 8 a result }
{
    times_x4(times_x4(a))
}

fn times_x16(a: [u64; 6]) -> [u64; 6]
    ensures { Times 16 a result }
{
    times_x8(times_x8(a))
}

// x^32 is x^3 + 1
fn times_x32(a: [u64; 6]) -> [u64; 6]
    ensures { Times 32 a result }
{
    plus_later(times_x(times_x2(a)), a, 0)
}

// a bit of each place, n places later
fn later(a: u64, n: u32) -> u64
    requires { n < 64 }
    ensures { BitsLater n a result }
{
    a >> n
}

// a, and b of the place n before added
fn plus_later(a: [u64; 6], b: [u64; 6], n: u32) -> [u64; 6]
    requires { n < 64 }
    ensures { PlusLater n a b result }
{
    [
        a[0] ^ later(b[0], n),
        a[1] ^ later(b[1], n),
        a[2] ^ later(b[2], n),
        a[3] ^ later(b[3], n),
        a[4] ^ later(b[4], n),
        a[5] ^ later(b[5], n),
    ]
}

// bit t of r, as the highest bit of a word
fn top(r: u64, t: u32) -> u64
    requires { t < 6 }
    ensures { TopBit r t result }
{
    ((r >> t) % 2) << 63
}

// what each place adds to x times the remainder of the place before it: the first the whole remainder, the others the
// bit that comes in, and x^4632, which is x^4 + x, for the one that is gone
fn changes(part: &[u8], at: u64) -> [u64; 6]
    requires { (length part.now ≡ 1158) × (at ≡ raw part.now 0) × (at < 64) }
    ensures { Sliced (change part.now) result }
{
    let gone = line::window(part, 0) >> 1;
    let come = line::window(part, 579) >> 1;
    [
        come ^ top(at, 0),
        gone ^ top(at, 1),
        top(at, 2),
        top(at, 3),
        gone ^ top(at, 4),
        top(at, 5),
    ]
}

// the remainders of all places, summed up over 2, 4, 8, 16, 32 and 64 places
fn raws(part: &[u8], at: u64) -> [u64; 6]
    requires { (length part.now ≡ 1158) × (at ≡ raw part.now 0) × (at < 64) }
    ensures { Sliced (raw part.now) result }
{
    let over_1 = changes(part, at);
    let over_2 = plus_later(over_1, times_x(over_1), 1);
    let over_4 = plus_later(over_2, times_x2(over_2), 2);
    let over_8 = plus_later(over_4, times_x4(over_4), 4);
    let over_16 = plus_later(over_8, times_x8(over_8), 8);
    let over_32 = plus_later(over_16, times_x16(over_16), 16);
    plus_later(over_32, times_x32(over_32), 32)
}

// the framing bits of a frame that begins o bits on in octet i
fn framing(part: &[u8], i: usize, o: u32) -> u64
    requires { (length part.now ≡ 1158) × (i + 8 ≤ 1158) × (o < 8) }
    ensures { BitsFrom part.now (8 * i + o) result }
{
    line::window(part, i) << o
}

// each bit turned over
fn complement(a: u64) -> u64
    ensures { Complement a result }
{
    !a
}

// after a frame more: x^193 is x^4, and what is added makes its framing bit 1
fn with_frame(a: [u64; 6], bits: u64) -> [u64; 6]
    ensures { WithFrame bits a result }
{
    let b = times_x4(a);
    [b[0] ^ complement(bits), b[1], b[2], b[3], b[4], b[5]]
}

// after eight frames more, the first of which begins with octet i: 193 octets
fn with_eight(part: &[u8], i: usize, a: [u64; 6]) -> [u64; 6]
    requires { (length part.now ≡ 1158) × (i ≤ 386) }
    ensures { WithEight part.now i a result }
{
    let by_1 = with_frame(a, framing(part, i, 0));
    let by_2 = with_frame(by_1, framing(part, i + 24, 1));
    let by_3 = with_frame(by_2, framing(part, i + 48, 2));
    let by_4 = with_frame(by_3, framing(part, i + 72, 3));
    let by_5 = with_frame(by_4, framing(part, i + 96, 4));
    let by_6 = with_frame(by_5, framing(part, i + 120, 5));
    let by_7 = with_frame(by_6, framing(part, i + 144, 6));
    with_frame(by_7, framing(part, i + 168, 7))
}

// what makes all framing bits 1: x^192, behind the last of them, is x^3
fn framings(part: &[u8]) -> [u64; 6]
    requires { length part.now ≡ 1158 }
    ensures { Sliced (lacking part.now) result }
{
    let by_8 = with_eight(part, 0, [0, 0, 0, 0, 0, 0]);
    let by_16 = with_eight(part, 193, by_8);
    times_x(times_x2(with_eight(part, 386, by_16)))
}

// the places of which the check is what the next superframe carries
pub fn agreeing(part: &[u8], at: u64) -> u64
    requires { (length part.now ≡ 1158) × (at ≡ raw part.now 0) × (at < 64) }
    ensures { Exactly (AgreesAt part.now) result }
{
    let whole = plus_later(raws(part, at), framings(part), 0);
    let check = times_x2(times_x4(whole));
    complement(
        (check[5] ^ framing(part, 603, 1))
            | (check[4] ^ framing(part, 699, 5))
            | (check[3] ^ framing(part, 796, 1))
            | (check[2] ^ framing(part, 892, 5))
            | (check[1] ^ framing(part, 989, 1))
            | (check[0] ^ framing(part, 1085, 5)),
    )
}
