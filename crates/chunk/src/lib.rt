// A chunk of a line, joined to the window before it: the image is looked at, and what leaves is written.
#![tactic(auto)]

ghost use Rattle.std.specs.Prelude.{◌≡◌, true, ◌++◌, ◌+◌, ◌-◌, ◌*◌, ◌/◌, ◌%◌, ◌^◌, ◌<◌, ◌≤◌, length, take, drop};
ghost use Rattle.line.specs.Bit.{Room};
ghost use Rattle.align.specs.Place.{found_in, start_of};
ghost use Rattle.align.specs.declared.Found.TheVariants.{At, BasicAt, Nothing};
ghost use Rattle.measure.specs.Reading.{whole, lost_at, payload_of, slot0_of, disagreeing, far_end};
ghost use Rattle.growth.specs.Growth.{kept_of, gone_of, later_by, read_from, searched, grown, fed, after};
ghost use Rattle.growth.specs.Growth as Growth;
ghost use Rattle.growth.specs.Small.{Small};
ghost use Rattle.chunk.specs.Look.{Few, gaining, still, Gains, waiting, passing, Looks, Stood, Tracks};
ghost use Rattle.chunk.specs.Taking.{lacks_room, over, Takes};

use align::Found;
use base::Refused;
use crc::table::Remainders;
use growth::Line;
use measure::Tracked;

// What a look at an image tells: the line then, how many octets of the image are let go, how many multiframes leave, and
// from which bit on.
#[derive(Clone, Copy)]
struct Seen {
    line: Line,
    gone: usize,
    multiframes: usize,
    from: usize,
}

// What multiframes that leave add.
#[derive(Clone, Copy)]
struct Gain {
    multiframes: usize,
    words: usize,
    errored: usize,
    farend: usize,
    wordbits: usize,
}

// What a chunk that is taken makes: the line then, how many octets of the window are filled, and how many multiframes
// have left.
#[derive(Clone, Copy)]
pub struct Took {
    pub line: Line,
    pub fill: usize,
    pub multiframes: usize,
}

// n multiframes of an image, or n blocks, from bit q on
#[derive(Clone, Copy)]
struct Part<'a> {
    s: &'a [u8],
    q: usize,
    n: usize,
}

// the whole multiframes in n octets from bit q on
pub fn whole(n: usize, q: usize) -> usize
    requires { n < 2 ^ 60 }
    ensures { result ≡ (8 * n - q) / 4096 }
{
    (8 * n).saturating_sub(q) / 4096
}

// 1 where a multiframe has left, which is then kept
fn kept(used: usize) -> usize
    ensures { result ≡ kept_of used }
{
    used.min(1)
}

// what the multiframes from h on add, as they were tracked
fn gained(s: &[u8], q: usize, h: usize, x: Tracked) -> Gain
    requires { Room s.now q (4096 * x.used) × Tracks s.now q h x }
    ensures { Gains s.now q h x.used result }
{
    let judged = measure::compared(h);
    let multiframes = x.used - h;
    Gain {
        multiframes,
        words: x.words,
        errored: measure::judge(s, q + 2048 * judged, measure::compared(x.used) - judged),
        farend: measure::far_end(s, q + 4096 * h, multiframes),
        wordbits: x.wordbits,
    }
}

// the frame of loss as the line counts it, where so many multiframes stand before the image; 0 where there is none
fn lost_by(multiframes: usize, loss: Option<usize>) -> usize
    requires { (multiframes ≤ 2 ^ 50) × (lost_at loss ≤ 2 ^ 50) }
    ensures { result ≡ lost_at (later_by (16 * multiframes) loss) }
{
    match loss {
        Some(f) => 16 * multiframes + f,
        None => 0,
    }
}

// the octets of n that are let go, with g multiframes used
fn gone_by(n: usize, g: usize, loss: Option<usize>) -> usize
    requires { g ≤ 2 ^ 50 }
    ensures { result ≡ gone_of n g loss }
{
    match loss {
        Some(_) => n,
        None => 512 * g.saturating_sub(1),
    }
}

// what is known of the line when so much is gained, so many octets are let go, and there is a frame of loss or 0
fn gaining(c: Line, gain: Gain, gone: usize, lost: usize) -> Line
    requires { Small c (2 ^ 50) × (gone ≤ 2 ^ 50) × Few gain (2 ^ 50) }
    ensures { result ≡ gaining c gain gone lost }
{
    Line {
        before: c.before + gone,
        found: c.found,
        used: c.used + gain.multiframes,
        lost,
        words: c.words + gain.words,
        errored: c.errored + gain.errored,
        farend: c.farend + gain.farend,
        wordbits: c.wordbits + gain.wordbits,
    }
}

// nothing new is whole
fn still(c: Line) -> Seen
    ensures { result ≡ still c }
{
    Seen {
        line: Line { lost: 0, ..c },
        gone: 0,
        multiframes: 0,
        from: 0,
    }
}

// an image, from the start's bit on
fn follow(s: &[u8], c: Line) -> Seen
    requires { Small c (2 ^ 41) × (length s.now ≤ 2 ^ 30) }
    ensures { Looks (read_from c s.now) s.now result }
{
    let q = c.found.start() % 8;
    let h = kept(c.used);
    let m = whole(s.len(), q);
    if m <= h {
        return still(c);
    }
    let x = measure::track(s, q, h, m);
    let gain = gained(s, q, h, x);
    let gone = gone_by(s.len(), x.used, x.loss);
    let lost = lost_by(c.used - h, x.loss);
    Seen {
        line: gaining(c, gain, gone, lost),
        gone,
        multiframes: gain.multiframes,
        from: q + 4096 * h,
    }
}

// an image, from the first place that stands in it
fn from_place(s: &[u8], before: usize, place: usize, k: usize) -> Seen
    requires { (before ≤ 2 ^ 40) × (length s.now ≤ 2 ^ 30) × (found_in s.now ≡ At place k) }
    ensures { Looks (searched before Nothing s.now (At place k)) s.now result }
{
    let e = (place + 512 * k) / 8;
    let found = Found::At {
        place: 8 * before + place,
        k,
    };
    let x = follow(&s[e..], Line::unread(before + e, found));
    Seen {
        line: x.line,
        gone: e + x.gone,
        multiframes: x.multiframes,
        from: 8 * e + x.from,
    }
}

// n octets in which no place stands: the last 2,048 are kept
fn waits(n: usize, before: usize, found: Found) -> Seen
    requires { (before ≤ 2 ^ 40) × (n ≤ 2 ^ 30) }
    ensures { result ≡ waiting n before found }
{
    let gone = n.saturating_sub(2048);
    Seen {
        line: Line::unread(before + gone, found),
        gone,
        multiframes: 0,
        from: 0,
    }
}

// a place with basic alignment, unless one was found before
fn noted(known: Found, place: usize) -> Found
    ensures { result ≡ Growth.noted known (BasicAt place) }
{
    match known {
        Found::BasicAt { place: _ } => known,
        _ => Found::BasicAt { place },
    }
}

// an image, searched
fn search(s: &[u8], before: usize, known: Found) -> Seen
    requires { (before ≤ 2 ^ 40) × (length s.now ≤ 2 ^ 30) }
    ensures { Looks (searched before known s.now (found_in s.now)) s.now result }
{
    match align::find(s) {
        Found::At { place, k } => from_place(s, before, place, k),
        Found::BasicAt { place } => waits(s.len(), before, noted(known, 8 * before + place)),
        Found::Nothing => waits(s.len(), before, known),
    }
}

// n octets after the loss: nothing is kept
fn passed(n: usize, c: Line) -> Seen
    requires { (c.before ≤ 2 ^ 40) × (n ≤ 2 ^ 30) }
    ensures { result ≡ passing n c }
{
    Seen {
        line: Line {
            before: c.before + n,
            ..c
        },
        gone: n,
        multiframes: 0,
        from: 0,
    }
}

// what an image makes of the line
fn look(s: &[u8], c: Line) -> Seen
    requires { Small c (2 ^ 40) × (length s.now ≤ 2 ^ 30) }
    ensures { Looks (grown c s.now) s.now result }
{
    match c.found {
        Found::At { place: _, k: _ } => {
            if c.lost == 0 {
                return follow(s, c);
            }
            passed(s.len(), c)
        }
        _ => search(s, c.before, c.found),
    }
}

// the octets of a window and those after them, to the front of an image: so many octets
fn join(window: &[u8], chunk: &[u8], image: &mut [u8]) -> usize
    requires { length window.now + length chunk.now ≤ length image.old }
    ensures { (result ≡ length window.now + length chunk.now)
        × (length image.new ≡ length image.old)
        × (take result image.new ≡ window.now ++ chunk.now) }
{
    let n = window.len();
    let e = n + chunk.len();
    image[..n].copy_from_slice(window);
    image[n..e].copy_from_slice(chunk);
    e
}

// Octets, to as many others. No `copy_from_slice`: for all that the compiler knows the two may overlap, and then it asks
// whoever links the library for `memmove`.
fn copy(from: &[u8], to: &mut [u8])
    requires { length to.old ≡ length from.now }
    ensures { to.new ≡ from.now }
{
    for (i, octet) in to.iter_mut().enumerate() {
        *octet = from[i];
    }
}

// what is kept of an image, to the front of the window: so many octets
fn keep(s: &[u8], gone: usize, window: &mut [u8]) -> usize
    requires { (gone ≤ length s.now) × (length (drop gone s.now) ≤ length window.old) }
    ensures { (result ≡ length (drop gone s.now))
        × (window.new ≡ over (drop gone s.now) window.old) }
{
    let n = s.len() - gone;
    copy(&s[gone..], &mut window[..n]);
    n
}

// n multiframes need more octets than the outputs have
fn lacks_room(payload: usize, slot0: usize, n: usize) -> bool
    requires { n ≤ 2 ^ 50 }
    ensures { result ≡ lacks_room payload slot0 n }
{
    (payload < 496 * n) | (slot0 < 16 * n)
}

// The three that are lent stay parameters: of a struct that lends them a clause would say what each becomes as
// `lent.exit.1.1.0.now`, which is no plainer.

// an image that ends with the chunk: one look
fn take_image(
    c: Line,
    image: &[u8],
    window: &mut [u8; 2048],
    payload: &mut [u8],
    slot0: &mut [u8],
) -> Result<Took, Refused>
    requires { Small c (2 ^ 40) × (length image.now ≤ 2 ^ 30) }
    ensures { Takes (grown c image.now) window.old payload.old slot0.old
        result window.new payload.new slot0.new }
{
    let x = look(image, c);
    if lacks_room(payload.len(), slot0.len(), x.multiframes) {
        return Err(Refused::NoRoom);
    }
    measure::payload_of(image, x.from, x.multiframes, payload);
    measure::slot0_of(image, x.from, x.multiframes, slot0);
    Ok(Took {
        line: x.line,
        fill: keep(image, x.gone, window),
        multiframes: x.multiframes,
    })
}

// a chunk that is joined to the window's octets in an image of N octets, which is cleared first: one look
fn take_joined<const N: usize>(
    c: Line,
    fill: usize,
    chunk: &[u8],
    window: &mut [u8; 2048],
    payload: &mut [u8],
    slot0: &mut [u8],
) -> Result<Took, Refused>
    requires { Small c (2 ^ 40) × (fill ≤ 2048) × (fill + length chunk.now ≤ N) × (N ≤ 4096) }
    ensures { Takes (fed c (take fill window.old) chunk.now)
        window.old payload.old slot0.old
        result window.new payload.new slot0.new }
{
    let mut image = [0; N];
    let n = join(&window[..fill], chunk, &mut image);
    take_image(c, &image[..n], window, payload, slot0)
}

// what leaves of two images, one behind the other
fn put_both(near: Part, far: Part, payload: &mut [u8], slot0: &mut [u8])
    requires { Room near.s.now near.q (4096 * near.n) × Room far.s.now far.q (4096 * far.n)
        × (496 * (near.n + far.n) ≤ length payload.old) × (16 * (near.n + far.n) ≤ length slot0.old) }
    ensures payload { payload.new
        ≡ (payload_of near.entry.s.now near.entry.q near.entry.n ++ payload_of far.entry.s.now far.entry.q far.entry.n)
        ++ drop (496 * (near.entry.n + far.entry.n)) payload.old }
    ensures slot0 { slot0.new
        ≡ (slot0_of near.entry.s.now near.entry.q near.entry.n ++ slot0_of far.entry.s.now far.entry.q far.entry.n)
        ++ drop (16 * (near.entry.n + far.entry.n)) slot0.old }
{
    measure::payload_of(near.s, near.q, near.n, payload);
    measure::payload_of(far.s, far.q, far.n, &mut payload[496 * near.n..]);
    measure::slot0_of(near.s, near.q, near.n, slot0);
    measure::slot0_of(far.s, far.q, far.n, &mut slot0[16 * near.n..]);
}

// two images, of which the first was looked at: the second has what is kept of the first, and the rest of the chunk
fn take_two(
    c: Line,
    near: &[u8],
    x: Seen,
    far: &[u8],
    window: &mut [u8; 2048],
    payload: &mut [u8],
    slot0: &mut [u8],
) -> Result<Took, Refused>
    requires { Small c (2 ^ 39) × (length near.now ≤ 2 ^ 30) × (length far.now ≤ 2 ^ 30)
        × Looks (grown c near.now) near.now x }
    ensures { Takes (after (grown c near.now) (grown x.line far.now))
        window.old payload.old slot0.old
        result window.new payload.new slot0.new }
{
    let y = look(far, x.line);
    let m = x.multiframes;
    let n = y.multiframes;
    if lacks_room(payload.len(), slot0.len(), m + n) {
        return Err(Refused::NoRoom);
    }
    let first = Part {
        s: near,
        q: x.from,
        n: m,
    };
    let second = Part {
        s: far,
        q: y.from,
        n,
    };
    put_both(first, second, payload, slot0);
    Ok(Took {
        line: y.line,
        fill: keep(far, y.gone, window),
        multiframes: m + n,
    })
}

// a longer chunk: one look at the window's octets and n of the chunk, of which what is kept lies in the chunk; and one at
// the chunk from there on
fn take_far(
    c: Line,
    fill: usize,
    near: &[u8],
    n: usize,
    chunk: &[u8],
    window: &mut [u8; 2048],
    payload: &mut [u8],
    slot0: &mut [u8],
) -> Result<Took, Refused>
    requires { Small c (2 ^ 39) × (fill ≤ 2048)
        × (n ≤ 2048) × (n ≤ length chunk.now) × (length chunk.now ≤ 2 ^ 30)
        × (near.now ≡ take fill window.old ++ take n chunk.now)
        × (length (grown c near.now).window ≤ n) }
    ensures { Takes (fed c (take fill window.old) chunk.now)
        window.old payload.old slot0.old
        result window.new payload.new slot0.new }
{
    let x = look(near, c);
    let from = x.gone - fill;
    take_two(c, near, x, &chunk[from..], window, payload, slot0)
}

fn take_long(
    c: Line,
    fill: usize,
    chunk: &[u8],
    window: &mut [u8; 2048],
    payload: &mut [u8],
    slot0: &mut [u8],
) -> Result<Took, Refused>
    requires { Small c (2 ^ 39) × (fill ≤ 2048)
        × (2048 ≤ length chunk.now) × (length chunk.now ≤ 2 ^ 30) }
    ensures { Takes (fed c (take fill window.old) chunk.now)
        window.old payload.old slot0.old
        result window.new payload.new slot0.new }
{
    let mut image = [0; 4096];
    let e = join(&window[..fill], &chunk[..2048], &mut image);
    take_far(c, fill, &image[..e], 2048, chunk, window, payload, slot0)
}

// how many blocks of two images do not agree, by one table
fn judge_both(near: Part, far: Part) -> usize
    requires { (1 ≤ near.n → Room near.s.now near.q (2048 * near.n + 2048))
        × (1 ≤ far.n → Room far.s.now far.q (2048 * far.n + 2048))
        × (near.n ≤ 2 ^ 50) × (far.n ≤ 2 ^ 50) }
    ensures { result ≡ disagreeing near.entry.s.now near.entry.q near.entry.n + disagreeing far.entry.s.now far.entry.q far.entry.n }
{
    let table = Remainders::new();
    measure::judge_by(near.s, near.q, near.n, &table)
        + measure::judge_by(far.s, far.q, far.n, &table)
}

// and how many E bits are 0
fn far_ends(near: Part, far: Part) -> usize
    requires { Room near.s.now near.q (4096 * near.n) × Room far.s.now far.q (4096 * far.n)
        × (near.n ≤ 2 ^ 50) × (far.n ≤ 2 ^ 50) }
    ensures { result ≡ far_end near.entry.s.now near.entry.q near.entry.n + far_end far.entry.s.now far.entry.q far.entry.n }
{
    measure::far_end(near.s, near.q, near.n) + measure::far_end(far.s, far.q, far.n)
}

// what is known of the line after two images, of which the first has no loss; what was tracked of both is given
fn read_both(
    c: Line,
    q: usize,
    h: usize,
    near: &[u8],
    x: Tracked,
    far: &[u8],
    y: Tracked,
    gone: usize,
) -> Line
    requires { Small c (2 ^ 39) × (length near.now ≤ 2 ^ 30) × (length far.now ≤ 2 ^ 30)
        × (q ≡ start_of c.found % 8) × (h ≡ kept_of c.used)
        × Tracks near.now q h x × (x.loss ≡ None) × (1 ≤ x.used) × Tracks far.now q 1 y
        × (gone ≡ gone_of (length far.now) y.used y.loss) }
    ensures { result ≡ (read_from (read_from c near.now).line far.now).line }
{
    let m = x.used - h;
    let n = y.used - 1;
    let judged = measure::compared(h);
    let gain = Gain {
        multiframes: m + n,
        words: x.words + y.words,
        errored: judge_both(
            Part {
                s: near,
                q: q + 2048 * judged,
                n: measure::compared(x.used) - judged,
            },
            Part {
                s: far,
                q: q + 2048,
                n: measure::compared(y.used) - 1,
            },
        ),
        farend: far_ends(
            Part {
                s: near,
                q: q + 4096 * h,
                n: m,
            },
            Part {
                s: far,
                q: q + 4096,
                n,
            },
        ),
        wordbits: x.wordbits + y.wordbits,
    };
    gaining(
        c,
        gain,
        512 * (x.used - 1) + gone,
        lost_by(c.used + m - 1, y.loss),
    )
}

// The same while a place stands, in fewer steps: what was tracked of the first image, which has no loss, is given, and both
// are judged by one table.
fn take_both(
    c: Line,
    q: usize,
    near: &[u8],
    x: Tracked,
    far: &[u8],
    window: &mut [u8; 2048],
    payload: &mut [u8],
    slot0: &mut [u8],
) -> Result<Took, Refused>
    requires { Small c (2 ^ 39) × (length near.now ≤ 2 ^ 30) × (length far.now ≤ 2 ^ 30)
        × (q ≡ start_of c.found % 8) × Tracks near.now q (kept_of c.used) x × (x.loss ≡ None) × (1 ≤ x.used)
        × (1 ≤ whole far.now q) }
    ensures { Takes (after (read_from c near.now) (read_from (read_from c near.now).line far.now))
        window.old payload.old slot0.old
        result window.new payload.new slot0.new }
{
    let h = kept(c.used);
    let y = measure::track(far, q, 1, whole(far.len(), q));
    let m = x.used - h;
    let n = y.used - 1;
    if lacks_room(payload.len(), slot0.len(), m + n) {
        return Err(Refused::NoRoom);
    }
    let gone = gone_by(far.len(), y.used, y.loss);
    let line = read_both(c, q, h, near, x, far, y, gone);
    let first = Part {
        s: near,
        q: q + 4096 * h,
        n: m,
    };
    let second = Part {
        s: far,
        q: q + 4096,
        n,
    };
    put_both(first, second, payload, slot0);
    Ok(Took {
        line,
        fill: keep(far, gone, window),
        multiframes: m + n,
    })
}

// the first image has n octets of the chunk, and was tracked: it ends one octet behind the multiframe that begins behind
// the window's octets, or with them
fn take_tracked(
    c: Line,
    q: usize,
    fill: usize,
    near: &[u8],
    n: usize,
    x: Tracked,
    chunk: &[u8],
    window: &mut [u8; 2048],
    payload: &mut [u8],
    slot0: &mut [u8],
) -> Result<Took, Refused>
    requires { Small c (2 ^ 39) × Stood c × (fill ≤ 1024)
        × (2048 ≤ fill + length chunk.now) × (length chunk.now ≤ 2 ^ 30)
        × (q ≡ start_of c.found % 8) × (fill + n ≡ 512 * ((fill + 511) / 512) + 513)
        × (near.now ≡ take fill window.old ++ take n chunk.now)
        × Tracks near.now q (kept_of c.used) x }
    ensures { Takes (fed c (take fill window.old) chunk.now)
        window.old payload.old slot0.old
        result window.new payload.new slot0.new }
{
    match x.loss {
        Some(_) => take_far(c, fill, near, n, chunk, window, payload, slot0),
        None => {
            let from = 512 * (x.used - 1) - fill;
            take_both(c, q, near, x, &chunk[from..], window, payload, slot0)
        }
    }
}

// while a place stands
fn take_on(
    c: Line,
    fill: usize,
    chunk: &[u8],
    window: &mut [u8; 2048],
    payload: &mut [u8],
    slot0: &mut [u8],
) -> Result<Took, Refused>
    requires { Small c (2 ^ 39) × Stood c × (fill ≤ 1024)
        × (2048 ≤ fill + length chunk.now) × (length chunk.now ≤ 2 ^ 30) }
    ensures { Takes (fed c (take fill window.old) chunk.now)
        window.old payload.old slot0.old
        result window.new payload.new slot0.new }
{
    let q = c.found.start() % 8;
    let n = 512 * ((fill + 511) / 512) + 513 - fill;
    let mut image = [0; 2048];
    let e = join(&window[..fill], &chunk[..n], &mut image);
    let near = &image[..e];
    let x = measure::track(near, q, kept(c.used), whole(e, q));
    take_tracked(c, q, fill, near, n, x, chunk, window, payload, slot0)
}

// a place stands, and alignment is not lost
fn stood(c: Line) -> bool
    ensures { result ≡ true → Stood c }
{
    matches!(c.found, Found::At { place: _, k: _ }) & (c.lost == 0)
}

// A chunk is joined to the first `fill` octets of the window. What leaves goes to the front of the two outputs, and what
// is kept to the front of the window. The image is as small as the chunk and the line allow, since it is cleared first.
pub fn take(
    c: Line,
    fill: usize,
    chunk: &[u8],
    window: &mut [u8; 2048],
    payload: &mut [u8],
    slot0: &mut [u8],
) -> Result<Took, Refused>
    requires { Small c 134217728 × (fill ≤ 2048) × (length chunk.now ≤ 16777216) }
    ensures { Takes (fed c (take fill window.old) chunk.now)
        window.old payload.old slot0.old
        result window.new payload.new slot0.new }
{
    if fill == 0 {
        return take_image(c, chunk, window, payload, slot0);
    }
    if fill + chunk.len() <= 2048 {
        return take_joined::<2048>(c, fill, chunk, window, payload, slot0);
    }
    if stood(c) & (fill <= 1024) {
        return take_on(c, fill, chunk, window, payload, slot0);
    }
    if chunk.len() <= 2048 {
        return take_joined::<4096>(c, fill, chunk, window, payload, slot0);
    }
    take_long(c, fill, chunk, window, payload, slot0)
}
