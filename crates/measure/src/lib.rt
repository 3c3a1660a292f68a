// What is read from a multiframe start on: the alignment words and bits 2 tracked, blocks judged, E bits counted, and the
// octets of multiframes written.
#![tactic(auto)]

ghost use Rattle.std.specs.Prelude.{if◌then◌else◌, ◌≡◌, ◌++◌, ◌+◌, ◌-◌, ◌*◌, ◌^◌, ◌<◌, ◌≤◌, eqb, length, drop};
ghost use Rattle.line.specs.Bit.{Room};
ghost use Rattle.measure.specs.Reading.{loss_from, used_of, slots, payload_of, slot0_of};
ghost use Rattle.measure.specs.Track.{Runs};
ghost use Rattle.measure.specs.Reading.{word_errors, word_bits, compared, disagreeing, zeros_e, far_end};

use crc::table::Remainders;

// What the alignment words and bits 2 tell.
#[derive(Clone, Copy)]
pub struct Tracked {
    pub loss: Option<usize>,
    pub used: usize,
    pub words: usize,
    pub wordbits: usize,
}

// What is kept from frame to frame: wrong words in a row and wrong bits 2 in a row, each run its own; and the wrong words
// so far, with their wrong bits.
#[derive(Clone, Copy)]
struct Tracking {
    wordrun: usize,
    bit2run: usize,
    words: usize,
    wordbits: usize,
}

impl Tracking {
    // an even frame goes by, with so many wrong bits in its word
    fn after_word(self, wrong: u32) -> Tracking
        requires { (self.wordrun < 3) × (self.bit2run < 3) × (self.words < 2 ^ 60) × (self.wordbits < 2 ^ 60) × (wrong ≤ 7) }
        ensures { (result.wordrun ≡ (if eqb wrong 0 then 0 else self.wordrun + 1))
            × (result.bit2run ≡ self.bit2run)
            × (result.words ≡ self.words + (if eqb wrong 0 then 0 else 1))
            × (result.wordbits ≡ self.wordbits + wrong) }
    {
        if wrong == 0 {
            return Tracking { wordrun: 0, ..self };
        }
        Tracking {
            wordrun: self.wordrun + 1,
            words: self.words + 1,
            wordbits: self.wordbits + wrong as usize,
            ..self
        }
    }

    // an odd frame goes by, with this bit 2
    fn after_bit2(self, bit: u8) -> Tracking
        requires { (self.wordrun < 3) × (self.bit2run < 3) }
        ensures { (result.wordrun ≡ self.wordrun)
            × (result.bit2run ≡ (if eqb bit 0 then self.bit2run + 1 else 0))
            × (result.words ≡ self.words)
            × (result.wordbits ≡ self.wordbits) }
    {
        if bit != 0 {
            return Tracking { bit2run: 0, ..self };
        }
        Tracking {
            bit2run: self.bit2run + 1,
            ..self
        }
    }
}

// what is kept when h multiframes have gone by, but for the counts: the last two frames of each kind tell
fn after_multiframes(s: &[u8], q: usize, h: usize) -> Tracking
    requires { Room s.now q (4096 * h) }
    ensures { Runs s.now q h result }
{
    let mut t = Tracking {
        wordrun: 0,
        bit2run: 0,
        words: 0,
        wordbits: 0,
    };
    if h == 0 {
        return t;
    }
    for i in 8 * h - 2..8 * h {
        if e1::is_word(s, q + 256 * (2 * i)) {
            t.wordrun = 0;
        } else {
            t.wordrun = t.wordrun + 1;
        }
        t = t.after_bit2(line::bit(s, q + 256 * (2 * i + 1) + 1));
    }
    t
}

// the loss in multiframes h to m - 1, those before it, and the wrong words and bits of those from h on; each word is judged
// once, and counts where its multiframe is whole
pub fn track(s: &[u8], q: usize, h: usize, m: usize) -> Tracked
    requires { Room s.now q (4096 * m) × (h ≤ m) }
    ensures { (result.loss ≡ loss_from s.now q h m)
        × (result.used ≡ used_of (loss_from s.now q h m) m)
        × (h ≤ result.used)
        × (result.used ≤ m)
        × (result.words ≡ word_errors s.now (q + 4096 * h) (result.used - h))
        × (result.wordbits ≡ word_bits s.now (q + 4096 * h) (result.used - h)) }
{
    let mut t = after_multiframes(s, q, h);
    let mut words: usize = 0;
    let mut wordbits: usize = 0;
    for g in h..m {
        for i in 8 * g..8 * g + 8 {
            t = t.after_word(e1::wrong_bits(s, q + 256 * (2 * i)));
            if t.wordrun == 3 {
                return Tracked {
                    loss: Some(2 * i),
                    used: g,
                    words,
                    wordbits,
                };
            }
            t = t.after_bit2(line::bit(s, q + 256 * (2 * i + 1) + 1));
            if t.bit2run == 3 {
                return Tracked {
                    loss: Some(2 * i + 1),
                    used: g,
                    words,
                    wordbits,
                };
            }
        }
        words = t.words;
        wordbits = t.wordbits;
    }
    Tracked {
        loss: None,
        used: m,
        words,
        wordbits,
    }
}

// slots 1 to 31 of the frame at q: two runs, which share slot 16; as two statements they take five times as long
fn put_frame(s: &[u8], q: usize, out: &mut [u8])
    requires { Room s.now q 256 × (length out.old ≡ 31) }
    ensures { out.new ≡ slots s.now q 1 }
{
    for h in 0..2 {
        let a = 15 * h;
        line::put_run(
            line::run_in(s, (q >> 3) + a + 1, q & 7),
            &mut out[a..a + 16],
        );
    }
}

// the frames of the multiframe at q, each to its part of the output; by index here and below, as of what is written
// through `chunks_exact_mut` or `iter_mut().enumerate()` a proof knows the length alone
fn put_multiframe(s: &[u8], q: usize, out: &mut [u8])
    requires { Room s.now q 4096 × (length out.old ≡ 496) }
    ensures { out.new ≡ slots s.now q 16 }
{
    for f in 0..16 {
        let a = 31 * f;
        put_frame(s, q + 256 * f, &mut out[a..a + 31]);
    }
}

// the payload of g multiframes, each to its part of the output
pub fn payload_of(s: &[u8], q: usize, g: usize, out: &mut [u8])
    requires { Room s.now q (4096 * g) × (496 * g ≤ length out.old) }
    ensures { out.new ≡ payload_of s.now q g ++ drop (496 * g) out.old }
{
    for m in 0..g {
        let a = 496 * m;
        put_multiframe(s, q + 256 * (16 * m), &mut out[a..a + 496]);
    }
}

// the slots 0 of g multiframes
pub fn slot0_of(s: &[u8], q: usize, g: usize, out: &mut [u8])
    requires { Room s.now q (4096 * g) × (16 * g ≤ length out.old) }
    ensures { out.new ≡ slot0_of s.now q g ++ drop (16 * g) out.old }
{
    let i = q >> 3;
    let o = q & 7;
    for f in 0..16 * g {
        let v = line::octet_in(s, i + 32 * f, o);
        out[f] = v;
    }
}

// the blocks compared of g multiframes
pub fn compared(g: usize) -> usize
    requires { g < 2 ^ 60 }
    ensures { result ≡ compared g }
{
    (2 * g).saturating_sub(1)
}

// the E bits of multiframe m that are 0
fn zeros_e(s: &[u8], q: usize, m: usize) -> usize
    requires { Room s.now q (4096 * m + 4096) }
    ensures { (result ≡ zeros_e s.now q m) × (result ≤ 2) }
{
    let a = line::bit(s, q + 256 * (16 * m + 13));
    let b = line::bit(s, q + 256 * (16 * m + 15));
    ((1 - a) + (1 - b)) as usize
}

// those of g multiframes
pub fn far_end(s: &[u8], q: usize, g: usize) -> usize
    requires { Room s.now q (4096 * g) }
    ensures { result ≡ far_end s.now q g }
{
    (0..g).map(|m| zeros_e(s, q, m)).sum()
}

// how many of n blocks from p on do not agree, by the table; each check is taken once, and what a block carries is read
// once, where `filter(..).count()` over `e1::agrees` would read it twice
pub fn judge_by(s: &[u8], p: usize, n: usize, table: &Remainders) -> usize
    requires { 1 ≤ n → Room s.now p (2048 * n + 2048) }
    ensures { result ≡ disagreeing s.now p n }
{
    if n == 0 {
        return 0;
    }
    let mut carried = e1::carried(s, p);
    let mut errored: usize = 0;
    for b in 0..n {
        let at = p + 2048 * b;
        let check = e1::block_check(s, at, carried, table);
        carried = e1::carried(s, at + 2048);
        if check != carried {
            errored += 1;
        }
    }
    errored
}

// how many of n blocks from p on do not agree
pub fn judge(s: &[u8], p: usize, n: usize) -> usize
    requires { 1 ≤ n → Room s.now p (2048 * n + 2048) }
    ensures { result ≡ disagreeing s.now p n }
{
    if n == 0 {
        return 0;
    }
    judge_by(s, p, n, &Remainders::new())
}
