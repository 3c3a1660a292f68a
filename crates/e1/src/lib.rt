// Frames, blocks and the payload of an E1 line.
#![tactic(auto)]

ghost use Rattle.std.specs.Prelude.{◌≡◌, [], ◌∷◌, ◌+◌, ◌*◌, ◌<◌, ◌≤◌};
ghost use Rattle.line.specs.Bit.{Room, octet_bits};
ghost use Rattle.line.specs.Spelt.{digit};
ghost use Rattle.e1.specs.Frame.{wrong_bits, word_at, first_wrong};
ghost use Rattle.e1.specs.Block.{block_check, carried, agrees};
ghost use Rattle.e1.specs.Payload.{sized};

use crc::table::Remainders;

// the word in the frame at q judged: how many of its seven bits are wrong
pub fn wrong_bits(s: &[u8], q: usize) -> u32
    requires { Room s.now q 8 }
    ensures { (result ≡ wrong_bits s.now q) × (result ≤ 7) }
{
    u8::count_ones(line::word(s, q) ^ 27)
}

// it is the alignment word: no bit of it is wrong
pub fn is_word(s: &[u8], q: usize) -> bool
    requires { Room s.now q 8 }
    ensures { result ≡ word_at s.now q }
{
    wrong_bits(s, q) == 0
}

// how far on from q its first wrong bit is: as far as the exclusive or has zeros in front
fn zeros_before(s: &[u8], q: usize) -> u32
    requires { Room s.now q 8 }
    ensures { (q + result ≡ first_wrong s.now q) × (result ≤ 8) }
{
    u8::leading_zeros(line::word(s, q) ^ 27)
}

// the place of its first wrong bit; where none is wrong, of the bit behind the word
pub fn first_wrong(s: &[u8], q: usize) -> usize
    requires { Room s.now q 8 }
    ensures { result ≡ first_wrong s.now q }
{
    q + zeros_before(s, q) as usize
}

// the check c with a 0 behind each bit: x^512 counts for x^2, so in the last octet of the block that carries c its bits
// weigh what they do in their places
fn spaced(c: u8) -> u8
    ensures { octet_bits result ≡ digit 4 c 0 ∷ 0 ∷ digit 4 c 1 ∷ 0 ∷ digit 4 c 2 ∷ 0 ∷ digit 4 c 3 ∷ 0 ∷ [] }
{
    128 * (c / 8 % 2) + 32 * (c / 4 % 2) + 8 * (c / 2 % 2) + 2 * (c % 2)
}

// the check of the block at q, which carries c: the remainder of all its bits but the last octet, then of that octet, to
// which the check bits are added once more so that they are gone, then of four zeros
pub fn block_check(s: &[u8], q: usize, c: u8, table: &Remainders) -> u8
    requires { Room s.now q 2048 × (c ≡ carried s.now q) }
    ensures { (result ≡ block_check s.now q) × (result < 16) }
{
    let r = crc::fold::after_rows(s, q, table);
    let last = line::octet(s, q + 2040) ^ spaced(c);
    table.after_zeros(table.after_octet(r, last))
}

// C1 to C4, as the block at q carries them
pub fn carried(s: &[u8], q: usize) -> u8
    requires { Room s.now q 2048 }
    ensures { result ≡ carried s.now q }
{
    let i = q >> 3;
    let o = q & 7;
    8 * line::bit_in(s, i, o)
        + 4 * line::bit_in(s, i + 64, o)
        + 2 * line::bit_in(s, i + 128, o)
        + line::bit_in(s, i + 192, o)
}

// the block at q agrees with the check that the next one carries
pub fn agrees(s: &[u8], q: usize, table: &Remainders) -> bool
    requires { Room s.now q 4096 }
    ensures { result ≡ agrees s.now q }
{
    block_check(s, q, carried(s, q), table) == carried(s, q + 2048)
}

// so many octets are a payload of 1 to 16 multiframes
pub fn is_sized(octets: usize) -> bool
    ensures { result ≡ sized octets }
{
    line::is_sized::<496, 16>(octets)
}
