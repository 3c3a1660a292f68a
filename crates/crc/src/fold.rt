// The remainder of 17 rows of 15 octets, 2,040 bits, from any place on. A row is 120 bits, and x^120, x^60, x^30 and
// x^15 are 1: the rows are added up, and their sum is folded (KIT §3).
ghost use Rattle.std.specs.Prelude.{◌≡◌, ◌+◌, ◌*◌, ◌^◌, ◌<◌, ◌≤◌, length};
ghost use Rattle.base.specs.Tab.{tab};
ghost use Rattle.line.specs.Bit.{Room, bit_at, field};
ghost use Rattle.line.specs.Spelt.{digit};
ghost use Rattle.crc.specs.Remainder.{after};
ghost use Rattle.crc.specs.Fold.{xors};

use crate::table::Remainders;

// n windows added up, the first at octet i and each d octets on
pub fn windows(s: &[u8], i: usize, n: usize, d: usize) -> u64
    requires { i + d * n + 8 ≤ length s.now + d }
    ensures { result ≡ xors n (λ k. field s.now (8 * (i + d * k)) 64) }
{
    (0..n).fold(0, |x, k| x ^ line::window(s, i + d * k))
}

// the 120 lowest digits of two words, folded to 15; what stands above these is no matter
fn fifteen(high: u64, low: u64) -> u64
    ensures { after 4 0 (tab 15 (digit 15 result)) ≡ after 4 0 (tab 120 (digit 120 (high * 2 ^ 64 + low))) }
{
    let sixty = (high << 4) ^ (low >> 60) ^ low;
    let thirty = (sixty >> 30) ^ sixty;
    (thirty >> 15) ^ thirty
}

// the rows from place q on, folded to 15 digits: two windows hold a row, and behind it c bits that are moved out
fn folded(s: &[u8], q: usize) -> u64
    requires { Room s.now q 2048 }
    ensures { after 4 0 (tab 15 (digit 15 result)) ≡ after 4 0 (tab 2040 (λ j. bit_at s.now (q + j))) }
{
    let i = q >> 3;
    let c = 8 - (q & 7);
    let a = windows(s, i, 17, 15);
    let b = windows(s, i + 8, 17, 15);
    fifteen(a >> c, (a << (64 - c)) | (b >> c))
}

// the remainder of the 2,040 bits from place q on: that of the 15 digits, seven and eight
pub fn after_rows(s: &[u8], q: usize, table: &Remainders) -> u8
    requires { Room s.now q 2048 }
    ensures { (result ≡ after 4 0 (tab 2040 (λ j. bit_at s.now (q + j)))) × (result < 16) }
{
    let n = folded(s, q);
    let r = table.after_octet(0, (n / 256 % 128) as u8);
    table.after_octet(r, (n % 256) as u8)
}
