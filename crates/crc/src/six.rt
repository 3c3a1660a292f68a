// Remainders by x^6 + x + 1, with words of 64 bits and no table (KIT §15): x^64 counts for x, and x^48, x^24, x^12 and
// x^6 for x^8 + 1, x^4 + 1, x^2 + 1 and x + 1.
ghost use Rattle.std.specs.Prelude.{◌≡◌, ℕ, ◌+◌, ◌*◌, ◌/◌, ◌^◌, ◌<◌, ◌≤◌};
ghost use Rattle.base.specs.Tab.{tab};
ghost use Rattle.line.specs.Spelt.{digit};
ghost use Rattle.crc.specs.Remainder.{zeros, after};
ghost use Rattle.crc.specs.Fold.{Lowers};
ghost use Rattle.crc.specs.Word.{remainder, wide_remainder};

// a number of two words, which stands for its remainder
#[derive(Clone, Copy)]
pub struct Wide {
    pub high: u64,
    pub low: u64,
}

// after the 64 digits of w: twice the number, as x^64 counts for x
pub fn after_word(a: Wide, w: u64) -> Wide
    requires { a.high < 2 ^ 63 }
    ensures { (wide_remainder 6 result ≡ after 6 (wide_remainder 6 a) (tab 64 (digit 64 w)))
        × (result.high ≤ 2 * a.high + 1) }
{
    Wide {
        high: (a.high << 1) | (a.low >> 63),
        low: (a.low << 1) ^ w,
    }
}

// one word that stands for the same
pub fn narrowed(a: Wide) -> u64
    requires { a.high < 2 ^ 63 }
    ensures { remainder 6 64 result ≡ wide_remainder 6 a }
{
    (a.high << 1) ^ a.low
}

// the digits of a word from the k-th on, counted from the lowest, moved down, where x^k counts for x^j + 1
fn lowered(a: u64, k: u32, j: u32) -> u64
    requires { (j < k) × (k < 64) × Lowers 6 k j }
    ensures { (remainder 6 64 result ≡ remainder 6 64 a)
        × ((m : ℕ) → k ≤ m + j → a / 2 ^ k < 2 ^ m → result < 2 ^ (m + j)) }
{
    let high = a >> k;
    (high << j) ^ high ^ (a % (1 << k))
}

// the remainder of a word
pub fn reduced(a: u64) -> u64
    ensures { (result ≡ remainder 6 64 a) × (result < 64) }
{
    let by_48 = lowered(a, 48, 8);
    let by_24 = lowered(lowered(by_48, 24, 4), 24, 4);
    let by_12 = lowered(lowered(by_24, 12, 2), 12, 2);
    lowered(lowered(by_12, 6, 1), 6, 1)
}

// the remainder after the six zeros behind a block: times x^6
pub fn after_zeros(r: u64) -> u64
    requires { r < 64 }
    ensures { (result ≡ after 6 r (zeros 6)) × (result < 64) }
{
    lowered((r << 1) ^ r, 6, 1)
}
