// What a bit adds to the check of its block, bit by bit.
ghost use Rattle.std.specs.Prelude.{◌≡◌, ◌^◌, ◌<◌, ◌≤◌};
ghost use Rattle.crc.specs.Remainder.{step};
ghost use Rattle.crc.specs.Share.{share};
ghost use Rattle.hits.specs.Verdict.{numbers_of, share_of};

use crate::judge::Form;

// one bit 0 more: doubled, and where x^w comes out, x + 1 stands for it
fn step(w: usize, r: usize) -> usize
    requires { (2 ≤ w) × (w ≤ 6) × (r < 2 ^ w) }
    ensures { (result ≡ step w r 0) × (result < 2 ^ w) }
{
    let top = 1 << w;
    if 2 * r < top {
        return 2 * r;
    }
    (2 * r - top) ^ 3
}

// of a 1 with k bits behind it: k zeros, and w more
// kept: a loop: with `fold` the proofs that each `step` is given r < 2 ^ w, and of the share, did not close (tried)
fn share(w: usize, k: usize) -> usize
    requires { (2 ≤ w) × (w ≤ 6) × (k ≤ 4632) }
    ensures { result ≡ share w k }
{
    let mut r = 1;
    for _bit in 0..k + w {
        r = step(w, r);
    }
    r
}

impl Form {
    pub fn share(self, bit: usize) -> usize
        requires { bit < (numbers_of self).bits }
        ensures { result ≡ share_of self bit }
    {
        share(self.width(), self.bits() - 1 - bit)
    }
}
