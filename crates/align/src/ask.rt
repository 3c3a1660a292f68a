// Asking about one place: what is said of it, by what judges places in the search.
ghost use Rattle.std.specs.Prelude.{◌≡◌};
ghost use Rattle.line.specs.Bit.{Room};
ghost use Rattle.align.specs.Why.{judged, why};

use crate::Why;
use base::Refused;

// the first condition that fails
#[tactic(auto, unfolding(crate::specs::Why::judged))]
fn judge(s: &[u8], p: usize) -> Why
    requires { Room s.now p 16384 }
    ensures { result ≡ judged s.now p }
{
    if !e1::is_word(s, p) {
        return Why::FirstWord {
            bit: e1::first_wrong(s, p),
        };
    }
    if line::bit(s, p + 257) != 1 {
        return Why::Bit2;
    }
    if !e1::is_word(s, p + 512) {
        return Why::SecondWord {
            bit: e1::first_wrong(s, p + 512),
        };
    }
    match crate::least_k(s, p) {
        Some(k) => Why::NoneFails { k },
        None => Why::NoPair,
    }
}

// A place of an image is asked about.
pub fn why(image: &[u8], place: u64) -> Result<Why, Refused>
    ensures { result ≡ why image.now place }
{
    if image.len() < 2048 {
        return Err(Refused::TooShort);
    }
    if 8192 < image.len() {
        return Err(Refused::TooLong);
    }
    let p = place as usize;
    if 8 * image.len() - 16384 < p {
        return Err(Refused::Place);
    }
    Ok(judge(image, p))
}
