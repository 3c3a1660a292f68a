// T1 in the C interface.
ghost use Rattle.std.specs.Prelude.{◌≡◌};
ghost use Rattle.base.specs.Number.{number_in};
ghost use Rattle.t1read.specs.Answer.{answered};
ghost use Rattle.jikhvanto.specs.Octets.{t1_reading_places};
ghost use Rattle.jikhvanto.specs.Calls.{JkT1Read, JkT1Write, JkT1WriteSignalled};

use base::Refused;
use t1read::Reading;

// a reading, in its places
#[tactic(auto, unfolding(crate::specs::Octets::t1_reading_places))]
fn give_t1_reading(reading: Result<Reading, Refused>, answer: &mut [u64; 16]) -> u64
    ensures { (result ≡ number_in reading) × (answer.new ≡ t1_reading_places (answered reading)) }
{
    match reading {
        Ok(r) => {
            let values = [
                0,
                r.place as u64,
                r.whole as u64,
                r.compared as u64,
                r.errored as u64,
            ];
            crate::give(&values, answer)
        }
        Err(e) => crate::give(&[e.number(), e.place() as u64], answer),
    }
}

// an image is read
pub fn jk_t1_read(image: &[u8], payload: &mut [u8], link: &mut [u8], answer: &mut [u64; 16]) -> u64
    ensures { JkT1Read image.now payload.old link.old
        result payload.new link.new answer.new }
{
    give_t1_reading(t1read::read(image, payload, link), answer)
}

// superframes are written
pub fn jk_t1_write(
    payload: &[u8],
    link: &[u8],
    check: u64,
    out: &mut [u8],
    answer: &mut [u64; 16],
) -> u64
    ensures { JkT1Write payload.now link.now check out.old
        result out.new answer.new }
{
    crate::give_value(t1write::write(payload, link, check, out), answer)
}

// superframes are written with signalling
pub fn jk_t1_write_signalled(
    payload: &[u8],
    link: &[u8],
    check: u64,
    signalling: &[u8],
    out: &mut [u8],
    answer: &mut [u64; 16],
) -> u64
    ensures { JkT1WriteSignalled payload.now link.now check signalling.now
        out.old result out.new answer.new }
{
    let written = t1write::write_signalled(payload, link, check, signalling, out);
    crate::give_value(written, answer)
}
