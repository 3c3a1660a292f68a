// T1 in the C interface.
ghost use Rattle.jikhvanto.specs.Calls.{JkT1Read, JkT1Write, JkT1WriteSignalled};

// an image is read
#[unsafe(no_mangle)]
pub extern "C" fn jk_t1_read(
    image: &[u8],
    payload: &mut [u8],
    link: &mut [u8],
    answer: &mut [u64; 16],
) -> u64
    ensures { JkT1Read image.now payload.old link.old
        result payload.new link.new answer.new }
{
    jikhvanto::superframes::jk_t1_read(image, payload, link, answer)
}

// superframes are written
#[unsafe(no_mangle)]
pub extern "C" fn jk_t1_write(
    payload: &[u8],
    link: &[u8],
    check: u64,
    out: &mut [u8],
    answer: &mut [u64; 16],
) -> u64
    ensures { JkT1Write payload.now link.now check out.old
        result out.new answer.new }
{
    jikhvanto::superframes::jk_t1_write(payload, link, check, out, answer)
}

// superframes are written with signalling
#[unsafe(no_mangle)]
pub extern "C" fn jk_t1_write_signalled(
    payload: &[u8],
    link: &[u8],
    check: u64,
    signalling: &[u8],
    out: &mut [u8],
    answer: &mut [u64; 16],
) -> u64
    ensures { JkT1WriteSignalled payload.now link.now check signalling.now
        out.old result out.new answer.new }
{
    jikhvanto::superframes::jk_t1_write_signalled(payload, link, check, signalling, out, answer)
}
