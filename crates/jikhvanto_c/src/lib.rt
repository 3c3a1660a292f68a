// The C interface: each entry of `jikhvanto` under its name in C, with its contract.
#![tactic(auto)]

pub mod superframes;

ghost use Rattle.jikhvanto.specs.Calls.{JkBoundary, JkEnd, JkFeed, JkHost, JkKey, JkMap, JkRead, JkSignals, JkStart, JkStreamStart, JkWhy, JkWrite, JkWriteSignalled};

// an image is read
#[unsafe(no_mangle)]
pub extern "C" fn jk_read(
    image: &[u8],
    payload: &mut [u8],
    slot0: &mut [u8],
    answer: &mut [u64; 16],
) -> u64
    ensures { JkRead image.now payload.old slot0.old
        result payload.new slot0.new answer.new }
{
    jikhvanto::jk_read(image, payload, slot0, answer)
}

// a stream begins
#[unsafe(no_mangle)]
pub extern "C" fn jk_stream_start(stream: &mut [u8; 2144])
    ensures { JkStreamStart stream.new }
{
    jikhvanto::jk_stream_start(stream)
}

// a stream is fed a chunk
#[unsafe(no_mangle)]
pub extern "C" fn jk_feed(
    stream: &mut [u8; 2144],
    chunk: &[u8],
    payload: &mut [u8],
    slot0: &mut [u8],
    answer: &mut [u64; 16],
) -> u64
    ensures { JkFeed stream.old chunk.now payload.old slot0.old
        result stream.new payload.new slot0.new answer.new }
{
    jikhvanto::jk_feed(stream, chunk, payload, slot0, answer)
}

// a stream is ended
#[unsafe(no_mangle)]
pub extern "C" fn jk_end(stream: &mut [u8; 2144], answer: &mut [u64; 16]) -> u64
    ensures { JkEnd stream.old result stream.new answer.new }
{
    jikhvanto::jk_end(stream, answer)
}

// the signalling of an image is read
#[unsafe(no_mangle)]
pub extern "C" fn jk_signals(image: &[u8], abcd: &mut [u8], answer: &mut [u64; 16]) -> u64
    ensures { JkSignals image.now abcd.old result abcd.new answer.new }
{
    jikhvanto::jk_signals(image, abcd, answer)
}

// a place of an image is asked about
#[unsafe(no_mangle)]
pub extern "C" fn jk_why(image: &[u8], place: u64, answer: &mut [u64; 16]) -> u64
    ensures { JkWhy image.now place result answer.new }
{
    jikhvanto::jk_why(image, place, answer)
}

// multiframes are written
#[unsafe(no_mangle)]
pub extern "C" fn jk_write(
    payload: &[u8],
    overhead: &[u8],
    check: u64,
    out: &mut [u8],
    answer: &mut [u64; 16],
) -> u64
    ensures { JkWrite payload.now overhead.now check out.old
        result out.new answer.new }
{
    jikhvanto::jk_write(payload, overhead, check, out, answer)
}

// multiframes are written with signalling
#[unsafe(no_mangle)]
pub extern "C" fn jk_write_signalled(
    payload: &[u8],
    overhead: &[u8],
    check: u64,
    xy: &[u8],
    abcd: &[u8],
    out: &mut [u8],
    answer: &mut [u64; 16],
) -> u64
    ensures { JkWriteSignalled payload.now overhead.now check
        xy.now abcd.now out.old result out.new answer.new }
{
    jikhvanto::jk_write_signalled(payload, overhead, check, xy, abcd, out, answer)
}

// a state begins
#[unsafe(no_mangle)]
pub extern "C" fn jk_start(state: &mut [u8; 99])
    ensures { JkStart state.new }
{
    jikhvanto::jk_start(state)
}

// a host record
#[unsafe(no_mangle)]
pub extern "C" fn jk_host(state: &mut [u8; 99], octets: &[u8], answer: &mut [u64; 16]) -> u64
    ensures { JkHost state.old octets.now result state.new answer.new }
{
    jikhvanto::jk_host(state, octets, answer)
}

// the key, to a position
#[unsafe(no_mangle)]
pub extern "C" fn jk_key(state: &mut [u8; 99], position: u64) -> u64
    ensures { JkKey state.old position result state.new }
{
    jikhvanto::jk_key(state, position)
}

// a multiframe boundary
#[unsafe(no_mangle)]
pub extern "C" fn jk_boundary(state: &mut [u8; 99]) -> u64
    ensures { JkBoundary state.old result state.new }
{
    jikhvanto::jk_boundary(state)
}

// a payload through the live map, the state only looked at
#[unsafe(no_mangle)]
pub extern "C" fn jk_map(state: &[u8; 99], payload: &[u8], out: &mut [u8]) -> u64
    ensures { JkMap state.now payload.now out.old result out.new }
{
    jikhvanto::jk_map(state, payload, out)
}
