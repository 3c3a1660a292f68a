// The C interface: each entry of the kit, over a state in lent octets and an answer in lent places.
#![tactic(auto)]

pub mod superframes;

ghost use Rattle.std.specs.Prelude.{◌≡◌, ◌++◌, ◌+◌, ◌≤◌, ◌<◌, length, drop, eqb, slice_index};
ghost use Rattle.base.specs.Number.{number_in};
ghost use Rattle.align.specs.Why.{why_number};
ghost use Rattle.read.specs.Answer as reads;
ghost use Rattle.signals.specs.Answer as signals;
ghost use Rattle.exchange.specs.Machine.{kind_of};
ghost use Rattle.jikhvanto.specs.Octets.{map_at, state_of, octets_of, reading_places, why_places};
ghost use Rattle.jikhvanto.specs.Octets.{signalling_places, answer_of, pair_places, value_in};
ghost use Rattle.jikhvanto.specs.Stream.{number_at, found_by, stream_of, found_number};
ghost use Rattle.jikhvanto.specs.Stream.{stream_numbers, spelt_numbers};
ghost use Rattle.jikhvanto.specs.Calls.{JkRead, JkStreamStart, JkFeed, JkEnd};
ghost use Rattle.jikhvanto.specs.Calls.{JkSignals, JkWhy, JkWrite, JkWriteSignalled};
ghost use Rattle.jikhvanto.specs.Calls.{JkStart, JkHost, JkKey, JkBoundary, JkMap};

use align::{Found, Why};
use base::Refused;
use exchange::State;
use growth::Line;
use read::Reading;
use signals::Signalling;
use stream::Stream;

// the 32 octets of a map
#[tactic(auto, unfolding(crate::specs::Octets::map_at))]
fn map_at(octets: &[u8], at: usize) -> [u8; 32]
    requires { at + 32 ≤ length octets.now }
    ensures { result ≡ map_at at octets.now }
{
    *octets[at..at + 32].as_array().unwrap()
}

// the state that the octets are; neither type is declared here, so this is no `From`
#[tactic(auto, unfolding(crate::specs::Octets::state_of))]
fn unpack(octets: &[u8; 99]) -> State
    ensures { result ≡ state_of octets.now }
{
    State {
        flag: octets[0] == 1,
        staging: octets[1] == 1,
        pending: octets[2] == 1,
        live: map_at(octets, 3),
        staged: map_at(octets, 35),
        waiting: map_at(octets, 67),
    }
}

// the octets of a state; no `From` either
fn pack(state: State) -> [u8; 99]
    ensures { result ≡ octets_of state }
{
    let mut octets = [0; 99];
    octets[0] = state.flag as u8;
    octets[1] = state.staging as u8;
    octets[2] = state.pending as u8;
    octets[3..35].copy_from_slice(&state.live);
    octets[35..67].copy_from_slice(&state.staged);
    octets[67..99].copy_from_slice(&state.waiting);
    octets
}

// the record is of kind 3, which only reads
fn is_reading(octets: &[u8]) -> bool
    ensures { result ≡ eqb (kind_of octets.now) 3 }
{
    octets.first() == Some(&3)
}

// number i of a stream's twelve
#[tactic(auto, using(crate::proofs::StreamLaws::number_from))]
fn number_at(octets: &[u8; 2144], i: usize) -> u64
    requires { i < 12 }
    ensures { result ≡ number_at i octets.now }
{
    line::window(octets, 8 * i)
}

// the same, as large as a length
fn length_at(octets: &[u8; 2144], i: usize) -> usize
    requires { i < 12 }
    ensures { result ≡ number_at i octets.now }
{
    number_at(octets, i) as usize
}

// what is found, by its number: C keeps numbers
#[tactic(auto, unfolding(crate::specs::Stream::found_by))]
fn found_by(number: u64, place: usize, k: usize) -> Found
    ensures { result ≡ found_by number place k }
{
    match number {
        2 => Found::At { place, k },
        1 => Found::BasicAt { place },
        _ => Found::Nothing,
    }
}

// the stream that the octets are; no `From`, as neither is declared here
#[tactic(auto, unfolding(crate::specs::Stream::stream_of))]
fn unpack_stream(octets: &[u8; 2144]) -> Stream
    ensures { result ≡ stream_of octets.now }
{
    let found = found_by(
        number_at(octets, 3),
        length_at(octets, 4),
        length_at(octets, 5),
    );
    let line = Line {
        before: length_at(octets, 2),
        found,
        used: length_at(octets, 6),
        lost: length_at(octets, 7),
        words: length_at(octets, 8),
        errored: length_at(octets, 9),
        farend: length_at(octets, 10),
        wordbits: length_at(octets, 11),
    };
    Stream {
        ended: number_at(octets, 0) == 1,
        fill: length_at(octets, 1),
        line,
    }
}

// the number of what is found, as C keeps it
fn found_number(found: Found) -> u64
    ensures { result ≡ found_number found }
{
    match found {
        Found::At { place: _, k: _ } => 2,
        Found::BasicAt { place: _ } => 1,
        Found::Nothing => 0,
    }
}

// the numbers of a stream
#[tactic(auto, unfolding(crate::specs::Stream::stream_numbers))]
fn stream_numbers(stream: Stream) -> [u64; 12]
    ensures { result ≡ stream_numbers stream }
{
    let line = stream.line;
    let found = line.found;
    [
        stream.ended as u64,
        stream.fill as u64,
        line.before as u64,
        found_number(found),
        found.place() as u64,
        found.k() as u64,
        line.used as u64,
        line.lost as u64,
        line.words as u64,
        line.errored as u64,
        line.farend as u64,
        line.wordbits as u64,
    ]
}

// the numbers of a stream, to the front of its octets
fn store_numbers(stream: Stream, octets: &mut [u8; 2144])
    ensures { octets.new ≡ spelt_numbers (stream_numbers stream) ++ drop 96 octets.old }
{
    for (i, number) in stream_numbers(stream).iter().enumerate() {
        line::spell(*number, &mut octets[8 * i..8 * i + 8]);
    }
}

// values in their places, zeros behind; the first of them, which is the number
fn give(values: &[u64], answer: &mut [u64; 16]) -> u64
    requires { (0 < length values.now) × (length values.now ≤ 16) }
    ensures { (result ≡ slice_index values.now 0) × (answer.new ≡ answer_of values.now) }
{
    *answer = [0; 16];
    answer[..values.len()].copy_from_slice(values);
    values[0]
}

// a value beside the number 0, or a refusal
#[tactic(auto, unfolding(crate::specs::Octets::pair_places))]
fn give_value(value: Result<u64, Refused>, answer: &mut [u64; 16]) -> u64
    ensures { (result ≡ number_in value) × (answer.new ≡ pair_places (number_in value) (value_in value)) }
{
    match value {
        Ok(v) => give(&[0, v], answer),
        Err(e) => give(&[e.number()], answer),
    }
}

// a reading, in its places
#[tactic(auto, unfolding(crate::specs::Octets::reading_places))]
fn give_reading(reading: Result<Reading, Refused>, answer: &mut [u64; 16]) -> u64
    ensures { (result ≡ number_in reading) × (answer.new ≡ reading_places (reads.answered reading)) }
{
    match reading {
        Ok(r) => {
            let values = [
                0,
                r.place as u64,
                r.start as u64,
                r.whole as u64,
                r.used as u64,
                r.lost() as u64,
                r.words as u64,
                r.compared as u64,
                r.errored as u64,
                r.farend as u64,
                r.wordbits as u64,
                r.cause(),
            ];
            give(&values, answer)
        }
        Err(e) => give(&[e.number(), e.place() as u64], answer),
    }
}

// a reading of signalling, in its places
#[tactic(auto, unfolding(crate::specs::Octets::signalling_places))]
fn give_signalling(signalling: Result<Signalling, Refused>, answer: &mut [u64; 16]) -> u64
    ensures { (result ≡ number_in signalling) × (answer.new ≡ signalling_places (signals.answered signalling)) }
{
    match signalling {
        Ok(r) => {
            let values = [
                0,
                r.multiframes as u64,
                r.first as u64,
                r.losses as u64,
                r.held as u64,
                r.x0 as u64,
                r.x1 as u64,
                r.x2 as u64,
                r.y as u64,
            ];
            give(&values, answer)
        }
        Err(e) => give(&[e.number()], answer),
    }
}

// what is said of a place, in its places
#[tactic(auto, unfolding(crate::specs::Octets::why_places))]
fn give_why(said: Result<Why, Refused>, answer: &mut [u64; 16]) -> u64
    ensures { (result ≡ why_number said) × (answer.new ≡ why_places said) }
{
    let values = match said {
        Ok(Why::NoneFails { k }) => [0, 0, k as u64, 0],
        Ok(Why::FirstWord { bit }) => [0, 1, 0, bit as u64],
        Ok(Why::Bit2) => [0, 2, 0, 0],
        Ok(Why::SecondWord { bit }) => [0, 3, 0, bit as u64],
        Ok(Why::NoPair) => [0, 4, 0, 0],
        Err(e) => [e.number(), 0, 0, 0],
    };
    give(&values, answer)
}

// the number alone
fn number(done: Result<(), Refused>) -> u64
    ensures { result ≡ number_in done }
{
    match done {
        Ok(()) => 0,
        Err(e) => e.number(),
    }
}

// an image is read
pub fn jk_read(image: &[u8], payload: &mut [u8], slot0: &mut [u8], answer: &mut [u64; 16]) -> u64
    ensures { JkRead image.now payload.old slot0.old
        result payload.new slot0.new answer.new }
{
    give_reading(read::read(image, payload, slot0), answer)
}

// a stream begins
pub fn jk_stream_start(stream: &mut [u8; 2144])
    ensures { JkStreamStart stream.new }
{
    *stream = [0; 2144];
}

// a stream is fed a chunk
#[tactic(auto, unfolding(crate::specs::Stream::feed_stored))]
pub fn jk_feed(
    stream: &mut [u8; 2144],
    chunk: &[u8],
    payload: &mut [u8],
    slot0: &mut [u8],
    answer: &mut [u64; 16],
) -> u64
    ensures { JkFeed stream.old chunk.now payload.old slot0.old
        result stream.new payload.new slot0.new answer.new }
{
    let mut fed = unpack_stream(stream);
    let multiframes = fed.feed(&mut stream[96..], chunk, payload, slot0);
    if multiframes.is_ok() {
        store_numbers(fed, stream);
    }
    give_value(multiframes.map(|m| m as u64), answer)
}

// a stream is ended
#[tactic(auto, unfolding(crate::specs::Stream::end_stored))]
pub fn jk_end(stream: &mut [u8; 2144], answer: &mut [u64; 16]) -> u64
    ensures { JkEnd stream.old result stream.new answer.new }
{
    let mut ended = unpack_stream(stream);
    let reading = ended.end();
    if reading.is_ok() {
        store_numbers(ended, stream);
    }
    give_reading(reading, answer)
}

// the signalling of an image is read
pub fn jk_signals(image: &[u8], abcd: &mut [u8], answer: &mut [u64; 16]) -> u64
    ensures { JkSignals image.now abcd.old result abcd.new answer.new }
{
    give_signalling(signals::signals(image, abcd), answer)
}

// a place of an image is asked about
pub fn jk_why(image: &[u8], place: u64, answer: &mut [u64; 16]) -> u64
    ensures { JkWhy image.now place result answer.new }
{
    give_why(align::ask::why(image, place), answer)
}

// multiframes are written
pub fn jk_write(
    payload: &[u8],
    overhead: &[u8],
    check: u64,
    out: &mut [u8],
    answer: &mut [u64; 16],
) -> u64
    ensures { JkWrite payload.now overhead.now check out.old
        result out.new answer.new }
{
    give_value(write::write(payload, overhead, check, out), answer)
}

// multiframes are written with signalling
pub fn jk_write_signalled(
    payload: &[u8],
    overhead: &[u8],
    check: u64,
    xy: &[u8],
    abcd: &[u8],
    out: &mut [u8],
    answer: &mut [u64; 16],
) -> u64
    ensures { JkWriteSignalled payload.now overhead.now check
        xy.now abcd.now out.old result out.new answer.new }
{
    let written = signalled::write_signalled(payload, overhead, check, xy, abcd, out);
    give_value(written, answer)
}

// a state begins
pub fn jk_start(state: &mut [u8; 99])
    ensures { JkStart state.new }
{
    *state = pack(State::start());
}

// a host record
#[tactic(auto, unfolding(crate::specs::Octets::host_stored))]
pub fn jk_host(state: &mut [u8; 99], octets: &[u8], answer: &mut [u64; 16]) -> u64
    ensures { JkHost state.old octets.now result state.new answer.new }
{
    let mut machine = unpack(state);
    let entry = machine.host(octets);
    if entry.is_ok() && !is_reading(octets) {
        *state = pack(machine);
    }
    give_value(entry.map(u64::from), answer)
}

// the key, to a position
pub fn jk_key(state: &mut [u8; 99], position: u64) -> u64
    ensures { JkKey state.old position result state.new }
{
    let mut machine = unpack(state);
    let turned = machine.key(position);
    if turned.is_ok() {
        *state = pack(machine);
    }
    number(turned)
}

// a multiframe boundary
pub fn jk_boundary(state: &mut [u8; 99]) -> u64
    ensures { JkBoundary state.old result state.new }
{
    let mut machine = unpack(state);
    machine.boundary();
    *state = pack(machine);
    0
}

// a payload through the live map, the state only looked at
pub fn jk_map(state: &[u8; 99], payload: &[u8], out: &mut [u8]) -> u64
    ensures { JkMap state.now payload.now out.old result out.new }
{
    number(unpack(state).map(payload, out))
}
