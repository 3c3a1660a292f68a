// The calls on an image and the writers of E1, each with the line that it prints.
ghost use Rattle.std.specs.Prelude.{◌≡◌, ◌≤◌, length};

use crate::teller::Teller;
use align::Why;
use base::Refused;
use given::Bench;
use given::step::Numbers;
use program::text::limited;
use read::Reading;

// what every octet of an output holds before a call
pub const BEFORE: u8 = 170;

// what a read answers behind its number
pub fn show_values<P: Print>(t: &Teller<'_, P>, read: &Result<Reading, Refused>) {
    let place = match read {
        Ok(r) => r.place,
        Err(e) => e.place(),
    };
    t.count(b" place ", place);
    t.value(b" start ", read, |r| r.start);
    t.value(b" whole ", read, |r| r.whole);
    t.value(b" used ", read, |r| r.used);
    t.value(b" lost ", read, |r| r.lost());
    t.value(b" words ", read, |r| r.words);
    t.value(b" compared ", read, |r| r.compared);
    t.value(b" errored ", read, |r| r.errored);
    t.value(b" farend ", read, |r| r.farend);
    t.value(b" wordbits ", read, |r| r.wordbits);
    t.value(b" cause ", read, |r| r.cause() as usize);
}

// the number of an answer, 0 where the call is accepted
pub fn number_of<T: Drop>(answer: &Result<T, Refused>) -> u64 {
    match answer {
        Ok(_) => 0,
        Err(e) => e.number(),
    }
}

// the first octets of some, up to so many
pub fn first(octets: &[u8], n: u64) -> &[u8] {
    &octets[..limited(n, octets.len())]
}

// two outputs of so many octets each, filled by a call that shows what it answers; the digests of both
pub fn fill<P: Print, F: FnOnce(&mut [u8], &mut [u8])>(
    t: &Teller<'_, P>,
    payload_room: usize,
    name: &[u8],
    room: usize,
    call: F,
)
    requires { (payload_room ≤ 8064) × (room ≤ 256) × F.IsAlwaysCallable call }
{
    let mut payload = [BEFORE; 8064];
    let mut other = [BEFORE; 256];
    let payload = &mut payload[..payload_room];
    let other = &mut other[..room];
    call(payload, other);
    t.digest(b" payload ", payload);
    t.digest(name, other);
    t.end();
}

// an image is read
pub fn read<P: Print>(t: &Teller<'_, P>, bench: &Bench) {
    let payload_room = limited(bench.payload_room, 7936);
    let slot0_room = limited(bench.slot0_room, 256);
    fill(t, payload_room, b" slot0 ", slot0_room, |payload, slot0| {
        let read = read::read(bench.read(), payload, slot0);
        t.answered(number_of(&read));
        show_values(t, &read);
    });
}

fn show_why<P: Print>(t: &Teller<'_, P>, number: u64, condition: u64, k: usize, bit: usize) {
    t.answered(number);
    t.number(b" condition ", condition);
    t.count(b" k ", k);
    t.count(b" bit ", bit);
    t.end();
}

// a place is asked about
// kept: a number for each condition: it is printed as the table of C has it
pub fn why<P: Print>(t: &Teller<'_, P>, bench: &Bench, place: u64) {
    match align::ask::why(bench.read(), place) {
        Ok(Why::NoneFails { k }) => show_why(t, 0, 0, k, 0),
        Ok(Why::FirstWord { bit }) => show_why(t, 0, 1, 0, bit),
        Ok(Why::Bit2) => show_why(t, 0, 2, 0, 0),
        Ok(Why::SecondWord { bit }) => show_why(t, 0, 3, 0, bit),
        Ok(Why::NoPair) => show_why(t, 0, 4, 0, 0),
        Err(e) => show_why(t, e.number(), 0, 0, 0),
    }
}

// signalling is read, into an output of so many octets
pub fn signals<P: Print>(t: &Teller<'_, P>, bench: &Bench, room: u64) {
    let mut abcd = [BEFORE; 512];
    let abcd = &mut abcd[..limited(room, 512)];
    let signalling = signals::signals(bench.read(), abcd);
    t.answered(number_of(&signalling));
    t.value(b" multiframes ", &signalling, |s| s.multiframes);
    t.value(b" first ", &signalling, |s| s.first);
    t.value(b" losses ", &signalling, |s| s.losses);
    t.value(b" held ", &signalling, |s| usize::from(s.held));
    t.value(b" x0 ", &signalling, |s| usize::from(s.x0));
    t.value(b" x1 ", &signalling, |s| usize::from(s.x1));
    t.value(b" x2 ", &signalling, |s| usize::from(s.x2));
    t.value(b" y ", &signalling, |s| usize::from(s.y));
    t.digest(b" abcd ", abcd);
    t.end();
}

// what a write answers, and the digest of its output
fn show_write<P: Print>(t: &Teller<'_, P>, check: Result<u64, Refused>, out: &[u8]) {
    t.answered(number_of(&check));
    t.number(b" check ", check.unwrap_or(0));
    t.digest(b" out ", out);
    t.end();
}

// an output of so many octets, written by a call
pub fn write_into<P: Print, F: FnOnce(&mut [u8]) -> Result<u64, Refused>>(
    t: &Teller<'_, P>,
    room: u64,
    call: F,
)
    requires { F.IsAlwaysCallable call }
{
    let mut out = [BEFORE; 8704];
    let out = &mut out[..limited(room, 8704)];
    let check = call(out);
    show_write(t, check, out);
}

// so many octets of a payload and of an overhead, a check, and an output of so many octets
pub fn write<P: Print>(t: &Teller<'_, P>, bench: &Bench, numbers: &Numbers) {
    let payload = first(&bench.payload, numbers.at(0));
    let overhead = first(&bench.overhead, numbers.at(1));
    write_into(t, numbers.at(3), |out| {
        write::write(payload, overhead, numbers.at(2), out)
    });
}

// so many octets of a payload and of an overhead, a check, so many octets of XY and of ABCD, and an output of so many
pub fn write_signalled<P: Print>(t: &Teller<'_, P>, bench: &Bench, numbers: &Numbers) {
    let payload = first(&bench.payload, numbers.at(0));
    let overhead = first(&bench.overhead, numbers.at(1));
    let xy = first(&bench.xy, numbers.at(3));
    let abcd = first(&bench.abcd, numbers.at(4));
    write_into(t, numbers.at(5), |out| {
        signalled::write_signalled(payload, overhead, numbers.at(2), xy, abcd, out)
    });
}

// Two multiframes, the second with the check of the first, or with 0 where that is refused. The second is answered.
fn put_two(payload: &[u8], overhead: &[u8], out: &mut [u8]) -> Result<u64, Refused>
    requires { (length payload.now ≡ 992) × (length overhead.now ≡ 16) × (length out.old ≡ 1024) }
{
    let check = write::write(&payload[0..496], &overhead[0..8], 5, &mut out[0..512]).unwrap_or(0);
    write::write(
        &payload[496..992],
        &overhead[8..16],
        check,
        &mut out[512..1024],
    )
}

// in two writes
pub fn write_two<P: Print>(t: &Teller<'_, P>, bench: &Bench) {
    let mut out = [BEFORE; 1024];
    let check = put_two(&bench.payload[0..992], &bench.overhead[0..16], &mut out);
    show_write(t, check, &out);
}
