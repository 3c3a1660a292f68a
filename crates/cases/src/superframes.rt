// The calls of T1, each with the line that it prints.
use crate::lines::{fill, first, number_of, write_into};
use crate::teller::Teller;
use given::Bench;
use given::step::Numbers;
use program::text::limited;

// an image is read, into outputs of so many octets
pub fn read<P: Print>(t: &Teller<'_, P>, bench: &Bench, numbers: &Numbers) {
    let payload_room = limited(numbers.at(0), 8064);
    let link_room = limited(numbers.at(1), 168);
    fill(t, payload_room, b" link ", link_room, |payload, link| {
        let read = t1read::read(bench.read(), payload, link);
        t.answered(number_of(&read));
        t.value(b" place ", &read, |r| r.place);
        t.value(b" whole ", &read, |r| r.whole);
        t.value(b" compared ", &read, |r| r.compared);
        t.value(b" errored ", &read, |r| r.errored);
    });
}

// so many octets of a payload and of bits, a check, and an output of so many octets
pub fn write<P: Print>(t: &Teller<'_, P>, bench: &Bench, numbers: &Numbers) {
    let payload = first(&bench.payload, numbers.at(0));
    let link = first(&bench.bits, numbers.at(1));
    write_into(t, numbers.at(3), |out| {
        t1write::write(payload, link, numbers.at(2), out)
    });
}

// the same, with so many of the bits as signalling too
pub fn write_signalled<P: Print>(t: &Teller<'_, P>, bench: &Bench, numbers: &Numbers) {
    let payload = first(&bench.payload, numbers.at(0));
    let link = first(&bench.bits, numbers.at(1));
    let signalling = first(&bench.bits, numbers.at(3));
    write_into(t, numbers.at(4), |out| {
        t1write::write_signalled(payload, link, numbers.at(2), signalling, out)
    });
}
