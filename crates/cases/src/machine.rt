// The calls of the map and the key, each with the line that it prints.
use crate::lines::{BEFORE, first, number_of};
use crate::teller::Teller;
use base::Refused;
use exchange::State;
use given::Bench;
use given::step::Numbers;
use program::text::limited;

// a record of up to five octets
pub fn host<P: Print>(t: &Teller<'_, P>, state: &mut State, numbers: &Numbers) {
    let octets = numbers.octets();
    let n = limited(numbers.all().len() as u64, 5);
    let entry = state.host(&octets[..n]);
    t.called(number_of(&entry));
    t.number(b" entry ", u64::from(entry.unwrap_or(0)));
    t.end();
}

// a call that answers nothing but its number
pub fn tell<P: Print>(t: &Teller<'_, P>, answer: Result<(), Refused>) {
    t.called(number_of(&answer));
    t.end();
}

// so many octets of a payload through the live map, into an output of so many
pub fn map<P: Print>(t: &Teller<'_, P>, state: &State, bench: &Bench, numbers: &Numbers) {
    let payload = first(&bench.payload, numbers.at(0));
    let mut out = [BEFORE; 8432];
    let out = &mut out[..limited(numbers.at(1), 8432)];
    let answer = state.map(payload, out);
    t.called(number_of(&answer));
    t.digest(b" out ", out);
    t.end();
}
