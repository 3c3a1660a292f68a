// What the cases print, and what of an output. Whether it was written is not asked.
ghost use Rattle.std.specs.Prelude.{◌<◌};

use base::Refused;

// The line that a call prints: behind its case's label, and as its step is written.
// kept: a name and a number at a time, and no Display: beside a refusal's number its zeros are printed
#[derive(Clone, Copy)]
pub struct Teller<'a, P> {
    pub rt: &'a P,
    pub label: &'a [u8],
    pub step: &'a [u8],
}

// what a and b add up to, modulo 65,521
fn added(a: u64, b: u64) -> u64
    ensures { result < 65521 }
{
    (a % 65521 + b % 65521) % 65521
}

// Octet i counts i + 1 times: from the last octet on, what is behind an octet is counted again with it.
fn digest_of(octets: &[u8]) -> u64 {
    let mut behind: u64 = 0;
    let mut sum: u64 = 0;
    for x in octets.iter().rev() {
        behind = added(behind, u64::from(*x));
        sum = added(sum, behind);
    }
    sum
}

impl<'a, P: Print> Teller<'a, P> {
    pub fn print(&self, text: &[u8]) {
        let _ = self.rt.write_all(text);
    }

    // text, and a number behind it
    pub fn number(&self, text: &[u8], n: u64) {
        let _ = self.rt.write_all(text).and(self.rt.print(n));
    }

    pub fn count(&self, text: &[u8], n: usize) {
        self.number(text, n as u64);
    }

    // a value of what a call answers, 0 beside a refusal
    pub fn value<T: Drop, F: FnOnce(&T) -> usize>(
        &self,
        text: &[u8],
        answer: &Result<T, Refused>,
        value: F,
    )
        requires { F.IsAlwaysCallable value }
    {
        self.count(text, answer.as_ref().map_or(0, value));
    }

    pub fn digest(&self, name: &[u8], octets: &[u8]) {
        self.number(name, digest_of(octets));
    }

    pub fn end(&self) {
        self.print(b"\n");
    }

    // a call on an image or of a writer, by the number that it answers
    pub fn answered(&self, number: u64) {
        self.print(self.label);
        self.number(b": ", number);
    }

    // a call of the map and the key or on a stream, as its step says it, and its number
    pub fn called(&self, number: u64) {
        self.print(self.label);
        self.print(self.step);
        self.number(b": ", number);
    }
}
