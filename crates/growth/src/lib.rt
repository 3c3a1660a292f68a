// What is known of a line that comes in chunks.
#![tactic(auto)]

ghost use Rattle.std.specs.Prelude.{◌≡◌};
ghost use Rattle.growth.specs.Growth.{unread, nothing};

use align::Found;

// What is known of a line so far, beside its last octets: how many octets were let go, what was found, the multiframes
// that have left, the frame of loss or 0, and what was counted.
#[derive(Clone, Copy)]
pub struct Line {
    pub before: usize,
    pub found: Found,
    pub used: usize,
    // a number, not an option: one of the twelve that C keeps of a stream (KIT §10)
    pub lost: usize,
    pub words: usize,
    pub errored: usize,
    pub farend: usize,
    pub wordbits: usize,
}

impl Line {
    // a line of which no multiframe has left
    pub fn unread(before: usize, found: Found) -> Line
        ensures { result ≡ unread before found }
    {
        Line {
            before,
            found,
            used: 0,
            lost: 0,
            words: 0,
            errored: 0,
            farend: 0,
            wordbits: 0,
        }
    }

    // A line of which nothing has come.
    pub fn nothing() -> Line
        ensures { result ≡ nothing }
    {
        Line::unread(0, Found::Nothing)
    }
}
