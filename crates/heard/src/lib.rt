// Signalling in slot 16, heard frame by frame.
#![tactic(auto)]

ghost use Rattle.std.specs.Prelude.{◌≡◌, ◌^◌, ◌≤◌};
ghost use Rattle.heard.specs.Hearing.{Few, nothing, tallied, after_frame, is_held, xy_of, is_read, began_at};
ghost use Rattle.heard.specs.Hearing.{channel_of};

// What is known behind some frames: how many there were; how many frames of a signalling multiframe have passed, 0
// where alignment is searched for, and whether its signal was wrong; how many are read, the frame of the first
// alignment, and the losses; slot 16 of frame 0 of the last that is read; and the last 16 octets, the newest last.
// kept: no option for `first` or `passed`: 0 is what is answered, and what the definitions of a walk have
#[derive(Clone, Copy)]
pub struct Hearing {
    pub frames: usize,
    pub passed: usize,
    pub wrong: bool,
    pub multiframes: usize,
    pub first: usize,
    pub losses: usize,
    pub xy: u8,
    pub row: [u8; 16],
}

impl Hearing {
    // Nothing is heard.
    pub fn nothing() -> Hearing
        ensures { result ≡ nothing }
    {
        Hearing {
            frames: 0,
            passed: 0,
            wrong: false,
            multiframes: 0,
            first: 0,
            losses: 0,
            xy: 11,
            row: [0; 16],
        }
    }

    // one frame more, behind which so many frames of a signalling multiframe have passed
    #[tactic(auto, unfolding(crate::specs::Hearing::tallied))]
    fn tallied(self, octet: u8, passed: usize, wrong: bool) -> Hearing
        requires { Few self (2 ^ 40) }
        ensures { result ≡ tallied self octet passed wrong }
    {
        let mut row = [octet; 16];
        row[..15].copy_from_slice(&self.row[1..]);
        let is_whole = passed == 16;
        let is_first = (self.first == 0) & (passed == 1);
        let is_loss = (self.passed == 16) & (passed == 0);
        Hearing {
            frames: self.frames + 1,
            passed,
            wrong,
            multiframes: self.multiframes + is_whole as usize,
            first: if is_first { self.frames } else { self.first },
            losses: self.losses + is_loss as usize,
            xy: if is_whole { row[0] } else { self.xy },
            row,
        }
    }

    // One frame more is heard, its slot 16 this octet.
    #[tactic(auto, unfolding(crate::specs::Hearing::after_frame, signals::specs::Signalling::step, signals::specs::Signalling::aligns))]
    pub fn hear(self, octet: u8) -> Hearing
        requires { Few self (2 ^ 40) }
        ensures { result ≡ after_frame self octet }
    {
        let signal = octet / 16 == 0;
        match self.passed {
            0 if signal & (self.row[15] != 0) => self.tallied(octet, 1, !signal),
            0 => self.tallied(octet, 0, false),
            16 if self.wrong & !signal => self.tallied(octet, 0, false),
            16 => self.tallied(octet, 1, !signal),
            passed => self.tallied(octet, passed + 1, self.wrong),
        }
    }

    // alignment is held
    pub fn is_held(&self) -> bool
        ensures { result ≡ is_held self.now }
    {
        self.passed != 0
    }

    // frame 0 of the last that is read; X 1 and Y 0 where none is, or alignment is not held
    pub fn xy(&self) -> u8
        ensures { result ≡ xy_of self.now }
    {
        if self.is_held() { self.xy } else { 11 }
    }

    // A signalling multiframe has just become whole.
    pub fn is_read(&self) -> bool
        ensures { result ≡ is_read self.now }
    {
        self.passed == 16
    }

    // the frame with which it began
    pub fn began(&self) -> usize
        ensures { result ≡ began_at self.now }
    {
        self.frames.saturating_sub(16)
    }

    // A to D of its channel c
    pub fn channel(&self, c: usize) -> u8
        requires { (1 ≤ c) × (c ≤ 30) }
        ensures { result ≡ channel_of self.now c }
    {
        if c <= 15 {
            self.row[c] / 16
        } else {
            self.row[c - 15] % 16
        }
    }
}
