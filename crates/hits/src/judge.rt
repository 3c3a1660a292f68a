// Whether the check sees two hits on bits of one block.
ghost use Rattle.std.specs.Prelude.{◌≡◌};
ghost use Rattle.hits.specs.Verdict.{numbers_of, verdict};

// whose block it is: one of E1, or a superframe of T1
#[derive(Clone, Copy)]
pub enum Form {
    E1,
    T1,
}

impl Form {
    // how many bits it has
    pub fn bits(self) -> usize
        ensures { result ≡ (numbers_of self).bits }
    {
        match self {
            Form::E1 => 2048,
            Form::T1 => 4632,
        }
    }

    // each how many-th is no data bit
    pub fn every(self) -> usize
        ensures { result ≡ (numbers_of self).every }
    {
        match self {
            Form::E1 => 512,
            Form::T1 => 193,
        }
    }

    // after how many bits shares come round
    pub fn order(self) -> usize
        ensures { result ≡ (numbers_of self).order }
    {
        match self {
            Form::E1 => 15,
            Form::T1 => 63,
        }
    }

    // how many bits its check has
    pub fn width(self) -> usize
        ensures { result ≡ (numbers_of self).width }
    {
        match self {
            Form::E1 => 4,
            Form::T1 => 6,
        }
    }

    // of hits on two bits, which may be any numbers
    pub fn verdict(self, a: usize, b: usize) -> Verdict
        ensures { result ≡ verdict self a b }
    {
        let bits = self.bits();
        if (bits <= a) | (bits <= b) {
            return Verdict::Outside;
        }
        let every = self.every();
        if a % every == 0 {
            return Verdict::NoData { bit: a };
        }
        if b % every == 0 {
            return Verdict::NoData { bit: b };
        }
        if a == b {
            return Verdict::OneBit { bit: a };
        }
        let apart = a.abs_diff(b);
        if apart % self.order() == 0 {
            return Verdict::Hidden { apart };
        }
        Verdict::Seen { apart }
    }
}

#[derive(Clone, Copy)]
pub enum Verdict {
    Outside,
    NoData { bit: usize },
    OneBit { bit: usize },
    Hidden { apart: usize },
    Seen { apart: usize },
}
