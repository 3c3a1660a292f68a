// The map and the key.
#![tactic(auto)]

ghost use Rattle.std.specs.Prelude.{◌≡◌, ◌∷◌, ℕ, ◌<◌, ◌≤◌, length, get_or};
ghost use Rattle.base.specs.Tab.{tab};
ghost use Rattle.base.specs.Number.{number_in};
ghost use Rattle.exchange.specs.Mapping.{entry_used, entry_at, mapped_payload, Mapped};
ghost use Rattle.exchange.specs.Answer.{accept, answered, told};
ghost use Rattle.exchange.specs.Machine.{start_state, hosted, keyed, crossed, stage, commit};
ghost use Rattle.exchange.specs.Machine.{between, state_refusal};
ghost use Rattle.exchange.specs.Request.{request_kind, Parsed};

use base::Refused;

// the flag, a live map, perhaps a staged one, perhaps a waiting one; a map has the entry of output slot j at its index
// j
// kept: no option in place of `staging` and `staged`, or of `pending` and `waiting`: the 99 octets of the C interface
// keep the octets of a map that is not there, and give them back
#[derive(Clone, Copy)]
pub struct State {
    pub flag: bool,
    pub staging: bool,
    pub pending: bool,
    pub live: [u8; 32],
    pub staged: [u8; 32],
    pub waiting: [u8; 32],
}

// what a host record asks for
#[derive(Clone, Copy)]
enum Request {
    Stage { output: u8, input: u8 },
    Commit,
    Read { output: u8 },
    Drop,
}

impl Request {
    // a record: kind, a, b, host number
    #[tactic(auto, unfolding(crate::specs::Machine::between, crate::specs::Machine::outside))]
    fn parse(octets: &[u8]) -> Result<Request, Refused>
        ensures { Parsed octets.now result }
    {
        let &[kind, a, b, _] = octets else {
            return Err(Refused::Record);
        };
        match kind {
            1 if is_slot(a) & (b <= 31) => Ok(Request::Stage {
                output: a,
                input: b,
            }),
            2 => Ok(Request::Commit),
            3 if is_slot(a) => Ok(Request::Read { output: a }),
            4 => Ok(Request::Drop),
            1 | 3 => Err(Refused::Slot),
            _ => Err(Refused::Kind),
        }
    }
}

#[tactic(auto, unfolding(crate::specs::Machine::between))]
fn is_slot(a: u8) -> bool
    ensures { result ≡ between 1 a 31 }
{
    (1..=31).contains(&a)
}

impl State {
    // at the start the flag is off and slot j takes from j
    pub fn start() -> State
        ensures { result ≡ start_state }
    {
        State {
            flag: false,
            staging: false,
            pending: false,
            live: std::array::from_fn(|j| j as u8),
            staged: [0; 32],
            waiting: [0; 32],
        }
    }

    // a reading needs nothing, the others the flag, and a commit and a drop a staged map
    #[tactic(auto, unfolding(crate::specs::Machine::locked, crate::specs::Machine::unstaged))]
    fn permit(&self, request: Request) -> Result<(), Refused>
        ensures { number_in result ≡ state_refusal self.now (request_kind request) }
    {
        match request {
            Request::Read { .. } => Ok(()),
            _ if !self.flag => Err(Refused::Locked),
            Request::Commit | Request::Drop if !self.staging => Err(Refused::NothingStaged),
            _ => Ok(()),
        }
    }

    // staged entry a is b; where nothing is staged, a copy of the live map is staged first
    fn stage(&mut self, a: usize, b: u8)
        requires { a ≤ 31 }
        ensures { self.new ≡ stage self.old a b }
    {
        if !self.staging {
            let live = self.live;
            self.staged = live;
        }
        self.staging = true;
        self.staged[a] = b;
    }

    // the staged map is the waiting one
    fn commit(&mut self)
        ensures { self.new ≡ commit self.old }
    {
        let staged = self.staged;
        self.staging = false;
        self.pending = true;
        self.waiting = staged;
    }

    // a host record; the entry that it reads, 0 where it reads none
    pub fn host(&mut self, octets: &[u8]) -> Result<u8, Refused>
        ensures { answered self.new result ≡ hosted self.old octets.now }
    {
        let request = Request::parse(octets)?;
        self.permit(request)?;
        match request {
            Request::Stage { output, input } => self.stage(output as usize, input),
            Request::Commit => self.commit(),
            Request::Read { output } => return Ok(used(self.live[output as usize])),
            Request::Drop => self.staging = false,
        }
        Ok(0)
    }

    // the key, to a position
    #[tactic(auto, unfolding(crate::specs::Machine::key_refusal))]
    pub fn key(&mut self, position: u64) -> Result<(), Refused>
        ensures { told self.new result ≡ keyed self.old position }
    {
        match position {
            0 => {
                self.flag = false;
                self.staging = false;
                self.pending = false;
            }
            1 => self.flag = true,
            _ => return Err(Refused::Position),
        }
        Ok(())
    }

    // a multiframe boundary
    pub fn boundary(&mut self)
        ensures { accept self.new 0 ≡ crossed self.old }
    {
        if self.pending {
            let waiting = self.waiting;
            self.live = waiting;
        }
        self.pending = false;
    }

    // every frame of a payload through the live map
    pub fn map(&self, payload: &[u8], out: &mut [u8]) -> Result<(), Refused>
        ensures { Mapped self.now.live payload.now out.old (number_in result) out.new }
    {
        let n = payload.len();
        if !e1::is_sized(n) {
            return Err(Refused::Payload);
        }
        if out.len() < n {
            return Err(Refused::NoRoom);
        }
        let map = entries(&self.live);
        // kept: by index: a proof does not know what is left in a slice under `chunks_exact_mut` (tried)
        for f in 0..n / 31 {
            let at = 31 * f;
            map_frame(&map, &payload[at..at + 31], &mut out[at..at + 31]);
        }
        Ok(())
    }
}

// an entry over 31 counts as 0
fn used(entry: u8) -> u8
    ensures { result ≡ entry_used entry }
{
    if entry <= 31 { entry } else { 0 }
}

// the entries of a map as they are used, worked out once for all frames
fn entries(map: &[u8; 32]) -> [u8; 32]
    ensures { result ≡ tab 32 (entry_at map.now) }
{
    // `map.map(used)` takes 585 instructions more, a third of a call with one multiframe
    let mut entries = [0; 32];
    for (j, entry) in entries.iter_mut().enumerate() {
        *entry = used(map[j]);
    }
    entries
}

// a frame by its slots, with 255 at 0: an entry is an index
fn slots(frame: &[u8]) -> [u8; 32]
    requires { length frame.now ≡ 31 }
    ensures { result ≡ 255 ∷ frame.now }
{
    let mut slots = [255; 32];
    slots[1..].copy_from_slice(frame);
    slots
}

// a frame through a map that has no entry over 31
fn map_frame(map: &[u8; 32], frame: &[u8], out: &mut [u8])
    requires { ((j : ℕ) → j < 32 → get_or map.now j 0 ≤ 31) × (length frame.now ≡ 31) × (length out.old ≡ 31) }
    ensures { out.new ≡ mapped_payload map.now frame.now }
{
    let slots = slots(frame);
    for (i, o) in out.iter_mut().enumerate() {
        *o = slots[map[i + 1] as usize];
    }
}
