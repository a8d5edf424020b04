// What a carrier owes, and what an oldest-first carrier owes beyond it.
// Assumes nothing.
ghost use Rattle.std.specs.Prelude.{◌≡◌, ℕ, ◌≤◌, length};
ghost use Rattle.carrier.specs.Parcels.{Lanes, waiting, at_place, most_lanes, longest_body, any_waits, Counted, Posted, Taken, TakenAt};

pub use words::body::LONGEST_BODY;
use words::refusal::Refusal;

// What a take gave out: the parcel's head word, and how many words its body has.
// A rule of the project: the body stands in the space that the caller lends, so it has no memory here.
#[derive(Clone, Copy, PartialEq, Eq, Debug)]
pub struct Received {
    pub head: u32,
    pub size: usize,
}

// The most lanes that a carrier has.
pub const MOST_LANES: usize = 64;

// A lane in which so many parcels wait takes no other.
pub const LANE_ROOM: usize = 2;

// The words of space that a take asks for.
pub const ENOUGH_SPACE: usize = LONGEST_BODY;

// A carrier brings parcels from one panel to another. It has up to 64 lanes, numbered from 0, and on
// each lane parcels wait in order of arrival. A refusal leaves all as it was.
pub trait Carrier {
    // What waits.
    ghost lanes: { Self → Lanes };

    // How many parcels wait in a lane. `NoSuchLane` where there is no such lane.
    fn count(&self, lane: usize) -> Result<usize, Refusal>
        ensures { Counted (lanes self.now) lane result };

    // Adds a parcel at the end of a lane. The first that applies: `NoSuchLane`, `BodyTooLong`, `LaneFull`.
    // Head and body stand apart: a struct of them would ask more of each carrier, and the body is a lent slice.
    fn post(&mut self, lane: usize, head: u32, body: &[u32]) -> Result<(), Refusal>
        ensures { Posted (lanes self.old) lane head body.now result (lanes self.new) };

    // Removes a parcel of a lane, whichever the carrier chooses, and gives it out: its body stands in the
    // first words of the space. The first that applies: `NoSuchLane`, `SpaceTooShort`, `LaneEmpty`.
    fn take(&mut self, lane: usize, space: &mut [u32]) -> Result<Received, Refusal>
        ensures { Taken (lanes self.old) lane space.old result space.new (lanes self.new) };

    // How many lanes there are, found by counting: count is refused exactly where there is no lane.
    fn lane_count(&self) -> usize
        ensures { result ≡ length (lanes self.now) }
    {
        (0..MOST_LANES)
            .find(|lane| self.count(*lane).is_err())
            .unwrap_or(MOST_LANES)
    }

    ghost few: { (c : Self) → length (lanes c) ≤ most_lanes };

    ghost short: { (c : Self) (lane place : ℕ) → length (at_place (waiting (lanes c) lane) place).body ≤ longest_body };
}

// A carrier that can also be asked for the oldest parcel of a lane.
pub trait OldestFirst: Carrier {
    // Removes the oldest parcel of a lane and gives it out. It is refused as take is.
    fn take_oldest(&mut self, lane: usize, space: &mut [u32]) -> Result<Received, Refusal>
        ensures { TakenAt 0 (Self.Carrier.lanes self.old) lane space.old result space.new (Self.Carrier.lanes self.new) };
}

// Whether a parcel waits on any lane of a carrier.
// A loop: it counts each lane once, up to the first that is not there or not empty. By `map` and `find` a lane takes twice the time.
pub fn any_waiting<C: Carrier>(carrier: &C) -> bool
    ensures { result ≡ any_waits (C.Carrier.lanes carrier.now) }
{
    for lane in 0..MOST_LANES {
        match carrier.count(lane) {
            Ok(0) => {}
            Ok(_) => return true,
            Err(_) => return false,
        }
    }
    false
}
