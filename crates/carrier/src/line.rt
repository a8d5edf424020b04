// The line: a carrier that always gives the oldest parcel of a lane.
// Assumes nothing.
ghost use Rattle.carrier.specs.Carriers.{line_lanes};
ghost use Rattle.carrier.specs.Parcels.{Taken, TakenAt};
ghost use Rattle.carrier.specs.Stored.{Opened};
ghost use Rattle.carrier.specs.Stores.{few_lanes, short_lanes};

use crate::storage::{End, Storage};
use crate::traits::{Carrier, OldestFirst, Received};
use words::refusal::Refusal;

// An oldest-first carrier: its take gives the oldest parcel too.
#[derive(Drop)]
pub struct Line {
    storage: Storage,
}

impl Line {
    // A line with so many lanes, all empty.
    pub fn new(lanes: usize) -> Result<Line, Refusal>
        ensures { Opened line_lanes lanes result }
    {
        Ok(Line {
            storage: Storage::new(lanes)?,
        })
    }
}

impl Carrier for Line {
    ghost lanes = { line_lanes };

    ghost few = { λ line. few_lanes line.storage };

    ghost short = { λ line. short_lanes _ };

    fn count(&self, lane: usize) -> Result<usize, Refusal> {
        self.storage.count(lane)
    }

    fn post(&mut self, lane: usize, head: u32, body: &[u32]) -> Result<(), Refusal> {
        self.storage.post(lane, head, body)
    }

    fn take(&mut self, lane: usize, space: &mut [u32]) -> Result<Received, Refusal>
        ensures some { Taken (line_lanes self.old) lane space.old result space.new (line_lanes self.new) }
        ensures oldest { TakenAt 0 (line_lanes self.old) lane space.old result space.new (line_lanes self.new) }
    {
        self.storage.take(lane, End::Oldest, space)
    }
}

impl OldestFirst for Line {
    fn take_oldest(&mut self, lane: usize, space: &mut [u32]) -> Result<Received, Refusal> {
        self.take(lane, space)
    }
}
