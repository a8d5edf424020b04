// The lanes of a carrier: the queue at k is lane k, for each k below the count.
// Assumes nothing.
ghost use Rattle.carrier.specs.Parcels.{waiting, Counted, Posted, TakenAt};
ghost use Rattle.carrier.specs.Stored.{lanes_of, place_of, Opened};

use crate::storage::{End, Packet, Queue, Storage};
use crate::traits::{ENOUGH_SPACE, MOST_LANES, Received};
use words::refusal::Refusal;

impl Storage {
    // So many lanes, all empty.
    pub(crate) fn new(lanes: usize) -> Result<Storage, Refusal>
        ensures { Opened lanes_of lanes result }
    {
        if lanes > MOST_LANES {
            return Err(Refusal::NoSuchLane);
        }
        Ok(Storage {
            count: lanes,
            queues: [Queue::empty(); MOST_LANES],
        })
    }

    // How many parcels wait in a lane.
    pub(crate) fn count(&self, lane: usize) -> Result<usize, Refusal>
        ensures { Counted (lanes_of self.now) lane result }
    {
        if lane >= self.count {
            return Err(Refusal::NoSuchLane);
        }
        Ok(self.queues[lane].held())
    }

    // Adds a parcel at the end of a lane.
    pub(crate) fn post(&mut self, lane: usize, head: u32, body: &[u32]) -> Result<(), Refusal>
        ensures { Posted (lanes_of self.old) lane head body.now result (lanes_of self.new) }
    {
        let queues = &mut self.queues[0..self.count];
        if lane >= queues.len() {
            return Err(Refusal::NoSuchLane);
        }
        let packet = Packet::new(head, body)?;
        queues[lane].push(packet)
    }

    // Removes the parcel at an end of a lane and gives it out.
    pub(crate) fn take(
        &mut self,
        lane: usize,
        end: End,
        space: &mut [u32],
    ) -> Result<Received, Refusal>
        ensures { TakenAt (place_of end (waiting (lanes_of self.old) lane)) (lanes_of self.old) lane space.old result space.new (lanes_of self.new) }
    {
        let queues = &mut self.queues[0..self.count];
        if lane >= queues.len() {
            return Err(Refusal::NoSuchLane);
        }
        if space.len() < ENOUGH_SPACE {
            return Err(Refusal::SpaceTooShort);
        }
        queues[lane].pull(end, space)
    }
}
