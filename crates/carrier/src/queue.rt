// The waiting parcels of one lane.
// Assumes nothing.
ghost use Rattle.std.specs.Prelude.{◌≡◌, ◌≤◌, [], length};
ghost use Rattle.carrier.specs.Parcels.{longest_body};
ghost use Rattle.carrier.specs.Stored.{parcel_of, parcels_of, place_of, Pushed, Pulled};

use crate::storage::{End, Packet, Queue};
use crate::traits::{LANE_ROOM, Received};
use words::refusal::Refusal;

impl Queue {
    // A lane in which nothing waits.
    pub(crate) fn empty() -> Queue
        ensures { parcels_of result ≡ [] }
    {
        Queue {
            first: 0,
            held: 0,
            packets: [Packet::default(); LANE_ROOM],
        }
    }

    // How many parcels wait.
    pub(crate) fn held(&self) -> usize
        ensures waiting { result ≡ length (parcels_of self.now) }
        ensures slots { result ≡ self.now.held }
    {
        self.held
    }

    // Adds a parcel at the end.
    pub(crate) fn push(&mut self, packet: Packet) -> Result<(), Refusal>
        ensures { Pushed (parcels_of self.old) (parcel_of packet) result (parcels_of self.new) }
    {
        if self.held() >= LANE_ROOM {
            return Err(Refusal::LaneFull);
        }
        self.packets[(self.first + self.held) % LANE_ROOM] = packet;
        self.held += 1;
        Ok(())
    }

    // Removes the parcel at an end and gives it out.
    pub(crate) fn pull(&mut self, end: End, space: &mut [u32]) -> Result<Received, Refusal>
        requires { longest_body ≤ length space.old }
        ensures { Pulled (place_of end (parcels_of self.old)) (parcels_of self.old) space.old result space.new (parcels_of self.new) }
    {
        if self.held() == 0 {
            return Err(Refusal::LaneEmpty);
        }
        let (place, first) = match end {
            End::Oldest => (0, (self.first + 1) % LANE_ROOM),
            End::Newest => (self.held - 1, self.first),
        };
        let received = self.packets[(self.first + place) % LANE_ROOM].give(space);
        self.first = first;
        self.held -= 1;
        Ok(received)
    }
}
