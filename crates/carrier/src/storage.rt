// How the parcels of a carrier are held in memory of fixed size.
// Assumes nothing.
ghost use Rattle.std.specs.Prelude.{◌≡◌, ◌<◌, ◌≤◌, length};
ghost use Rattle.carrier.specs.Parcels.{most_lanes, lane_room};

use crate::traits::{LANE_ROOM, MOST_LANES};
use words::body::Body;

// An end of a lane: where its oldest or its newest parcel waits. A value and no closure: the tray's contract names it.
#[derive(Clone, Copy)]
pub enum End {
    Oldest,
    Newest,
}

// One parcel in memory of its own.
#[derive(Clone, Copy, Default)]
pub struct Packet {
    pub(crate) head: u32,
    pub(crate) body: Body,
}

// The waiting parcels of one lane, as a ring of packets: `held` of them from `first` on.
#[derive(Clone, Copy)]
pub struct Queue {
    pub(crate) first: usize,
    pub(crate) held: usize,
    pub(crate) packets: [Packet; LANE_ROOM],
    ghost starts: { first < lane_room },
    ghost fits: { held ≤ lane_room },
    ghost whole: { length packets ≡ lane_room },
}

// The lanes of a carrier: the first `count` queues.
// An array with a count: an ArrayVec of fewer lanes is filled first and then cleared queue by queue.
#[derive(Drop)]
pub struct Storage {
    pub(crate) count: usize,
    pub(crate) queues: [Queue; MOST_LANES],
    ghost fits: { count ≤ most_lanes },
    ghost whole: { length queues ≡ most_lanes },
}
