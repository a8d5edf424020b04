// The tray: a carrier that gives the oldest or the newest parcel of a lane, by a number of its own.
// Assumes nothing.
ghost use Rattle.std.specs.Prelude.{◌≡◌, is_ok, IfOk, if◌then◌else◌};
ghost use Rattle.carrier.specs.Carriers.{tray_lanes, next_number, end_by};
ghost use Rattle.carrier.specs.Parcels.{waiting, Posted, Taken, TakenAt};
ghost use Rattle.carrier.specs.Stored.{place_of, Opened};
ghost use Rattle.carrier.specs.Stores.{few_lanes, short_lanes};

use crate::storage::{End, Storage};
use crate::traits::{Carrier, Received};
use words::refusal::Refusal;

// The number s of a tray is followed by (1664525 s + 1013904223) mod 2^32.
const MULTIPLIER: u32 = 1_664_525;

const INCREMENT: u32 = 1_013_904_223;

// The newest parcel is given where this bit of the new number is 1, else the oldest.
const HIGHEST_BIT: u32 = 31;

// A carrier with one number for all its lanes, which decides which parcel a take gives. A take that is
// refused leaves it.
// Count and post call the storage as those of the line do: one carrier over a trait of choosers would be a trait, its two impls and a
// generic struct in place of four calls, two here and two there.
#[derive(Drop)]
pub struct Tray {
    storage: Storage,
    number: u32,
}

// The number after this one.
fn next(number: u32) -> u32
    ensures { result ≡ next_number number }
{
    number.wrapping_mul(MULTIPLIER).wrapping_add(INCREMENT)
}

// The end of a lane that a new number chooses.
fn chosen(number: u32) -> End
    ensures { result ≡ end_by number }
{
    if number >> HIGHEST_BIT == 1 {
        End::Newest
    } else {
        End::Oldest
    }
}

impl Tray {
    // A tray with so many lanes, all empty, and its first number.
    pub fn new(lanes: usize, seed: u32) -> Result<Tray, Refusal>
        ensures lanes { Opened tray_lanes lanes result }
        ensures number { IfOk result (λ tray. tray.number ≡ seed) }
    {
        Ok(Tray {
            storage: Storage::new(lanes)?,
            number: seed,
        })
    }
}

impl Carrier for Tray {
    ghost lanes = { tray_lanes };

    ghost few = { λ tray. few_lanes tray.storage };

    ghost short = { λ tray. short_lanes _ };

    fn count(&self, lane: usize) -> Result<usize, Refusal> {
        self.storage.count(lane)
    }

    fn post(&mut self, lane: usize, head: u32, body: &[u32]) -> Result<(), Refusal>
        ensures posted { Posted (tray_lanes self.old) lane head body.now result (tray_lanes self.new) }
        ensures number { self.new.number ≡ self.old.number }
    {
        self.storage.post(lane, head, body)
    }

    fn take(&mut self, lane: usize, space: &mut [u32]) -> Result<Received, Refusal>
        ensures some { Taken (tray_lanes self.old) lane space.old result space.new (tray_lanes self.new) }
        ensures chosen { TakenAt (place_of (end_by (next_number self.old.number)) (waiting (tray_lanes self.old) lane)) (tray_lanes self.old) lane space.old result space.new (tray_lanes self.new) }
        ensures number { self.new.number ≡ (if is_ok result then next_number self.old.number else self.old.number) }
    {
        let number = next(self.number);
        let received = self.storage.take(lane, chosen(number), space)?;
        self.number = number;
        Ok(received)
    }
}
