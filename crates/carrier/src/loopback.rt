// Two parcels through an empty lane of any carrier, and back.
// Assumes nothing.
ghost use Rattle.carrier.specs.Loopback.{Drawn, Filled, Looped};
ghost use Rattle.carrier.specs.Stored.{parcel_of};

use crate::storage::Packet;
use crate::traits::{Carrier, LONGEST_BODY};
use words::body::Body;
use words::refusal::Refusal;

// The answers of three takes after two posts.
#[derive(Clone, Copy)]
pub struct Returned {
    pub first: Packet,
    pub second: Packet,
    pub third: Result<Packet, Refusal>,
}

// Takes a parcel from a lane into memory of its own.
pub fn take_packet<C: Carrier>(carrier: &mut C, lane: usize) -> Result<Packet, Refusal>
    ensures { Drawn (C.Carrier.lanes carrier.old) lane result (C.Carrier.lanes carrier.new) }
{
    let mut words = [0; LONGEST_BODY];
    let received = carrier.take(lane, &mut words)?;
    Ok(Packet {
        head: received.head,
        body: Body {
            size: received.size,
            words,
        },
    })
}

// Posts two parcels to a lane in which nothing waits.
fn post_both<C: Carrier>(
    carrier: &mut C,
    lane: usize,
    first: &Packet,
    second: &Packet,
) -> Result<(), Refusal>
    ensures { Filled (C.Carrier.lanes carrier.old) lane (parcel_of first.now) (parcel_of second.now) result (C.Carrier.lanes carrier.new) }
{
    if carrier.count(lane)? > 0 {
        return Err(Refusal::ParcelWaiting);
    }
    carrier.post(lane, first.head, first.body())?;
    carrier.post(lane, second.head, second.body())
}

// Posts two parcels to a lane in which nothing waits, and takes until nothing waits there again.
pub fn loopback<C: Carrier>(
    carrier: &mut C,
    lane: usize,
    first: &Packet,
    second: &Packet,
) -> Result<Returned, Refusal>
    ensures { Looped (C.Carrier.lanes carrier.old) lane (parcel_of first.now) (parcel_of second.now) result (C.Carrier.lanes carrier.new) }
{
    post_both(carrier, lane, first, second)?;
    Ok(Returned {
        first: take_packet(carrier, lane)?,
        second: take_packet(carrier, lane)?,
        third: take_packet(carrier, lane),
    })
}
