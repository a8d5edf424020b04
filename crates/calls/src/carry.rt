// Any call on a group, and the law over every run.
// Assumes nothing.
ghost use Rattle.arrow.specs.Clauses.{GoesOn};
ghost use Rattle.calls.specs.Called.{Performed, PerformedOldest, call_of, oldest_call_of};
ghost use Rattle.group.specs.Whole.{whole};

use crate::call::Call;
use book::kind::Kind;
use carrier::traits::{Carrier, OldestFirst};
use group::Group;
use words::event::Event;
use words::refusal::Refusal;

// Carries out a call. Group, call and spare words stand apart: a struct of lent parts would be made for one call only.
fn perform<C: Carrier, K: Kind>(
    group: &mut Group<C, K>,
    call: Call,
    spare: &mut [u32],
) -> Result<Event, Refusal>
    ensures { Performed (whole C.lanes K.book group.old) call.entry spare.old result (whole C.lanes K.book group.new) spare.new }
{
    match call {
        Call::Open(parents) => group.open(parents),
        Call::Request(panel) => group.request(panel),
        Call::Deliver(lane) => group.deliver(lane, spare),
        Call::Write(panel, entry) => group.write(panel, entry),
        Call::Release(panel) => group.release(panel),
    }
}

// Carries out a call, with spare words lent. From every run that leads to the group as it was, the run with this call and its answer
// added leads to the group as it is, and the three clauses hold of it.
pub fn carry_out<C: Carrier, K: Kind>(
    group: &mut Group<C, K>,
    call: Call,
    spare: &mut [u32],
) -> Result<Event, Refusal>
    ensures performed { Performed (whole C.lanes K.book group.old) call.entry spare.old result (whole C.lanes K.book group.new) spare.new }
    ensures goes { GoesOn (whole C.lanes K.book group.old) (call_of call.entry spare.old) result (whole C.lanes K.book group.new) }
{
    perform(group, call, spare)
}

// Carries out a call; a delivery takes the oldest parcel. Only that arm differs: a trait of the two deliveries would be longer.
fn perform_oldest<C: OldestFirst, K: Kind>(
    group: &mut Group<C, K>,
    call: Call,
    spare: &mut [u32],
) -> Result<Event, Refusal>
    ensures { PerformedOldest (whole C.lanes K.book group.old) call.entry spare.old result (whole C.lanes K.book group.new) spare.new }
{
    match call {
        Call::Deliver(lane) => group.deliver_oldest(lane, spare),
        _ => perform(group, call, spare),
    }
}

// As `carry_out`, where a delivery takes the oldest parcel. Two calls, since each has a law of its own and asks another carrier.
pub fn carry_out_oldest<C: OldestFirst, K: Kind>(
    group: &mut Group<C, K>,
    call: Call,
    spare: &mut [u32],
) -> Result<Event, Refusal>
    ensures performed { PerformedOldest (whole C.lanes K.book group.old) call.entry spare.old result (whole C.lanes K.book group.new) spare.new }
    ensures goes { GoesOn (whole C.lanes K.book group.old) (oldest_call_of call.entry spare.old) result (whole C.lanes K.book group.new) }
{
    perform_oldest(group, call, spare)
}
