// A list of calls on a new group, and the law over every run of the result.
// Assumes nothing.
ghost use Rattle.std.specs.Prelude.{length};
ghost use Rattle.calls.specs.Called.{ReachedBy};
ghost use Rattle.group.specs.Whole.{whole};

use crate::call::Call;
use crate::carry::carry_out;
use book::kind::Kind;
use carrier::traits::Carrier;
use group::Group;

// Carries out a list of calls on a new group, with the same spare words lent to each. A refused call is one of the run too.
pub fn run<C: Carrier, K: Kind>(
    carrier: C,
    kind: K,
    calls: &[Call],
    spare: &mut [u32],
) -> Group<C, K>
    ensures { ReachedBy (length spare.old) calls.now (whole C.lanes K.book result) }
{
    let mut group = Group::new(carrier, kind);
    for call in calls {
        let _ = carry_out(&mut group, *call, spare);
    }
    group
}
