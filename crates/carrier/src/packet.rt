// One parcel: made from a lent body, read, and laid into a lent space.
// Assumes nothing.
ghost use Rattle.std.specs.Prelude.{◌≡◌, ◌≤◌, length};
ghost use Rattle.carrier.specs.Parcels.{longest_body, laid};
ghost use Rattle.carrier.specs.Stored.{parcel_of, Packed};

use crate::storage::Packet;
use crate::traits::Received;
use words::body::Body;
use words::refusal::Refusal;

impl Packet {
    // A parcel of its own with this head and body.
    pub fn new(head: u32, body: &[u32]) -> Result<Packet, Refusal>
        ensures { Packed head body.now result }
    {
        Ok(Packet {
            head,
            body: Body::try_from(body)?,
        })
    }

    // The body of the parcel.
    pub fn body(&self) -> &[u32]
        ensures whole { result.now ≡ (parcel_of self.now).body }
        ensures short { length result.now ≤ longest_body }
    {
        self.body.words()
    }

    // Gives the parcel out: its body into the first words of the space.
    pub(crate) fn give(&self, space: &mut [u32]) -> Received
        requires { longest_body ≤ length space.old }
        ensures head { result.head ≡ (parcel_of self.now).head }
        ensures size { result.size ≡ length (parcel_of self.now).body }
        ensures space { space.new ≡ laid (parcel_of self.now).body space.old }
    {
        let body = self.body();
        space[0..body.len()].copy_from_slice(body);
        Received {
            head: self.head,
            size: body.len(),
        }
    }
}
