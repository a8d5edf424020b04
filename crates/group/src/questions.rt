// Questions to a group, which change nothing.
// Assumes nothing.
ghost use Rattle.std.specs.Prelude.{◌≡◌, length};
ghost use Rattle.arrow.specs.Mask.{waiting_word, how_many_wait};
ghost use Rattle.arrow.specs.World.{is_open};
ghost use Rattle.group.specs.Whole.{whole};

use crate::memory::Group;
use arrow::counts::Counts;
use arrow::state::State;
use book::kind::Kind;
use carrier::traits::Carrier;

impl<C: Carrier, K: Kind> Group<C, K> {
    // Requests accepted, find words sent, book words sent, grants, releases accepted.
    pub fn counts(&self) -> Counts
        ensures { result ≡ (whole C.lanes K.book self.now).counts }
    {
        self.core.counts
    }

    // Whether the group is open.
    #[tactic(auto, using(crate::proofs::Opened::open_has_panels))]
    pub fn is_open(&self) -> bool
        ensures { result ≡ is_open (whole C.lanes K.book self.now) }
    {
        self.core.panels.is_some()
    }

    // How many panels there are, none while the group is not open.
    pub fn panels(&self) -> usize
        ensures { result ≡ length (whole C.lanes K.book self.now).tree }
    {
        self.each().len()
    }

    // Which panels wait, as one word: bit v is that of panel v. None while the group is not open.
    pub fn waiting(&self) -> u32
        ensures { result ≡ waiting_word (whole C.lanes K.book self.now).panels }
    {
        let mut word: u32 = 0;
        for (v, panel) in self.each().iter().enumerate() {
            word |= u32::from(panel.state == State::Waiting) << v;
        }
        word
    }

    // How many panels wait: the ones of that word.
    #[tactic(auto, using(arrow::proofs::Mask::word_of_waiting))]
    pub fn waiting_count(&self) -> u32
        ensures { result ≡ how_many_wait (whole C.lanes K.book self.now).panels }
    {
        self.waiting().count_ones()
    }

    // A look at the carrier.
    pub fn carrier(&self) -> &C
        ensures { result.now ≡ self.now.carrier }
    {
        &self.carrier
    }
}
