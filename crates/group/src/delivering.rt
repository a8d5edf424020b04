// Deliver: a parcel is taken from a lane, and the panel at the lane's end meets it.
// Assumes nothing.
ghost use Rattle.std.specs.Prelude.{◌≡◌, ◌≤◌, length};
ghost use Rattle.arrow.specs.Rules.{meets, moves_on};
ghost use Rattle.carrier.specs.Parcels.{longest_body};
ghost use Rattle.group.specs.Parts.{by_action, passed_on, EndsTold, Arrived, Delivered, DeliveredOldest};
ghost use Rattle.group.specs.Whole.{whole};
ghost use Rattle.panel.specs.Steps.{panel_of, row_words};

use crate::memory::Group;
use crate::parts::count;
use book::kind::Kind;
use carrier::traits::{Carrier, OldestFirst, Received};
use panel::action::Action;
use panel::record::Panel;
use panel::row::Row;
use words::event::Event;
use words::message::Message;
use words::refusal::Refusal;

// The panels that a lane comes from and goes to.
#[derive(Clone, Copy)]
struct Ends {
    from: usize,
    at: usize,
}

impl<C: Carrier, K: Kind> Group<C, K> {
    // The ends of a lane, or NotOpen, or NoSuchLane.
    fn ends(&self, lane: usize) -> Result<Ends, Refusal>
        ensures { EndsTold (whole C.lanes K.book self.now) lane result }
    {
        let (from, at) = self.opened()?.tree.ends(lane)?;
        Ok(Ends { from, at })
    }

    // Sends a find word on from a panel, which is then as given.
    fn pass_on(
        &mut self,
        at: usize,
        to: usize,
        asker: usize,
        after: Panel,
    ) -> Result<Event, Refusal>
        ensures { passed_on (whole C.lanes K.book self.old) at to asker (panel_of after) ≡ (result, whole C.lanes K.book self.new) }
    {
        self.send(at, to, Message::Find { asker }, &[])?;
        self.store(at, after);
        count(&mut self.core.counts.finds);
        Ok(Event::Passed { asker, at, to })
    }

    // Sends the book on from a panel that it is not for.
    fn move_on(&mut self, at: usize, addressee: usize, body: &[u32]) -> Result<Event, Refusal>
        ensures { moves_on (whole C.lanes K.book self.old) at addressee body.now ≡ (result, whole C.lanes K.book self.new) }
    {
        let to = self.first_step(at, addressee)?;
        self.send(at, to, Message::Book { addressee }, body)?;
        count(&mut self.core.counts.books);
        Ok(Event::Moved { addressee, at, to })
    }

    // Does what is left to do after the panel at a lane's end, whose row was as given, met a message: the panel is then as given.
    // An action is a value and no closure: what the panel's step ensures names it.
    fn act(
        &mut self,
        ends: Ends,
        row: &Row,
        body: &[u32],
        action: Action,
        after: Panel,
    ) -> Result<Event, Refusal>
        ensures { by_action (whole C.lanes K.book self.old) ends.from ends.at (row_words row.now) body.now action (panel_of after) ≡ (result, whole C.lanes K.book self.new) }
    {
        let Ends { from, at } = ends;
        match action {
            Action::Pass { asker, to } => self.pass_on(at, to, asker, after),
            Action::Keep { asker } => {
                self.store(at, after);
                Ok(Event::Landed { asker, at, book: 0 })
            }
            Action::HandOver { asker } => {
                self.hand_over(at, asker, row, after)?;
                Ok(Event::Landed { asker, at, book: 1 })
            }
            Action::Hold => {
                self.store(at, after);
                count(&mut self.core.counts.grants);
                Ok(Event::Granted { panel: at, from })
            }
            Action::MoveOn { addressee } => self.move_on(at, addressee, body),
        }
    }

    // The panel at a lane's end meets a message that came along the lane.
    fn meet(&mut self, ends: Ends, message: Message, body: &[u32]) -> Result<Event, Refusal>
        requires short { length body.now ≤ longest_body }
        ensures { meets (whole C.lanes K.book self.old) ends.from ends.at body.now message ≡ (result, whole C.lanes K.book self.new) }
    {
        let before = self.standing(ends.at);
        let mut panel = before;
        let action = panel.meet(ends.from, ends.at, message, body)?;
        self.act(ends, &before.row, body, action, panel)
    }

    // A parcel that was taken from a lane arrives: its body stands in the first of the spare words.
    fn arrive(&mut self, ends: Ends, received: Received, spare: &[u32]) -> Result<Event, Refusal>
        requires short { received.size ≤ longest_body }
        requires within { received.size ≤ length spare.now }
        ensures { Arrived (whole C.lanes K.book self.old) ends.from ends.at received spare.now (result, whole C.lanes K.book self.new) }
    {
        let message = Message::read(received.head)?;
        let size = received.size;
        self.meet(ends, message, &spare[0..size])
    }

    // Takes a parcel of a lane, whichever the carrier chooses, and the panel at the lane's end meets it. The first that applies: NotOpen,
    // NoSuchLane, SpaceTooShort where the spare words are fewer than 32, LaneEmpty.
    pub fn deliver(&mut self, lane: usize, spare: &mut [u32]) -> Result<Event, Refusal>
        ensures { Delivered (whole C.lanes K.book self.old) lane spare.old (result, whole C.lanes K.book self.new) spare.new }
    {
        let ends = self.ends(lane)?;
        let received = self.carrier.take(lane, spare)?;
        self.arrive(ends, received, spare)
    }
}

// Of the three calls of `deliver` one differs: a function that is lent that call would need a clause on it and be longer.
impl<C: OldestFirst, K: Kind> Group<C, K> {
    // Takes the oldest parcel of a lane, and is else as `deliver`.
    #[tactic(auto, using(std::proofs::lemmas::List::take_at))]
    pub fn deliver_oldest(&mut self, lane: usize, spare: &mut [u32]) -> Result<Event, Refusal>
        ensures { DeliveredOldest (whole C.lanes K.book self.old) lane spare.old (result, whole C.lanes K.book self.new) spare.new }
    {
        let ends = self.ends(lane)?;
        let received = self.carrier.take_oldest(lane, spare)?;
        self.arrive(ends, received, spare)
    }
}
