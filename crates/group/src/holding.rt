// Calls on a panel that has the book: release, write and read; and the book on its way to another panel.
// Assumes nothing.
ghost use Rattle.std.specs.Prelude.{◌≡◌};
ghost use Rattle.arrow.specs.Rules.{release_call, write_call, read_answer};
ghost use Rattle.book.specs.Kinds.{answered};
ghost use Rattle.group.specs.Parts.{Handed};
ghost use Rattle.group.specs.Whole.{whole};
ghost use Rattle.panel.specs.Steps.{panel_of, row_words};

use crate::memory::Group;
use crate::parts::count;
use arrow::state::State;
use book::kind::Kind;
use carrier::traits::Carrier;
use panel::record::Panel;
use panel::row::Row;
use words::event::Event;
use words::message::Message;
use words::refusal::Refusal;

impl<C: Carrier, K: Kind> Group<C, K> {
    // The book goes from a panel to another with the panel's row, by the first step; the panel is then as given.
    pub(crate) fn hand_over(
        &mut self,
        from: usize,
        to: usize,
        row: &Row,
        after: Panel,
    ) -> Result<(), Refusal>
        ensures { Handed (whole C.lanes K.book self.old) from to (row_words row.now) (panel_of after) result (whole C.lanes K.book self.new) }
    {
        let step = self.first_step(from, to)?;
        self.send(from, step, Message::Book { addressee: to }, row.words())?;
        self.store(from, after);
        count(&mut self.core.counts.books);
        Ok(())
    }

    // Without a follower the panel rests; else the book goes to the follower. The first that applies: NotOpen, NoSuchPanel, NotHolding.
    pub fn release(&mut self, v: usize) -> Result<Event, Refusal>
        ensures { release_call (whole C.lanes K.book self.old) v ≡ (result, whole C.lanes K.book self.new) }
    {
        let panel = self.holder(v)?;
        let event = match panel.follower {
            None => {
                self.store(
                    v,
                    Panel {
                        state: State::Resting,
                        ..panel
                    },
                );
                Event::Rests { panel: v }
            }
            Some(follower) => {
                self.hand_over(v, follower, &panel.row, panel.emptied())?;
                Event::Sent {
                    panel: v,
                    to: follower,
                }
            }
        };
        count(&mut self.core.counts.releases);
        Ok(event)
    }

    // The row of a panel that holds becomes what the kind makes of it and an entry. The first that applies: NotOpen, NoSuchPanel,
    // NotHolding, then the kind's own.
    pub fn write(&mut self, v: usize, entry: u32) -> Result<Event, Refusal>
        ensures { write_call (whole C.lanes K.book self.old) v entry ≡ (result, whole C.lanes K.book self.new) }
    {
        let panel = self.holder(v)?;
        let mut row = panel.row;
        row.write(&self.kind, entry)?;
        self.store(v, Panel { row, ..panel });
        Ok(Event::Written { panel: v, entry })
    }

    // Copies the row of a panel that holds or rests into the first words of a space. The first that applies: NotOpen, NoSuchPanel, NoBook,
    // SpaceTooShort.
    pub fn read(&self, v: usize, space: &mut [u32]) -> Result<(), Refusal>
        ensures { (result, space.new) ≡ answered space.old (read_answer (whole C.lanes K.book self.now) v space.old) }
    {
        let panel = self.panel(v)?;
        match panel.state {
            State::Idle | State::Waiting => Err(Refusal::NoBook),
            State::Holding | State::Resting => panel.row.lay(space),
        }
    }
}
