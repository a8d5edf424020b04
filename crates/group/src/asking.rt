// Request: a panel asks for the book.
// Assumes nothing.
ghost use Rattle.std.specs.Prelude.{◌≡◌};
ghost use Rattle.arrow.specs.Rules.{request_call};
ghost use Rattle.group.specs.Whole.{whole};

use crate::memory::Group;
use crate::parts::count;
use arrow::limit::REQUEST_LIMIT;
use arrow::state::State;
use book::kind::Kind;
use carrier::traits::Carrier;
use panel::record::Panel;
use words::event::Event;
use words::message::Message;
use words::refusal::Refusal;

impl<C: Carrier, K: Kind> Group<C, K> {
    // A panel that rests holds; an idle one sends its find word along its arrow, which then points to itself, and waits.
    // The first that applies: NotOpen, NoSuchPanel, Engaged where it waits or holds, RequestLimit.
    pub fn request(&mut self, v: usize) -> Result<Event, Refusal>
        ensures { request_call (whole C.lanes K.book self.old) v ≡ (result, whole C.lanes K.book self.new) }
    {
        let panel = self.panel(v)?;
        match panel.state {
            State::Waiting | State::Holding => Err(Refusal::Engaged),
            _ if self.core.counts.requests >= REQUEST_LIMIT => Err(Refusal::RequestLimit),
            State::Resting => {
                self.store(
                    v,
                    Panel {
                        state: State::Holding,
                        ..panel
                    },
                );
                count(&mut self.core.counts.requests);
                count(&mut self.core.counts.grants);
                Ok(Event::Granted { panel: v, from: v })
            }
            State::Idle => {
                let to = panel.arrow;
                self.send(v, to, Message::Find { asker: v }, &[])?;
                self.store(
                    v,
                    Panel {
                        arrow: v,
                        state: State::Waiting,
                        ..panel
                    },
                );
                count(&mut self.core.counts.requests);
                count(&mut self.core.counts.finds);
                Ok(Event::Asked { panel: v, to })
            }
        }
    }
}
