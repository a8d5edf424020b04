// The record of a panel, and its step. A panel is a place on the cable tree that asks for the book and writes in it.
// Assumes nothing.
ghost use Rattle.std.specs.Prelude.{◌≡◌};

use crate::action::Action;
use crate::row::Row;
use arrow::state::State;
use words::message::Message;
use words::refusal::Refusal;

// A panel: where its arrow points, what it is about, the panel that gets the book after it, and its row.
#[derive(Clone, Copy, Default)]
pub struct Panel {
    pub arrow: usize,
    pub state: State,
    pub follower: Option<usize>,
    pub row: Row,
}

impl Panel {
    ghost use Rattle.panel.specs.Steps.{left_empty, panel_of, panel_step};

    // This panel after the book went from it: idle, without a follower, and its row is zeros.
    pub fn emptied(self) -> Panel
        ensures { panel_of result ≡ left_empty (panel_of self) }
    {
        Panel {
            arrow: self.arrow,
            state: State::Idle,
            follower: None,
            row: self.row.cleared(),
        }
    }

    // What the panel, which stands at `at`, does with a message from a neighbour, by its state, its arrow and the message. BodyTooLong, and
    // the panel is as it was, where it would have to keep more than 32 words.
    pub fn meet(
        &mut self,
        from: usize,
        at: usize,
        message: Message,
        body: &[u32],
    ) -> Result<Action, Refusal>
        ensures { (result, panel_of self.new) ≡ panel_step (panel_of self.old) from at message body.now }
    {
        match (self.state, self.arrow, message) {
            (_, to, Message::Find { asker }) if to != at => {
                self.arrow = from;
                Ok(Action::Pass { asker, to })
            }
            (State::Resting, _, Message::Find { asker }) => {
                *self = self.emptied();
                self.arrow = from;
                Ok(Action::HandOver { asker })
            }
            (_, _, Message::Find { asker }) => {
                self.arrow = from;
                self.follower = Some(asker);
                Ok(Action::Keep { asker })
            }
            (_, _, Message::Book { addressee }) if addressee == at => {
                self.row = Row::of(body)?;
                self.state = State::Holding;
                Ok(Action::Hold)
            }
            (_, _, Message::Book { addressee }) => Ok(Action::MoveOn { addressee }),
        }
    }
}
