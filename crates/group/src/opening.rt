// Open: the tree, and the panels as they stand at first.
// Assumes nothing.
ghost use Rattle.std.specs.Prelude.{◌≡◌, map, length, take};
ghost use Rattle.arrow.specs.Rules.{open_call, opened_world};
ghost use Rattle.group.specs.Parts.{idle_with};
ghost use Rattle.group.specs.Whole.{whole};
ghost use Rattle.panel.specs.Steps.{panel_of, row_words};
ghost use Rattle.tree.specs.Answers.{parents};
ghost use Rattle.tree.specs.Tree.{most_panels};

use crate::memory::{Group, Panels};
use arrow::state::State;
use book::kind::Kind;
use carrier::traits::{Carrier, any_waiting};
use panel::record::Panel;
use panel::row::Row;
use tree::cables::{MOST_PANELS, Tree};
use words::event::Event;
use words::refusal::Refusal;

// Idle panels with a row, whose arrows point to their parents.
fn idle_panels(tree: &Tree, row: Row) -> [Panel; MOST_PANELS]
    ensures front { map panel_of (take (length (parents tree.now)) result) ≡ map (idle_with (row_words row)) (parents tree.now) }
    ensures long { length result ≡ most_panels }
{
    let idle = Panel {
        arrow: 0,
        state: State::Idle,
        follower: None,
        row,
    };
    let mut panels = [idle; MOST_PANELS];
    for v in 0..tree.panels() {
        panels[v] = Panel {
            arrow: tree.parent(v),
            ..idle
        };
    }
    panels
}

impl<C: Carrier, K: Kind> Group<C, K> {
    // The panels as they stand at first, over a tree, and panel 0 with a row.
    fn settle(&mut self, tree: Tree, row: Row)
        requires { row_words row ≡ (K.book self.old.kind).opening }
        ensures { whole C.lanes K.book self.new ≡ opened_world (whole C.lanes K.book self.old) (parents tree) }
    {
        let each = idle_panels(&tree, row.cleared());
        let mut panels = Panels { tree, each };
        panels.store(
            0,
            Panel {
                arrow: 0,
                state: State::Resting,
                follower: None,
                row,
            },
        );
        self.core.panels = Some(panels);
    }

    // Opens the group over a lent list of parents: panel 0 rests with the opening row; each other panel is idle, its arrow points to its
    // parent, and its row is zeros. The first that applies: AlreadyOpen, UnlawfulTree, TooFewLanes, ParcelWaiting on any lane.
    pub fn open(&mut self, list: &[usize]) -> Result<Event, Refusal>
        ensures { open_call (whole C.lanes K.book self.old) list.now ≡ (result, whole C.lanes K.book self.new) }
    {
        if self.is_open() {
            return Err(Refusal::AlreadyOpen);
        }
        let tree = Tree::new(list)?;
        if self.carrier.lane_count() < tree.lanes() {
            return Err(Refusal::TooFewLanes);
        }
        if any_waiting(&self.carrier) {
            return Err(Refusal::ParcelWaiting);
        }
        let row = Row::opening(&self.kind)?;
        self.settle(tree, row);
        Ok(Event::Opened {
            highest: tree.panels() - 1,
        })
    }
}
