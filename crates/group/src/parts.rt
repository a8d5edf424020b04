// What the calls on a group are made of: what it has once it is open, a panel, a panel that holds, a panel stored, a message sent.
// Assumes nothing.
ghost use Rattle.std.specs.Prelude.{◌≡◌, ◌≤◌, [], length, map, take, slice_set, Some};
ghost use Rattle.arrow.specs.Rules.{more, with_panel};
ghost use Rattle.arrow.specs.Runs.{Run};
ghost use Rattle.arrow.specs.World.{new_world, panel_at};
ghost use Rattle.group.specs.Parts.{OpenTold, PanelTold, HolderTold, SentOut};
ghost use Rattle.group.specs.Memory.{panels_of};
ghost use Rattle.group.specs.Whole.{whole};
ghost use Rattle.panel.specs.Steps.{panel_of};
ghost use Rattle.tree.specs.Answers.{parents, first_step_answer, lane_answer};
ghost use Rattle.tree.specs.Tree.{most_panels};

use crate::memory::{Core, Group, Panels};
use arrow::counts::Counts;
use arrow::state::State;
use book::kind::Kind;
use carrier::traits::Carrier;
use panel::record::Panel;
use words::message::Message;
use words::refusal::Refusal;

// One more counted, up to the end of the counter.
pub(crate) fn count(counter: &mut u32)
    ensures { counter.new ≡ more counter.old }
{
    *counter = counter.saturating_add(1);
}

impl Panels {
    // The panels, as many as the tree has.
    pub(crate) fn each(&self) -> &[Panel]
        ensures { result.now ≡ take (length (parents self.now.tree)) self.now.each }
    {
        &self.each[..self.tree.panels()]
    }

    // Stores a panel at its place; where there is no such place, nothing changes.
    #[tactic(auto, using(crate::proofs::Stored::stored_at))]
    pub(crate) fn store(&mut self, v: usize, panel: Panel)
        ensures tree { self.new.tree ≡ self.old.tree }
        ensures each { panels_of (Some self.new) ≡ slice_set (panels_of (Some self.old)) v (panel_of panel) }
    {
        if v < self.tree.panels() {
            self.each[v] = panel;
        }
    }
}

impl<C: Carrier, K: Kind> Group<C, K> {
    // A group that is not open, over a carrier and a kind of book.
    pub fn new(carrier: C, kind: K) -> Group<C, K>
        ensures world { whole C.lanes K.book result ≡ new_world (K.book kind) (C.lanes carrier) }
        ensures begins { Run [] (whole C.lanes K.book result) }
    {
        Group {
            carrier,
            kind,
            core: Core {
                counts: Counts::default(),
                panels: None,
            },
        }
    }

    // What it has once it is open, or NotOpen.
    #[tactic(auto, using(crate::proofs::Opened::open_has_panels))]
    pub(crate) fn opened(&self) -> Result<&Panels, Refusal>
        ensures { OpenTold (whole C.lanes K.book self.now) result }
    {
        self.core.panels.as_ref().ok_or(Refusal::NotOpen)
    }

    // The panels, none while the group is not open.
    pub(crate) fn each(&self) -> &[Panel]
        ensures same { map panel_of result.now ≡ (whole C.lanes K.book self.now).panels }
        ensures as_many { length result.now ≡ length (whole C.lanes K.book self.now).tree }
        ensures few { length result.now ≤ most_panels }
    {
        self.core
            .panels
            .as_ref()
            .map_or(&[], |panels| panels.each())
    }

    // A panel as it is now: NotOpen, or NoSuchPanel.
    pub fn panel(&self, v: usize) -> Result<Panel, Refusal>
        ensures { PanelTold (whole C.lanes K.book self.now) v result }
    {
        let panels = self.opened()?;
        panels.each().get(v).copied().ok_or(Refusal::NoSuchPanel)
    }

    // A panel, or a blank one where there is none.
    pub(crate) fn standing(&self, v: usize) -> Panel
        ensures { panel_of result ≡ panel_at (whole C.lanes K.book self.now) v }
    {
        self.each().get(v).copied().unwrap_or_default()
    }

    // A panel that holds: refused as `panel`, then NotHolding.
    pub(crate) fn holder(&self, v: usize) -> Result<Panel, Refusal>
        ensures { HolderTold (whole C.lanes K.book self.now) v result }
    {
        let panel = self.panel(v)?;
        if panel.state != State::Holding {
            return Err(Refusal::NotHolding);
        }
        Ok(panel)
    }

    // Stores a panel at its place; where there is no such place, nothing changes.
    pub(crate) fn store(&mut self, v: usize, panel: Panel)
        ensures { whole C.lanes K.book self.new ≡ with_panel (whole C.lanes K.book self.old) v (panel_of panel) }
    {
        if let Some(panels) = &mut self.core.panels {
            panels.store(v, panel);
        }
    }

    // The first step from a panel to another. A group that is not open has no panel.
    pub(crate) fn first_step(&self, from: usize, to: usize) -> Result<usize, Refusal>
        ensures { result ≡ first_step_answer (whole C.lanes K.book self.now).tree from to }
    {
        let panels = self.core.panels.as_ref().ok_or(Refusal::NoSuchPanel)?;
        panels.tree.first_step(from, to)
    }

    // The lane from a panel to its neighbour. A group that is not open has no panel.
    // Two lines, as `first_step`: a call for the line that they share would need a contract longer than both.
    fn lane(&self, from: usize, to: usize) -> Result<usize, Refusal>
        ensures { result ≡ lane_answer (whole C.lanes K.book self.now).tree from to }
    {
        let panels = self.core.panels.as_ref().ok_or(Refusal::NoSuchPanel)?;
        panels.tree.lane(from, to)
    }

    // Sends a message with a body from a panel to its neighbour. The two stand apart: the body is a lent slice, and a find word has none.
    pub(crate) fn send(
        &mut self,
        from: usize,
        to: usize,
        message: Message,
        body: &[u32],
    ) -> Result<(), Refusal>
        ensures { SentOut (whole C.lanes K.book self.old) from to message body.now result (whole C.lanes K.book self.new) }
    {
        let lane = self.lane(from, to)?;
        let word = message.word()?;
        self.carrier.post(lane, word, body)
    }
}
