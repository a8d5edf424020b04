// The lanes of a tree. A lane is one direction of a cable: for each panel i from 1, lane 2(i - 1) runs from i to its parent
// and lane 2(i - 1) + 1 runs back.
// Assumes nothing.
ghost use Rattle.std.specs.Prelude.{◌≡◌};
ghost use Rattle.tree.specs.Answers.{ends_answer, lane_answer, panel_lane, parents};
ghost use Rattle.tree.specs.Laws.{LaneLaw};
ghost use Rattle.tree.specs.Tree.{down_lane, lane_count, up_lane};

use super::Tree;
use words::refusal::Refusal;

impl Tree {
    // How many lanes the tree has. They are numbered from 0.
    #[tactic(auto, using(crate::proofs::Laws::lane_law))]
    pub fn lanes(&self) -> usize
        ensures answer { result ≡ lane_count (parents self.now) }
        ensures numbering { LaneLaw }
    {
        2 * (self.panels() - 1)
    }

    // The lane from a panel to its parent; NoSuchPanel, or NoSuchLane for panel 0.
    pub fn lane_up(&self, panel: usize) -> Result<usize, Refusal>
        ensures { result ≡ panel_lane (parents self.now) panel (up_lane panel) }
    {
        self.check(panel)?;
        if panel == 0 {
            return Err(Refusal::NoSuchLane);
        }
        Ok(2 * (panel - 1))
    }

    // The lane to a panel from its parent; refused as the lane up.
    pub fn lane_down(&self, panel: usize) -> Result<usize, Refusal>
        ensures { result ≡ panel_lane (parents self.now) panel (down_lane panel) }
    {
        let up = self.lane_up(panel)?;
        Ok(up + 1)
    }

    // The lane from a panel to its neighbour; NoSuchPanel, or NoSuchLane where they are not neighbours.
    #[tactic(auto, unfolding(crate::specs::Tree::neighbours, crate::specs::Tree::lane_between))]
    pub fn lane(&self, from: usize, to: usize) -> Result<usize, Refusal>
        ensures { result ≡ lane_answer (parents self.now) from to }
    {
        self.check(from)?;
        self.check(to)?;
        if from > 0 && self.parent(from) == to {
            return self.lane_up(from);
        }
        if to > 0 && self.parent(to) == from {
            return self.lane_down(to);
        }
        Err(Refusal::NoSuchLane)
    }

    // The panel that a lane comes from and the panel that it goes to, or NoSuchLane.
    #[tactic(auto, unfolding(crate::specs::Tree::lane_source, crate::specs::Tree::lane_target))]
    pub fn ends(&self, lane: usize) -> Result<(usize, usize), Refusal>
        ensures { result ≡ ends_answer (parents self.now) lane }
    {
        if lane >= self.lanes() {
            return Err(Refusal::NoSuchLane);
        }
        let child = lane / 2 + 1;
        let parent = self.parent(child);
        if lane % 2 == 0 {
            Ok((child, parent))
        } else {
            Ok((parent, child))
        }
    }
}
