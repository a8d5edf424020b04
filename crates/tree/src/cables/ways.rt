// How far two panels are apart, and where the path from one to the other begins.
// Both are found by climbing, without a table. The loops go by the panels that they hold, and count no index.
// A parent is below its child, so every turn lowers the sum of the two panels that a loop holds, which is at most 2(n - 1)
// at first: there are fewer than 2n turns.
// Assumes nothing.
ghost use Rattle.std.specs.Prelude.{◌≡◌};
ghost use Rattle.tree.specs.Answers.{distance_answer, first_step_answer, parents};
ghost use Rattle.tree.specs.Laws.{DistanceLaw, NearerLaw, OnlyPathLaw};

use super::Tree;
use words::refusal::Refusal;

impl Tree {
    // The number of cables on the path between two panels, or NoSuchPanel.
    #[tactic(auto, using(crate::proofs::Laws::distance_law, crate::proofs::Facts::climbing))]
    pub fn distance(&self, a: usize, b: usize) -> Result<usize, Refusal>
        ensures answer { result ≡ distance_answer (parents self.now) a b }
        ensures measures { DistanceLaw }
        ensures only_path { OnlyPathLaw }
    {
        self.check(a)?;
        self.check(b)?;
        // The path from the larger of two panels begins upwards: what is below it has larger numbers.
        let mut left = a;
        let mut right = b;
        let mut cables = 0;
        while left != right {
            if left < right {
                right = self.parent(right);
            } else {
                left = self.parent(left);
            }
            cables += 1;
        }
        Ok(cables)
    }

    // The neighbour of `from` on the path to `to`, or `from` where they are equal, or NoSuchPanel.
    #[tactic(auto, using(crate::proofs::Facts::stepping))]
    pub fn first_step(&self, from: usize, to: usize) -> Result<usize, Refusal>
        ensures answer { result ≡ first_step_answer (parents self.now) from to }
        ensures nearer { NearerLaw }
    {
        self.check(from)?;
        self.check(to)?;
        // The path to a larger panel comes down to it from its parent, so the goal climbs until it is near.
        let mut goal = to;
        while from < goal {
            let above = self.parent(goal);
            if above == from {
                return Ok(goal);
            }
            goal = above;
        }
        if from == goal {
            Ok(from)
        } else {
            Ok(self.parent(from))
        }
    }
}
