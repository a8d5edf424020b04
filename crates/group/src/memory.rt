// How a group is held in memory of fixed size.
// Assumes nothing.
ghost use Rattle.std.specs.Prelude.{◌≡◌, length};
ghost use Rattle.tree.specs.Tree.{most_panels};

use arrow::counts::Counts;
use panel::record::Panel;
use tree::cables::{MOST_PANELS, Tree};

// What an open group has: its tree, and a panel for each place of the tree; the panels behind them mean nothing.
// An array, of which the tree has the count: `Core` is Copy for callers, which an ArrayVec is not.
#[derive(Clone, Copy)]
pub(crate) struct Panels {
    pub(crate) tree: Tree,
    pub(crate) each: [Panel; MOST_PANELS],
    ghost long: { length each ≡ most_panels },
}

// All of a group but its carrier and its kind: the tree and the panels once it is open, and the counts.
#[derive(Clone, Copy)]
pub struct Core {
    pub(crate) counts: Counts,
    pub(crate) panels: Option<Panels>,
}

// A group: panels on a tree of cable that share one book, over a carrier and a kind of book. Nothing else changes the carrier.
// No Model: through one a type could not lead back to itself, and callers would not know what the memory's types say, as that a group has
// at most 32 panels. Clauses read the world of a group by `whole`.
#[derive(Drop)]
pub struct Group<C, K> {
    pub(crate) carrier: C,
    pub(crate) kind: K,
    pub(crate) core: Core,
}
