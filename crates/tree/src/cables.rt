// The tree as a value that is lawful by its type.
// Assumes nothing.
ghost use Rattle.std.specs.Prelude.{◌≡◌, ◌≤◌, true, length, take};
ghost use Rattle.tree.specs.Tree.{lawful_tree, most_panels};

// The most panels that a group has.
pub use words::fields::PANELS as MOST_PANELS;

// A lawful tree: its first `count` entries are the list of parents, and the entries after them mean nothing.
// An array with a count: the type is Copy for callers, which an ArrayVec is not.
#[derive(Clone, Copy)]
pub struct Tree {
    count: usize,
    entries: [usize; MOST_PANELS],
    ghost long: { length entries ≡ most_panels },
    ghost few: { count ≤ most_panels },
    ghost lawful: { lawful_tree (take count entries) ≡ true },
}

mod lanes;
mod making;
mod ways;
