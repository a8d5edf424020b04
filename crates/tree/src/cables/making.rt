// A tree from a lent list of parents, and what it was made from.
// Assumes nothing.
ghost use Rattle.std.specs.Prelude.{◌≡◌, ◌<◌, ◌≤◌, true, length, take, if◌then◌else◌, nat_lt, drop};
ghost use Rattle.std.specs.List.{list_all, enumerate_from};
ghost use Rattle.tree.specs.Answers.{MadeOf, parents};
ghost use Rattle.tree.specs.Tree.{lawful_tree, most_panels, exists, parent};

use super::{MOST_PANELS, Tree};
use words::refusal::Refusal;

// Whether each entry after the first is below its place.
fn falls(list: &[usize]) -> bool
    ensures { result ≡ list_all (λ x. nat_lt x.1 x.0) (drop 1 (enumerate_from 0 list.now)) }
{
    list.iter()
        .enumerate()
        .skip(1)
        .all(|(place, parent)| *parent < place)
}

// Whether a list of parents is a tree.
#[tactic(auto, using(crate::proofs::Lawful::lawful_test))]
fn is_lawful(list: &[usize]) -> bool
    ensures answer { result ≡ lawful_tree list.now }
    ensures few { result ≡ true → length list.now ≤ most_panels }
{
    match list {
        [0, ..] => list.len() <= MOST_PANELS && falls(list),
        _ => false,
    }
}

// A list of parents in the first entries of a whole array.
fn padded(list: &[usize]) -> [usize; MOST_PANELS]
    requires { length list.now ≤ most_panels }
    ensures front { take (length list.now) result ≡ list.now }
    ensures whole { length result ≡ most_panels }
{
    let mut entries = [0; MOST_PANELS];
    entries[0..list.len()].copy_from_slice(list);
    entries
}

// The tree of a list of parents, or UnlawfulTree.
impl TryFrom<&[usize]> for Tree {
    type Error = Refusal;

    ghost try_from_gives = { λ list tree. MadeOf list.now tree };

    fn try_from(list: &[usize]) -> Result<Tree, Refusal> {
        if !is_lawful(list) {
            return Err(Refusal::UnlawfulTree);
        }
        Ok(Tree {
            count: list.len(),
            entries: padded(list),
        })
    }
}

impl Tree {
    // The tree of a list of parents. An unlawful list is refused with UnlawfulTree.
    pub fn new(list: &[usize]) -> Result<Tree, Refusal>
        ensures { MadeOf list.now result }
    {
        Tree::try_from(list)
    }

    // The list of parents.
    pub fn parents(&self) -> &[usize]
        ensures { result.now ≡ parents self.now }
    {
        &self.entries[..self.count]
    }

    // How many panels the tree has.
    pub fn panels(&self) -> usize
        ensures answer { result ≡ length (parents self.now) }
        ensures within { (0 < result) × (result ≤ most_panels) }
    {
        self.count
    }

    // The parent of a panel. It is 0 for panel 0, and for a number past the last panel.
    pub fn parent(&self, panel: usize) -> usize
        ensures { result ≡ parent (parents self.now) panel }
    {
        self.parents().get(panel).copied().unwrap_or(0)
    }

    // NoSuchPanel, unless the panel exists.
    pub(super) fn check(&self, panel: usize) -> Result<(), Refusal>
        ensures { result ≡ (if exists (parents self.now) panel then Ok tt else Err Refusal.NoSuchPanel) }
    {
        if panel < self.panels() {
            Ok(())
        } else {
            Err(Refusal::NoSuchPanel)
        }
    }
}
