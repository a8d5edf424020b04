// The table of cable steps between the panels of a layout, as it is printed.
// Assumes nothing.
ghost use Rattle.std.specs.Prelude.{◌≡◌, ◌<◌, length, Some};
ghost use Rattle.layout.specs.Tables.{two_places, farthest_from, farthest, row, table};
ghost use Rattle.tree.specs.Answers.{parents};
ghost use Rattle.tree.specs.Tree.{distance};

use std::fmt;
use tree::Tree;

// The table of a tree.
#[derive(Clone, Copy)]
pub(crate) struct Table<'a>(pub(crate) &'a Tree);

// The row of a panel in the table of its tree.
#[derive(Clone, Copy)]
struct Row<'a> {
    tree: &'a Tree,
    panel: usize,
    ghost exists: { panel < length (parents tree.now) },
}

// A number in at least two places.
#[derive(Clone, Copy)]
struct TwoPlaces(usize);

impl<'a> Table<'a> {
    // The row of a panel that exists.
    fn row(&self, panel: usize) -> Row<'a>
        requires { panel < length (parents self.now.0.now) }
        ensures tree { result.tree.now ≡ self.now.0.now }
        ensures panel { result.panel ≡ panel }
    {
        Row {
            tree: self.0,
            panel,
        }
    }

    // The greatest distance of two panels.
    fn farthest(&self) -> usize
        ensures { result ≡ farthest (parents self.now.0.now) }
    {
        (0..self.0.panels())
            .map(|panel| self.row(panel).farthest())
            .max()
            .unwrap_or(0)
    }
}

impl Row<'_> {
    // The distance to a panel that exists.
    fn steps(&self, to: usize) -> usize
        requires { to < length (parents self.now.tree.now) }
        ensures { result ≡ distance (parents self.now.tree.now) self.now.panel to }
    {
        self.tree.distance(self.panel, to).unwrap()
    }

    // The greatest distance from the panel.
    fn farthest(&self) -> usize
        ensures { result ≡ farthest_from (parents self.now.tree.now) self.now.panel }
    {
        let panels = 0..self.tree.panels();
        panels.map(|to| self.steps(to)).max().unwrap_or(0)
    }
}

impl fmt::Display for Table<'_> {
    ghost output = { λ t. Some (table (parents t.0.now)) };

    fn fmt<W: fmt::Write>(&self, f: &mut fmt::Formatter<W>) -> fmt::Result {
        let panels = self.0.panels();
        writeln!(f, "panels {panels} farthest {}", self.farthest())?;
        // A `for`: what a chain of `for_each` writes, the check does not know.
        for panel in 0..panels {
            write!(f, "{}", self.row(panel))?;
        }
        Ok(())
    }
}

impl fmt::Display for TwoPlaces {
    ghost output = { λ n. Some (two_places n.0) };

    fn fmt<W: fmt::Write>(&self, f: &mut fmt::Formatter<W>) -> fmt::Result {
        let number = self.0;
        if number < 10 {
            write!(f, " {number}")
        } else {
            write!(f, "{number}")
        }
    }
}

impl fmt::Display for Row<'_> {
    ghost output = { λ r. Some (row (parents r.tree.now) r.panel) };

    fn fmt<W: fmt::Write>(&self, f: &mut fmt::Formatter<W>) -> fmt::Result {
        write!(f, "{}:", TwoPlaces(self.panel))?;
        // A `for`, as for the rows.
        for to in 0..self.tree.panels() {
            write!(f, " {}", TwoPlaces(self.steps(to)))?;
        }
        writeln!(f)
    }
}
