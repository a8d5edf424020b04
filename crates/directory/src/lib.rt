// The arrow directory: who asks for the book, where each request stands, and which way each panel's arrow points.
// The definitions are in specs/ and their laws in proofs/; the one function here names the laws. Assumes nothing.
#![tactic(auto)]

ghost use Rattle.std.specs.Prelude.{◌≡◌, ◌==◌};
ghost use Rattle.directory.specs.Example.{WorkedExample};
ghost use Rattle.directory.specs.Law.{DirectoryLaw, EveryRequestServed};

// Whether a find that comes to a panel with this arrow lands there; else it goes on along the arrow.
pub fn lands(panel: usize, arrow: usize) -> bool
    ensures answer { result ≡ (arrow == panel) }
    ensures law { DirectoryLaw }
    ensures served { EveryRequestServed }
    ensures example { WorkedExample }
{
    arrow == panel
}
