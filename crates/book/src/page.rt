// The page of a book, for every kind: what a list of entries makes of the opening row.
// Assumes nothing.
ghost use Rattle.std.specs.Prelude.{◌≡◌, true};
ghost use Rattle.book.specs.Kinds.{answered};
ghost use Rattle.book.specs.Pages.{page, paged};

use crate::kind::Kind;
use words::refusal::Refusal;

// Puts the page after a list of entries into the first words of a space. A refused entry is passed over.
pub fn write_page<K: Kind>(kind: &K, entries: &[u32], space: &mut [u32]) -> Result<(), Refusal>
    ensures answer { (result, space.new) ≡ answered space.old (paged (K.Kind.book kind.now) entries.now space.old) }
    ensures lawful { (K.Kind.book kind.now).lawful (page (K.Kind.book kind.now) entries.now) ≡ true }
{
    kind.opening(space)?;
    let width = kind.width();
    for entry in entries {
        let _ = kind.apply(&mut space[0..width], *entry);
    }
    Ok(())
}
