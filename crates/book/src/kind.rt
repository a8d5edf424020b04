// What a kind of book is, for code that serves every kind.
// Assumes nothing.
ghost use Rattle.std.specs.Prelude.{◌≡◌};
ghost use Rattle.book.specs.Kinds.{Book, Sound, answered, applied, opened};

use words::refusal::Refusal;

// A kind of book: a book is a row of words, and an entry is a word that asks for a change of the row.
// What a kind is stands in `book`; a value tells it, so that a kind may have parameters.
pub trait Kind {
    ghost book: { Self → Book };

    // How many words a row has.
    fn width(&self) -> usize
        ensures { result ≡ (book self.now).width };

    // Puts the opening row into the first words of a space.
    fn opening(&self, space: &mut [u32]) -> Result<(), Refusal>
        ensures { (result, space.new) ≡ answered space.old (opened (book self.now) space.old) };

    // Turns a row into what the rule makes of it and an entry.
    fn apply(&self, row: &mut [u32], entry: u32) -> Result<(), Refusal>
        ensures { (result, row.new) ≡ answered row.old (applied (book self.now) row.old entry) };

    ghost sound: { (k : Self) → Sound (book k) };
}
