// Rows: none, zeros, the opening row, a copy of lent words, and what a kind of book makes of them.
// Assumes nothing.
ghost use Rattle.std.specs.Prelude.{◌≡◌, [], length, replicate};
ghost use Rattle.book.specs.Kinds.{answered, applied, placed};

use book::kind::Kind;
use words::body::{Body, LONGEST_BODY};
use words::refusal::Refusal;

// The words that a panel has of the book.
#[derive(Clone, Copy, Default)]
pub struct Row {
    body: Body,
}

// A copy of lent words, or BodyTooLong where they are more than 32.
impl TryFrom<&[u32]> for Row {
    ghost use Rattle.panel.specs.Steps.{Copied};

    type Error = Refusal;

    ghost try_from_gives = { λ list row. Copied list.now row };

    fn try_from(list: &[u32]) -> Result<Row, Refusal> {
        Ok(Row {
            body: Body::try_from(list)?,
        })
    }
}

impl Row {
    ghost use Rattle.panel.specs.Steps.{row_words, Copied, OpeningRow};

    // A row of no words.
    pub fn empty() -> Row
        ensures { row_words result ≡ [] }
    {
        Row::default()
    }

    // As many zeros as this row has words.
    pub fn cleared(&self) -> Row
        ensures { row_words result ≡ replicate (length (row_words self.now)) 0 }
    {
        Row {
            body: self.body.cleared(),
        }
    }

    // A copy of lent words, or BodyTooLong where they are more than 32.
    pub fn of(list: &[u32]) -> Result<Row, Refusal>
        ensures { Copied list.now result }
    {
        Row::try_from(list)
    }

    // The opening row of a kind, which no kind refuses.
    pub fn opening<K: Kind>(kind: &K) -> Result<Row, Refusal>
        ensures { OpeningRow (K.Kind.book kind.now).opening result }
    {
        let mut words = [0; LONGEST_BODY];
        kind.opening(&mut words)?;
        Ok(Row {
            body: Body {
                size: kind.width(),
                words,
            },
        })
    }

    // Its words.
    pub fn words(&self) -> &[u32]
        ensures { result.now ≡ row_words self.now }
    {
        self.body.words()
    }

    // The row that a kind makes of this one and an entry; a refusal leaves it.
    pub fn write<K: Kind>(&mut self, kind: &K, entry: u32) -> Result<(), Refusal>
        ensures { (result, row_words self.new) ≡ answered (row_words self.old) (applied (K.Kind.book kind.now) (row_words self.old) entry) }
    {
        kind.apply(&mut self.body.words[0..self.body.size], entry)
    }

    // Lays the row into the first words of a space, whose other words stay, or SpaceTooShort.
    pub fn lay(&self, space: &mut [u32]) -> Result<(), Refusal>
        ensures { (result, space.new) ≡ answered space.old (placed (length (row_words self.now)) (row_words self.now) space.old) }
    {
        self.body.lay(space)
    }
}
