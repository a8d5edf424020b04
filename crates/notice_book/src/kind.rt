// The notice as a kind of book.
// Assumes nothing.
ghost use Rattle.std.specs.Prelude.{◌≡◌};
ghost use Rattle.book.specs.Kinds.{answered, applied};
ghost use Rattle.notice_book.specs.Examples.{WorkedExamples};
ghost use Rattle.notice_book.specs.Laws.{AcceptedEntriesEdit, RowsAreTexts};
ghost use Rattle.notice_book.specs.Notices.{notice_book};
ghost use Rattle.notice_book.specs.NoticesLemmas.{notice_sound};

use crate::entry::NoticeEntry;
use crate::text::{ROW_WORDS, Text};
use book::kind::Kind;
use words::body::lay;
use words::refusal::Refusal;

const OPENING: [u32; ROW_WORDS] = [0; ROW_WORDS];

// The kind of a book that holds one short text.
#[derive(Clone, Copy)]
pub struct Notice;

// Carries out an entry on a row.
fn write(row: &mut [u32], entry: u32) -> Result<(), Refusal>
    ensures { (result, row.new) ≡ answered row.old (applied notice_book row.old entry) }
{
    let mut text = Text::try_from(&*row)?;
    match NoticeEntry::try_from(entry)? {
        NoticeEntry::Insert { place, byte } => text.insert(place, byte)?,
        NoticeEntry::Delete { place } => text.delete(place)?,
    }
    row.copy_from_slice(&text.row());
    Ok(())
}

impl Kind for Notice {
    ghost book = { λ _. notice_book };

    ghost sound = { λ k. notice_sound };

    fn width(&self) -> usize {
        OPENING.len()
    }

    fn opening(&self, space: &mut [u32]) -> Result<(), Refusal> {
        lay(&OPENING, space)
    }

    fn apply(&self, row: &mut [u32], entry: u32) -> Result<(), Refusal>
        ensures answer { (result, row.new) ≡ answered row.old (applied notice_book row.old entry) }
        ensures edits { AcceptedEntriesEdit }
        ensures texts { RowsAreTexts }
        ensures examples { WorkedExamples }
    {
        write(row, entry)
    }
}
