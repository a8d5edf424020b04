// The entries of a notice.
// Assumes nothing.
ghost use Rattle.std.specs.Prelude.{◌≡◌};
ghost use Rattle.notice_book.specs.Notices.{notice_entry};

use book::bits::{Bits, TAG};
use book::fault::Fault;

// The two tags. Constants: they are matched once, where the entry is made, so an enum of tags would be made only to be matched again.
const INSERT: u32 = 2;

const DELETE: u32 = 3;

// The parts of an entry word.
const PLACE: Bits = Bits { low: 20, count: 8 };

const BYTE: Bits = Bits { low: 0, count: 8 };

// The bits of an insert, and those of a delete, that are zero.
const INSERT_ZERO: Bits = Bits { low: 8, count: 12 };

const DELETE_ZERO: Bits = Bits { low: 0, count: 20 };

// What an entry of the notice asks for.
#[derive(Clone, Copy, Debug)]
pub enum NoticeEntry {
    Insert { place: usize, byte: u8 },
    Delete { place: usize },
}

impl TryFrom<u32> for NoticeEntry {
    type Error = Fault;

    ghost try_from_gives = { λ word r. r ≡ notice_entry word };

    fn try_from(word: u32) -> Result<NoticeEntry, Fault> {
        let place = PLACE.of(word) as usize;
        match TAG.of(word) {
            INSERT if INSERT_ZERO.of(word) == 0 => Ok(NoticeEntry::Insert {
                place,
                byte: BYTE.of(word) as u8,
            }),
            DELETE if DELETE_ZERO.of(word) == 0 => Ok(NoticeEntry::Delete { place }),
            _ => Err(Fault::UnknownEntry),
        }
    }
}

impl NoticeEntry {
    // The entry that a word stands for: try_from, under the name that callers have.
    pub fn read(word: u32) -> Result<NoticeEntry, Fault>
        ensures { result ≡ notice_entry word }
    {
        NoticeEntry::try_from(word)
    }
}
