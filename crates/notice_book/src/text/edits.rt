// A byte put into a text, or taken out.
// Assumes nothing.
ghost use Rattle.std.specs.Prelude.{◌≡◌};
ghost use Rattle.book.specs.Kinds.{answered};
ghost use Rattle.notice_book.specs.Notices.{edit};
ghost use Rattle.notice_book.specs.Texts.{letters};
ghost use Rattle.notice_book.specs.declared.entry.NoticeEntry.TheVariants.{Insert, Delete};

use crate::text::Text;
use crate::text::bytes::is_printable;
use book::fault::Fault;

impl Text {
    // Puts a byte in; the bytes from the place on move up by one.
    pub(crate) fn insert(&mut self, place: usize, byte: u8) -> Result<(), Fault>
        ensures { (result, letters self.new) ≡ answered (letters self.old) (edit (letters self.old) (Insert place byte)) }
    {
        if self.bytes.is_full() {
            return Err(Fault::TextFull);
        }
        if place > self.bytes.len() {
            return Err(Fault::NoSuchPlace);
        }
        if !is_printable(byte) {
            return Err(Fault::BadByte);
        }
        self.bytes.insert(place, byte);
        Ok(())
    }

    // Takes a byte out; the bytes after the place move down by one.
    pub(crate) fn delete(&mut self, place: usize) -> Result<(), Fault>
        ensures { (result, letters self.new) ≡ answered (letters self.old) (edit (letters self.old) (Delete place)) }
    {
        self.bytes.pop_at(place).ok_or(Fault::NoSuchPlace)?;
        Ok(())
    }
}
