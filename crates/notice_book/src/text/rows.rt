// A text read from a row, and the row of a text.
// Assumes nothing.
ghost use Rattle.std.specs.Prelude.{◌≡◌, ◌-◌, ◌++◌, length, replicate};
ghost use Rattle.notice_book.specs.Bytes.{row_of};
ghost use Rattle.notice_book.specs.Texts.{letters, IsRead};

use crate::text::bytes::{all_blank, all_printable, unpack};
use crate::text::{ROW_WORDS, TEXT_BYTES, TEXT_WORDS, Text, WORD_BYTES};
use arrayvec::ArrayVec;
use words::refusal::Refusal;

impl TryFrom<&[u32]> for Text {
    type Error = Refusal;

    ghost try_from_gives = { λ row r. IsRead row.now r };

    // The text of a lawful row.
    fn try_from(row: &[u32]) -> Result<Text, Refusal> {
        let [size, words @ ..] = row else {
            return Err(Refusal::UnlawfulRow);
        };
        let size = *size as usize;
        if words.len() != TEXT_WORDS || size > TEXT_BYTES {
            return Err(Refusal::UnlawfulRow);
        }
        let mut bytes = unpack(words);
        let (text, rest) = bytes.split_at(size);
        if !all_printable(text) || !all_blank(rest) {
            return Err(Refusal::UnlawfulRow);
        }
        bytes.truncate(size);
        Ok(Text { bytes })
    }
}

impl Text {
    // Its bytes, with zeros behind them.
    fn padded(&self) -> [u8; TEXT_BYTES]
        ensures { result ≡ letters self.now ++ replicate (64 - length (letters self.now)) 0 }
    {
        let mut bytes = [0; TEXT_BYTES];
        bytes[..self.bytes.len()].copy_from_slice(&self.bytes);
        bytes
    }

    // The row of the text.
    pub(crate) fn row(&self) -> ArrayVec<u32, ROW_WORDS>
        ensures row { result.items ≡ row_of (letters self.now) }
        ensures long { length result.items ≡ 17 }
    {
        let bytes = self.padded();
        let (fours, _) = bytes.as_chunks::<WORD_BYTES>();
        let mut row = ArrayVec::new();
        row.push(self.bytes.len() as u32);
        for four in fours {
            row.push(u32::from_be_bytes(*four));
        }
        row
    }
}
