// The text of a notice.
// Assumes nothing.
mod bytes;
mod edits;
mod rows;

use arrayvec::ArrayVec;

pub const TEXT_BYTES: usize = 64;

pub const TEXT_WORDS: usize = 16;

pub const WORD_BYTES: usize = 4;

// The length word, and the text words.
pub const ROW_WORDS: usize = TEXT_WORDS + 1;

// A text of at most 64 bytes.
#[derive(Drop)]
pub struct Text {
    bytes: ArrayVec<u8, TEXT_BYTES>,
}
