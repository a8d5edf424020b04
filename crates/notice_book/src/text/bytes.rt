// The bytes of words, and tests of bytes.
// Assumes nothing.
ghost use Rattle.std.specs.Prelude.{◌≡◌, length};
ghost use Rattle.std.specs.List.{list_all};
ghost use Rattle.notice_book.specs.Bytes.{blank, bytes_of, printable};

use crate::text::TEXT_BYTES;
use arrayvec::ArrayVec;

// The bytes of the text words, the highest of each word first. Sixteen words have 64 bytes, so each four of them fit.
pub(crate) fn unpack(words: &[u32]) -> ArrayVec<u8, TEXT_BYTES>
    requires { length words.now ≡ 16 }
    ensures { result.items ≡ bytes_of words.now }
{
    let mut bytes = ArrayVec::new();
    for word in words {
        bytes.try_extend_from_slice(&word.to_be_bytes()).unwrap();
    }
    bytes
}

// Whether a text may have a byte.
pub(crate) fn is_printable(byte: u8) -> bool
    ensures { result ≡ printable byte }
{
    matches!(byte, b' '..=b'~')
}

// Whether all bytes are printable.
pub(crate) fn all_printable(bytes: &[u8]) -> bool
    ensures { result ≡ list_all printable bytes.now }
{
    bytes.iter().all(|byte| is_printable(*byte))
}

// Whether all bytes are 0. Apart from the other test: with both chains in one function the check leaves a goal open.
pub(crate) fn all_blank(bytes: &[u8]) -> bool
    ensures { result ≡ list_all blank bytes.now }
{
    bytes.iter().all(|byte| *byte == 0)
}
