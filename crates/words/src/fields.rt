// The fields of a word: where its bits are shared out.
// Assumes nothing.
ghost use Rattle.std.specs.Prelude.{◌≡◌};
ghost use Rattle.words.specs.Parts.{word_of, Parted};

use crate::kind::Kind;
use crate::refusal::Refusal;

// How many panels a group may have: a panel number has five bits.
pub const PANELS: usize = 32;

// The lowest bit of the kind of a word.
pub const KIND: u32 = 1 << 28;

// How many values a field of five bits has.
const FIELD: u32 = 32;

// The lowest bit of each field of an event word.
const FIELD_A: u32 = 1 << 23;

const FIELD_B: u32 = 1 << 18;

const FIELD_C: u32 = 1 << 13;

// The kind and the three fields of an event word that has no bits below them.
#[derive(Clone, Copy)]
pub(crate) struct Fields(pub Kind, pub usize, pub usize, pub usize);

// A word, taken apart.
impl TryFrom<u32> for Fields {
    type Error = Refusal;

    ghost try_from_gives = { Parted };

    fn try_from(word: u32) -> Result<Fields, Refusal> {
        if word % FIELD_C != 0 {
            return Err(Refusal::UnlawfulWord);
        }
        let kind = Kind::try_from(word / KIND)?;
        let a = (word / FIELD_A % FIELD) as usize;
        let b = (word / FIELD_B % FIELD) as usize;
        let c = (word / FIELD_C % FIELD) as usize;
        Ok(Fields(kind, a, b, c))
    }
}

// The word of a kind and three fields, each of which has to fit its five bits.
impl TryFrom<Fields> for u32 {
    type Error = Refusal;

    ghost try_from_gives = { λ fields word. word ≡ word_of fields };

    fn try_from(fields: Fields) -> Result<u32, Refusal> {
        let Fields(kind, a, b, c) = fields;
        if a >= PANELS || b >= PANELS || c >= PANELS {
            return Err(Refusal::UnlawfulWord);
        }
        Ok(kind as u32 * KIND + a as u32 * FIELD_A + b as u32 * FIELD_B + c as u32 * FIELD_C)
    }
}
