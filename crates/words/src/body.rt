// At most 32 words in memory of fixed size: the body of a parcel, the row of a panel.
// Assumes nothing.
ghost use Rattle.std.specs.Prelude.{◌≡◌, ◌≤◌, [], length, replicate};
ghost use Rattle.words.specs.Bodies.{longest_body, Lays};

use crate::refusal::Refusal;

// The most words that a body has.
pub const LONGEST_BODY: usize = 32;

// The first `size` words of the memory; the others mean nothing.
// An array with a count: parcels, rows and panels are Copy for callers, which an ArrayVec is not.
#[derive(Clone, Copy)]
pub struct Body {
    pub size: usize,
    pub words: [u32; LONGEST_BODY],
    ghost fits: { size ≤ longest_body },
    ghost whole: { length words ≡ longest_body },
}

// A body of no words.
impl Default for Body {
    ghost use Rattle.words.specs.BodyWords.{body_words};

    ghost is_default = { λ body. body_words body ≡ [] };

    fn default() -> Body {
        Body {
            size: 0,
            words: [0; LONGEST_BODY],
        }
    }
}

// A copy of lent words, or BodyTooLong where they are more than 32.
impl TryFrom<&[u32]> for Body {
    ghost use Rattle.words.specs.BodyWords.{Copied};

    type Error = Refusal;

    ghost try_from_gives = { λ list copy. Copied list.now copy };

    fn try_from(list: &[u32]) -> Result<Body, Refusal> {
        let size = list.len();
        if size > LONGEST_BODY {
            return Err(Refusal::BodyTooLong);
        }
        let mut words = [0; LONGEST_BODY];
        words[0..size].copy_from_slice(list);
        Ok(Body { size, words })
    }
}

impl Body {
    ghost use Rattle.words.specs.BodyWords.{body_words};

    // As many zeros as this body has words.
    pub fn cleared(&self) -> Body
        ensures { body_words result ≡ replicate (length (body_words self.now)) 0 }
    {
        Body {
            size: self.size,
            words: [0; LONGEST_BODY],
        }
    }

    // Its words.
    pub fn words(&self) -> &[u32]
        ensures whole { result.now ≡ body_words self.now }
        ensures short { length result.now ≤ longest_body }
    {
        &self.words[0..self.size]
    }

    // Lays the body into the first words of a space, whose other words stay, or SpaceTooShort.
    pub fn lay(&self, space: &mut [u32]) -> Result<(), Refusal>
        ensures { Lays (body_words self.now) space.old result space.new }
    {
        lay(self.words(), space)
    }
}

// Lays words into the first words of a space, whose other words stay, or SpaceTooShort.
pub fn lay(words: &[u32], space: &mut [u32]) -> Result<(), Refusal>
    ensures { Lays words.now space.old result space.new }
{
    let size = words.len();
    if space.len() < size {
        return Err(Refusal::SpaceTooShort);
    }
    space[..size].copy_from_slice(words);
    Ok(())
}
