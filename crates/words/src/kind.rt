// The kinds of words: what stands in the highest four bits of one.
// Assumes nothing.
ghost use Rattle.words.specs.WordKinds.{Numbered};

use crate::refusal::Refusal;

// Every kind with its number: those of messages, then those of events.
#[derive(Clone, Copy)]
pub(crate) enum Kind {
    Find = 1,
    Book = 2,
    Opened = 3,
    Asked = 4,
    Granted = 5,
    Passed = 6,
    Landed = 7,
    Moved = 8,
    Written = 9,
    Rests = 10,
    Sent = 11,
    Refused = 12,
}

impl TryFrom<u32> for Kind {
    type Error = Refusal;

    ghost try_from_gives = { Numbered };

    fn try_from(number: u32) -> Result<Kind, Refusal> {
        match number {
            1 => Ok(Kind::Find),
            2 => Ok(Kind::Book),
            3 => Ok(Kind::Opened),
            4 => Ok(Kind::Asked),
            5 => Ok(Kind::Granted),
            6 => Ok(Kind::Passed),
            7 => Ok(Kind::Landed),
            8 => Ok(Kind::Moved),
            9 => Ok(Kind::Written),
            10 => Ok(Kind::Rests),
            11 => Ok(Kind::Sent),
            12 => Ok(Kind::Refused),
            _ => Err(Refusal::UnlawfulWord),
        }
    }
}
