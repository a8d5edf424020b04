// Event words: what a call did, as it is logged.
// Assumes nothing.
ghost use Rattle.std.specs.Prelude.{◌≡◌};
ghost use Rattle.words.specs.Events.{event_word, second_word, event_of, event_of_fields, EventsReadBack, EventsAreMade};
ghost use Rattle.words.specs.WordKinds.{kind_number};

use crate::fields::{Fields, KIND};
use crate::kind::Kind;
use crate::refusal::Refusal;

// The highest number that a refusal may have.
const HIGHEST_REFUSAL: u32 = 255;

// What an accepted call did, or the number of a refusal.
#[derive(Clone, Copy)]
pub enum Event {
    // The group is open; its highest panel number.
    Opened {
        highest: usize,
    },
    // A panel asked for the book; its find word went to a neighbour.
    Asked {
        panel: usize,
        to: usize,
    },
    // A panel holds the book, which came from a neighbour, or lay with the panel itself.
    Granted {
        panel: usize,
        from: usize,
    },
    // A find word for an asker was passed on at a panel.
    Passed {
        asker: usize,
        at: usize,
        to: usize,
    },
    // A find word for an asker came to its end at a panel; `book` is 1 where the book left at once, else 0.
    // Not a bool: a narrower type would ask more of callers, whose other values have no word.
    Landed {
        asker: usize,
        at: usize,
        book: u32,
    },
    // A book word for a panel was passed on at another.
    Moved {
        addressee: usize,
        at: usize,
        to: usize,
    },
    // A panel wrote an entry into the book.
    Written {
        panel: usize,
        entry: u32,
    },
    // A panel released the book, and nobody follows.
    Rests {
        panel: usize,
    },
    // A panel released the book to its follower.
    Sent {
        panel: usize,
        to: usize,
    },
    // A call was refused. Not a Refusal: a narrower type would ask more of callers, whose other numbers have no word.
    Refused {
        number: u32,
    },
}

impl Event {
    // The first word of an event; one with a field out of its range has none.
    #[tactic(auto, using(crate::proofs::Events::read_back))]
    pub fn word(self) -> Result<u32, Refusal>
        ensures answer { result ≡ event_word self }
        ensures law { EventsReadBack }
    {
        u32::try_from(self)
    }

    // The second word of an event: the entry that was written.
    pub fn second(self) -> Option<u32>
        ensures { result ≡ second_word self }
    {
        match self {
            Event::Written { entry, .. } => Some(entry),
            _ => None,
        }
    }

    // The event that stands at the front of a list of words.
    pub fn read(words: &[u32]) -> Result<Event, Refusal>
        ensures answer { result ≡ event_of words.now }
        ensures law { EventsAreMade }
    {
        Event::try_from(words)
    }
}

// The first word of every event, by its kind.
impl TryFrom<Event> for u32 {
    type Error = Refusal;

    ghost try_from_gives = { λ event word. word ≡ event_word event };

    fn try_from(event: Event) -> Result<u32, Refusal> {
        let fields = match event {
            Event::Opened { highest } => Fields(Kind::Opened, highest, 0, 0),
            Event::Asked { panel, to } => Fields(Kind::Asked, panel, to, 0),
            Event::Granted { panel, from } => Fields(Kind::Granted, panel, from, 0),
            Event::Passed { asker, at, to } => Fields(Kind::Passed, asker, at, to),
            Event::Landed {
                asker,
                at,
                book: book @ 0..=1,
            } => Fields(Kind::Landed, asker, at, book as usize),
            Event::Moved { addressee, at, to } => Fields(Kind::Moved, addressee, at, to),
            Event::Written { panel, .. } => Fields(Kind::Written, panel, 0, 0),
            Event::Rests { panel } => Fields(Kind::Rests, panel, 0, 0),
            Event::Sent { panel, to } => Fields(Kind::Sent, panel, to, 0),
            Event::Refused {
                number: number @ 1..=HIGHEST_REFUSAL,
            } => return Ok(Kind::Refused as u32 * KIND + number),
            Event::Landed { .. } | Event::Refused { .. } => return Err(Refusal::UnlawfulWord),
        };
        u32::try_from(fields)
    }
}

// The event at the front of the words, if there is any.
impl TryFrom<&[u32]> for Event {
    type Error = Refusal;

    ghost try_from_gives = { λ words event. event ≡ event_of words.now };

    fn try_from(words: &[u32]) -> Result<Event, Refusal> {
        let [first, more @ ..] = words else {
            return Err(Refusal::UnlawfulWord);
        };
        match *first % KIND {
            number @ 1..=HIGHEST_REFUSAL if *first / KIND == Kind::Refused as u32 => {
                Ok(Event::Refused { number })
            }
            _ => event_of_fields(Fields::try_from(*first)?, more),
        }
    }
}

// The event of a first word's fields; `more` are the words that follow it.
fn event_of_fields(fields: Fields, more: &[u32]) -> Result<Event, Refusal>
    ensures { result ≡ event_of_fields (kind_number fields.0) fields.1 fields.2 fields.3 more.now }
{
    match fields {
        Fields(Kind::Opened, highest, 0, 0) => Ok(Event::Opened { highest }),
        Fields(Kind::Asked, panel, to, 0) => Ok(Event::Asked { panel, to }),
        Fields(Kind::Granted, panel, from, 0) => Ok(Event::Granted { panel, from }),
        Fields(Kind::Passed, asker, at, to) => Ok(Event::Passed { asker, at, to }),
        Fields(Kind::Landed, asker, at, book @ 0..=1) => Ok(Event::Landed {
            asker,
            at,
            book: book as u32,
        }),
        Fields(Kind::Moved, addressee, at, to) => Ok(Event::Moved { addressee, at, to }),
        Fields(Kind::Written, panel, 0, 0) => more
            .first()
            .map(|&entry| Event::Written { panel, entry })
            .ok_or(Refusal::UnlawfulWord),
        Fields(Kind::Rests, panel, 0, 0) => Ok(Event::Rests { panel }),
        Fields(Kind::Sent, panel, to, 0) => Ok(Event::Sent { panel, to }),
        _ => Err(Refusal::UnlawfulWord),
    }
}
