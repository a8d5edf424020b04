// Message words: the head of a parcel, 32 bits.
// Assumes nothing.
ghost use Rattle.std.specs.Prelude.{◌≡◌};
ghost use Rattle.words.specs.Messages.{message_word, message_of, MessagesReadBack, MessagesAreMade};

use crate::fields::{KIND, PANELS};
use crate::kind::Kind;
use crate::refusal::Refusal;

// What a parcel is for: a find word looks for the book on behalf of the panel that asks, a book word brings it to a panel.
#[derive(Clone, Copy)]
pub enum Message {
    Find { asker: usize },
    Book { addressee: usize },
}

impl Message {
    // The word of a message; a panel number above 31 has none.
    pub fn word(self) -> Result<u32, Refusal>
        ensures answer { result ≡ message_word self }
        ensures law { MessagesReadBack }
    {
        u32::try_from(self)
    }

    // The message that a word stands for.
    pub fn read(word: u32) -> Result<Message, Refusal>
        ensures answer { result ≡ message_of word }
        ensures law { MessagesAreMade }
    {
        Message::try_from(word)
    }
}

impl TryFrom<Message> for u32 {
    type Error = Refusal;

    ghost try_from_gives = { λ message word. word ≡ message_word message };

    fn try_from(message: Message) -> Result<u32, Refusal> {
        let (kind, panel) = match message {
            Message::Find { asker } => (Kind::Find, asker),
            Message::Book { addressee } => (Kind::Book, addressee),
        };
        if panel >= PANELS {
            return Err(Refusal::UnlawfulWord);
        }
        Ok(kind as u32 * KIND + panel as u32)
    }
}

impl TryFrom<u32> for Message {
    type Error = Refusal;

    ghost try_from_gives = { λ word message. message ≡ message_of word };

    fn try_from(word: u32) -> Result<Message, Refusal> {
        let panel = (word % KIND) as usize;
        if panel >= PANELS {
            return Err(Refusal::UnlawfulWord);
        }
        match Kind::try_from(word / KIND)? {
            Kind::Find => Ok(Message::Find { asker: panel }),
            Kind::Book => Ok(Message::Book { addressee: panel }),
            _ => Err(Refusal::UnlawfulWord),
        }
    }
}
