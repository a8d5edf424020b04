// The refusals: one enum, and the number of each.
// Assumes nothing.
ghost use Rattle.std.specs.Prelude.{◌≡◌, Some, decimal};
ghost use Rattle.words.specs.Refusals.{number_of};

use crate::rule_number::RuleNumber;
use std::error::Error;
use std::fmt;

// Why a call was refused. Every refusal leaves everything as it was.
#[derive(Clone, Copy, PartialEq, Eq, Debug)]
pub enum Refusal {
    NotOpen,
    AlreadyOpen,
    UnlawfulTree,
    TooFewLanes,
    ParcelWaiting,
    NoSuchPanel,
    Engaged,
    RequestLimit,
    NoSuchLane,
    LaneEmpty,
    NotHolding,
    NoBook,
    UnlawfulRow,
    LaneFull,
    BodyTooLong,
    SpaceTooShort,
    UnlawfulWord,
    LogFull,
    BadLine,
    Rule(RuleNumber),
}

impl Refusal {
    // The number that a refusal is logged and printed by.
    pub fn number(self) -> u8
        ensures { result ≡ number_of self }
    {
        u8::from(self)
    }
}

impl From<Refusal> for u8 {
    ghost from_gives = { λ refusal number. number ≡ number_of refusal };

    fn from(refusal: Refusal) -> u8 {
        match refusal {
            Refusal::NotOpen => 1,
            Refusal::AlreadyOpen => 2,
            Refusal::UnlawfulTree => 3,
            Refusal::TooFewLanes => 4,
            Refusal::ParcelWaiting => 5,
            Refusal::NoSuchPanel => 6,
            Refusal::Engaged => 7,
            Refusal::RequestLimit => 8,
            Refusal::NoSuchLane => 9,
            Refusal::LaneEmpty => 10,
            Refusal::NotHolding => 11,
            Refusal::NoBook => 12,
            Refusal::UnlawfulRow => 19,
            Refusal::LaneFull => 20,
            Refusal::BodyTooLong => 21,
            Refusal::SpaceTooShort => 22,
            Refusal::UnlawfulWord => 23,
            Refusal::LogFull => 25,
            Refusal::BadLine => 27,
            Refusal::Rule(own) => own.value(),
        }
    }
}

// A refusal is printed as its number.
impl fmt::Display for Refusal {
    ghost output = { λ refusal. Some (decimal (number_of refusal)) };

    fn fmt<W: fmt::Write>(&self, f: &mut fmt::Formatter<W>) -> fmt::Result {
        let number = self.number();
        write!(f, "{number}")
    }
}

impl Error for Refusal {}
