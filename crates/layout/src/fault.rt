// What can go wrong with a line.
// Assumes nothing.
ghost use Rattle.std.specs.Prelude.{◌≡◌, alloc_error};
ghost use Rattle.layout.specs.declared.fault.Fault.TheVariants.{Refused, NoMemory};

use std::alloc::{AllocError, AllocFailed};
use words::refusal::Refusal;

// The line is refused, or there is no memory for it.
#[derive(Clone, Copy, PartialEq, Eq, Debug)]
pub enum Fault {
    Refused(Refusal),
    NoMemory(AllocError),
}

// By hand: contracts name what a `?` makes, and a derived From has no contract.
impl From<Refusal> for Fault {
    ghost from_gives = { λ e r. r ≡ Refused e };

    fn from(value: Refusal) -> Fault {
        Fault::Refused(value)
    }
}

impl<T: Drop> From<AllocFailed<T>> for Fault {
    ghost from_gives = { λ _ r. r ≡ NoMemory alloc_error };

    fn from(value: AllocFailed<T>) -> Fault {
        Fault::NoMemory(value.into())
    }
}
