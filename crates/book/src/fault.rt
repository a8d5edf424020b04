// Why the rule of the ledger or of the notice refuses an entry.
// Assumes nothing.
ghost use Rattle.std.specs.Prelude.{◌≡◌};
ghost use Rattle.book.specs.Faults.{fault_number, rule_number};
ghost use Rattle.words.specs.declared.refusal.Refusal.TheVariants.{Rule};

use words::refusal::Refusal;
use words::rule_number::RuleNumber;

// What is wrong with an entry, each with the number that the rule refuses with. Every fault leaves the row as it was.
#[derive(Clone, Copy, PartialEq, Eq, Debug)]
pub enum Fault {
    UnknownEntry = 13,
    SameAccount = 14,
    BalanceTooLow = 15,
    TextFull = 16,
    NoSuchPlace = 17,
    BadByte = 18,
}

impl Fault {
    // The number that the rule refuses with.
    pub fn number(self) -> u8
        ensures { result ≡ fault_number self }
    {
        self as u8
    }
}

impl From<Fault> for Refusal {
    ghost from_gives = { λ e r. r ≡ Rule (rule_number e) };

    fn from(value: Fault) -> Refusal {
        Refusal::Rule(RuleNumber::new(value.number()).unwrap())
    }
}
