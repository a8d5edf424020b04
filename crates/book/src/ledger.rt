// The ledger: tenant accounts between which amounts are moved.
// Assumes nothing.
ghost use Rattle.std.specs.Prelude.{◌≡◌, true};
ghost use Rattle.book.specs.Kinds.{answered, applied};
ghost use Rattle.book.specs.Ledgers.{ledger_book, ledger_entry, ledger_lawful, ledger_made};
ghost use Rattle.book.specs.Transfers.{AcceptedEntriesPay, Few};
ghost use Rattle.book.specs.LedgersLemmas.{ledger_sound};

use crate::bits::{Bits, TAG};
use crate::fault::Fault;
use crate::kind::Kind;
use words::body::lay;
use words::refusal::Refusal;

const ACCOUNTS: usize = 16;

const OPENING_BALANCE: u32 = 1_000;

// What the balances add up to.
const TOTAL: u32 = 16_000;

const OPENING: [u32; ACCOUNTS] = [OPENING_BALANCE; ACCOUNTS];

// The tag of a transfer. A constant: it is compared once, so an enum of one tag would say no more.
const TRANSFER: u32 = 1;

// The parts of an entry word.
const PAYER: Bits = Bits { low: 24, count: 4 };

const PAYEE: Bits = Bits { low: 20, count: 4 };

const AMOUNT: Bits = Bits { low: 0, count: 20 };

// The kind of a book of tenant accounts.
#[derive(Clone, Copy)]
pub struct Ledger;

// What an entry of the ledger asks for.
#[derive(Clone, Copy, Debug)]
pub enum LedgerEntry {
    Transfer {
        payer: usize,
        payee: usize,
        amount: u32,
    },
}

impl TryFrom<u32> for LedgerEntry {
    type Error = Fault;

    ghost try_from_gives = { λ word r. r ≡ ledger_entry word };

    fn try_from(word: u32) -> Result<LedgerEntry, Fault> {
        if TAG.of(word) != TRANSFER {
            return Err(Fault::UnknownEntry);
        }
        Ok(LedgerEntry::Transfer {
            payer: PAYER.of(word) as usize,
            payee: PAYEE.of(word) as usize,
            amount: AMOUNT.of(word),
        })
    }
}

impl LedgerEntry {
    // The entry that a word stands for: try_from, under the name that callers have.
    pub fn read(word: u32) -> Result<LedgerEntry, Fault>
        ensures { result ≡ ledger_entry word }
    {
        LedgerEntry::try_from(word)
    }
}

// Whether a row is lawful. The sum is taken in 64 bits, where sixteen words cannot wrap, by a loop whose invariant bounds it.
fn is_lawful(row: &[u32]) -> bool
    ensures answer { result ≡ ledger_lawful row.now }
    ensures few { result ≡ true → Few row.now }
{
    if row.len() != ACCOUNTS {
        return false;
    }
    let mut total: u64 = 0;
    for balance in row {
        total += u64::from(*balance);
    }
    total == u64::from(TOTAL)
}

// Carries out an entry on a lawful row, in which no account has more than the total.
fn transfer(row: &mut [u32], entry: u32) -> Result<(), Fault>
    requires { ledger_lawful row.old ≡ true }
    ensures { (result, row.new) ≡ answered row.old (ledger_made row.old (ledger_entry entry)) }
{
    let LedgerEntry::Transfer {
        payer,
        payee,
        amount,
    } = LedgerEntry::try_from(entry)?;
    if payer == payee {
        return Err(Fault::SameAccount);
    }
    // No account has so much, so the test of the balance would refuse these too.
    if amount > TOTAL {
        return Err(Fault::BalanceTooLow);
    }
    let paying = row[payer];
    let receiving = row[payee];
    if paying < amount {
        return Err(Fault::BalanceTooLow);
    }
    row[payer] = paying - amount;
    row[payee] = receiving + amount;
    Ok(())
}

// Makes of a row what the rule makes of it and an entry.
fn write(row: &mut [u32], entry: u32) -> Result<(), Refusal>
    ensures { (result, row.new) ≡ answered row.old (applied ledger_book row.old entry) }
{
    if !is_lawful(row) {
        return Err(Refusal::UnlawfulRow);
    }
    Ok(transfer(row, entry)?)
}

impl Kind for Ledger {
    ghost book = { λ _. ledger_book };

    ghost sound = { λ k. ledger_sound };

    fn width(&self) -> usize {
        OPENING.len()
    }

    fn opening(&self, space: &mut [u32]) -> Result<(), Refusal> {
        lay(&OPENING, space)
    }

    fn apply(&self, row: &mut [u32], entry: u32) -> Result<(), Refusal>
        ensures answer { (result, row.new) ≡ answered row.old (applied ledger_book row.old entry) }
        ensures pays { AcceptedEntriesPay }
    {
        write(row, entry)
    }
}
