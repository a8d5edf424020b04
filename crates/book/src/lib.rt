// Kinds of book: what a kind is, code that serves every kind, and the ledger.
// Assumes nothing.
#![tactic(auto)]

pub mod bits;
pub mod fault;
pub mod kind;
pub mod ledger;
pub mod page;
#[cfg(test)]
mod tests;
