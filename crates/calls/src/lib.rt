// Calls on a group as values, carried out one by one or in a list, and the law over every run on both. Nothing here allocates.
// Assumes nothing.
#![tactic(auto)]

pub mod call;
pub mod carry;
pub mod list;
#[cfg(test)]
mod tests;
