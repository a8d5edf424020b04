// The notice: a kind of book that holds a short text.
// Assumes nothing.
#![tactic(auto)]

pub mod entry;
pub mod kind;
#[cfg(test)]
mod tests;
mod text;
