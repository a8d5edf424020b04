// Numbers and pieces of a line of text, as bytes. Nothing here allocates.
// Assumes nothing.
#![tactic(auto)]

pub mod cut;
pub mod number;
