// Riser layouts: reading one from a line of text, and the table of cable steps between its panels.
// Assumes nothing.
#![tactic(auto)]

pub mod fault;
pub mod quote;
pub mod read;
mod table;
