// A panel of a lift group: its record, its row, and what it does with a message. Nothing here allocates.
// Assumes nothing.
#![tactic(auto)]

pub mod action;
pub mod record;
pub mod row;
