// The words of the shared book: refusals with their numbers, message words and event words.
// Assumes nothing.
#![tactic(auto)]

pub mod body;
pub mod event;
pub mod fields;
mod kind;
pub mod message;
pub mod refusal;
pub mod rule_number;
