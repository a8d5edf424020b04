// A lift group: its panels share one book over any carrier and any kind of book. Nothing here allocates.
// Assumes nothing.
#![tactic(auto)]

mod asking;
mod delivering;
mod holding;
pub mod memory;
mod opening;
mod parts;
mod questions;

pub use crate::memory::Group;
