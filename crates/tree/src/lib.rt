// The cable tree of a lift group: which panels a cable joins, how far panels are apart, and the lanes.
// Assumes nothing.
#![tactic(auto)]

pub mod cables;
#[cfg(test)]
mod tests;

pub use cables::Tree;
