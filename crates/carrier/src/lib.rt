// Carriers: what brings parcels from panel to panel, on lanes.
// Assumes nothing.
#![tactic(auto)]

mod lanes;
pub mod line;
pub mod loopback;
mod packet;
mod queue;
pub mod storage;
#[cfg(test)]
mod tests;
pub mod traits;
pub mod tray;
