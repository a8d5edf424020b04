// The arrow directory over parcels, rows and counts: what the calls of a group mean, and the law over every run of them.
// Definitions are in specs/, proofs in proofs/; here are the types that the code holds too, and the limit of requests, whose contract
// names the law. Assumes nothing.
#![tactic(auto)]

pub mod counts;
pub mod limit;
pub mod state;
