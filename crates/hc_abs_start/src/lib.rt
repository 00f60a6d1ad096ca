//! What is known of the requests of a scope before their first pass: `start` gives the set of each slot, and
//! `sole_client` the client where the network has one. `laws::each_begins`: each request of the scope begins in one of
//! these states (specs/Starts.antt).
#![tactic(auto)]

mod bytes;
mod clean;
pub mod laws;
mod sets;
mod sole;
mod starting;

pub use clean::clean_paths;
pub use sole::sole_client;
pub use starting::start;
