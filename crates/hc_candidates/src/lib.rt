//! Requests that may show what is known of a set of requests: `candidates` gives the first of them, in order
//! (specs/Candidates.antt). Our own choice.
#![tactic(auto)]

mod picking;

pub use picking::{MOST_CANDIDATES, candidates};
