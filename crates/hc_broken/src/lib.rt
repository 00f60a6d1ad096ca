//! What a claim says of the run of a request: `replay` runs a request and gives the run where it breaks the claim
//! (specs/Breaking.antt). Our own choice.
#![tactic(auto)]

mod breaking;
mod replaying;

pub use breaking::{is_same_place, lacks};
pub use replaying::replay;
