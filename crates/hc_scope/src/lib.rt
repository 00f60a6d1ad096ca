//! What a claim speaks of: a scope of requests, what is claimed of each, and sets of texts as they are written.
//!
//! Types alone, whose clones equal them, and which clients a network has (specs/Clients.antt).
#![tactic(auto)]

mod claim;
mod form;

pub use claim::{Claim, Scope};
pub use form::SetForm;
