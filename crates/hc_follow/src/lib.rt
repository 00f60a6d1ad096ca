//! Chains of redirects to own servers. Our own choice.
//!
//! `next_request` gives exactly the request that follows an outcome, or why none does (specs/Next.antt).
#![tactic(auto)]

mod chain;
mod next;
mod origin;

pub use chain::{Chain, MOST_STEPS, follow};
pub use next::{Next, SEE_OTHER, Stop, next_request};
pub use origin::Origin;
