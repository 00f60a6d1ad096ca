//! What an invariant is written with: sets of states of requests, each at a place where a part of the way of a request
//! begins. Types alone. Our own choice.
#![tactic(auto)]

mod cut;
mod named;

pub use cut::Cut;
pub use named::NamedCell;
