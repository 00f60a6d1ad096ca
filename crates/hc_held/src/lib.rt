//! What an accepted invariant says: no request of its scope breaks the claim (hc_cert's specs/Holding.antt).
//! What stands above asks claims and invariants through this crate.
#![tactic(auto)]

pub mod laws;

pub use hc_cert::{Condition, Decided, Question, Rejection, Verdict, check, decide};
