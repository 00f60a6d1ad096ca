//! The branches of what follows what is in force, over a set of requests: `forced_branches`, for who may pass and the
//! rules of the directory, finds exactly the branches of hc_abs_pass's `force_plan`.
#![tactic(auto)]

mod begun;
mod forced;
mod ruled;
mod sides;

pub use forced::forced_branches;
