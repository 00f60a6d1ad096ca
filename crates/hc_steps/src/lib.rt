//! Steps of a way that tell what they look at: the definitions of a flat list and of a request are
//! written in them.
//!
//! The form in which the flat list and the way of a request are defined: steps that tell what they look at.
//! `laws::agreement`: worlds that show the same where the one was looked at give the same run; `laws::run_is_kept`
//! and `laws::each_read_is_kept`: a log has the first events of a run, their number, and each read.
#![tactic(auto)]

pub mod laws;
mod log;
mod order;

pub use log::{Log, Told};
pub use order::listed;
