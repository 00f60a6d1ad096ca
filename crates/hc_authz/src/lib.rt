//! Whether a request is let in (Apache manual, mod_authz_core).
//!
//! `value` gives what a tree of `Require` lines says of a caller: success, failure or nothing (specs/Values.antt: a
//! line by what is asked of the caller, each container by a table of its members' values), and `value_of` what the
//! joined trees of sections say. They take no memory. `join` is `AuthMerging` (`joined_behind` in
//! hc_model/specs/Joined.antt).
#![tactic(auto)]

mod merging;
mod needs;
mod tree;

pub use merging::{join, value_of};
pub use tree::{Tri, value};
