//! The branches of a restart over a set of requests (Apache manual, mod_rewrite, RewriteRule, "Per-directory
//! Rewrites"): `restart_branches` finds exactly the branches of hc_abs_pass's `restart_plan`.
#![tactic(auto)]

mod choosing;
mod paths;
mod restart;
mod starting;

pub use restart::{Restart, Restarted, restart_branches};
