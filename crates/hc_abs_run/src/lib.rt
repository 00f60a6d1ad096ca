//! The branches of a segment of a pass over a set of requests: `pass_branches` from its start, `server_round_branches`
//! from a further round of the server's list of rules. Each finds exactly the branches of its plan in hc_abs_pass
//! (`pass_plan`, `server_round_plan`).
#![tactic(auto)]

mod ended;
mod placed;
mod running;
mod server;

pub use hc_abs_name::refused_at;
pub use running::{pass_branches, server_round_branches};
