//! The branches of what follows the rules of a directory, over a set of requests: `left_branches` behind them, and
//! `dir_round_branches` from one of their rounds on. Each finds exactly the branches of its plan in hc_abs_pass
//! (`Passing`: `left_plan`, `dir_round_plan`). `Segment` is a branch of a segment of a pass, and `Ground` what all
//! requests of the set have in common.
#![tactic(auto)]

mod ground;
mod left;
mod rounds;
mod segment;

pub use ground::{Ground, Settings};
pub use left::left_branches;
pub use rounds::dir_round_branches;
pub use segment::{Finish, Segment};
