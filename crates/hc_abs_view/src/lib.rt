//! The branches of an expression over a set of requests (Apache manual, "Expressions in Apache HTTP Server"):
//! `view_branches`, for an expression alone and behind a chain of others (`<ElseIf>`, `<Else>`).
//!
//! An expression is a list of steps. Those that find their parts are kept (`kept`) and read from the last on, so that
//! nothing calls itself for a part: they make a list of jumps (`leads`), its tests in the order in which they are made,
//! and where each leads. The branches are found along that list (`placed`), with the sides of each test (`sides`,
//! `compare`).
//!
//! `proofs/Jumping`: the plan of these jumps is that of the expression. `proofs/Natural`: what follows an expression is
//! what follows the ends of its plan.
#![tactic(auto)]

mod compare;
mod elements;
mod jump;
mod kept;
mod leads;
mod placed;
mod scene;
mod sides;
mod viewing;

pub use scene::{Query, Scene};
pub use viewing::{Viewed, view_branches};
