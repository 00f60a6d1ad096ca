//! Invariants that a user supplies: named cells of states, from each of which the branches are walked once, up to the
//! next pass or a further round of a list of rules. Our own choice.
//!
//! `check` accepts exactly where five conditions hold (specs/Conditions.antt, Checking.antt), and else tells the first
//! one that is false with its first cell and branch: no cell has too many branches; the requests of the scope begin in
//! a cell; each branch that leads on leads into a cell; no branch is bad for the claim; and where the claim is that
//! requests stop, ranks and rounds grow. Claims are passed on to the crates above.
#![tactic(auto)]

mod belonging;
mod bounds;
mod checking;
mod faults;
mod growing;
mod ready;
mod seeing;
mod starting;
mod verdict;
mod walking;

pub use checking::check;
pub use hc_claim::{Decided, Question, decide};
pub use verdict::{Condition, Rejection, Verdict};
