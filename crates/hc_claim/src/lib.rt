//! Claims on all requests of a scope: proved, refuted by a request, or undecided (specs/Deciding.antt). Our own choice.
//!
//! `decide` walks the tree of branches over all passes and rounds of the scope (hc_abs_tree), depth first, up to a
//! limit of leaves. Where no leaf is bad for the claim (specs/Bad.antt), it is proved. Else the first candidates of
//! each bad leaf are run, in order, and the first run that breaks the claim refutes it; where none does, the answer has
//! what the first bad leaf decided.
//!
//! `laws::answers_hold`: what is proved holds of each request of the scope, and what is refuted is broken by the
//! request that comes with it. It is a clause of `decide`, too.
#![tactic(auto)]

mod decided;
mod deciding;
mod ending;
mod judging;
pub mod laws;
mod question;
mod trying;
mod walking;

pub use decided::Decided;
pub use deciding::{MOST_STATES, decide, tests_of};
pub use ending::{is_bound_left, is_left_outside, is_ruled_outside, serves};
pub use judging::{has_match, may_name};
pub use question::Question;
pub use walking::tree_of;
