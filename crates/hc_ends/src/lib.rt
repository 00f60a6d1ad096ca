//! The claim that each chain of redirects to own servers ends, for all requests of a scope: proved, refuted by a
//! request, or undecided (specs/Deciding.antt). Our own choice.
//!
//! `decide_ends` walks the trees of branches of the requests of all chains (hc_abs_tree, hc_sent), depth first, up to a
//! limit of ends. Where the claim can be broken at no end, it is proved. Else the first candidates of the first request
//! of each chain are followed, in order, and the first chain that breaks the claim refutes it; where none does, the
//! answer has what was decided on the way to the first such end.
//!
//! `laws::answers_hold`: what is proved holds of each request of the scope, and what is refuted is broken by the
//! request that comes with it. It is a clause of `decide_ends`, too.
#![tactic(auto)]

mod chaining;
mod chains;
mod decided;
mod deciding;
mod finding;
pub mod laws;
mod sending;
mod trying;
mod walking;

pub use chains::Chains;
pub use decided::DecidedEnds;
pub use deciding::decide_ends;
