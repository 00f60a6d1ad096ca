//! The sections that apply, over a set of requests (Apache manual, "Configuration Sections"): `section_branches` tests
//! one after another in the order in which they are merged, and says of each branch which of them apply; its clause is
//! that these are the branches of hc_abs_pass's `sections_plan` (specs/Forcing.antt). `kept` gives the sections that
//! apply by these marks. `merges` says whether a section, or one inside it, sets something that is merged: others
//! aren't tested (specs/Merging.antt).
//!
//! `laws::merges_settle` and `laws::sections_are_nested` are the premises of hc_abs_pass's `sections_agree`: what
//! merges nothing sets nothing, and the sections that may be in force stand behind those around them.
#![tactic(auto)]

mod asking;
mod chains;
mod components;
mod forcing;
mod keeping;
pub mod laws;
mod locations;
mod marking;
mod merging;

pub use forcing::{Forced, section_branches};
pub use keeping::kept;
pub use merging::merges;
