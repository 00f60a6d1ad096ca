//! Cells: a set of texts for each slot of a state.
#![tactic(auto)]

mod cell;
mod containment;
mod shared;
mod slot;
mod ties;

pub use cell::{Cell, is_empty, restrict, with, without_variables};
pub use containment::{Containment, within};
pub use slot::Slot;
pub use ties::Ties;
