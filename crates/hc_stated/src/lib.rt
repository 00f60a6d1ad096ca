//! A claim and its scope as a `decide` states them, and the cells of a `verify`. Our own choice.
//!
//! `sets_in` gives the sets that a claim and its scope are written with, or the field of the first one that is none
//! (`sets_of` in specs/Stated.antt; what a set is as JSON: specs/Shapes.antt). `state` makes them automata, and with
//! them the claim and the scope, or gives the first pattern in them that isn't read (specs/Views.antt, `States`).
//!
//! `cells_in` gives the cells with the sets that they are written with, or their field where one is none
//! (`sets_of_cells` in specs/Cells.antt). `state_cells` makes these sets automata, or gives the first pattern in them
//! that isn't read (specs/CellViews.antt, `Makes`; `AreCells`).
#![tactic(auto)]

mod cells;
mod field;
mod named;
mod sets;
mod shape;
mod stated;

pub use cells::{CellSets, SlotSet, cells_in};
pub use field::Field;
pub use named::state_cells;
pub use sets::{SetForms, sets_in};
pub use stated::{BadPattern, Stated, state};
