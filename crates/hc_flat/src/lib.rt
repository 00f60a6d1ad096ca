//! The flat list of a configuration as a value: its entries in order, in little memory.
//!
//! `Entries` is seen as a list of entries: `with` adds one, `with_close` the close of an opening, `iter` lends all
//! in their order (`next_gives`), and `entry` the one at a place.
#![tactic(auto)]

mod entries;
mod flat;
mod iter;
mod places;

pub use entries::{Entries, EntryView};
pub use flat::Flat;
pub use iter::Iter;
pub use places::Places;
