//! Deterministic automata over bytes, as sets of texts.
//!
//! `product`, `complement`, `byte_image` and `between` accept exactly the sets that their names say, `single` one text
//! alone, `listed` the texts of a list, `behind_front` those of a set behind a text, `tested` those of which a test
//! holds that reads them byte by byte, and `reduce` what it is given; `least` is the first of the shortest texts, or
//! there is none; `included` says yes, or has the least text that is outside; `first_members` gives the first texts in
//! order, and `only_member` the text of a set that has no other. `automaton` accepts exactly the texts on the ways of a
//! graph; `explore` follows each key that is met, once, `table_of` makes a table of keys that each byte leads on from,
//! and `settle` goes over a state until a pass leaves it.
#![tactic(auto)]

mod around;
mod classes;
mod coarse;
mod determinize;
mod dfa;
mod exploring;
mod first;
mod fronted;
mod graphs;
mod image;
mod include;
mod leasts;
mod lists;
mod machine;
mod member;
mod numbers;
mod only;
mod placed;
mod products;
mod readings;
mod reduced;
mod rows;
mod settling;
mod subsets;
mod tabled;

pub use around::Between;
pub use dfa::{Dfa, complement};
pub use exploring::{MOST_STATES, Walk, explore};
pub use first::{first_members, single};
pub use fronted::behind_front;
pub use graphs::{Choice, Graph, Move, automaton};
pub use image::byte_image;
pub use include::{Inclusion, included};
pub use leasts::least;
pub use lists::listed;
pub use member::Member;
pub use only::only_member;
pub use placed::between;
pub use products::{Keep, product};
pub use readings::{Reading, tested};
pub use reduced::reduce;
pub use rows::{Rows, Table, table_of};
pub use settling::{Passes, settle};
