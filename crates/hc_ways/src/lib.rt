//! What a pattern matches: the ordered list of its ways, in `specs/`, and their laws. A search and
//! the sets of a pattern both stand on these definitions.
//!
//! What a pattern matches, as definitions. The ways of a pattern are an ordered list, by recursion over patterns,
//! whatever is kept of the groups (specs/Ways.antt); a match keeps the last turn of each, another form all turns
//! (specs/Kept.antt). `laws::a_repeat_is_its_turns` gives the ways of a repeat as equations without a bound,
//! `laws::bytes_are_enough` says that more turns than there are bytes add none, and
//! `laws::a_match_keeps_the_last_turns` that both forms have the same ways.
#![tactic(auto)]

pub mod laws;
mod taking;

pub use taking::takes_a_byte;
