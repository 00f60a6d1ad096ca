//! The sets of a pattern, as automata: the texts that it is found in, and what its groups may hold.
//!
//! `matched` accepts exactly the texts in which a pattern has a way at some place, and `group_texts` exactly what a
//! group may hold on some way of the pattern in some text of a set: the whole way for group 0, what any of its turns
//! takes for another, and the empty text where a way leaves it unset (specs/Found.antt). `concat`, `concat_all`,
//! `prefix_quotient`, `suffix_quotient`, `behind` and `merge_slashes` accept exactly the sets that their names say
//! (specs/Sets.antt). `laws::a_text_is_found_where_it_has_a_match`: a pattern is found exactly where it has a first
//! match; `laws::the_first_match_is_covered`: what a group holds after it is among what the group may hold.
#![tactic(auto)]

mod build;
mod chosen;
mod finding;
mod gates;
mod held;
mod joined;
pub mod laws;
mod nodes;
mod quotients;
mod reading;
mod slashes;
mod tails;

pub use finding::matched;
pub use held::group_texts;
pub use joined::{concat, concat_all};
pub use quotients::{prefix_quotient, suffix_quotient};
pub use slashes::merge_slashes;
pub use tails::behind;
