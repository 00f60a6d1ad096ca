//! The first match of a pattern in a text.
//!
//! `first_match` answers the match at the least place that has one, and of the ways there the first, with what each
//! group holds (`first_match` in hc_ways/specs/Kept.antt). Two searches stand under this one clause: a straight one
//! over the tree, and one with a table of failed pairs of a step and a place.
#![tactic(auto)]

mod captures;
mod failures;
mod find;
mod frame;
mod front;
mod groups;
mod look;
mod moves;
mod paths;
mod program;
mod run;
mod search;
mod single;
mod start;
mod straight;
mod table;

pub use captures::{Captures, Setting};
pub use find::first_match;
