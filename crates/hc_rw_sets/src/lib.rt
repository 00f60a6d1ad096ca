//! The sets that rewriting rules test, and the sets of what they make, as automata.
#![tactic(auto)]

mod cuts;
mod fronts;
mod locations;
mod naming;
mod paths;
mod ports;
mod questions;
mod tests;

pub use cuts::{Part, cut_at};
pub use fronts::{beginning_with, beginning_without_case, texts_like};
pub use locations::{own_paths, own_urls, schemes, urls};
pub use naming::{dirs_named, files_named};
pub use paths::{put_behind, url_paths};
pub use questions::{absolute, after_question, appended_queries, before_question, with_question};
pub use tests::TextTests;
