//! What the logical lines of the texts of a world are read as, by the paths of their files.
//!
//! `KeptTexts::put` keeps the lines of a text, and `forget` forgets those of a path and of all below it. Where the lines of
//! a text are kept, `lines` gives exactly its lines as one of either kind, or its first refusal, and `edited` has those
//! behind an edit of it. The laws say which of the two keeps the lines of all texts of a world, for each of its edits.
#![tactic(auto)]

pub mod laws;
mod texts;
mod within;

pub use texts::KeptTexts;
