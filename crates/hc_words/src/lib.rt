//! The words of the command line.
//!
//! `read_words` reads the words of the command line exactly as `clap` defines it for a simple command with two
//! options, whose values are decimal numbers in their ranges (`words_of` in specs/Words.antt).
#![tactic(auto)]

mod decimal;
mod words;

pub use words::{DEFAULT_CELLS, Words, WordsFault, read_words};
