//! Lists of rules whose form has each further round begin with a shorter text.
//!
//! `rest` is the least number of bytes that a match takes outside some groups, and `shrinks` tells whether each rule of
//! a list has such a form (specs/Ranks.antt; our own choice). `laws::a_match_takes_its_rest`: what the used groups hold
//! after a match, and that number of bytes, are together no longer than the text. That rounds of such a list get
//! shorter is a law of hc_rounds.
#![tactic(auto)]

pub mod laws;
mod least;
mod plain;
mod shrinking;

pub use least::rest;
pub use shrinking::shrinks;
