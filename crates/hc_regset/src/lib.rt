//! Sets of texts as they are written, made automata. Our own choice.
//!
//! `compile_set` makes the automaton of a set as it is written: all texts, one text, those in which a pattern is found,
//! all of several sets, any of them, one without another. It accepts exactly the texts of the set, or the answer is the
//! first pattern that is not read, with its code and byte (specs/Sets.antt).
#![tactic(auto)]

mod automata;
mod compile;

pub use compile::{SetFault, compile_set};
