//! The logical lines of a configuration text and the words of a line.
//!
//! `logical_lines` gives exactly the logical lines of a text with their numbers, spans and texts, or the refusal of
//! the first that is too long or has a control byte (`lines`); spans lie in the text, in order and apart, and each
//! text is that of its span with the joins taken out (`spans`); the counter rises by exactly the bytes of the text
//! (`bytes`). `laws::logical_lines_are_maximal_runs`: the definition's lines are the one cut of the physical lines
//! into maximal runs in which all but the last end in a backslash. `conf_words` and `rewrite_words` give exactly
//! the words of a line, or the refusal of a quoted word without its end.
#![tactic(auto)]

mod cut;
mod escape;
pub mod laws;
mod line;
mod logical;
mod run;
mod trim;
mod unjoin;
mod words;

pub use cut::{cut_before, cut_behind};
pub use line::{FileKind, Line, LineFault};
pub use logical::{LONGEST_LINE, logical_lines};
pub use words::{WordFault, conf_words, rewrite_words, skip_blanks};
