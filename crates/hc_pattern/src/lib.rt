//! Patterns of Apache rules: a part of Perl's regular expressions (PCRE, "pcrepattern").
//!
//! `parse_pattern` gives exactly the pattern that docs/RULES.md reads in a text, or the first refusal with its byte
//! (specs/Reading.antt); `glob_pattern` does so for globs (specs/Globs.antt). `ByteSet` has exactly the bytes that
//! its calls say.
#![tactic(auto)]

mod build;
mod class;
mod count;
mod glob;
mod item;
mod mark;
mod member;
mod part;
mod pat;
mod reading;
mod set;
mod token;

pub use glob::{PatFault, glob_pattern, has_wildcard};
pub use pat::Pat;
pub use reading::parse_pattern;
pub use set::ByteSet;
