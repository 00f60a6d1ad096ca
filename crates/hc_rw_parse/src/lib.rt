//! The words of RewriteRule and RewriteCond (Apache manual, mod_rewrite): what they are read as, or the
//! rule with the smallest number that they break.
//!
//! `parse_rule` and `parse_cond` read exactly the words of a `RewriteRule` and a `RewriteCond` (specs/Rules.antt,
//! with their flags in RuleFlags.antt and CondFlags.antt), or answer the refusal with the smallest number, with its
//! byte in a pattern.
#![tactic(auto)]

mod brackets;
mod cond_flags;
mod conds;
mod environment;
mod flag;
mod flags;
mod parts;
mod rules;
mod values;

pub use conds::parse_cond;
pub use parts::RwFault;
pub use rules::parse_rule;
