//! The names that a configuration may have: directives and containers, classes of overrides, options, the flags of a
//! `RewriteRule`, and variables; and how a name is looked up.
//!
//! `directive_named` and the like give what the first row of a name stands for, without case, in the tables in
//! `specs/`; `find_in` does so in any rows.
#![tactic(auto)]

mod context;
mod directive;
mod flag;
mod option_name;
mod rows;
mod table;
mod variable;

pub use context::{Context, Contexts};
pub use directive::{Class, Directive, Meaning, SectionName, Wording};
pub use flag::FlagName;
pub use option_name::{OptionName, OptionWord};
pub use rows::{
    class_named, directive_named, flag_named, front_named, meaning_of, option_named, variable_named,
};
pub use table::{DirectiveKind, Row, find_in};
pub use variable::{Front, Variable};
