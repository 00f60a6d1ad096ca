//! The file paths that a configuration names begin with a slash: `laws::built_are_absolute`.
#![tactic(auto)]

pub mod laws;
