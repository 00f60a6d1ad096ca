//! Templates of rewriting rules, filled in: groups, variables and look-ups in maps (Apache manual,
//! mod_rewrite).
//!
//! `expand` fills in a template of rules: groups, variables and look-ups (specs/Values.antt, Lookups.antt); what
//! its look-ups look at is a list of its own. `split_query` splits a text at its first `?`, with QSA and QSD
//! (specs/Queries.antt). `Variables` are what rules set, each name once.
#![tactic(auto)]

mod context;
mod filling;
mod groups;
mod lookups;
mod query;
mod state;
mod variables;

pub use context::{Engine, RwContext};
pub use filling::StateFilling;
pub use groups::{Matched, newer};
pub use lookups::{expand, looks_of};
pub use query::{Split, split_query};
pub use state::RwState;
pub use variables::Variables;
