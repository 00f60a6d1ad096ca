//! Runs of lists of rewriting rules, told as steps: conditions, substitutions and rounds.
//! Apache manual, mod_rewrite; "Apache mod_rewrite Technical Details"; "RewriteRule Flags".
//!
//! `run_rules` runs a list of rules on a text as the steps of specs/Lists.antt: the attempt of one rule
//! (Attempts.antt) is its pattern, its conditions in groups of OR (Conditions.antt), and then variables, statuses
//! and the substitution (Substitutions.antt, Locations.antt). In a directory the text is searched with the path
//! information and without the directory, and `url_path` gives the URL path that it stands for (Directories.antt).
//! It tells each event and each look, and N begins the list again up to its bound. `laws::run_is_related`,
//! `laws::list_is_related`: a round, and all rounds together, are what the relation of specs/Relation.antt leads
//! to; `laws::one_run`, `laws::one_end`: that is one result.
#![tactic(auto)]

mod attempt;
mod conditions;
mod directories;
mod files;
mod frame;
pub mod laws;
mod locations;
mod placement;
mod round;
mod run;
mod substitution;
mod told;
mod variables;

pub use attempt::{Attempt, Rewritten};
pub use conditions::{Seen, Tested, group_length};
pub use directories::{url_path, with_slash};
pub use placement::{front_of, redirects, status_sent, stops};
pub use round::{is_followed, skipped_chain, stops_run};
pub use run::{Finished, NextRound, Round, RulesRun, run_rules};
pub use substitution::status_of;
