//! What a request receives (Apache manual, "Mapping URLs to Filesystem Locations").
//!
//! `evaluate` gives the answer to a request (`answer`: `IsAnswer` in specs/Request.antt): the outcome, the number
//! of the steps to it and the first 200 of them, and exactly what was looked at; `whole_run` gives the same with
//! all steps, and the `Require` lines that were in force in the last pass (specs/Needs.antt). The way of a request
//! is `way` there, and the steps of a pass are in specs/Passing.antt, in their order: the rules of the server that
//! answers (what they run with: specs/ServerRules.antt), the file name, the looks at the `.htaccess` files of the
//! walk, from `/` down, of which the first that is refused ends the request, what is in force, who may pass, the
//! rules of the directory and the restart that they lead to (specs/DirectoryRules.antt). Both calls read these
//! files through any `Overrides` whose reading is that of the world (`over`), and leave it with that reading and all
//! that it had loaded (`fixed`, `kept`); with an answer, what it counts of bytes has risen by no more than the texts
//! that the way looks at (`counted`, with `looked` in specs/Costs.antt). Each call counts one (`evals`).
//! `rules_at`, `maps_at` and `engine_at` give what of mod_rewrite is in force at a server, `caller_at` is a request
//! there, and `most_passes` how many passes it has at most; `needs_of` gives the places of the Require lines that are
//! in force.
//! `laws::answers_agree`: worlds that agree on what the answer of the one rests on give the same run.
//! `laws::passes_are_segments`: passes are segments (specs/Segments.antt), one after another, each of one round of a
//! list of rules at most.
#![tactic(auto)]

mod admission;
mod answer;
mod asked;
mod component;
mod directory_rules;
mod files;
mod force;
mod inherited;
pub mod laws;
mod naming;
mod needs;
mod pass;
mod restart;
mod server_rules;
mod site;
mod stage;
mod way;

pub use answer::{Answer, LONGEST_TRAIL, WholeRun, evaluate, whole_run};
pub use inherited::{Maps, engine_at, maps_at, rules_at};
pub use needs::needs_of;
pub use site::{caller_at, most_passes};
pub use stage::{Ended, Here, Named, Pass, Placed, Restarted, Walked};
