//! The configuration that a flat list of entries gives, or the first rule that it breaks.
//!
//! `build` gives the configuration of a flat list, or the first refusal: the first entry that breaks a rule with
//! the smallest of its codes (specs/Broken.antt), then what stopped the reading, then 27 (`built` in
//! specs/Configuration.antt). Virtual hosts and sections are bodies in bodies, each of what stands between its opening
//! and its close (specs/Levels.antt), the `Require` lines of a section are a tree of its containers
//! (specs/Requires.antt), and an `ElseIf` or `Else` has a reach of its own, which says that none of the chain before it
//! holds (specs/Directives.antt). `build_override` gives what stands in a `.htaccess`, or its first refusal: where a
//! directive may stand there, and by which class of `AllowOverride`, is specs/Sources.antt.
#![tactic(auto)]

mod among;
mod classes;
mod conditions;
mod config;
mod containers;
mod effect;
mod following;
mod gathered;
mod giving;
mod hosts;
mod kinds;
pub mod laws;
mod levels;
mod options;
mod redirect;
mod requiring;
mod rewrites;
mod rewriting;
mod rules;
mod sections;
mod source;
mod status;
mod targets;

pub use config::{BuildFault, build, build_override};
