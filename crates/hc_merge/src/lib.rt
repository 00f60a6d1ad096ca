//! Which sections are in force for a file name, and what they set (Apache manual, "Configuration
//! Sections").
//!
//! `ordered_sections` gives the sections that may be in force for a file name, in the order in which they merge
//! (specs/Order.antt), and `effective` what is in force: the sections that apply, each by a test of one text or by
//! its expression (specs/Reaching.antt), whether links are followed, the tree of authorization, the redirects, a
//! later section's first (specs/Settings.antt), and the engine, the directory, the `RewriteBase` and the rules of
//! mod_rewrite with those that are inherited (specs/Rewriting.antt). `allowed` gives what a `.htaccess` may hold in
//! a directory, and `wanted_by` the directories of a walk in which something is allowed, each with what is
//! (specs/Overriding.antt); both calls above take their files at their places behind the sections of their
//! directories, and ask that they are loaded. `laws::wanted_files_suffice`: what is in force depends on no other
//! `.htaccess`, and `laws::files_are_wanted_as_allowed`: `wanted_by` says of each directory of a walk what `allowed`
//! does (specs/Laws.antt).
#![tactic(auto)]

mod candidate;
mod directories;
mod group;
pub mod laws;
mod order;
mod overriding;
mod reaching;
mod rewriting;
mod sections;
mod settings;

pub use candidate::{Candidate, Origin, htaccess_of};
pub use order::ordered_sections;
pub use overriding::{Wanted, allowed, wanted_by};
pub use settings::{effective, merge_sections};
