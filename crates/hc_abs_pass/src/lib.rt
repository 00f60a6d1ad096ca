//! The branches of a pass over a set of requests: plans of its steps, laws of them, and code for two of them:
//! `list_branches` for one round of a list of rules, `walk_branches` for the walk along a file name.
//!
//! `specs/` has the plans, in the form of hc_plan: the walk along a file name (`Walks`), conditions (`Views`), the
//! sections that apply (`Sections`), who may pass (`Authorizing`), redirects, aliases and the document root
//! (`Mapping`), what follows the rules of a server (`Naming`) and those of a directory (`Restarting`). `Passing` puts
//! them together to the plan of a pass, from its start or from a further round of a list up to the next such point.
//!
//! Each law in `laws` says, for all configurations, requests and worlds, that where the slots of a state have what the
//! request has come to, the run of a plan from this state comes to what hc_serve's steps come to:
//! - `walk_agrees`: where all names of the world are listed, no run is left out, and each ends with the name, the path
//!   information, the kind and the directories of the walk. `worlds_are_listed`: the names of each world are.
//! - `sections_agree`: the sections that apply, tested one by one, come to what is in force, but for what is told of
//!   them. It asks that a section which merges nothing sets nothing (`Settles`), that those of the first group stand in
//!   no other, and that around one that merges something stands one that does (`AreNested`).
//! - `admitted_agrees`: the answers at the leaves of the Require tree let in whom the tree lets in.
//! - `map_agrees`: the first redirect that takes the path, else the first alias, else the document root.
//! - `naming_agrees`: behind the rules of a server, the name that the pass goes on with, or the end of the pass.
//! - `restart_agrees`: behind the rules of a directory, what stands there, a segment of dots, the limit of passes, or
//!   the pass that follows. It asks that no name stands twice among the variables; none does in the pass that follows.
//!
//! `walk_has_its_branch` and `restart_has_its_branch`: so, where a state is covered, a branch has this end and covers
//! what the run leaves.
#![tactic(auto)]

mod ends;
pub mod laws;
mod list;
mod walk;
mod walk_ends;
mod walk_sets;

pub use ends::Left;
pub use list::{Listed, SoFar, Stop, list_branches};
pub use walk::{Named, Walked, walk_branches};
pub use walk_ends::{Behind, End, ends_of_walk};
pub use walk_sets::{first_components, infos, rests_of};
