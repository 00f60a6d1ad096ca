//! The branches of a pass from a cut on, over a set of requests: from its start, from a further round of the server's
//! list of rules, or from one of a directory's list, where no more is known than whose list it is.
//!
//! `cut_branches` finds exactly these branches, in order (specs/Cuts.antt, and Again.antt of hc_abs_pass). At the
//! server's list it is open whether a substitution was made in the pass. At a directory's the file name is walked
//! again, and the sections in force are found again, whatever the query was then; the list goes on where it is the
//! one in force, and it is open whether the name comes from an alias.
#![tactic(auto)]

mod exact;
mod from;
mod places;
mod sections;

pub use from::cut_branches;
