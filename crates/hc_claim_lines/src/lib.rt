//! The lines that claims may speak of: each RewriteRule and each Require. Our own choice.
//!
//! `ClaimLines::of` gives the places of those in the flat list of a configuration, and `stands_in` tells whether one
//! stands at a place of a `.htaccess` text of a world (specs/ClaimLines.antt).
#![tactic(auto)]

mod lines;
mod subject;
mod written;

pub use lines::ClaimLines;
pub use subject::Subject;
pub use written::stands_in;
