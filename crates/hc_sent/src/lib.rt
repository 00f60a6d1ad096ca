//! Where a redirect leads, over a set of requests: the parts of its location, the own servers that it fits, and with
//! which paths and queries the next request comes there (specs/Parts.antt, Ways.antt). Our own choice.
//!
//! `ruled_parts` and `redirect_parts` make the parts of a location, of a rule and of a redirect of a section; `leads`
//! finds exactly what a location leads to, in the order of the servers; `reached` finds only whether it leads to own
//! servers or away.
//! `laws`: what is sent is one of the locations that the parts may be written as; it leads to an own server only where
//! `reached` finds that, and where nothing of it is outside, that server reads it as one of the paths and queries that
//! `leads` finds.
#![tactic(auto)]

mod bytes;
mod clean;
mod deeds;
mod joints;
pub mod laws;
mod leading;
mod making;
mod origins;
mod parts;
mod rests;
mod sets;
mod sites;
mod ways;

pub use leading::{Led, Reach, leads, reached};
pub use making::{redirect_parts, ruled_parts};
pub use parts::{LONGEST_TARGET, Part, Writing};
