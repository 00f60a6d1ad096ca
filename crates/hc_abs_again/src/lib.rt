//! Each request that stands where a pass begins, or where a further round of a list of rules does, has a branch from
//! there: `each_has_arrival` (specs/Arriving.antt). No pass is the last one for the branches, of a directory's list
//! they know no more than whose list it is, and the request ends or goes on as its branch does.
//!
//! A directory's list goes on where the steps of a pass have led, with a query of bytes: `segments_reach` says so
//! behind each segment, where the server's list leaves such a query; that it does is `branches_see_bytes`
//! (specs/Bytes.antt), by the branches of that list.
#![tactic(auto)]

pub mod laws;
