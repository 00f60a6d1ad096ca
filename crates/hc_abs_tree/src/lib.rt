//! The tree of branches over all passes and rounds of a set of requests, and that each request has a leaf in it.
//!
//! A node stands before a pass, or before a further round of a list of rules; the plan of the segment that begins there
//! (hc_abs_pass) has branches over what is known (hc_plan), and each is a leaf or leads to a node (`specs/Trees`):
//! - `each_has_a_leaf`: where a tree has leaves, a request whose state at the start is covered, and which ends after
//!   some number of segments of hc_serve, has one among them with all its decisions, the tree of Require lines of its
//!   last pass, and its end, and it covers what the request leaves; unless a text is too long. One tree serves all
//!   requests of a set: of the site it is made of no more than what these have in common.
//! - `leaves_are_one`: a tree has one list of leaves.
#![tactic(auto)]

pub mod laws;
