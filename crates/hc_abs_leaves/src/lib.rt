//! The leaves of the tree of branches over all passes and rounds of a set of requests (hc_abs_tree), depth first:
//! `Tree` holds what is still to come, and `Tree::next` gives the next leaf. A pass that follows, or a further round of
//! a list of rules, is a node whose segment is looked at only when its turn comes; a rule whose bound of rounds is
//! reached ends there.
//!
//! `laws::some_leaves_are_no_more`: leaves of the tree of which some are left out are no more than those of the tree.
#![tactic(auto)]

mod following;
mod growing;
pub mod laws;
mod leaf;
mod node;
mod tree;

pub use leaf::{Leaf, LeafEnd};
pub use node::{At, Node, Pending};
pub use tree::Tree;
