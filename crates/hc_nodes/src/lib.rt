//! The section trees of configuration lines.
//!
//! `first_refusal` gives exactly the first rule of sections that lines break, and `read_nodes`, which the program
//! doesn't use, the section tree of lines, or that refusal. `laws::lines_have_one_tree`: a list of lines has a tree
//! of the grammar (nothing; a directive and then nodes; an opening, nodes, its close, and then nodes; at most 64
//! open) exactly where no rule is refused, and then only that one.
#![tactic(auto)]

mod build;
pub mod laws;
mod node;
mod refusal;
mod section;
mod stack;

pub use build::read_nodes;
pub use node::{Node, NodeFault};
pub use refusal::first_refusal;
pub use section::{inside_brackets, is_close, is_complete, split_name};
