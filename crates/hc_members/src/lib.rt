//! Which requests are of a scope, and what all of them have in common. Our own choice.
//!
//! `is_of_scope` says whether a request is of a scope (specs/Requests.antt), and `common_request` gives one that has
//! what all of them have in common, and nothing else.
#![tactic(auto)]

mod headers;
mod requests;

pub use requests::{common_request, is_of_scope};
