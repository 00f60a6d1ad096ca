//! An end of requests.
use hc_abs_pass::Left;
use hc_abs_rw::Next;
use hc_base::List;
use hc_model::{Decision, Requirement};
use hc_plan::Tied;

/// How requests end.
#[derive(Drop)]
pub enum LeafEnd {
    /// The last pass ends so.
    Stopped(Left),
    /// A rule answers.
    Ruled(Next),
}

/// An end of requests.
#[derive(Drop)]
pub struct Leaf {
    pub tied: Tied,
    /// What conditions and rules decided, over all passes.
    pub decisions: List<Decision>,
    /// The Require lines of the last pass.
    pub require: Requirement,
    pub end: LeafEnd,
}
