ghost use Rattle.std.specs.Prelude.{◌≡◌, []};
ghost use Rattle.hc_cert.specs.Checking.{bare};

use hc_base::{List, Text};
use hc_model::Decision;
use std::alloc::Global;

/// An invariant has so many cells at most.
pub const MOST_CELLS: usize = 64;

/// A cell has so many branches at most.
pub const MOST_BRANCHES: usize = 20_000;

/// What an invariant has to meet, in the order in which it is told: the last one comes first.
#[derive(Clone, Copy, PartialEq, Eq)]
pub enum Condition {
    /// The requests of the scope begin in a cell.
    Start,
    /// Each branch that leads on leads into a cell.
    Arrivals,
    /// No branch is bad for the claim.
    Ends,
    /// Ranks and rounds grow.
    Ranks,
    /// There are no more cells and branches than may be.
    Size,
}

/// The first condition that is false.
#[derive(Drop)]
pub struct Rejection {
    pub condition: Condition,
    /// The number of the cell, counted from 0.
    pub cell: u32,
    /// What the branch decides from the cell on.
    pub branch: List<Decision>,
    /// A text that a slot may have outside of the cell.
    pub text: Text,
}

/// A branch that is at fault.
#[derive(Drop)]
pub(crate) struct Found {
    /// What it decides from the cell on.
    pub branch: List<Decision>,
    /// A text that its cell lacks.
    pub text: Text,
}

/// Whether an invariant is accepted.
#[derive(Drop)]
pub enum Verdict {
    Accepted,
    Rejected(Rejection),
}

/// Of no branch, and without a text.
pub(crate) fn bare(alloc: Global, condition: Condition, cell: u32) -> Rejection
    ensures { result ≡ bare condition cell [] }
{
    Rejection {
        condition,
        cell,
        branch: List::new(alloc),
        text: Text::new(alloc),
    }
}
