//! The ends of a segment of a pass: the way up to the next pass, or to a further round of a list of rules.
ghost use Rattle.std.specs.Prelude.{◌≡◌};

use crate::ground::Settings;
use hc_abs_pass::{Left, SoFar};
use hc_abs_rw::{Celled, Next};
use hc_base::List;
use hc_cells::Cell;
use hc_model::{Decision, Requirement, Rule};
use hc_plan::Tied;
use std::rc::Rc;

/// How a segment ends.
#[derive(Drop)]
pub enum Finish {
    /// The pass ends.
    Stopped(Left),
    /// A rule answers.
    Ruled(Next),
    /// A rule begins the server's list again, where its bound of rounds allows one.
    ServerRound {
        rule: Rule,
        left: SoFar,
    },
    /// A rule begins a directory's list again, where its bound of rounds allows one.
    DirRound {
        settings: Rc<Settings>,
        rule: Rule,
        left: SoFar,
    },
}

/// A branch of a segment, with the tree of Require lines that is in force at its end.
#[derive(Drop)]
pub struct Segment {
    pub tied: Tied,
    pub decisions: List<Decision>,
    pub require: Requirement,
    pub finish: Finish,
}

impl Celled for Segment {
    ghost cell = { λ segment. segment.tied.cell };

    fn cell(&self) -> &Cell {
        &self.tied.cell
    }
}
