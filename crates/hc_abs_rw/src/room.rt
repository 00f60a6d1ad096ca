//! How much the branches of a question may hold.
ghost use Rattle.std.specs.Prelude.{◌≡◌, nat_le};
ghost use Rattle.hc_abs_rw.specs.RuleBranches.{states_of};
ghost use Rattle.hc_cells.specs.Cells.{Sets};

use crate::conds::Trial;
use crate::rule::RuleBranch;
use hc_cells::Cell;

/// What is found over a cell.
pub trait Celled {
    ghost cell: { Self → Sets };

    fn cell(&self) -> &Cell
        ensures { result.now ≡ cell self.now };
}

impl<'r> Celled for Trial<'r> {
    ghost cell = { λ trial. trial.known.cell };

    fn cell(&self) -> &Cell {
        &self.known.cell
    }
}

impl Celled for RuleBranch {
    ghost cell = { λ branch. branch.tied.cell };

    fn cell(&self) -> &Cell {
        &self.tied.cell
    }
}

/// Whether a room has place for the states of what was found.
pub fn fit<C: Celled>(found: &[C], room: u64) -> bool
    ensures { result ≡ nat_le (states_of C.cell found.now) room }
{
    let mut left = room;
    for one in found {
        left = match one.cell().room_left(left) {
            Some(rest) => rest,
            None => return false,
        };
    }
    true
}
