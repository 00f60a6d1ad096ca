//! One branch, where no Require is in force.
ghost use Rattle.std.specs.Prelude.{◌≡◌, ◌∷◌, [], None, IfOk};

use hc_abs_left::{Finish, Segment};
use hc_base::{List, NoMemory};
use hc_model::{Decision, Requirement};
use hc_plan::Tied;
use std::alloc::Global;

/// The one branch that ends so.
pub(crate) fn ended(
    alloc: Global,
    tied: Tied,
    decisions: List<Decision>,
    finish: Finish,
) -> Result<Vec<Segment>, NoMemory>
    ensures { IfOk result (λ found. found.items ≡ record {
      tied = tied;
      decisions = decisions;
      require = None;
      finish = finish;
    } ∷ []) }
{
    let mut found = Vec::new(alloc);
    found.push(Segment {
        tied,
        decisions,
        require: Requirement::none(alloc),
        finish,
    })?;
    Ok(found)
}
