ghost use Rattle.std.specs.Prelude.{◌≡◌, IfOk};
ghost use Rattle.hc_abs_rw.specs.Known.{shown};

use hc_base::NoMemory;
use hc_cells::{Cell, Ties};
use hc_plan::Found;
use std::rc::Rc;

/// What groups hold: those of a pattern that was found, and nothing without one.
pub type Held<'r> = Option<Rc<Found<'r>>>;

/// What is known of the states of a set of requests while a rule is tried.
#[derive(Drop)]
pub struct Known<'r> {
    pub cell: Cell,
    pub ties: Ties,
    /// `$0` to `$9`.
    pub groups: Held<'r>,
    /// `%0` to `%9`.
    pub cond_groups: Held<'r>,
}

/// The same is held.
pub(crate) fn shared<'r>(held: &Held<'r>) -> Result<Held<'r>, NoMemory>
    ensures { IfOk result (λ copy. shown copy ≡ shown held.now) }
{
    match held {
        Some(found) => Ok(Some(found.clone()?)),
        None => Ok(None),
    }
}
