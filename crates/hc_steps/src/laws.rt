//! What holds of all steps, as the contracts of functions that do nothing.
ghost use Rattle.hc_steps.specs.Laws.{Agreement, EachReadIsKept, RunIsKept, RunsInTurn};

/// Worlds that agree on all that was looked at in the first give the same run.
pub fn agreement<E, A>()
    ensures { Agreement E A }
{}

/// A log keeps the first events of a run, or all, counts them all, and keeps each read once.
pub fn run_is_kept<E, A>()
    ensures { RunIsKept E A }
{}

/// One step after another: what the first tells stands before what the second tells.
pub fn in_turn<E, A, B>()
    ensures { RunsInTurn E A B }
{}

/// Each read that was told is among those that a log keeps.
pub fn each_read_is_kept()
    ensures { EachReadIsKept }
{}
