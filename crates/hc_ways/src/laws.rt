//! Laws of the definitions in `specs/`, as the contracts of functions that do nothing.
ghost use Rattle.std.specs.Prelude.{ℕ, Bool, List};
ghost use Rattle.hc_pattern.specs.Pattern.{Pattern};
ghost use Rattle.hc_ways.specs.Laws.{AreTheirLastTurns, IsEnough, IsItsTurns};

/// The ways of a repeat are those of its turns, one by one.
pub fn a_repeat_is_its_turns()
    ensures { (text : List ℕ) (body : Pattern) (greedy : Bool) → IsItsTurns text body greedy }
{}

/// A repeat without upper number has no more turns than there are bytes left.
pub fn bytes_are_enough()
    ensures { (text : List ℕ) (body : Pattern) (greedy : Bool) → IsEnough text body greedy }
{}

/// A match keeps the last turn of each group, and has the ways that all turns have.
pub fn a_match_keeps_the_last_turns()
    ensures { (text : List ℕ) (pattern : Pattern) → AreTheirLastTurns text pattern }
{}
