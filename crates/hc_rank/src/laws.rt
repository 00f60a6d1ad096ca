//! Laws of the definitions in `specs/`, as the contracts of functions that do nothing.
ghost use Rattle.hc_rank.specs.Laws.{TakesItsRest};

/// What the used groups hold after a match, and what it takes outside them at least, fit into the text.
pub fn a_match_takes_its_rest()
    ensures { TakesItsRest }
{}
