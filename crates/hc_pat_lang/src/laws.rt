//! Laws of the definitions in `specs/`, as the contracts of functions that do nothing.
ghost use Rattle.std.specs.Prelude.{ℕ, List};
ghost use Rattle.hc_dfa.specs.Texts.{TextSet};
ghost use Rattle.hc_pattern.specs.Pattern.{Pattern};
ghost use Rattle.hc_pat_lang.specs.Laws.{CoversMatch, IsFoundByMatch};

/// A pattern is found in the texts that have a first match.
pub fn a_text_is_found_where_it_has_a_match()
    ensures { (text : List ℕ) (pattern : Pattern) → IsFoundByMatch text pattern }
{}

/// The first match is one of the ways, so the groups may hold what they hold after it.
pub fn the_first_match_is_covered()
    ensures { (pattern : Pattern) (set : TextSet) (text : List ℕ) → CoversMatch pattern set text }
{}
