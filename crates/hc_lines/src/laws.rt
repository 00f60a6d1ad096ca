//! Laws of the definitions in `specs/`, as the contracts of functions that do nothing.

ghost use Rattle.std.specs.Prelude.{ℕ, List};
ghost use Rattle.hc_lines.specs.Logical.{AreRunsOf};

/// A text is its physical lines, and these are cut in one way into maximal runs in which all but
/// the last end in a backslash.
pub fn logical_lines_are_maximal_runs()
    ensures { (text : List ℕ) → AreRunsOf text }
{}
