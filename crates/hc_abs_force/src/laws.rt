//! What holds of the sections that may be in force, as the contracts of functions that do nothing. Both are premises of
//! hc_abs_pass's `sections_agree`.
ghost use Rattle.hc_abs_force.specs.Laws.{MergesSettle, SectionsAreNested};

/// What merges nothing sets nothing.
pub fn merges_settle()
    ensures { MergesSettle }
{}

/// Sections come behind those around them, which merge what they do.
pub fn sections_are_nested()
    ensures { SectionsAreNested }
{}
