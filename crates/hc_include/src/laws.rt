//! Laws of the definitions in `specs/`, as the contracts of functions that do nothing.
ghost use Rattle.hc_include.specs.Laws.{FlatListsAgree};

/// A flat list depends on nothing but what was looked at for it.
pub fn flat_lists_agree()
    ensures { FlatListsAgree }
{}
