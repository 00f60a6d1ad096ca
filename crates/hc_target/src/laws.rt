//! Laws of the definitions in `specs/`, as the contracts of functions that do nothing.
ghost use Rattle.std.specs.Prelude.{ℕ, List};
ghost use Rattle.hc_target.specs.Targets.{IsReadBack};

/// A normal path that is escaped is read back, with any query behind it.
pub fn an_escaped_path_is_read_back()
    ensures { (path query : List ℕ) → IsReadBack path query }
{}
