//! Laws of the definitions in `specs/`, as the contracts of functions that do nothing.
ghost use Rattle.std.specs.Prelude.{ℕ, List};
ghost use Rattle.hc_base.specs.Lines.{AreLinesOf};

/// A text is its whole lines, each with the LF that ends it, and then a rest without LF; and there
/// is no other way to cut it so.
pub fn a_text_is_its_lines()
    ensures { (text : List ℕ) → AreLinesOf text }
{}
