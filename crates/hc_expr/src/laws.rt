//! Laws of the definitions in `specs/`, as the contracts of functions that do nothing.
ghost use Rattle.hc_expr.specs.Emitted.{tree_of};
ghost use Rattle.hc_expr.specs.Grammar.{IsOnlyTree};
ghost use Rattle.hc_expr.specs.Tokens.{Token};
ghost use Rattle.std.specs.Prelude.{List};

/// By the grammar tokens have the tree that they are read as, and only that one; where they are read as none, they
/// have none.
pub fn tokens_have_one_tree()
    ensures { (tokens : List Token) → IsOnlyTree (tree_of tokens) tokens }
{}
