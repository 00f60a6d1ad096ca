//! Laws of the definitions in `specs/`, as the contracts of functions that do nothing.
ghost use Rattle.hc_lines.specs.declared.line.Line.{Line};
ghost use Rattle.hc_nodes.specs.Tree.{IsOnlyTree, nodes_of};
ghost use Rattle.std.specs.Prelude.{List};

/// Lines have a tree by the grammar exactly where no rule is broken, and then only that tree.
pub fn lines_have_one_tree()
    ensures { (lines : List Line) → IsOnlyTree (nodes_of lines) lines }
{}
