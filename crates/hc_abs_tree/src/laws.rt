//! What holds of the tree, as the contracts of functions that do nothing.
ghost use Rattle.hc_abs_tree.specs.Leaves.{EachHasLeaf, LeavesAreOne};

/// Each request that is covered at the start has a leaf with its decisions and its end.
pub fn each_has_a_leaf()
    ensures { EachHasLeaf }
{}

/// A tree has one list of leaves.
pub fn leaves_are_one()
    ensures { LeavesAreOne }
{}
