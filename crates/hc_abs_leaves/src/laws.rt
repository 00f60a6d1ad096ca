//! What holds of the leaves of a tree, as the contracts of functions that do nothing.
ghost use Rattle.hc_abs_leaves.specs.Some.{SomeAreNoMore};

/// Leaves of the tree of which some are left out are no more than those of the tree.
pub fn some_leaves_are_no_more()
    ensures { SomeAreNoMore }
{}
