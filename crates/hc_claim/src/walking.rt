//! The leaves of the tree, up to a limit.
ghost use Rattle.std.specs.Prelude.{◌≡◌, IfOk, OnOk, option_map};
ghost use Rattle.hc_abs_left.specs.Grounds.{Stands, world_in};
ghost use Rattle.hc_claim.specs.Walking.{BeginsUnder, IsWalked, kept_by};
ghost use Rattle.hc_serve.specs.Lent.{Lends, Returns};

use crate::judging::is_bad;
use hc_abs_leaves::{Leaf, Tree};
use hc_abs_left::Ground;
use hc_base::NoMemory;
use hc_cells::is_empty;
use hc_model::Overrides;
use hc_plan::Tied;
use hc_scope::Claim;
use std::alloc::Global;

/// The bad leaves of the tree; none where it has as many leaves as the limit.
pub(crate) fn bad_leaves<O: Overrides>(
    alloc: Global,
    ground: Ground<'_>,
    over: &mut O,
    claim: &Claim,
    tied: Tied,
    limit: u32,
) -> Result<Option<Vec<Leaf>>, NoMemory>
    requires ground { Stands ground }
    requires over { Lends O.reading O.size (O.fixed over.old) (world_in ground) ground.config.now }
    ensures leaves { IfOk result (λ found. IsWalked ground.entry claim.now tied limit
        (option_map (λ bad. bad.items) found)) }
    ensures over { Returns O.fixed O.loaded over }
{
    let mut tree = tree_of(alloc, tied)?;
    let mut bad = Vec::new(alloc);
    for _count in 0..limit {
        let Some(leaf) = tree.next(alloc, ground, over)? else {
            return Ok(Some(bad));
        };
        let is = is_bad(alloc, claim, &leaf)?;
        keep(is, leaf, &mut bad)?;
    }
    Ok(None)
}

/// Adds a leaf that is bad.
fn keep(is: bool, leaf: Leaf, bad: &mut Vec<Leaf>) -> Result<(), NoMemory>
    ensures { OnOk result (bad.new.items ≡ kept_by is leaf bad.old.items) }
{
    if is {
        bad.push(leaf)?;
    }
    Ok(())
}

/// The tree; without leaves where a slot has no text.
pub fn tree_of(alloc: Global, tied: Tied) -> Result<Tree, NoMemory>
    ensures { IfOk result (BeginsUnder tied) }
{
    if is_empty(alloc, &tied.cell)? {
        return Ok(Tree {
            pending: Vec::new(alloc),
        });
    }
    Tree::new(alloc, tied)
}
