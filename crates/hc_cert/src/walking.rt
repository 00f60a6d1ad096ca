//! The branches from named cells.
ghost use Rattle.std.specs.Prelude.{◌≡◌, IfOk, false, length};
ghost use Rattle.hc_abs_left.specs.Grounds.{Stands, world_in};
ghost use Rattle.hc_cert.specs.Coded.{AreBranchesIn, AreReady, AreWalkedIn, IsReady, named_in};
ghost use Rattle.hc_claim.specs.Asking.{Asked};
ghost use Rattle.hc_claim.specs.Walking.{Fits};
ghost use Rattle.hc_named.specs.declared.names.Names.{Names};
ghost use Rattle.hc_serve.specs.Lent.{Lends, Returns};

use crate::ready::{Ready, copied};
use hc_abs_cuts::cut_branches;
use hc_abs_left::{Ground, Segment};
use hc_base::NoMemory;
use hc_cells::is_empty;
use hc_invariant::NamedCell;
use hc_model::Overrides;
use std::alloc::Global;

/// A named cell and the branches from it.
#[derive(Drop)]
pub(crate) struct Walked<'c> {
    pub own: &'c NamedCell,
    pub branches: Vec<Segment>,
}

/// Those from each cell.
pub(crate) fn branches_of_each<'c, O: Overrides>(
    alloc: Global,
    ground: Ground<'_>,
    over: &mut O,
    cells: &[Ready<'c>],
) -> Result<Vec<Walked<'c>>, NoMemory>
    requires ready { AreReady cells.now }
    requires ground { Stands ground }
    requires last { ground.last ≡ false }
    requires over { Lends O.reading O.size (O.fixed over.old) (world_in ground) ground.config.now }
    ensures as_many { IfOk result (λ found. length found.items ≡ length cells.now) }
    ensures walked { (asked : Asked) → (names : Names) → Fits asked names ground.entry
        → IfOk result (λ found. AreWalkedIn ground.entry asked names (named_in cells.now) found.items) }
    ensures over { Returns O.fixed O.loaded over }
{
    let mut found = Vec::new(alloc);
    for own in cells {
        let branches = branches_from(alloc, ground, over, own)?;
        found.push(Walked {
            own: own.named,
            branches,
        })?;
    }
    Ok(found)
}

/// Those from a cell: none where a slot has no text.
fn branches_from<O: Overrides>(
    alloc: Global,
    ground: Ground<'_>,
    over: &mut O,
    own: &Ready<'_>,
) -> Result<Vec<Segment>, NoMemory>
    requires ready { IsReady own.now.named.now own.now.tied }
    requires ground { Stands ground }
    requires last { ground.last ≡ false }
    requires over { Lends O.reading O.size (O.fixed over.old) (world_in ground) ground.config.now }
    ensures branches { (asked : Asked) → (names : Names) → Fits asked names ground.entry
        → IfOk result (λ found. AreBranchesIn ground.entry asked names own.now.named.now found.items) }
    ensures over { Returns O.fixed O.loaded over }
{
    let none = is_empty(alloc, &own.tied.cell)?;
    if none {
        return Ok(Vec::new(alloc));
    }
    let tied = copied(&own.tied)?;
    cut_branches(alloc, ground, over, &own.named.at, tied)
}
