//! A segment of a pass: from its start, or from a further round of the server's list of rules, up to the next pass or
//! round (Apache manual, mod_rewrite; "Mapping URLs to Filesystem Locations").
ghost use Rattle.std.specs.Prelude.{◌≤◌, IfOk};
ghost use Rattle.hc_abs_left.specs.Grounds.{Stands, world_in};
ghost use Rattle.hc_abs_run.specs.Running.{ArePass, AreServerRound};
ghost use Rattle.hc_abs_rw.specs.RuleBranches.{states_of};
ghost use Rattle.hc_serve.specs.Lent.{Lends, Returns};

use crate::placed::placed;
use crate::server::server_round;
use hc_abs_left::{Ground, Segment};
use hc_abs_pass::SoFar;
use hc_abs_rw::fit;
use hc_base::{List, NoMemory};
use hc_model::Overrides;
use hc_plan::Tied;
use hc_serve::engine_at;
use std::alloc::Global;

/// The branches of a pass from its start, up to the next pass or a further round of a list of rules. Branches that have
/// more states together than there is room for are refused as memory is.
pub fn pass_branches<O: Overrides>(
    alloc: Global,
    ground: Ground<'_>,
    over: &mut O,
    tied: Tied,
) -> Result<Vec<Segment>, NoMemory>
    requires ground { Stands ground }
    requires over { Lends O.reading O.size (O.fixed over.old) (world_in ground) ground.config.now }
    ensures branches { IfOk result (λ found. ArePass ground.entry tied found.items) }
    ensures room { IfOk result (λ found. states_of (λ one. one.tied.cell) found.items ≤ ground.entry.room) }
    ensures over { Returns O.fixed O.loaded over }
{
    let found = pass(alloc, ground, over, tied)?;
    if !fit(&found, ground.room) {
        return Err(NoMemory);
    }
    Ok(found)
}

fn pass<O: Overrides>(
    alloc: Global,
    ground: Ground<'_>,
    over: &mut O,
    tied: Tied,
) -> Result<Vec<Segment>, NoMemory>
    requires ground { Stands ground }
    requires over { Lends O.reading O.size (O.fixed over.old) (world_in ground) ground.config.now }
    ensures branches { IfOk result (λ found. ArePass ground.entry tied found.items) }
    ensures over { Returns O.fixed O.loaded over }
{
    if !engine_at(ground.config, ground.host) {
        let found = placed(alloc, ground, over, &[], false, false, tied)?;
        return Ok(found);
    }
    let so_far = SoFar {
        decisions: List::new(alloc),
        substituted: false,
        replaced: false,
    };
    let found = server_round(alloc, ground, over, so_far, tied)?;
    Ok(found)
}

/// The branches from a further round of the server's list of rules on.
pub fn server_round_branches<O: Overrides>(
    alloc: Global,
    ground: Ground<'_>,
    over: &mut O,
    so_far: SoFar,
    tied: Tied,
) -> Result<Vec<Segment>, NoMemory>
    requires ground { Stands ground }
    requires over { Lends O.reading O.size (O.fixed over.old) (world_in ground) ground.config.now }
    ensures branches { IfOk result (λ found. AreServerRound ground.entry so_far tied found.items) }
    ensures room { IfOk result (λ found. states_of (λ one. one.tied.cell) found.items ≤ ground.entry.room) }
    ensures over { Returns O.fixed O.loaded over }
{
    let found = server_round(alloc, ground, over, so_far, tied)?;
    if !fit(&found, ground.room) {
        return Err(NoMemory);
    }
    Ok(found)
}
