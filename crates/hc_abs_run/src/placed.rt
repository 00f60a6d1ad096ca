//! Behind the rules of the server (Apache manual, mod_rewrite; "Mapping URLs to Filesystem Locations").
ghost use Rattle.std.specs.Prelude.{◌≡◌, IfOk};
ghost use Rattle.hc_abs_left.specs.Grounds.{Stands, world_in};
ghost use Rattle.hc_abs_pass.specs.Passing.{placed_from};
ghost use Rattle.hc_abs_run.specs.Places.{AreBehind, IsBehind};
ghost use Rattle.hc_abs_run.specs.Running.{AreOf};
ghost use Rattle.hc_serve.specs.Lent.{Lends, Returns};

use crate::ended::ended;
use hc_abs_left::{Finish, Ground, Segment};
use hc_abs_map::{Mapped, placed_branches};
use hc_abs_name::arrived_branches;
use hc_base::{List, NoMemory};
use hc_model::{Decision, Overrides};
use hc_plan::Tied;
use std::alloc::Global;

/// The branches of what a pass goes on with behind the rules of the server.
pub(crate) fn placed<O: Overrides>(
    alloc: Global,
    ground: Ground<'_>,
    over: &mut O,
    decisions: &[Decision],
    substituted: bool,
    passed: bool,
    tied: Tied,
) -> Result<Vec<Segment>, NoMemory>
    requires ground { Stands ground }
    requires over { Lends O.reading O.size (O.fixed over.old) (world_in ground) ground.config.now }
    ensures branches { IfOk result (λ found. AreOf ground.entry
        (λ own. placed_from own decisions.now substituted passed) tied found.items) }
    ensures over { Returns O.fixed O.loaded over }
{
    let world = ground.around.world;
    let mapped = placed_branches(
        alloc,
        world,
        ground.config,
        ground.host,
        substituted,
        passed,
        tied,
        ground.room,
    )?;
    let found = all_behind(alloc, ground, over, decisions, mapped)?;
    Ok(found)
}

/// What follows each.
fn all_behind<O: Overrides>(
    alloc: Global,
    ground: Ground<'_>,
    over: &mut O,
    decisions: &[Decision],
    mapped: Vec<Mapped>,
) -> Result<Vec<Segment>, NoMemory>
    requires ground { Stands ground }
    requires over { Lends O.reading O.size (O.fixed over.old) (world_in ground) ground.config.now }
    ensures branches { IfOk result (λ found. AreBehind ground.entry decisions.now mapped.items found.items) }
    ensures over { Returns O.fixed O.loaded over }
{
    let mut found = Vec::new(alloc);
    for one in mapped {
        let mut more = behind(alloc, ground, over, decisions, one)?;
        found.append(&mut more)?;
    }
    Ok(found)
}

/// The pass has ended, or goes on from its file name.
fn behind<O: Overrides>(
    alloc: Global,
    ground: Ground<'_>,
    over: &mut O,
    decisions: &[Decision],
    one: Mapped,
) -> Result<Vec<Segment>, NoMemory>
    requires ground { Stands ground }
    requires over { Lends O.reading O.size (O.fixed over.old) (world_in ground) ground.config.now }
    ensures branches { IfOk result (λ found. IsBehind ground.entry decisions.now one found.items) }
    ensures over { Returns O.fixed O.loaded over }
{
    match one {
        Mapped::Over { tied, left } => {
            let copy = copied(alloc, decisions)?;
            ended(alloc, tied, copy, Finish::Stopped(left))
        }
        Mapped::Name { named, aliased } => {
            arrived_branches(alloc, ground, over, decisions, named, aliased)
        }
    }
}

/// A copy of decisions.
fn copied(alloc: Global, decisions: &[Decision]) -> Result<List<Decision>, NoMemory>
    ensures { IfOk result (λ copy. copy ≡ decisions.now) }
{
    let copy = decisions.to_vec(alloc)?;
    Ok(List::from(copy))
}
