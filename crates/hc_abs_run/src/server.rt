//! A round of the server's list of rules (Apache manual, mod_rewrite; "RewriteRule Flags": N).
ghost use Rattle.std.specs.Prelude.{IfOk};
ghost use Rattle.hc_abs_left.specs.Grounds.{Stands, world_in};
ghost use Rattle.hc_abs_run.specs.Lists.{AllPast, ArePast};
ghost use Rattle.hc_abs_run.specs.Running.{AreServerRound};
ghost use Rattle.hc_serve.specs.Lent.{Lends, Returns};

use crate::ended::ended;
use crate::placed::placed;
use hc_abs_left::{Finish, Ground, Segment};
use hc_abs_pass::{Listed, SoFar, Stop, list_branches};
use hc_abs_rw::Frame;
use hc_alias::root_of;
use hc_base::NoMemory;
use hc_model::Overrides;
use hc_plan::Tied;
use hc_serve::rules_at;
use std::alloc::Global;

/// The branches of a round of the server's list, and of what follows it.
pub(crate) fn server_round<O: Overrides>(
    alloc: Global,
    ground: Ground<'_>,
    over: &mut O,
    so_far: SoFar,
    tied: Tied,
) -> Result<Vec<Segment>, NoMemory>
    requires ground { Stands ground }
    requires over { Lends O.reading O.size (O.fixed over.old) (world_in ground) ground.config.now }
    ensures branches { IfOk result (λ found. AreServerRound ground.entry so_far tied found.items) }
    ensures over { Returns O.fixed O.loaded over }
{
    let frame = Frame {
        tests: ground.tests,
        root: root_of(ground.config, ground.host),
        engine: None,
        client: ground.client,
        around: ground.around,
        room: ground.room,
    };
    let rules = rules_at(alloc, ground.config, ground.host)?;
    let listed = list_branches(alloc, &frame, rules.as_slice(), so_far, tied)?;
    let found = all_past(alloc, ground, over, listed)?;
    Ok(found)
}

/// What follows each branch of the list.
fn all_past<O: Overrides>(
    alloc: Global,
    ground: Ground<'_>,
    over: &mut O,
    listed: Vec<Listed<'_>>,
) -> Result<Vec<Segment>, NoMemory>
    requires ground { Stands ground }
    requires over { Lends O.reading O.size (O.fixed over.old) (world_in ground) ground.config.now }
    ensures branches { IfOk result (λ found. AllPast ground.entry listed.entry.items found.items) }
    ensures over { Returns O.fixed O.loaded over }
{
    let mut found = Vec::new(alloc);
    for one in listed {
        let mut more = past(alloc, ground, over, one)?;
        found.append(&mut more)?;
    }
    Ok(found)
}

/// What follows a branch of the list.
fn past<O: Overrides>(
    alloc: Global,
    ground: Ground<'_>,
    over: &mut O,
    one: Listed<'_>,
) -> Result<Vec<Segment>, NoMemory>
    requires ground { Stands ground }
    requires over { Lends O.reading O.size (O.fixed over.old) (world_in ground) ground.config.now }
    ensures branches { IfOk result (λ found. ArePast ground.entry one.entry found.items) }
    ensures over { Returns O.fixed O.loaded over }
{
    let Listed { tied, left, stop } = one;
    match stop {
        Stop::Over { passed } => {
            let decisions = left.decisions.as_slice();
            placed(
                alloc,
                ground,
                over,
                decisions,
                left.substituted,
                passed,
                tied,
            )
        }
        Stop::Again(rule) => {
            let decisions = left.decisions.copy()?;
            let rule = rule.clone()?;
            ended(alloc, tied, decisions, Finish::ServerRound { rule, left })
        }
        Stop::Answered(next) => ended(alloc, tied, left.decisions, Finish::Ruled(next)),
    }
}
