//! A request is run, and its run held against a claim.
ghost use Rattle.std.specs.Prelude.{◌≡◌, ◌+◌, ◌≤◌, true, IfOk, OnOk};
ghost use Rattle.hc_base.specs.Paths.{begins_with_slash};
ghost use Rattle.hc_broken.specs.Breaking.{Shows};
ghost use Rattle.hc_serve.specs.Costs.{looked};
ghost use Rattle.hc_serve.specs.Lent.{Lends, Returns};
ghost use Rattle.hc_serve.specs.Request.{way};

use crate::breaking::breaks;
use hc_base::{Counter, NoMemory};
use hc_model::{Config, Overrides, Request};
use hc_scope::Claim;
use hc_serve::{WholeRun, whole_run};
use hc_world::World;
use std::alloc::Global;
use std::sync::ledger::Ledger;

/// What a request receives, with all steps, where that breaks a claim. `over` reads the `.htaccess` files of the
/// world; `evals` counts one.
pub fn replay<O: Overrides, L: Ledger>(
    alloc: Global,
    config: &Config,
    world: &World,
    over: &mut O,
    claim: &Claim,
    request: &Request,
    evals: &mut Counter<L>,
) -> Result<Option<WholeRun>, NoMemory>
    requires slash { begins_with_slash request.now.target ≡ true }
    requires over { Lends O.reading O.size (O.fixed over.old) world.now.files config.now }
    ensures run { IfOk result (Shows world.now.files config.now claim.now request.now) }
    ensures evals { evals.new ≡ evals.old + 1 }
    ensures over { Returns O.fixed O.loaded over }
    ensures counted { OnOk result (O.counted over.new
        ≤ O.counted over.old + looked world.now.files (way config.now request.now)) }
{
    let whole = whole_run(alloc, config, world, over, request, evals)?;
    if breaks(claim, &whole) {
        return Ok(Some(whole));
    }
    Ok(None)
}
