//! What follows the rules of a directory that have run (Apache manual, mod_rewrite, RewriteRule, "Per-directory
//! Rewrites"; core, LimitInternalRecursion).
ghost use Rattle.std.specs.Prelude.{◌≡◌, ◌≤◌, true, false, IfOk};
ghost use Rattle.hc_abs_pass.specs.Ends.{found as is_found};
ghost use Rattle.hc_abs_rw.specs.RuleBranches.{states_of};
ghost use Rattle.hc_plan.specs.Plan.{done};
ghost use Rattle.hc_abs_restart.specs.Choosing.{OnAnswer};
ghost use Rattle.hc_abs_restart.specs.Following.{AreBehind, IsAfter, IsBehind, placed_plan};
ghost use Rattle.hc_abs_restart.specs.Restarted.{AreRestarted};

use crate::choosing::{may_be_same, may_differ};
use crate::paths::placed;
use crate::starting::started;
use hc_abs_map::{Mapped, as_path, tidied_branches};
use hc_abs_pass::{Left, Named};
use hc_abs_rw::{Celled, fit};
use hc_base::{NoMemory, Text};
use hc_cells::Cell;
use hc_model::{Kind, LimitKind};
use hc_plan::Tied;
use hc_rw_expand::Engine;
use std::alloc::Global;

/// What a restart goes by.
#[derive(Clone, Copy)]
pub struct Restart<'s> {
    /// What stands at the file name.
    pub kind: Kind,
    /// No pass may follow.
    pub last: bool,
    /// The document root.
    pub root: Option<&'s Text>,
    /// The directory whose rules ran.
    pub engine: Option<Engine<'s>>,
    /// The variables that are looked at.
    pub names: &'s [Text],
    /// How many states the cells of branches may have together.
    pub room: u64,
}

/// A branch behind the rules of a directory.
#[derive(Drop)]
pub struct Restarted {
    pub tied: Tied,
    pub left: Left,
}

impl Celled for Restarted {
    ghost cell = { λ restarted. restarted.tied.cell };

    fn cell(&self) -> &Cell {
        &self.tied.cell
    }
}

/// The branches behind the rules of a directory that have run: what stands at the file name, where they left it as it
/// was, and else the pass that follows, or why none does. Of the variables those are known in it that are looked at.
/// Branches that have more states together than there is room for are refused as memory is.
pub fn restart_branches(
    alloc: Global,
    restart: Restart<'_>,
    tied: Tied,
) -> Result<Vec<Restarted>, NoMemory>
    ensures branches { IfOk result (λ found. AreRestarted restart.entry tied found.items) }
    ensures room { IfOk result (λ found. states_of (λ one. one.tied.cell) found.items ≤ restart.entry.room) }
{
    let mut found = answered(alloc, restart.kind, &tied)?;
    let mut further = begun_again(alloc, restart, tied)?;
    found.append(&mut further)?;
    if !fit(&found, restart.room) {
        return Err(NoMemory);
    }
    Ok(found)
}

/// What stands at the file name, where the text may be it.
fn answered(alloc: Global, kind: Kind, tied: &Tied) -> Result<Vec<Restarted>, NoMemory>
    ensures { IfOk result (λ found. OnAnswer tied.now true (done (is_found kind)) found.items) }
{
    let mut found = Vec::new(alloc);
    if !may_be_same(alloc, tied)? {
        return Ok(found);
    }
    let copy = copied(tied)?;
    found.push(Restarted {
        tied: copy,
        left: Left::Found(kind),
    })?;
    Ok(found)
}

fn copied(tied: &Tied) -> Result<Tied, NoMemory>
    ensures { IfOk result (λ copy. copy ≡ tied.now) }
{
    Ok(Tied {
        cell: tied.cell.clone()?,
        ties: tied.ties,
    })
}

/// What follows where the text may be another than the file name.
fn begun_again(alloc: Global, restart: Restart<'_>, tied: Tied) -> Result<Vec<Restarted>, NoMemory>
    ensures { IfOk result (λ found. OnAnswer tied false (placed_plan restart.entry) found.items) }
{
    if !may_differ(&tied) {
        return Ok(Vec::new(alloc));
    }
    let named = placed(alloc, restart, tied)?;
    let mapped = tidied_branches(alloc, named, false, restart.room)?;
    let found = all_behind(alloc, restart, mapped)?;
    Ok(found)
}

/// What follows the branches of a path that is made ready.
fn all_behind(
    alloc: Global,
    restart: Restart<'_>,
    mapped: Vec<Mapped>,
) -> Result<Vec<Restarted>, NoMemory>
    ensures { IfOk result (λ found. AreBehind restart.entry mapped.items found.items) }
{
    let mut found = Vec::new(alloc);
    for one in mapped {
        let made = behind(alloc, restart, one)?;
        found.push(made)?;
    }
    Ok(found)
}

/// What follows one of them.
fn behind(alloc: Global, restart: Restart<'_>, one: Mapped) -> Result<Restarted, NoMemory>
    ensures { IfOk result (IsBehind restart.entry one) }
{
    match one {
        Mapped::Over { tied, left } => Ok(Restarted { tied, left }),
        Mapped::Name { named, .. } => {
            let made = next_pass(alloc, restart, named)?;
            Ok(made)
        }
    }
}

/// The pass that follows by a path in hand, if any may.
fn next_pass(alloc: Global, restart: Restart<'_>, named: Named) -> Result<Restarted, NoMemory>
    ensures { IfOk result (IsAfter restart.entry named) }
{
    if restart.last {
        let Named { tied, .. } = named;
        return Ok(Restarted {
            tied,
            left: Left::Limit(LimitKind::Redirects),
        });
    }
    let stored = as_path(alloc, named)?;
    let tied = started(alloc, &stored, restart.names)?;
    Ok(Restarted {
        tied,
        left: Left::NextPass,
    })
}
