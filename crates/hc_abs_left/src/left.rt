//! Behind the rules of a directory (Apache manual, mod_alias, Redirect; mod_rewrite, RewriteRule, "Per-directory
//! Rewrites").
ghost use Rattle.std.specs.Prelude.{◌≡◌, IfOk, OnOk, map, option_map};
ghost use Rattle.hc_rw_expand.specs.Contexts.{engine_of};
ghost use Rattle.hc_abs_left.specs.Grounds.{Stands};
ghost use Rattle.hc_abs_left.specs.Left.{AddsBehind, AreBehind, AreUnsent, ended_in, engine_in, stopped_in, stopped_so};
ghost use Rattle.hc_abs_left.specs.Segments.{AreLeft};

use crate::ground::{Ground, Settings, engine_at};
use crate::segment::{Finish, Segment};
use hc_abs_map::{Redirected, redirect_branches};
use hc_abs_pass::Left;
use hc_abs_restart::{Restart, Restarted, restart_branches};
use hc_alias::root_of;
use hc_base::{List, NoMemory};
use hc_model::Decision;
use hc_plan::Tied;
use hc_rw_expand::Engine;
use std::alloc::Global;

/// The branches behind the rules of a directory: a redirect of a section that is in force, or else what stands at the
/// file name, or, where the rules ran and left another text, the pass that follows.
pub fn left_branches(
    alloc: Global,
    ground: Ground<'_>,
    settings: &Settings,
    decisions: &[Decision],
    ran: bool,
    tied: Tied,
) -> Result<Vec<Segment>, NoMemory>
    requires { Stands ground }
    ensures { IfOk result (λ found. AreLeft ground.entry settings.now decisions.now ran tied found.items) }
{
    let redirects = settings.force.redirects.as_slice();
    let redirected = redirect_branches(alloc, redirects, tied, ground.room)?;
    all_behind(alloc, ground, settings, decisions, ran, redirected)
}

/// What is found behind redirects.
fn all_behind(
    alloc: Global,
    ground: Ground<'_>,
    settings: &Settings,
    decisions: &[Decision],
    ran: bool,
    redirected: Vec<Redirected>,
) -> Result<Vec<Segment>, NoMemory>
    requires { Stands ground }
    ensures { IfOk result (λ found. AreBehind ground.entry settings.now decisions.now ran redirected.items
        found.items) }
{
    let mut found = Vec::new(alloc);
    for one in redirected {
        add_behind(alloc, ground, settings, decisions, ran, one, &mut found)?;
    }
    Ok(found)
}

/// Adds what is found behind redirects: one that takes the path ends the pass.
fn add_behind(
    alloc: Global,
    ground: Ground<'_>,
    settings: &Settings,
    decisions: &[Decision],
    ran: bool,
    one: Redirected,
    found: &mut Vec<Segment>,
) -> Result<(), NoMemory>
    requires { Stands ground }
    ensures { OnOk result (AddsBehind ground.entry settings.now decisions.now ran one found.old.items
        found.new.items) }
{
    let Redirected { tied, left } = one;
    match left {
        Some(left) => {
            found.push(stopped(alloc, settings, decisions, tied, left)?)?;
            Ok(())
        }
        None => {
            let mut more = unsent(alloc, ground, settings, decisions, ran, tied)?;
            found.append(&mut more)?;
            Ok(())
        }
    }
}

/// What is found where no redirect takes the path.
fn unsent(
    alloc: Global,
    ground: Ground<'_>,
    settings: &Settings,
    decisions: &[Decision],
    ran: bool,
    tied: Tied,
) -> Result<Vec<Segment>, NoMemory>
    requires { Stands ground }
    ensures { IfOk result (λ found. AreUnsent ground.entry settings.now decisions.now ran tied found.items) }
{
    if !ran {
        let left = Left::Found(settings.kind);
        let mut found = Vec::new(alloc);
        found.push(stopped(alloc, settings, decisions, tied, left)?)?;
        return Ok(found);
    }
    let restart = Restart {
        kind: settings.kind,
        last: ground.last,
        root: root_of(ground.config, ground.host),
        engine: engine_in(settings),
        names: ground.names,
        room: ground.room,
    };
    let restarted = restart_branches(alloc, restart, tied)?;
    all_stopped(alloc, settings, decisions, restarted)
}

/// The directory whose rules run, if there is one.
fn engine_in(settings: &Settings) -> Option<Engine<'_>>
    ensures { option_map engine_of result ≡ engine_in settings.now }
{
    match &settings.force.dir {
        Some(dir) => Some(engine_at(settings, dir)),
        None => None,
    }
}

/// The pass ends with each of these.
fn all_stopped(
    alloc: Global,
    settings: &Settings,
    decisions: &[Decision],
    restarted: Vec<Restarted>,
) -> Result<Vec<Segment>, NoMemory>
    ensures { IfOk result (λ found. found.items ≡ map (stopped_so settings.now decisions.now) restarted.items) }
{
    let mut found = Vec::new(alloc);
    for one in restarted {
        let Restarted { tied, left } = one;
        found.push(stopped(alloc, settings, decisions, tied, left)?)?;
    }
    Ok(found)
}

/// The pass ends here.
fn stopped(
    alloc: Global,
    settings: &Settings,
    decisions: &[Decision],
    tied: Tied,
    left: Left,
) -> Result<Segment, NoMemory>
    ensures { IfOk result (λ segment. segment ≡ stopped_in settings.now decisions.now tied left) }
{
    let own = copied(alloc, decisions)?;
    let segment = ended(settings, own, tied, Finish::Stopped(left))?;
    Ok(segment)
}

/// A copy of decisions.
fn copied(alloc: Global, decisions: &[Decision]) -> Result<List<Decision>, NoMemory>
    ensures { IfOk result (λ copy. copy ≡ decisions.now) }
{
    let copy = decisions.to_vec(alloc)?;
    Ok(List::from(copy))
}

/// A branch that ends so, with the tree of Require lines that is in force.
pub(crate) fn ended(
    settings: &Settings,
    decisions: List<Decision>,
    tied: Tied,
    finish: Finish,
) -> Result<Segment, NoMemory>
    ensures { IfOk result (λ segment. segment ≡ ended_in settings.now decisions tied finish) }
{
    let require = settings.force.require.clone()?;
    Ok(Segment {
        tied,
        decisions,
        require,
        finish,
    })
}
