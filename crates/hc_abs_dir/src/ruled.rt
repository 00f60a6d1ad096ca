//! Whether the rules of a directory run (Apache manual, mod_rewrite: RewriteEngine, RewriteRule, "Per-directory
//! Rewrites"; "RewriteRule Flags": END).
ghost use Rattle.std.specs.Prelude.{Some, false, IfOk};
ghost use Rattle.std.specs.Rc.{rc_value};
ghost use Rattle.hc_abs_dir.specs.Behind.{AreBy};
ghost use Rattle.hc_abs_left.specs.Grounds.{Stands};
ghost use Rattle.hc_abs_pass.specs.Passing.{Ground as Grounds, directory_plan, is_itself, left_plan, ruled_in};
ghost use Rattle.hc_abs_dir.specs.Begun.{named_plan};
ghost use Rattle.hc_dfa.specs.Built.{Accepts};

use crate::begun::followed;
use crate::sides::{Sides, sides_of};
use hc_abs_left::{Ground, Segment, Settings, left_branches};
use hc_base::paths::ends_with_slash;
use hc_base::{NoMemory, Text};
use hc_cells::Slot;
use hc_dfa::{Dfa, listed, single};
use hc_model::Decision;
use hc_plan::Tied;
use std::alloc::Global;
use std::rc::Rc;

/// The branches behind who may pass.
pub(crate) fn directory_branches(
    alloc: Global,
    ground: Ground<'_>,
    settings: &Rc<Settings>,
    decisions: &[Decision],
    tied: Tied,
) -> Result<Vec<Segment>, NoMemory>
    requires { Stands ground }
    ensures { IfOk result (λ found. AreBy ground.entry (rc_value settings.now)
        (λ own settings. directory_plan own settings decisions.now settings.force.dir) (Some tied) found.items) }
{
    let own = settings.as_ref();
    let Some(dir) = &own.force.dir else {
        let found = left_branches(alloc, ground, own, decisions, false, tied)?;
        return Ok(found);
    };
    if !own.force.engine {
        let found = left_branches(alloc, ground, own, decisions, false, tied)?;
        return Ok(found);
    }
    let found = ruled(alloc, ground, settings, dir, decisions, tied)?;
    Ok(found)
}

/// Where the rules are on.
fn ruled(
    alloc: Global,
    ground: Ground<'_>,
    settings: &Rc<Settings>,
    dir: &Text,
    decisions: &[Decision],
    tied: Tied,
) -> Result<Vec<Segment>, NoMemory>
    requires { Stands ground }
    ensures { IfOk result (λ found. AreBy ground.entry (rc_value settings.now)
        (λ own settings. ruled_in own settings dir.now decisions.now) (Some tied) found.items) }
{
    let unset = single(alloc, b"")?;
    let sides = sides_of(alloc, Slot::End, &unset, tied)?;
    let Sides { held, failed } = sides;
    let mut found = fresh(alloc, ground, settings, dir, decisions, held)?;
    let mut more = unruled(alloc, ground, settings.as_ref(), decisions, failed)?;
    found.append(&mut more)?;
    Ok(found)
}

/// Where END was not met.
fn fresh(
    alloc: Global,
    ground: Ground<'_>,
    settings: &Rc<Settings>,
    dir: &Text,
    decisions: &[Decision],
    given: Option<Tied>,
) -> Result<Vec<Segment>, NoMemory>
    requires { Stands ground }
    ensures { IfOk result (λ found. AreBy ground.entry (rc_value settings.now)
        (λ own settings. named_plan own settings dir.now decisions.now) given found.items) }
{
    let Some(tied) = given else {
        return Ok(Vec::new(alloc));
    };
    let own = itself(alloc, dir.as_bytes())?;
    let sides = sides_of(alloc, Slot::Name, &own, tied)?;
    let Sides { held, failed } = sides;
    let mut found = unruled(alloc, ground, settings.as_ref(), decisions, held)?;
    let mut more = followed(alloc, ground, settings, dir, decisions, failed)?;
    found.append(&mut more)?;
    Ok(found)
}

/// The file names that are the directory itself.
fn itself(alloc: Global, dir: &[u8]) -> Result<Dfa, NoMemory>
    ensures { IfOk result (λ made. (own : Grounds) → Accepts made (is_itself own dir.now)) }
{
    if ends_with_slash(dir) {
        let none = listed(alloc, &[])?;
        return Ok(none);
    }
    let own = single(alloc, dir)?;
    Ok(own)
}

/// Where the rules don't run.
fn unruled(
    alloc: Global,
    ground: Ground<'_>,
    settings: &Settings,
    decisions: &[Decision],
    given: Option<Tied>,
) -> Result<Vec<Segment>, NoMemory>
    requires { Stands ground }
    ensures { IfOk result (λ found. AreBy ground.entry settings.now
        (λ own settings. left_plan own settings decisions.now false) given found.items) }
{
    let Some(tied) = given else {
        return Ok(Vec::new(alloc));
    };
    let found = left_branches(alloc, ground, settings, decisions, false, tied)?;
    Ok(found)
}
