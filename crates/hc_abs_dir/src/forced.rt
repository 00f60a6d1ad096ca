//! What follows what is in force: who may pass, and the rules of the directory (Apache manual, mod_authz_core;
//! mod_rewrite, RewriteRule, "Per-directory Rewrites").
ghost use Rattle.std.specs.Prelude.{◌≡◌, Some, IfOk};
ghost use Rattle.std.specs.Rc.{rc_value};
ghost use Rattle.hc_abs_dir.specs.Behind.{AreBehind, AreBy, IsBehind, refused_in, refused_plan};
ghost use Rattle.hc_abs_dir.specs.Forced.{AreForced};
ghost use Rattle.hc_abs_left.specs.Grounds.{Stands};
ghost use Rattle.hc_abs_left.specs.declared.ground.Ground.{Ground as LentGround};

use crate::ruled::directory_branches;
use hc_abs_authz::{Admitted, admitted_branches};
use hc_abs_left::{Finish, Ground, Segment, Settings};
use hc_abs_pass::Left;
use hc_base::{List, NoMemory};
use hc_model::Decision;
use hc_plan::Tied;
use std::alloc::Global;
use std::rc::Rc;

/// The branches of what follows what is in force: those who may not pass are answered 403, and for the others the rules
/// of the directory run, where they are on, END was not met, and the file name isn't the directory itself.
pub fn forced_branches(
    alloc: Global,
    ground: Ground<'_>,
    settings: &Rc<Settings>,
    decisions: &[Decision],
    tied: Tied,
) -> Result<Vec<Segment>, NoMemory>
    requires { Stands ground }
    ensures { IfOk result (λ found. AreForced ground.entry (rc_value settings.now) decisions.now tied found.items) }
{
    let require = &settings.as_ref().force.require;
    let answers = admitted_branches(alloc, ground.tests.caller(), ground.net, require, tied)?;
    let found = all_behind(alloc, ground, settings, decisions, answers)?;
    Ok(found)
}

/// What follows each answer.
fn all_behind(
    alloc: Global,
    ground: Ground<'_>,
    settings: &Rc<Settings>,
    decisions: &[Decision],
    answers: Vec<Admitted>,
) -> Result<Vec<Segment>, NoMemory>
    requires { Stands ground }
    ensures { IfOk result (λ found. AreBehind ground.entry (rc_value settings.now) decisions.now answers.items
        found.items) }
{
    let mut found = Vec::new(alloc);
    for answer in answers {
        let mut more = behind(alloc, ground, settings, decisions, answer)?;
        found.append(&mut more)?;
    }
    Ok(found)
}

/// What follows an answer.
fn behind(
    alloc: Global,
    ground: Ground<'_>,
    settings: &Rc<Settings>,
    decisions: &[Decision],
    answer: Admitted,
) -> Result<Vec<Segment>, NoMemory>
    requires { Stands ground }
    ensures { IfOk result (λ found. IsBehind ground.entry (rc_value settings.now) decisions.now answer found.items) }
{
    let Admitted { tied, is } = answer;
    if is {
        let found = directory_branches(alloc, ground, settings, decisions, tied)?;
        return Ok(found);
    }
    let found = refused(alloc, settings.as_ref(), decisions, tied)?;
    Ok(found)
}

/// The answer 403.
pub(crate) fn refused(
    alloc: Global,
    settings: &Settings,
    decisions: &[Decision],
    tied: Tied,
) -> Result<Vec<Segment>, NoMemory>
    ensures { IfOk result (λ found. (base : LentGround)
        → AreBy base settings.now (refused_plan decisions.now) (Some tied) found.items) }
{
    let one = refusal(alloc, settings, decisions, tied)?;
    let mut found = Vec::new(alloc);
    found.push(one)?;
    Ok(found)
}

fn refusal(
    alloc: Global,
    settings: &Settings,
    decisions: &[Decision],
    tied: Tied,
) -> Result<Segment, NoMemory>
    ensures { IfOk result (λ segment. segment ≡ refused_in settings.now decisions.now tied) }
{
    let decisions = copied(alloc, decisions)?;
    Ok(Segment {
        tied,
        decisions,
        require: settings.force.require.clone()?,
        finish: Finish::Stopped(Left::Status(403)),
    })
}

/// A copy of decisions.
pub(crate) fn copied(alloc: Global, decisions: &[Decision]) -> Result<List<Decision>, NoMemory>
    ensures { IfOk result (λ copy. copy ≡ decisions.now) }
{
    let copy = decisions.to_vec(alloc)?;
    Ok(List::from(copy))
}
