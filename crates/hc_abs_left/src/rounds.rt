//! One round of the rules of a directory (Apache manual, mod_rewrite, RewriteRule, "Per-directory Rewrites").
ghost use Rattle.std.specs.Prelude.{◌≡◌, ◌&&◌, IfOk, OnOk, true};
ghost use Rattle.std.specs.Rc.{rc_value};
ghost use Rattle.hc_abs_left.specs.Grounds.{Stands};
ghost use Rattle.hc_abs_left.specs.Rounds.{AddsPast, ArePast, BeginsAgain, untied_so};
ghost use Rattle.hc_abs_left.specs.Segments.{AreDirRound, AreLeft};

use crate::ground::{Ground, Settings, engine_at};
use crate::left::{ended, left_branches};
use crate::segment::{Finish, Segment};
use hc_abs_pass::{Listed, SoFar, Stop, list_branches};
use hc_abs_rw::Frame;
use hc_alias::root_of;
use hc_base::{NoMemory, Text};
use hc_cells::Ties;
use hc_model::Rule;
use hc_plan::Tied;
use std::alloc::Global;
use std::rc::Rc;

/// The branches of one round of the rules of a directory, and of what follows it. The text is the file name where the
/// first round begins.
pub fn dir_round_branches(
    alloc: Global,
    ground: Ground<'_>,
    settings: &Rc<Settings>,
    dir: &Text,
    so_far: SoFar,
    tied: Tied,
) -> Result<Vec<Segment>, NoMemory>
    requires { Stands ground }
    ensures { IfOk result (λ found. AreDirRound ground.entry (rc_value settings.now) dir.now so_far tied found.items) }
{
    let own = settings.as_ref();
    let frame = Frame {
        tests: ground.tests,
        root: root_of(ground.config, ground.host),
        engine: Some(engine_at(own, dir)),
        client: ground.client,
        around: ground.around,
        room: ground.room,
    };
    let listed = list_branches(alloc, &frame, own.force.rules.as_slice(), so_far, tied)?;
    all_past(alloc, ground, settings, listed)
}

/// What follows the ends of a list of rules.
fn all_past(
    alloc: Global,
    ground: Ground<'_>,
    settings: &Rc<Settings>,
    listed: Vec<Listed<'_>>,
) -> Result<Vec<Segment>, NoMemory>
    requires { Stands ground }
    ensures { IfOk result (λ found. ArePast ground.entry (rc_value settings.now) listed.entry.items found.items) }
{
    let mut found = Vec::new(alloc);
    for one in listed {
        add_past(alloc, ground, settings, one, &mut found)?;
    }
    Ok(found)
}

/// Adds what follows an end of a list of rules.
fn add_past(
    alloc: Global,
    ground: Ground<'_>,
    settings: &Rc<Settings>,
    one: Listed<'_>,
    found: &mut Vec<Segment>,
) -> Result<(), NoMemory>
    requires { Stands ground }
    ensures { OnOk result (AddsPast ground.entry (rc_value settings.now) one.entry found.old.items found.new.items) }
{
    let Listed { tied, left, stop } = one;
    match stop {
        Stop::Over { passed } => {
            let mut more = over(alloc, ground, settings.as_ref(), left, passed, tied)?;
            found.append(&mut more)?;
            Ok(())
        }
        Stop::Again(rule) => {
            found.push(begins_again(settings, rule, left, tied)?)?;
            Ok(())
        }
        Stop::Answered(next) => {
            let finish = Finish::Ruled(next);
            found.push(ended(settings.as_ref(), left.decisions, tied, finish)?)?;
            Ok(())
        }
    }
}

/// What follows a list that is over.
fn over(
    alloc: Global,
    ground: Ground<'_>,
    settings: &Settings,
    left: SoFar,
    passed: bool,
    tied: Tied,
) -> Result<Vec<Segment>, NoMemory>
    requires { Stands ground }
    ensures { IfOk result (λ found. AreLeft ground.entry settings.now left.decisions true
        (untied_so (passed && left.substituted) tied) found.items) }
{
    let tied = path_untied(passes_on(passed, &left), tied);
    let decisions = left.decisions.as_slice();
    let found = left_branches(alloc, ground, settings, decisions, true, tied)?;
    Ok(found)
}

/// Whether the text that was put in place of the old one is taken for the path.
fn passes_on(passed: bool, left: &SoFar) -> bool
    ensures { result ≡ (passed && left.now.substituted) }
{
    passed && left.substituted
}

/// The target's path and the pass's are tied no more, where that is asked.
fn path_untied(is: bool, tied: Tied) -> Tied
    ensures { result ≡ untied_so is tied }
{
    if !is {
        return tied;
    }
    let Tied { cell, ties } = tied;
    let ties = Ties {
        origin_path: false,
        ..ties
    };
    Tied { cell, ties }
}

/// The rule begins the list again, where its bound of rounds allows one.
fn begins_again(
    settings: &Rc<Settings>,
    rule: &Rule,
    left: SoFar,
    tied: Tied,
) -> Result<Segment, NoMemory>
    ensures { IfOk result (BeginsAgain (rc_value settings.now) rule.now tied left) }
{
    let decisions = left.decisions.copy()?;
    let finish = Finish::DirRound {
        settings: settings.clone()?,
        rule: rule.clone()?,
        left,
    };
    let segment = ended(settings.as_ref(), decisions, tied, finish)?;
    Ok(segment)
}
