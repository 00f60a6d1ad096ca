//! The rules of a directory begin (Apache manual, mod_rewrite, RewriteRule, "Per-directory Rewrites"; core, Options:
//! FollowSymLinks).
ghost use Rattle.std.specs.Prelude.{◌≡◌, Some, IfOk};
ghost use Rattle.std.specs.Rc.{rc_value};
ghost use Rattle.hc_abs_dir.specs.Begun.{IsBegun};
ghost use Rattle.hc_abs_dir.specs.Behind.{AreBy};
ghost use Rattle.hc_abs_left.specs.Grounds.{Stands};
ghost use Rattle.hc_abs_pass.specs.Passing.{dir_begun, engine_by, follow_plan};
ghost use Rattle.hc_cells.specs.Cells.{holds};
ghost use Rattle.hc_cells.specs.declared.slot.Slot.TheVariants as slot;
ghost use Rattle.hc_dfa.specs.Built.{Accepts};

use crate::forced::{copied, refused};
use hc_abs_left::{Ground, Segment, Settings, dir_round_branches};
use hc_abs_pass::SoFar;
use hc_base::{NoMemory, Text};
use hc_cells::{Cell, Slot, Ties, with};
use hc_dfa::Dfa;
use hc_model::Decision;
use hc_plan::{Tied, every_text};
use std::alloc::Global;
use std::rc::Rc;

/// The branches where the rules run, unless FollowSymLinks is off.
pub(crate) fn followed(
    alloc: Global,
    ground: Ground<'_>,
    settings: &Rc<Settings>,
    dir: &Text,
    decisions: &[Decision],
    given: Option<Tied>,
) -> Result<Vec<Segment>, NoMemory>
    requires { Stands ground }
    ensures { IfOk result (λ found. AreBy ground.entry (rc_value settings.now)
        (λ own settings. follow_plan own settings dir.now decisions.now) given found.items) }
{
    let Some(tied) = given else {
        return Ok(Vec::new(alloc));
    };
    let own = settings.as_ref();
    if !own.force.follow {
        let found = refused(alloc, own, decisions, tied)?;
        return Ok(found);
    }
    let found = begun(alloc, ground, settings, dir, decisions, tied)?;
    Ok(found)
}

/// From the first round on.
fn begun(
    alloc: Global,
    ground: Ground<'_>,
    settings: &Rc<Settings>,
    dir: &Text,
    decisions: &[Decision],
    tied: Tied,
) -> Result<Vec<Segment>, NoMemory>
    requires { Stands ground }
    ensures { IfOk result (λ found. AreBy ground.entry (rc_value settings.now)
        (λ own settings. dir_begun own settings (engine_by own settings dir.now) decisions.now) (Some tied)
        found.items) }
{
    let named = name_rewritten(alloc, tied)?;
    let decisions = copied(alloc, decisions)?;
    let so_far = SoFar {
        decisions,
        substituted: false,
        replaced: false,
    };
    let found = dir_round_branches(alloc, ground, settings, dir, so_far, named)?;
    Ok(found)
}

/// The states in which the file name is the text that is rewritten.
fn name_rewritten(alloc: Global, tied: Tied) -> Result<Tied, NoMemory>
    ensures { IfOk result (IsBegun tied) }
{
    let names = names_in(alloc, &tied.cell)?;
    let cell = with(alloc, &tied.cell, &Slot::Text, &names)?;
    let ties = Ties {
        text_path: false,
        text_name: true,
        ..tied.ties
    };
    Ok(Tied { cell, ties })
}

/// The file names of a cell.
fn names_in(alloc: Global, cell: &Cell) -> Result<Dfa, NoMemory>
    ensures { IfOk result (λ made. Accepts made (holds cell.now slot.Name)) }
{
    match cell.set_of(&Slot::Name) {
        Some(set) => {
            let copy = set.clone()?;
            Ok(copy)
        }
        None => every_text(alloc),
    }
}
