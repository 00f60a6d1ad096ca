//! The sections in force at the end of a walk (Apache manual, "Configuration Sections", "How the sections are merged").
ghost use Rattle.std.specs.Prelude.{IfOk, map};
ghost use Rattle.hc_abs_left.specs.Grounds.{Stands};
ghost use Rattle.hc_abs_name.specs.Forced.{AreBehindForce, AreFromSections, IsBehindForce};
ghost use Rattle.hc_merge.specs.CandidateView.{candidate_of};
ghost use Rattle.hc_merge.specs.Overriding.{AreLoaded, files_read, wanted_by};

use hc_abs_dir::forced_branches;
use hc_abs_force::{Forced, kept, section_branches};
use hc_abs_left::{Ground, Segment, Settings};
use hc_abs_view::{Query, Scene};
use hc_base::NoMemory;
use hc_merge::{Candidate, merge_sections, ordered_sections};
use hc_model::{Decision, Kind, Overrides, Walk};
use hc_plan::Tied;
use std::alloc::Global;
use std::rc::Rc;

/// The branches from the sections on. The `.htaccess` files of the walk are loaded.
pub(crate) fn sectioned<O: Overrides>(
    alloc: Global,
    ground: Ground<'_>,
    over: &O,
    decisions: &[Decision],
    aliased: bool,
    walk: &Walk,
    tied: Tied,
) -> Result<Vec<Segment>, NoMemory>
    requires ground { Stands ground }
    requires loaded { AreLoaded (O.loaded over.now)
        (wanted_by ground.config.now ground.host walk.now.dirs) }
    ensures { IfOk result (λ found. AreFromSections ground.entry decisions.now aliased walk.now
        (files_read (O.reading (O.fixed over.now))) tied found.items) }
{
    let candidates = ordered_sections(alloc, ground.config, ground.host, walk, over)?;
    let scene = Scene {
        caller: ground.tests.caller(),
        query: Query::Own,
        client: ground.client,
        room: ground.room,
    };
    let forced = section_branches(alloc, scene, &candidates, tied, ground.room)?;
    let found = all_behind(
        alloc,
        ground,
        decisions,
        aliased,
        walk.kind,
        &candidates,
        forced,
    )?;
    Ok(found)
}

/// What follows the sections that apply.
fn all_behind(
    alloc: Global,
    ground: Ground<'_>,
    decisions: &[Decision],
    aliased: bool,
    kind: Kind,
    candidates: &[Candidate<'_>],
    forced: Vec<Forced>,
) -> Result<Vec<Segment>, NoMemory>
    requires { Stands ground }
    ensures { IfOk result (λ found. AreBehindForce ground.entry decisions.now aliased kind
        (map candidate_of candidates.now) forced.items found.items) }
{
    let mut found = Vec::new(alloc);
    for one in forced {
        let mut more = behind(alloc, ground, decisions, aliased, kind, candidates, one)?;
        found.append(&mut more)?;
    }
    Ok(found)
}

fn behind(
    alloc: Global,
    ground: Ground<'_>,
    decisions: &[Decision],
    aliased: bool,
    kind: Kind,
    candidates: &[Candidate<'_>],
    one: Forced,
) -> Result<Vec<Segment>, NoMemory>
    requires { Stands ground }
    ensures { IfOk result (λ found. IsBehindForce ground.entry decisions.now aliased kind
        (map candidate_of candidates.now) one found.items) }
{
    let Forced { tied, marks } = one;
    let kept = kept(alloc, candidates, &marks)?;
    let force = merge_sections(alloc, ground.config, ground.host, &kept)?;
    let settings = Rc::new(
        alloc,
        Settings {
            force,
            aliased,
            kind,
        },
    )?;
    let found = forced_branches(alloc, ground, &settings, decisions, tied)?;
    Ok(found)
}
