//! The sections in force where a directory's list goes on (Apache manual, "Configuration Sections", "How the sections
//! are merged").
ghost use Rattle.std.specs.Prelude.{◌≡◌, IfOk, OnOk, map};
ghost use Rattle.hc_abs_cuts.specs.Coded.{AddsInForce, AreInForce, AreSectioned};
ghost use Rattle.hc_abs_pass.specs.Again.{is_list_of};
ghost use Rattle.hc_abs_left.specs.Grounds.{Stands};
ghost use Rattle.hc_merge.specs.CandidateView.{candidate_of};
ghost use Rattle.hc_merge.specs.Overriding.{AreLoaded, files_read, wanted_by};

use crate::places::Place;
use hc_abs_force::{Forced, kept, section_branches};
use hc_abs_left::Ground;
use hc_abs_view::{Query, Scene};
use hc_base::{NoMemory, Text};
use hc_merge::{Candidate, merge_sections, ordered_sections};
use hc_model::{Kind, Overrides, Walk};
use hc_plan::Tied;
use std::alloc::Global;

/// Where the list is in force, from the sections on. The `.htaccess` files of the walk are loaded.
pub(crate) fn sectioned<O: Overrides>(
    alloc: Global,
    ground: Ground<'_>,
    over: &O,
    dir: &Text,
    walk: &Walk,
    tied: Tied,
) -> Result<Vec<Place>, NoMemory>
    requires ground { Stands ground }
    requires loaded { AreLoaded (O.loaded over.now)
        (wanted_by ground.config.now ground.host walk.now.dirs) }
    ensures { IfOk result (λ found. AreSectioned ground.entry dir.now walk.now
        (files_read (O.reading (O.fixed over.now))) tied found.items) }
{
    let candidates = ordered_sections(alloc, ground.config, ground.host, walk, over)?;
    let scene = Scene {
        caller: ground.tests.caller(),
        query: Query::Any,
        client: ground.client,
        room: ground.room,
    };
    let forced = section_branches(alloc, scene, &candidates, tied, ground.room)?;
    let found = in_force(alloc, ground, dir, walk.kind, &candidates, forced)?;
    Ok(found)
}

/// Those in which the list is in force.
fn in_force(
    alloc: Global,
    ground: Ground<'_>,
    dir: &Text,
    kind: Kind,
    candidates: &[Candidate<'_>],
    forced: Vec<Forced>,
) -> Result<Vec<Place>, NoMemory>
    requires { Stands ground }
    ensures { IfOk result (λ found. AreInForce ground.entry dir.now kind (map candidate_of candidates.now) forced.items
        found.items) }
{
    let mut found = Vec::new(alloc);
    for one in forced {
        add_in_force(alloc, ground, dir, kind, candidates, one, &mut found)?;
    }
    Ok(found)
}

/// Adds one where it is.
fn add_in_force(
    alloc: Global,
    ground: Ground<'_>,
    dir: &Text,
    kind: Kind,
    candidates: &[Candidate<'_>],
    one: Forced,
    found: &mut Vec<Place>,
) -> Result<(), NoMemory>
    requires { Stands ground }
    ensures { OnOk result (AddsInForce ground.entry dir.now kind (map candidate_of candidates.now) one found.old.items
        found.new.items) }
{
    let Forced { tied, marks } = one;
    let kept = kept(alloc, candidates, &marks)?;
    let force = merge_sections(alloc, ground.config, ground.host, &kept)?;
    if !is_list_of(dir, &force.dir) {
        return Ok(());
    }
    found.push(Place { tied, force, kind })?;
    Ok(())
}

/// Whether the list in force is that of the directory.
fn is_list_of(dir: &Text, own: &Option<Text>) -> bool
    ensures { result ≡ is_list_of dir.now own.now }
{
    match own {
        None => false,
        Some(own) => own == dir,
    }
}
