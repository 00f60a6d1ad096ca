ghost use Rattle.std.specs.Prelude.{◌≡◌, ◌++◌, map, None, IfOk};
ghost use Rattle.std.specs.List.{flat_map};
ghost use Rattle.hc_merge.specs.CandidateView.{candidate_of, candidates_of, sections_view};
ghost use Rattle.hc_merge.specs.Candidates.{untested};
ghost use Rattle.hc_merge.specs.Order as definition;
ghost use Rattle.hc_merge.specs.Order.{among_group, inside_each, tops};
ghost use Rattle.hc_merge.specs.Overriding.{AreLoaded, files_read, wanted_by};
ghost use Rattle.hc_vhost.specs.Servers.{IsHostOf};

use crate::candidate::{Candidate, untested};
use crate::directories::first_group;
use crate::group::{Group, is_in};
use crate::sections::Sections;
use hc_base::NoMemory;
use hc_model::{Config, HostId, Overrides, Section, Walk};
use std::alloc::Global;

/// The sections that may be in force for a file name, in the order in which they are merged: those of
/// the first group apply, the others are not tested (Apache manual, "How the sections are merged").
///
/// The `.htaccess` of each directory of the walk in which something is allowed has to be loaded. A list of
/// more than 2^32 sections finds no memory.
pub fn ordered_sections<'c, O: Overrides>(
    alloc: Global,
    config: &'c Config,
    host: HostId,
    walk: &'c Walk,
    over: &'c O,
) -> Result<Vec<Candidate<'c>>, NoMemory>
    requires host { IsHostOf config.now host }
    requires loaded { AreLoaded (O.loaded over.now) (wanted_by config.now host walk.now.dirs) }
    ensures { IfOk result (λ candidates. candidates_of candidates
        ≡ definition.ordered_sections config.now host (files_read (O.reading (O.fixed over.now))) walk.now.dirs) }
{
    let sections = Sections::of(config, host);
    let list = first_group(alloc, sections, walk.dirs.as_slice(), over)?;
    let list = with_group(alloc, sections, list, Group::Names)?;
    let list = with_group(alloc, sections, list, Group::Components)?;
    let list = with_group(alloc, sections, list, Group::Urls)?;
    with_group(alloc, sections, list, Group::Conditions)
}

// A further group behind the earlier ones.
fn with_group<'c>(
    alloc: Global,
    sections: Sections<'c>,
    earlier: Vec<Candidate<'c>>,
    group: Group,
) -> Result<Vec<Candidate<'c>>, NoMemory>
    ensures { IfOk result (λ later.
        candidates_of later
        ≡ definition.with_group (sections_view sections.entry) (candidates_of earlier.entry) group) }
{
    let inner = inside_each(alloc, group, &earlier)?;
    let list = with_tops(group, sections, earlier)?;
    joined(list, &inner)
}

// The servers' sections of a group, behind a list.
#[tactic(auto, using(crate::proofs::Merging::two_tops))]
fn with_tops<'c>(
    group: Group,
    sections: Sections<'c>,
    list: Vec<Candidate<'c>>,
) -> Result<Vec<Candidate<'c>>, NoMemory>
    ensures { IfOk result (λ later. candidates_of later
        ≡ candidates_of list.entry ++ flat_map (tops group) (sections_view sections.entry)) }
{
    let list = with_sections(group, None, list, sections.main)?;
    match sections.host {
        Some(host) => with_sections(group, None, list, host),
        None => Ok(list),
    }
}

// The sections of a group, untested, behind a list.
fn with_sections<'c>(
    group: Group,
    parent: Option<u32>,
    mut list: Vec<Candidate<'c>>,
    sections: &'c [Section],
) -> Result<Vec<Candidate<'c>>, NoMemory>
    ensures { IfOk result (λ later. candidates_of later
        ≡ candidates_of list.entry ++ map (untested parent) (among_group group sections.now)) }
{
    for section in sections {
        if !is_in(group, &section.reach) {
            continue;
        }
        list.push(untested(parent, section))?;
    }
    Ok(list)
}

// The sections inside those of a list, in their order.
fn inside_each<'c>(
    alloc: Global,
    group: Group,
    earlier: &[Candidate<'c>],
) -> Result<Vec<Candidate<'c>>, NoMemory>
    ensures { IfOk result (λ inner. candidates_of inner ≡ inside_each group 0 (map candidate_of earlier.now)) }
{
    let mut inner = Vec::new(alloc);
    let mut place = 0u32;
    for candidate in earlier {
        let sections = candidate.body.inner.as_slice();
        inner = with_sections(group, Some(place), inner, sections)?;
        let Some(next) = place.checked_add(1) else {
            return Err(NoMemory);
        };
        place = next;
    }
    Ok(inner)
}

fn joined<'c>(
    mut list: Vec<Candidate<'c>>,
    more: &[Candidate<'c>],
) -> Result<Vec<Candidate<'c>>, NoMemory>
    ensures { IfOk result (λ joined. candidates_of joined ≡ candidates_of list.entry ++ map candidate_of more.now) }
{
    for candidate in more {
        list.push(*candidate)?;
    }
    Ok(list)
}
