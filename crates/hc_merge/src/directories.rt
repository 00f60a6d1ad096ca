ghost use Rattle.std.specs.Prelude.{◌≡◌, ◌++◌, map, filter, IfOk};
ghost use Rattle.hc_merge.specs.CandidateView.{candidates_of, sections_view};
ghost use Rattle.hc_merge.specs.Candidates.{at_directory, is_of, sections_at};
ghost use Rattle.hc_merge.specs.Order as definition;
ghost use Rattle.hc_merge.specs.Overriding.{AreLoaded, allowed_behind, files_read, nothing_allowed, override_at};
ghost use Rattle.hc_merge.specs.Overriding.{wanted, wants};

use crate::candidate::{Candidate, at_directory, override_of};
use crate::overriding::{NOTHING_ALLOWED, allows_nothing};
use crate::sections::{Sections, is_glob_of};
use hc_base::{NoMemory, Text};
use hc_model::{Allowed, Overrides, Section};
use std::alloc::Global;

// Candidates, and what is allowed behind them.
#[derive(Drop)]
struct Allowing<'c> {
    list: Vec<Candidate<'c>>,
    allowed: Allowed,
}

/// For each directory of a walk, from `/` down: its sections, and then its `.htaccess`.
pub(crate) fn first_group<'c, O: Overrides>(
    alloc: Global,
    sections: Sections<'c>,
    dirs: &'c [Text],
    over: &'c O,
) -> Result<Vec<Candidate<'c>>, NoMemory>
    requires { AreLoaded (O.loaded over.now) (wanted (sections_view sections) nothing_allowed dirs.now) }
    ensures { IfOk result (λ list. candidates_of list
        ≡ definition.first_group (sections_view sections.entry)
        (files_read (O.reading (O.fixed over.now))) nothing_allowed dirs.now) }
{
    let mut so_far = Allowing {
        list: Vec::new(alloc),
        allowed: NOTHING_ALLOWED,
    };
    for dir in dirs {
        so_far = with_directory(alloc, sections, so_far, dir)?;
        so_far = with_override(so_far, dir, over)?;
    }
    Ok(so_far.list)
}

// The `.htaccess` of a directory.
fn with_override<'c, O: Overrides>(
    mut so_far: Allowing<'c>,
    dir: &'c Text,
    over: &'c O,
) -> Result<Allowing<'c>, NoMemory>
    requires { AreLoaded (O.loaded over.now) (wants dir.now so_far.allowed) }
    ensures list { IfOk result (λ later. candidates_of later.list ≡ candidates_of so_far.entry.list
        ++ override_at (files_read (O.reading (O.fixed over.now))) dir.now so_far.entry.allowed) }
    ensures allowed { IfOk result (λ later. later.allowed ≡ so_far.entry.allowed) }
{
    if allows_nothing(so_far.allowed) {
        return Ok(so_far);
    }
    if let Some(file) = over.get(dir.as_bytes(), so_far.allowed) {
        so_far.list.push(override_of(dir, file))?;
    }
    Ok(so_far)
}

// The sections whose path is this directory's.
fn with_directory<'c>(
    alloc: Global,
    sections: Sections<'c>,
    so_far: Allowing<'c>,
    dir: &'c Text,
) -> Result<Allowing<'c>, NoMemory>
    ensures list { IfOk result (λ later. candidates_of later.list ≡ candidates_of so_far.entry.list
        ++ map (at_directory dir.now) (sections_at (sections_view sections.entry) dir.now)) }
    ensures allowed { IfOk result (λ later. later.allowed
        ≡ allowed_behind so_far.entry.allowed (sections_at (sections_view sections.entry) dir.now)) }
{
    let so_far = with_globs(alloc, sections.main, so_far, dir)?;
    match sections.host {
        Some(host) => with_globs(alloc, host, so_far, dir),
        None => Ok(so_far),
    }
}

fn with_globs<'c>(
    alloc: Global,
    sections: &'c [Section],
    mut so_far: Allowing<'c>,
    dir: &'c Text,
) -> Result<Allowing<'c>, NoMemory>
    ensures list { IfOk result (λ later. candidates_of later.list ≡ candidates_of so_far.entry.list
        ++ map (at_directory dir.now) (filter (is_of dir.now) sections.now)) }
    ensures allowed { IfOk result (λ later. later.allowed
        ≡ allowed_behind so_far.entry.allowed (filter (is_of dir.now) sections.now)) }
{
    for section in sections {
        if !is_glob_of(alloc, dir.as_bytes(), &section.reach)? {
            continue;
        }
        so_far.list.push(at_directory(dir, section))?;
        so_far.allowed = section.body.allow.unwrap_or(so_far.allowed);
    }
    Ok(so_far)
}
