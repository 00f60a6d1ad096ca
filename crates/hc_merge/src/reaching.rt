ghost use Rattle.std.specs.Prelude.{◌≡◌, ◌∷◌, ◌++◌, [], ◌&&◌, IfOk, map, not};
ghost use Rattle.std.specs.Option.{option_map};
ghost use Rattle.hc_merge.specs.CandidateView.{candidate_of, candidates_of};
ghost use Rattle.hc_merge.specs.Chains.{held_behind, is_chained};
ghost use Rattle.hc_merge.specs.Reaching.{applies, holds_at, is_at, is_component_found, is_found};
ghost use Rattle.hc_merge.specs.Reaching.{kept_by, last_component, reaches};

use crate::candidate::Candidate;
use hc_alias::is_below;
use hc_base::NoMemory;
use hc_base::paths::{begins_with_slash, ends_with_slash};
use hc_expr::holds;
use hc_match::first_match;
use hc_model::{Reach, Regex, View};
use std::alloc::Global;

/// The sections that apply: each by its own test, and only where the section around it does; an `<ElseIf>` or
/// `<Else>` only where none of the chain right before it does.
#[tactic(auto, using(crate::proofs::Chains::kept_by_bit))]
pub(crate) fn kept_by<'c>(
    alloc: Global,
    view: &View,
    candidates: &[Candidate<'c>],
) -> Result<Vec<Candidate<'c>>, NoMemory>
    ensures { IfOk result (λ kept. candidates_of kept ≡ kept_by view.now (map candidate_of candidates.now)) }
{
    let mut kept = Vec::new(alloc);
    let mut marks = Vec::new(alloc);
    // One of the chain right before the candidate holds.
    let mut held = false;
    for candidate in candidates {
        let found = applies(alloc, view, candidate.reach)?;
        let mark = is_kept(&marks, candidate, found, held);
        held = held_behind(held, found, candidate.reach);
        marks.push(mark)?;
        if !mark {
            continue;
        }
        kept.push(*candidate)?;
    }
    Ok(kept)
}

// By whether its own test is found to hold, and one of the chain right before it does.
fn is_kept(marks: &[bool], candidate: &Candidate<'_>, found: bool, held: bool) -> bool
    ensures { result ≡ holds_at marks.now candidate.now.parent
        && (found && not (held && is_chained (candidate_of candidate.now).reach)) }
{
    holds_at(marks, candidate.parent) && found && !(held && is_chained(candidate.reach))
}

fn is_chained(reach: Option<&Reach>) -> bool
    ensures { result ≡ is_chained (option_map (λ reach. reach.now) reach.entry) }
{
    matches!(reach, Some(Reach::Otherwise(_)))
}

fn held_behind(held: bool, found: bool, reach: Option<&Reach>) -> bool
    ensures { result ≡ held_behind held found (option_map (λ reach. reach.now) reach.entry) }
{
    match reach {
        Some(Reach::When(_)) => found,
        Some(Reach::Otherwise(_)) => held || found,
        _ => false,
    }
}

fn holds_at(marks: &[bool], parent: Option<u32>) -> bool
    ensures { result ≡ holds_at marks.now parent }
{
    match parent {
        Some(parent) => marks.get(parent as usize).copied().unwrap_or(false),
        None => true,
    }
}

// Those of the first group apply where they stand.
fn applies(alloc: Global, view: &View, reach: Option<&Reach>) -> Result<bool, NoMemory>
    ensures { IfOk result (λ is. is ≡ applies view.now (option_map (λ reach. reach.now) reach.entry)) }
{
    match reach {
        Some(reach) => reaches(alloc, view, reach),
        None => Ok(true),
    }
}

fn reaches(alloc: Global, view: &View, reach: &Reach) -> Result<bool, NoMemory>
    ensures { IfOk result (λ is. is ≡ reaches view.now reach.now) }
{
    match reach {
        Reach::Dir(_) => Ok(false),
        Reach::DirSearch(pattern) => is_found(alloc, pattern, view.name.as_bytes()),
        Reach::Files(pattern) => is_component_found(alloc, pattern, view.name.as_bytes()),
        Reach::Location(path) => Ok(is_at(path.as_bytes(), view.path.as_bytes())),
        Reach::LocationGlob(pattern) => is_found(alloc, pattern, view.path.as_bytes()),
        Reach::LocationSearch(pattern) => is_found(alloc, pattern, view.path.as_bytes()),
        Reach::When(test) => holds(alloc, test, view),
        Reach::Otherwise(test) => holds(alloc, test, view),
    }
}

// A location that does not begin with a slash is that of no path.
fn is_at(location: &[u8], path: &[u8]) -> bool
    ensures { result ≡ is_at location.now path.now }
{
    begins_with_slash(location) && is_below(location, path)
}

fn is_found(alloc: Global, pattern: &Regex, text: &[u8]) -> Result<bool, NoMemory>
    ensures { IfOk result (λ is. is ≡ is_found pattern.now text.now) }
{
    Ok(first_match(alloc, pattern.as_pat(), text)?.is_some())
}

// None where the name ends with a slash.
fn is_component_found(alloc: Global, pattern: &Regex, name: &[u8]) -> Result<bool, NoMemory>
    ensures { IfOk result (λ is. is ≡ is_component_found pattern.now name.now) }
{
    if ends_with_slash(name) {
        return Ok(false);
    }
    is_found(alloc, pattern, last_component(name))
}

// What follows the last slash.
fn last_component(name: &[u8]) -> &[u8]
    ensures { result.now ≡ last_component name.now }
{
    let mut last = name;
    for at in 0..name.len() {
        if name[at] != b'/' {
            continue;
        }
        last = name.split_at(at + 1).1;
    }
    last
}
