//! The conditions of a rule (Apache manual, mod_rewrite, RewriteCond).
ghost use Rattle.std.specs.Prelude.{◌≡◌, ◌<◌, ◌≤◌, IfOk, length};
ghost use Rattle.hc_rw_eval.specs.Conditions.{by_pattern, cond_told, cond_tried, conds_tried, counted, group_tried};
ghost use Rattle.hc_rw_eval.specs.Conditions.{is_text};
ghost use Rattle.hc_rw_eval.specs.Conditions.{searched, seen_by, tested_by, text_tested, unless_held};
ghost use Rattle.hc_rw_eval.specs.Conditions.{while_held};
ghost use Rattle.hc_rw_eval.specs.Conditions.{without_groups};
ghost use Rattle.hc_rw_eval.specs.Frames.{context_at, looks_at, shown_at};
ghost use Rattle.hc_rw_eval.specs.Groups.{group_length};
ghost use Rattle.hc_steps.specs.Ran.{Takes, Tells};
ghost use Rattle.hc_steps.specs.Shown.{shown_by};

use crate::files::{dir_there, file_there};
use crate::frame::{Frame, Stop, filled};
use crate::told::tell_cond;
use hc_base::{NoMemory, Text};
use hc_match::first_match;
use hc_model::{Cond, CondKind, Lookups, Regex};
use hc_rw_expand::{Matched, RwState, newer};
use hc_steps::Log;
use hc_world::World;
use std::alloc::Global;

/// What the conditions that were tried come to, and the state that they leave.
#[derive(Drop)]
pub struct Tested {
    pub holds: bool,
    pub state: RwState,
}

/// Whether a test holds before its negation, and what its pattern found.
#[derive(Drop)]
pub struct Seen {
    pub holds: bool,
    pub found: Option<Matched>,
}

/// Negation counted.
pub(crate) fn counted(negated: bool, holds: bool) -> bool
    ensures { result ≡ counted negated holds }
{
    holds != negated
}

// The text in which a pattern is found.
fn searched(alloc: Global, text: Text, pattern: &Regex) -> Result<Option<Matched>, NoMemory>
    ensures { IfOk result (λ found. found ≡ searched text pattern.now) }
{
    match first_match(alloc, pattern.as_pat(), text.as_bytes())? {
        Some(captures) => Ok(Some(Matched::new(alloc, text, &captures)?)),
        None => Ok(None),
    }
}

fn is_text(nocase: bool, wanted: &[u8], text: &[u8]) -> bool
    ensures { result ≡ is_text nocase wanted.now text.now }
{
    if nocase {
        wanted.eq_ignore_ascii_case(text)
    } else {
        wanted == text
    }
}

fn by_pattern(found: Option<Matched>) -> Seen
    ensures { result ≡ by_pattern found }
{
    Seen {
        holds: found.is_some(),
        found,
    }
}

fn without_groups(holds: bool) -> Seen
    ensures { result ≡ without_groups holds }
{
    Seen { holds, found: None }
}

#[tactic(auto, unfolding(crate::specs::Conditions::seen_by), using(crate::proofs::Leading::stepping))]
fn seen_by(
    world: &World,
    log: &mut Log,
    kind: &CondKind,
    nocase: bool,
    text: Text,
) -> Result<Seen, Stop>
    ensures { Takes result log (seen_by kind.now nocase text) (shown_by world.now.files) }
{
    match kind {
        CondKind::Search(pattern) => Ok(by_pattern(searched(log.allocator(), text, pattern)?)),
        CondKind::Equals(wanted) => Ok(without_groups(is_text(
            nocase,
            wanted.as_bytes(),
            text.as_bytes(),
        ))),
        CondKind::IsFile => Ok(without_groups(file_there(world, log, &text)?)),
        CondKind::IsDir => Ok(without_groups(dir_there(world, log, &text)?)),
    }
}

fn tested_by(cond: &Cond, state: RwState, seen: Seen) -> Tested
    ensures { result ≡ tested_by cond.now state seen }
{
    Tested {
        holds: counted(cond.negated, seen.holds),
        state: RwState {
            cond_groups: newer(cond.negated, seen.found, state.cond_groups),
            ..state
        },
    }
}

#[tactic(auto, unfolding(crate::specs::Conditions::cond_told), using(hc_steps::proofs::Going::telling))]
fn cond_told(log: &mut Log, cond: &Cond, tested: Tested) -> Result<Tested, Stop>
    ensures { Tells result log (cond_told cond.now tested) }
{
    tell_cond(log, cond, tested.holds)?;
    Ok(tested)
}

#[tactic(auto, unfolding(crate::specs::Conditions::text_tested), using(hc_steps::proofs::Going::going))]
fn text_tested(
    world: &World,
    log: &mut Log,
    cond: &Cond,
    state: RwState,
    text: Text,
) -> Result<Tested, Stop>
    ensures { Takes result log (text_tested cond.now state text) (shown_by world.now.files) }
{
    let seen = seen_by(world, log, &cond.kind, cond.nocase, text)?;
    cond_told(log, cond, tested_by(cond, state, seen))
}

#[tactic(auto, unfolding(crate::specs::Conditions::cond_tried), using(hc_steps::proofs::Going::going))]
fn cond_tried<P: Lookups>(
    frame: &Frame<'_, P>,
    log: &mut Log,
    state: RwState,
    cond: &Cond,
) -> Result<Tested, Stop>
    ensures { Takes result log (cond_tried (context_at frame.now)
        (looks_at P.files P.values frame.now) state cond.now) (shown_at frame.now) }
{
    let text = filled(frame, log, &state, &cond.test)?;
    text_tested(frame.world, log, cond, state, text)
}

// Once a member of a group holds the others are skipped.
#[tactic(auto, unfolding(crate::specs::Conditions::unless_held), using(hc_steps::proofs::Going::ran_leaves))]
fn unless_held<P: Lookups>(
    frame: &Frame<'_, P>,
    log: &mut Log,
    tested: Tested,
    cond: &Cond,
) -> Result<Tested, Stop>
    ensures { Takes result log (unless_held (context_at frame.now)
        (looks_at P.files P.values frame.now) tested cond.now) (shown_at frame.now) }
{
    if tested.holds {
        return Ok(tested);
    }
    cond_tried(frame, log, tested.state, cond)
}

// Conditions of which one has to hold.
#[tactic(auto, unfolding(crate::specs::Conditions::group_tried), using(hc_steps::proofs::Going::items))]
fn group_tried<P: Lookups>(
    frame: &Frame<'_, P>,
    log: &mut Log,
    state: RwState,
    group: &[Cond],
) -> Result<Tested, Stop>
    ensures { Takes result log (group_tried (context_at frame.now)
        (looks_at P.files P.values frame.now) state group.now) (shown_at frame.now) }
{
    let mut tested = Tested {
        holds: false,
        state,
    };
    for cond in group {
        tested = unless_held(frame, log, tested, cond)?;
    }
    Ok(tested)
}

// Behind a group that does not hold none is tried.
#[tactic(auto, unfolding(crate::specs::Conditions::while_held), using(hc_steps::proofs::Going::ran_leaves))]
fn while_held<P: Lookups>(
    frame: &Frame<'_, P>,
    log: &mut Log,
    tested: Tested,
    group: &[Cond],
) -> Result<Tested, Stop>
    ensures { Takes result log (while_held (context_at frame.now)
        (looks_at P.files P.values frame.now) tested group.now) (shown_at frame.now) }
{
    if !tested.holds {
        return Ok(tested);
    }
    group_tried(frame, log, tested.state, group)
}

/// How many conditions the first group has: those up to the first without OR.
pub fn group_length(conds: &[Cond]) -> usize
    ensures length { result ≡ group_length conds.now }
    ensures within { result ≤ length conds.now }
    ensures some { 0 < length conds.now → 0 < result }
{
    for (place, cond) in conds.iter().enumerate() {
        if !cond.or_next {
            return place + 1;
        }
    }
    conds.len()
}

/// Tries the conditions of a rule: each group of them has to hold.
pub(crate) fn conds_tried<P: Lookups>(
    frame: &Frame<'_, P>,
    log: &mut Log,
    state: RwState,
    conds: &[Cond],
) -> Result<Tested, Stop>
    ensures { Takes result log (conds_tried (context_at frame.now)
        (looks_at P.files P.values frame.now) state conds.now) (shown_at frame.now) }
{
    let mut tested = Tested { holds: true, state };
    let mut rest = conds;
    while !rest.is_empty() {
        let (group, behind) = rest.split_at(group_length(rest));
        tested = while_held(frame, log, tested, group)?;
        rest = behind;
    }
    Ok(tested)
}
