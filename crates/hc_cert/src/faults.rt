//! The first branch that is at fault.
ghost use Rattle.std.specs.Prelude.{◌≡◌, ◌≤◌, IfOk, length};
ghost use Rattle.hc_abs_view.specs.Seen.{IsAnswer};
ghost use Rattle.hc_cert.specs.Coded.{AreReady, IsFaultOf, IsFirstIn, IsFirstOf, MayBreakIn};
ghost use Rattle.hc_cert.specs.Coded.{UnguardedIn, ends_limited, ends_out, ends_served};
ghost use Rattle.hc_cert.specs.declared.verdict.Condition.TheVariants as condition;
ghost use Rattle.hc_cert.specs.declared.verdict.TheConstants.{MOST_CELLS};
ghost use Rattle.hc_dfa.specs.Automata.{accepts};

use crate::belonging::{belongs, lacking, led_to};
use crate::bounds::Bounds;
use crate::growing::grows;
use crate::ready::Ready;
use crate::verdict::{Condition, Found, Rejection};
use crate::walking::Walked;
use hc_abs_left::{Finish, Segment};
use hc_base::{NoMemory, Place, Text};
use hc_broken::lacks;
use hc_claim::{has_match, is_bound_left, is_left_outside, is_ruled_outside, may_name, serves};
use hc_dfa::Dfa;
use hc_invariant::NamedCell;
use hc_scope::Claim;
use hc_serve::needs_of;
use std::alloc::Global;

/// What branches are looked at by.
#[derive(Clone, Copy)]
pub(crate) struct Scene<'s> {
    pub claim: &'s Claim,
    pub cells: &'s [Ready<'s>],
    pub bounds: Bounds,
}

/// The first cell with a branch that is at fault by a condition.
pub(crate) fn first_of(
    alloc: Global,
    scene: Scene<'_>,
    condition: Condition,
    walked: &[Walked<'_>],
) -> Result<Option<Rejection>, NoMemory>
    requires few { length walked.now ≤ MOST_CELLS }
    requires ready { AreReady scene.cells.now }
    ensures { IfOk result (IsFirstOf scene.entry condition walked.now) }
{
    let mut number = 0;
    for own in walked {
        if let Some(found) = first_in(alloc, scene, condition, own)? {
            let Found { branch, text } = found;
            return Ok(Some(Rejection {
                condition,
                cell: number,
                branch,
                text,
            }));
        }
        number += 1;
    }
    Ok(None)
}

/// The first branch of a cell that is.
fn first_in(
    alloc: Global,
    scene: Scene<'_>,
    condition: Condition,
    own: &Walked<'_>,
) -> Result<Option<Found>, NoMemory>
    requires { AreReady scene.cells.now }
    ensures { IfOk result (IsFirstIn scene.entry condition own.now) }
{
    for segment in own.branches.as_slice() {
        if let Some(text) = fault_of(alloc, scene, condition, own.own, segment)? {
            let branch = segment.decisions.copy()?;
            return Ok(Some(Found { branch, text }));
        }
    }
    Ok(None)
}

/// Whether a branch is at fault by a condition, with the text that its cell lacks.
fn fault_of(
    alloc: Global,
    scene: Scene<'_>,
    condition: Condition,
    from: &NamedCell,
    segment: &Segment,
) -> Result<Option<Text>, NoMemory>
    requires { AreReady scene.cells.now }
    ensures { IfOk result (IsFaultOf scene.entry condition from.now segment.now) }
{
    match condition {
        Condition::Arrivals => strays(alloc, scene, segment),
        Condition::Ends => is_bad_end(alloc, scene, segment),
        Condition::Ranks => stalls(alloc, scene, from, segment),
        Condition::Start | Condition::Size => Ok(None),
    }
}

/// A branch that leads on leads into no cell.
fn strays(alloc: Global, scene: Scene<'_>, segment: &Segment) -> Result<Option<Text>, NoMemory>
    requires { AreReady scene.cells.now }
    ensures { (from : NamedCell) → IfOk result (IsFaultOf scene.entry condition.Arrivals from segment.now) }
{
    let Some(at) = led_to(&segment.finish)? else {
        return Ok(None);
    };
    let states = &segment.tied.cell;
    if let Some(_to) = belongs(alloc, scene.cells, &at, states)? {
        return Ok(None);
    }
    let text = lacking(alloc, scene.cells, &at, states)?;
    Ok(Some(text))
}

/// Ranks or rounds don't grow along it.
fn stalls(
    alloc: Global,
    scene: Scene<'_>,
    from: &NamedCell,
    segment: &Segment,
) -> Result<Option<Text>, NoMemory>
    requires { AreReady scene.cells.now }
    ensures { IfOk result (IsFaultOf scene.entry condition.Ranks from.now segment.now) }
{
    let Some(at) = led_to(&segment.finish)? else {
        return Ok(None);
    };
    let Some(to) = belongs(alloc, scene.cells, &at, &segment.tied.cell)? else {
        return Ok(None);
    };
    if grows(scene.bounds, from, &segment.finish, to) {
        return Ok(None);
    }
    Ok(Some(Text::new(alloc)))
}

/// It is bad for the claim.
fn is_bad_end(alloc: Global, scene: Scene<'_>, segment: &Segment) -> Result<Option<Text>, NoMemory>
    ensures { (from : NamedCell) → IfOk result (IsFaultOf scene.entry condition.Ends from segment.now) }
{
    if ends_out(&segment.finish) || may_break(alloc, scene.claim, segment)? {
        return Ok(Some(Text::new(alloc)));
    }
    Ok(None)
}

fn may_break(alloc: Global, claim: &Claim, segment: &Segment) -> Result<bool, NoMemory>
    ensures { IfOk result (IsAnswer (MayBreakIn claim.now segment.now)) }
{
    match claim {
        Claim::Stops => Ok(ends_limited(&segment.finish)),
        Claim::Shadowed(place) => Ok(has_match(place, segment.decisions.as_slice())),
        Claim::Guarded { target, by } => unguarded(alloc, target, by, segment),
    }
}

/// A file or directory of the set may be given without the Require line.
fn unguarded(alloc: Global, target: &Dfa, by: &Place, segment: &Segment) -> Result<bool, NoMemory>
    ensures { IfOk result (IsAnswer (UnguardedIn (accepts target.now) by.now segment.now)) }
{
    if !ends_served(&segment.finish) {
        return Ok(false);
    }
    let needs = needs_of(alloc, &segment.require)?;
    if !lacks(needs.as_slice(), by) {
        return Ok(false);
    }
    may_name(alloc, &segment.tied.cell, target)
}

// ---- how it ends

fn ends_out(finish: &Finish) -> bool
    ensures { result ≡ ends_out finish.now }
{
    match finish {
        Finish::Stopped(left) => is_left_outside(left),
        Finish::Ruled(next) => is_ruled_outside(next),
        _ => false,
    }
}

fn ends_limited(finish: &Finish) -> bool
    ensures { result ≡ ends_limited finish.now }
{
    match finish {
        Finish::Stopped(left) => is_bound_left(left),
        _ => false,
    }
}

fn ends_served(finish: &Finish) -> bool
    ensures { result ≡ ends_served finish.now }
{
    match finish {
        Finish::Stopped(left) => serves(left),
        _ => false,
    }
}
