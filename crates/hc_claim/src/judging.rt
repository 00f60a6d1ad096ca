//! At which leaves a claim may be broken.
ghost use Rattle.std.specs.Prelude.{◌≡◌, IfOk};
ghost use Rattle.std.specs.List.{list_any};
ghost use Rattle.hc_abs_view.specs.Seen.{IsAnswer};
ghost use Rattle.hc_cells.specs.declared.slot.Slot.TheVariants.{Name};
ghost use Rattle.hc_claim.specs.Bad.{is_match};
ghost use Rattle.hc_claim.specs.Judging.{HasMember, IsJudged, MayBreakIn, Meets, UnguardedIn};
ghost use Rattle.hc_dfa.specs.Automata.{accepts};
ghost use Rattle.hc_plan.specs.Hands.{cell_of};

use crate::ending::{ends_limited, ends_out, ends_served};
use hc_abs_leaves::Leaf;
use hc_base::{NoMemory, Place};
use hc_broken::{is_same_place, lacks};
use hc_cells::{Cell, Slot};
use hc_dfa::{Dfa, Keep, least, product};
use hc_model::Decision;
use hc_scope::Claim;
use hc_serve::needs_of;
use std::alloc::Global;

/// Whether a claim may be broken at a leaf.
pub(crate) fn is_bad(alloc: Global, claim: &Claim, leaf: &Leaf) -> Result<bool, NoMemory>
    ensures { IfOk result (λ bad. IsJudged claim.now leaf.now bad) }
{
    if ends_out(&leaf.end) {
        return Ok(true);
    }
    may_break(alloc, claim, leaf)
}

/// Whether a claim may be broken at a leaf that isn't outside.
fn may_break(alloc: Global, claim: &Claim, leaf: &Leaf) -> Result<bool, NoMemory>
    ensures { IfOk result (IsAnswer (MayBreakIn claim.now leaf.now)) }
{
    match claim {
        Claim::Stops => Ok(ends_limited(&leaf.end)),
        Claim::Shadowed(place) => Ok(has_match(place, leaf.decisions.as_slice())),
        Claim::Guarded { target, by } => unguarded(alloc, target, by, leaf),
    }
}

/// The rule of this place matched.
pub fn has_match(place: &Place, decisions: &[Decision]) -> bool
    ensures { result ≡ list_any (is_match place.now) decisions.now }
{
    decisions.iter().any(|decision| is_match(place, decision))
}

fn is_match(place: &Place, decision: &Decision) -> bool
    ensures { result ≡ is_match place.now decision.now }
{
    match decision {
        Decision::Rule {
            place: own,
            matched,
        } => *matched && is_same_place(own, place),
        Decision::Cond { .. } => false,
    }
}

/// A file or directory of the set may be given without the Require line.
fn unguarded(alloc: Global, target: &Dfa, by: &Place, leaf: &Leaf) -> Result<bool, NoMemory>
    ensures { IfOk result (IsAnswer (UnguardedIn (accepts target.now) by.now leaf.now)) }
{
    if !ends_served(&leaf.end) {
        return Ok(false);
    }
    let needs = needs_of(alloc, &leaf.require)?;
    if !lacks(needs.as_slice(), by) {
        return Ok(false);
    }
    may_name(alloc, &leaf.tied.cell, target)
}

/// A file name may be of the set.
pub fn may_name(alloc: Global, cell: &Cell, set: &Dfa) -> Result<bool, NoMemory>
    ensures { IfOk result (IsAnswer (Meets (cell_of cell.now Name) (accepts set.now))) }
{
    match cell.set_of(&Slot::Name) {
        None => has_member(alloc, set),
        Some(names) => {
            let both = product(alloc, names, set, Keep::Both)?;
            has_member(alloc, &both)
        }
    }
}

/// A set has a text.
fn has_member(alloc: Global, set: &Dfa) -> Result<bool, NoMemory>
    ensures { IfOk result (IsAnswer (HasMember (accepts set.now))) }
{
    match least(alloc, set)? {
        None => Ok(false),
        Some(_text) => Ok(true),
    }
}
