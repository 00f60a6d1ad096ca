//! The branches of what a section asks, over the states of one branch so far.
ghost use Rattle.std.specs.Prelude.{◌≡◌, ◌++◌, ◌∷◌, [], IfOk, OnOk, Some};
ghost use Rattle.hc_abs_force.specs.Asking.{exprs, holding};
ghost use Rattle.hc_abs_force.specs.Marking.{AddsLeft, AnswersFor, AnswersSlot, AreMarked, IsAlone, IsMarked};
ghost use Rattle.hc_abs_force.specs.Marking.{tied_on};
ghost use Rattle.hc_merge.specs.Reaching.{chained, holds_at};
ghost use Rattle.hc_plan.specs.declared.hand.Element.TheVariants as element;

use crate::forcing::Forced;
use hc_abs_rw::{Ways, ways_of};
use hc_abs_view::{Scene, Viewed, view_branches};
use hc_base::NoMemory;
use hc_cells::Slot;
use hc_dfa::Dfa;
use hc_model::Expression;
use hc_plan::{Element, Hand, Tied, Way};
use std::alloc::Global;

/// One more mark.
pub(crate) fn alone(alloc: Global, one: Forced, is: bool) -> Result<Vec<Forced>, NoMemory>
    ensures { IfOk result (λ found. IsAlone one is found.items) }
{
    let Forced { tied, mut marks } = one;
    marks.push(is)?;
    let mut found = Vec::new(alloc);
    found.push(Forced { tied, marks })?;
    Ok(found)
}

/// These states with one more mark.
fn marked(alloc: Global, marks: &[bool], tied: Tied, is: bool) -> Result<Forced, NoMemory>
    ensures { IfOk result (IsMarked marks.now tied is) }
{
    let mut more = marks.to_vec(alloc)?;
    more.push(is)?;
    Ok(Forced { tied, marks: more })
}

/// Whether the text of a slot is in a set.
pub(crate) fn slot_answers(
    alloc: Global,
    slot: &Slot,
    set: &Dfa,
    one: &Forced,
) -> Result<Vec<Forced>, NoMemory>
    ensures { IfOk result (λ found. AnswersSlot slot.now set.now one.now found.items) }
{
    let elements = slot_alone(alloc, slot)?;
    let hand = Hand {
        elements: &elements,
        off: 0,
        side: &None,
    };
    let ways = ways_of(alloc, &one.tied.cell, one.tied.ties, hand, set, false)?;
    let Ways { held, failed } = ways;
    let mut found = Vec::new(alloc);
    add_left(alloc, one, true, held, &mut found)?;
    add_left(alloc, one, false, failed, &mut found)?;
    Ok(found)
}

fn slot_alone(alloc: Global, slot: &Slot) -> Result<Vec<Element>, NoMemory>
    ensures { IfOk result (λ made. made.items ≡ element.Open slot.now 0 ∷ []) }
{
    let mut elements = Vec::new(alloc);
    elements.push(Element::Open(slot.clone()?, 0))?;
    Ok(elements)
}

/// Adds what is left on a way of a test, if there is one.
#[tactic(auto, using(crate::proofs::Answering::adds_none, crate::proofs::Answering::adds_one))]
fn add_left(
    alloc: Global,
    one: &Forced,
    is: bool,
    way: Option<Way>,
    found: &mut Vec<Forced>,
) -> Result<(), NoMemory>
    ensures { OnOk result (AddsLeft one.now is way found.old.items found.new.items) }
{
    match way {
        Some(way) => found.push(left(alloc, one, is, way)?)?,
        None => (),
    }
    Ok(())
}

/// What is left on a way of a test.
fn left(alloc: Global, one: &Forced, is: bool, way: Way) -> Result<Forced, NoMemory>
    ensures { IfOk result (IsMarked one.now.marks.items (tied_on one.now way) is) }
{
    let tied = Tied {
        cell: way.cell,
        ties: one.tied.ties,
    };
    let left = marked(alloc, &one.marks, tied, is)?;
    Ok(left)
}

/// Whether an expression holds, and none of a chain before it.
pub(crate) fn held_answers(
    alloc: Global,
    scene: Scene<'_>,
    chain: &[&Expression],
    expr: &Expression,
    one: Forced,
) -> Result<Vec<Forced>, NoMemory>
    ensures { IfOk result (λ found. AnswersFor scene.entry (holding (chained (exprs chain.now) expr.now)) one
        found.items) }
{
    let Forced { tied, marks } = one;
    let viewed = view_branches(alloc, scene, chain, expr, tied)?;
    let found = all_marked(alloc, &marks, viewed)?;
    Ok(found)
}

fn all_marked(alloc: Global, marks: &[bool], viewed: Vec<Viewed>) -> Result<Vec<Forced>, NoMemory>
    ensures { IfOk result (λ found. AreMarked marks.now viewed.items found.items) }
{
    let mut found = Vec::new(alloc);
    for one in viewed {
        found.push(marked(alloc, marks, one.tied, one.holds)?)?;
    }
    Ok(found)
}

/// Whether the section around a section applies, as marks say.
pub(crate) fn holds_at(marks: &[bool], parent: Option<u32>) -> bool
    ensures { result ≡ holds_at marks.now parent }
{
    match parent {
        Some(parent) => marks.get(parent as usize).copied().unwrap_or(false),
        None => true,
    }
}
