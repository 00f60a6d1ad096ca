//! What a section asks of a request where the section around it applies, over all branches so far.
ghost use Rattle.std.specs.Prelude.{◌≡◌, IfOk};
ghost use Rattle.hc_abs_force.specs.Asking.{exprs, holding, in_slot, question_of};
ghost use Rattle.hc_abs_force.specs.Marking.{AnswersFor, AnswersSlot, AreAlone, AreTried, IsTried};
ghost use Rattle.hc_abs_view.specs.declared.scene.Scene.{Scene as LentScene};
ghost use Rattle.hc_cells.specs.declared.slot.Slot.TheVariants as slot;
ghost use Rattle.hc_merge.specs.Reaching.{chained, is_at, is_component_found, is_found, resolved};

use crate::components::component_texts;
use crate::forcing::Forced;
use crate::locations::located;
use crate::marking::{alone, held_answers, holds_at, slot_answers};
use hc_abs_rw::found_texts;
use hc_abs_view::Scene;
use hc_base::NoMemory;
use hc_cells::Slot;
use hc_dfa::Dfa;
use hc_model::{Expression, Reach, Regex};
use std::alloc::Global;

/// By where a section applies.
pub(crate) fn past_reach(
    alloc: Global,
    scene: Scene<'_>,
    chain: &[&Expression],
    parent: Option<u32>,
    reach: &Reach,
    before: Vec<Forced>,
) -> Result<Vec<Forced>, NoMemory>
    ensures { IfOk result (λ later. AreTried
        (AnswersFor scene.entry (question_of (resolved (exprs chain.now) reach.now))) parent before.items
        later.items) }
{
    match reach {
        Reach::Dir(_) => all_alone(alloc, false, before),
        Reach::DirSearch(pattern) => searched(alloc, parent, Slot::Name, pattern, before),
        Reach::Files(pattern) => component_searched(alloc, parent, pattern, before),
        Reach::Location(path) => at_location(alloc, parent, path.as_bytes(), before),
        Reach::LocationGlob(pattern) => searched(alloc, parent, Slot::Path, pattern, before),
        Reach::LocationSearch(pattern) => searched(alloc, parent, Slot::Path, pattern, before),
        Reach::When(expr) => all_held(alloc, scene, chain.split_at(0).0, parent, expr, before),
        Reach::Otherwise(expr) => all_held(alloc, scene, chain, parent, expr, before),
    }
}

/// One that isn't tried: it applies in each branch, or in none.
pub(crate) fn all_alone(
    alloc: Global,
    is: bool,
    before: Vec<Forced>,
) -> Result<Vec<Forced>, NoMemory>
    ensures { IfOk result (λ later. AreAlone is before.items later.items) }
{
    let mut later = Vec::new(alloc);
    for one in before {
        let mut found = alone(alloc, one, is)?;
        later.append(&mut found)?;
    }
    Ok(later)
}

/// One that asks for a pattern in the text of a slot.
fn searched(
    alloc: Global,
    parent: Option<u32>,
    slot: Slot,
    pattern: &Regex,
    before: Vec<Forced>,
) -> Result<Vec<Forced>, NoMemory>
    ensures { IfOk result (λ later. (scene : LentScene)
        → AreTried (AnswersFor scene (in_slot slot (is_found pattern.now))) parent before.items later.items) }
{
    let set = found_texts(alloc, pattern.as_pat())?;
    let later = past_set(alloc, parent, slot, set, before)?;
    Ok(later)
}

/// One that asks for a pattern in the last component of the name.
fn component_searched(
    alloc: Global,
    parent: Option<u32>,
    pattern: &Regex,
    before: Vec<Forced>,
) -> Result<Vec<Forced>, NoMemory>
    ensures { IfOk result (λ later. (scene : LentScene)
        → AreTried (AnswersFor scene (in_slot slot.Name (is_component_found pattern.now))) parent before.items
        later.items) }
{
    let set = component_texts(alloc, pattern)?;
    let later = past_set(alloc, parent, Slot::Name, set, before)?;
    Ok(later)
}

/// One that asks whether the path is at a location.
fn at_location(
    alloc: Global,
    parent: Option<u32>,
    location: &[u8],
    before: Vec<Forced>,
) -> Result<Vec<Forced>, NoMemory>
    ensures { IfOk result (λ later. (scene : LentScene)
        → AreTried (AnswersFor scene (in_slot slot.Path (is_at location.now))) parent before.items later.items) }
{
    let set = located(alloc, location)?;
    let later = past_set(alloc, parent, Slot::Path, set, before)?;
    Ok(later)
}

/// One that asks whether the text of a slot is in a set.
fn past_set(
    alloc: Global,
    parent: Option<u32>,
    slot: Slot,
    set: Dfa,
    before: Vec<Forced>,
) -> Result<Vec<Forced>, NoMemory>
    ensures { IfOk result (λ later. AreTried (AnswersSlot slot set) parent before.items later.items) }
{
    let later = all_in_slot(alloc, parent, &slot, &set, before)?;
    Ok(later)
}

fn all_in_slot(
    alloc: Global,
    parent: Option<u32>,
    slot: &Slot,
    set: &Dfa,
    before: Vec<Forced>,
) -> Result<Vec<Forced>, NoMemory>
    ensures { IfOk result (λ later. AreTried (AnswersSlot slot.now set.now) parent before.items later.items) }
{
    let mut later = Vec::new(alloc);
    for one in before {
        let mut found = tried_in_slot(alloc, parent, slot, set, one)?;
        later.append(&mut found)?;
    }
    Ok(later)
}

fn tried_in_slot(
    alloc: Global,
    parent: Option<u32>,
    slot: &Slot,
    set: &Dfa,
    one: Forced,
) -> Result<Vec<Forced>, NoMemory>
    ensures { IfOk result (λ found. IsTried (AnswersSlot slot.now set.now) parent one found.items) }
{
    if !holds_at(&one.marks, parent) {
        let found = alone(alloc, one, false)?;
        return Ok(found);
    }
    let found = slot_answers(alloc, slot, set, &one)?;
    Ok(found)
}

/// One that asks for an expression.
fn all_held(
    alloc: Global,
    scene: Scene<'_>,
    chain: &[&Expression],
    parent: Option<u32>,
    expr: &Expression,
    before: Vec<Forced>,
) -> Result<Vec<Forced>, NoMemory>
    ensures { IfOk result (λ later. AreTried
        (AnswersFor scene.entry (holding (chained (exprs chain.now) expr.now))) parent before.items later.items) }
{
    let mut later = Vec::new(alloc);
    for one in before {
        let mut found = tried_held(alloc, scene, chain, parent, expr, one)?;
        later.append(&mut found)?;
    }
    Ok(later)
}

fn tried_held(
    alloc: Global,
    scene: Scene<'_>,
    chain: &[&Expression],
    parent: Option<u32>,
    expr: &Expression,
    one: Forced,
) -> Result<Vec<Forced>, NoMemory>
    ensures { IfOk result (λ found. IsTried
        (AnswersFor scene.entry (holding (chained (exprs chain.now) expr.now))) parent one found.items) }
{
    if !holds_at(&one.marks, parent) {
        let found = alone(alloc, one, false)?;
        return Ok(found);
    }
    let found = held_answers(alloc, scene, chain, expr, one)?;
    Ok(found)
}
