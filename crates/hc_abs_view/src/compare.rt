//! Whether two texts are equal, over cells.
ghost use Rattle.std.specs.Prelude.{◌≡◌, IfOk, true, false};
ghost use Rattle.hc_abs_rw.specs.Looks.{May};
ghost use Rattle.hc_abs_view.specs.Jumping.{asked_ways};
ghost use Rattle.hc_abs_view.specs.Seen.{AreApart, AreCompared, AreComparedBy, AreSides, HasOther, In, IsAnswer};
ghost use Rattle.hc_abs_view.specs.Seen.{IsTestedByText, MayAgree, cell_if, picked};
ghost use Rattle.hc_abs_view.specs.Trees.{same};
ghost use Rattle.hc_abs_view.specs.Viewing.{scene_of};
ghost use Rattle.hc_dfa.specs.Singles.{single};
ghost use Rattle.hc_dfa.specs.Texts.{IsText};
ghost use Rattle.hc_plan.specs.Hands.{set_in};
ghost use Rattle.hc_plan.specs.Texts.{IsSetOf};

use crate::elements::elements_of;
use crate::scene::Scene;
use crate::sides::{Sides, tested_sides};
use hc_abs_rw::known_text;
use hc_base::{NoMemory, Text};
use hc_cells::Cell;
use hc_dfa::{Dfa, Keep, least, product, single};
use hc_model::Template;
use hc_plan::{Element, Hand, Tied, hand_set};
use std::alloc::Global;

/// The sides of a comparison. Beside a text that is known now, the other is tested by it, first the left one.
pub(crate) fn compared_sides(
    alloc: Global,
    scene: Scene<'_>,
    left: &Template,
    right: &Template,
    negated: bool,
    tied: &Tied,
) -> Result<Sides, NoMemory>
    ensures { IfOk result (AreSides scene.entry
        (asked_ways (scene_of scene.entry) (same left.now right.now) negated) tied.now) }
{
    let one = elements_of(alloc, scene, left.as_slice())?;
    let other = elements_of(alloc, scene, right.as_slice())?;
    let sides = both_sides(alloc, &one, &other, negated, tied)?;
    Ok(sides)
}

fn both_sides(
    alloc: Global,
    one: &[Element],
    other: &[Element],
    negated: bool,
    tied: &Tied,
) -> Result<Sides, NoMemory>
    ensures { IfOk result (AreCompared tied.now one.now other.now negated) }
{
    match known_text(alloc, &tied.cell, other)? {
        Some(text) => {
            let sides = text_sides(alloc, one, &text, negated, tied)?;
            Ok(sides)
        }
        None => {
            let sides = unless_known(alloc, one, other, negated, tied)?;
            Ok(sides)
        }
    }
}

/// Where the right one isn't known.
fn unless_known(
    alloc: Global,
    one: &[Element],
    other: &[Element],
    negated: bool,
    tied: &Tied,
) -> Result<Sides, NoMemory>
    ensures { IfOk result (AreComparedBy tied.now one.now other.now negated) }
{
    match known_text(alloc, &tied.cell, one)? {
        Some(text) => {
            let sides = text_sides(alloc, other, &text, negated, tied)?;
            Ok(sides)
        }
        None => {
            let sides = apart_sides(alloc, one, other, negated, tied)?;
            Ok(sides)
        }
    }
}

/// The sides of a test by one text.
fn text_sides(
    alloc: Global,
    elements: &[Element],
    text: &Text,
    negated: bool,
    tied: &Tied,
) -> Result<Sides, NoMemory>
    ensures { IfOk result (IsTestedByText tied.now elements.now negated text.now) }
{
    let set = single(alloc, text.as_bytes())?;
    let sides = tested_sides(alloc, elements, &set, negated, tied)?;
    Ok(sides)
}

/// The sides where neither is known: nothing is narrowed.
fn apart_sides(
    alloc: Global,
    one: &[Element],
    other: &[Element],
    negated: bool,
    tied: &Tied,
) -> Result<Sides, NoMemory>
    ensures { IfOk result (AreApart tied.now one.now other.now negated) }
{
    let first = texts_of(alloc, &tied.cell, one)?;
    let second = texts_of(alloc, &tied.cell, other)?;
    let equal = may_equal(alloc, &first, &second)?;
    let differ = may_differ(alloc, &first, &second)?;
    let held = cell_if(picked(negated, equal, differ), &tied.cell)?;
    let failed = cell_if(picked(negated, differ, equal), &tied.cell)?;
    Ok(Sides { held, failed })
}

fn picked(negated: bool, equal: bool, differ: bool) -> bool
    ensures { result ≡ picked negated equal differ }
{
    if negated { differ } else { equal }
}

fn cell_if(is: bool, cell: &Cell) -> Result<Option<Cell>, NoMemory>
    ensures { IfOk result (λ made. made ≡ cell_if is cell.now) }
{
    if is {
        return Ok(Some(cell.clone()?));
    }
    Ok(None)
}

/// The texts that elements joined may be.
fn texts_of(alloc: Global, cell: &Cell, elements: &[Element]) -> Result<Dfa, NoMemory>
    ensures { IfOk result (λ set. IsSetOf (set_in set) (May cell.now elements.now)) }
{
    let hand = Hand {
        elements,
        off: 0,
        side: &None,
    };
    let set = hand_set(alloc, cell, hand)?;
    Ok(set)
}

/// Whether members of two sets may be equal.
fn may_equal(alloc: Global, one: &Dfa, other: &Dfa) -> Result<bool, NoMemory>
    ensures { IfOk result (IsAnswer (MayAgree (In (set_in one.now)) (In (set_in other.now)) true)) }
{
    let both = product(alloc, one, other, Keep::Both)?;
    match least(alloc, &both)? {
        Some(_text) => Ok(true),
        None => Ok(false),
    }
}

/// Whether members of two sets may be different: where one of them has another member than some member of the other.
fn may_differ(alloc: Global, one: &Dfa, other: &Dfa) -> Result<bool, NoMemory>
    ensures { IfOk result (IsAnswer (MayAgree (In (set_in one.now)) (In (set_in other.now)) false)) }
{
    let Some(first) = least(alloc, one)? else {
        return Ok(false);
    };
    let Some(second) = least(alloc, other)? else {
        return Ok(false);
    };
    if has_other(alloc, one, second.as_bytes())? {
        return Ok(true);
    }
    if has_other(alloc, other, first.as_bytes())? {
        return Ok(true);
    }
    Ok(false)
}

/// Whether a set has a member other than a text.
fn has_other(alloc: Global, set: &Dfa, text: &[u8]) -> Result<bool, NoMemory>
    ensures { IfOk result (IsAnswer (HasOther (set_in set.now) text.now)) }
{
    let own = single(alloc, text)?;
    let others = product(alloc, set, &own, Keep::FirstOnly)?;
    match least(alloc, &others)? {
        Some(_text) => Ok(true),
        None => Ok(false),
    }
}
