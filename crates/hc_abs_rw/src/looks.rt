//! Look-ups in maps over what is known (Apache manual, mod_rewrite, RewriteMap).
ghost use Rattle.std.specs.Prelude.{IfOk};
ghost use Rattle.hc_abs_rw.specs.Known.{frame_at};
ghost use Rattle.hc_abs_rw.specs.Elements.{LooksUpTo};
ghost use Rattle.hc_abs_rw.specs.Looks.{IsFallback, IsKnownText, IsValue, IsValues, May};
ghost use Rattle.hc_plan.specs.Hands.{set_in};
ghost use Rattle.hc_plan.specs.Texts.{IsSetOf};

use crate::elements::plain_elements;
use crate::frame::{Frame, Surroundings};
use crate::known::Known;
use hc_base::{NoMemory, Text};
use hc_cells::Cell;
use hc_dfa::{Dfa, Keep, product};
use hc_model::Template;
use hc_plan::{Element, Hand, Shape, hand_set, shape_of};
use std::alloc::Global;

/// What a map gives for a key, else the fallback: a known text where the key is one and what it gives is, else any text
/// of a set.
pub(crate) fn look_up<S: Surroundings>(
    alloc: Global,
    frame: &Frame<'_, S>,
    known: &Known<'_>,
    name: &Text,
    key: &Template,
    fallback: &Template,
) -> Result<Element, NoMemory>
    ensures { IfOk result (LooksUpTo (frame_at S.kind S.values frame.now) frame.now.client known.now name.now
        key.now fallback.now) }
{
    let keys = plain_elements(alloc, frame, known, key.as_slice())?;
    let fallbacks = plain_elements(alloc, frame, known, fallback.as_slice())?;
    match known_text(alloc, &known.cell, &keys)? {
        Some(text) => {
            let made = value(alloc, frame, &known.cell, name, &text, &fallbacks)?;
            Ok(made)
        }
        None => {
            let made = values(alloc, frame, &known.cell, name, &keys, &fallbacks)?;
            Ok(made)
        }
    }
}

/// The text that elements joined are, where it is known.
#[tactic(auto, using(crate::proofs::Keyed::known_as, crate::proofs::Keyed::sole_none, crate::proofs::Keyed::open_none))]
pub fn known_text(
    alloc: Global,
    cell: &Cell,
    elements: &[Element],
) -> Result<Option<Text>, NoMemory>
    ensures { IfOk result (IsKnownText cell.now elements.now) }
{
    match shape_of(alloc, cell, elements)? {
        Shape::Known(text) => Ok(Some(text)),
        Shape::Sole(_) => Ok(None),
        Shape::Open => Ok(None),
    }
}

/// What a known key gives.
fn value<S: Surroundings>(
    alloc: Global,
    frame: &Frame<'_, S>,
    cell: &Cell,
    name: &Text,
    key: &Text,
    fallbacks: &[Element],
) -> Result<Element, NoMemory>
    ensures { IfOk result (IsValue cell.now (S.values frame.now.around.now name.now key.now) fallbacks.now) }
{
    match frame.around.value(name.as_bytes(), key.as_bytes())? {
        Some(value) => Ok(Element::Known(value)),
        None => fallen(alloc, cell, fallbacks),
    }
}

/// The fallback.
fn fallen(alloc: Global, cell: &Cell, fallbacks: &[Element]) -> Result<Element, NoMemory>
    ensures { IfOk result (IsFallback cell.now fallbacks.now) }
{
    match known_text(alloc, cell, fallbacks)? {
        Some(text) => Ok(Element::Known(text)),
        None => {
            let texts = texts_of(alloc, cell, fallbacks)?;
            Ok(Element::Free(texts))
        }
    }
}

/// What the keys of a set give.
fn values<S: Surroundings>(
    alloc: Global,
    frame: &Frame<'_, S>,
    cell: &Cell,
    name: &Text,
    keys: &[Element],
    fallbacks: &[Element],
) -> Result<Element, NoMemory>
    ensures { IfOk result (IsValues cell.now (S.values frame.now.around.now name.now) keys.now fallbacks.now) }
{
    let texts = texts_of(alloc, cell, keys)?;
    let image = frame.around.image(alloc, name.as_bytes(), &texts)?;
    if !image.missing {
        return Ok(Element::Free(image.values));
    }
    let others = texts_of(alloc, cell, fallbacks)?;
    let made = product(alloc, &image.values, &others, Keep::Either)?;
    Ok(Element::Free(made))
}

/// The texts that elements joined may be.
fn texts_of(alloc: Global, cell: &Cell, elements: &[Element]) -> Result<Dfa, NoMemory>
    ensures { IfOk result (λ set. IsSetOf (set_in set) (May cell.now elements.now)) }
{
    let hand = Hand {
        elements,
        off: 0,
        side: &None,
    };
    let set = hand_set(alloc, cell, hand)?;
    Ok(set)
}
