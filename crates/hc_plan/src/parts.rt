ghost use Rattle.std.specs.Prelude.{◌≡◌, true, IfOk};
ghost use Rattle.hc_cells.specs.Cells.{holds};
ghost use Rattle.hc_dfa.specs.Automata.{accepts};
ghost use Rattle.hc_dfa.specs.Built.{Accepts};
ghost use Rattle.hc_plan.specs.Hands.{IsElementSet, IsPartsSet};
ghost use Rattle.hc_plan.specs.Ways.{IsHandSet, lying};

use crate::hand::{Element, Hand};
use crate::shape::bytes_of;
use hc_base::NoMemory;
use hc_cells::{Cell, Slot};
use hc_dfa::{Dfa, Keep, complement, product, reduce, single};
use hc_pat_lang::{behind, concat_all};
use std::alloc::Global;

/// The texts that a text in hand may be.
pub fn hand_set(alloc: Global, cell: &Cell, hand: Hand<'_, '_>) -> Result<Dfa, NoMemory>
    ensures { IfOk result (IsHandSet cell.now hand.entry.elements.now hand.entry.off hand.entry.side.now) }
{
    let whole = parts_set(alloc, cell, hand.elements)?;
    let lying = lying(alloc, whole, hand.side)?;
    let set = behind(alloc, &lying, hand.off)?;
    Ok(set)
}

/// Those that lie on a side.
fn lying(alloc: Global, whole: Dfa, side: &Option<Dfa>) -> Result<Dfa, NoMemory>
    ensures { IfOk result (λ made. Accepts made (lying (accepts whole) side.now)) }
{
    match side {
        None => Ok(whole),
        Some(side) => {
            let both = product(alloc, &whole, side, Keep::Both)?;
            let fewer = reduce(alloc, &both)?;
            Ok(fewer)
        }
    }
}

/// The texts that the elements joined may be.
pub fn parts_set(alloc: Global, cell: &Cell, elements: &[Element]) -> Result<Dfa, NoMemory>
    ensures { IfOk result (IsPartsSet cell.now elements.now) }
{
    let mut sets = Vec::new(alloc);
    for element in elements {
        sets.push(element_set(alloc, cell, element)?)?;
    }
    let made = concat_all(alloc, &sets)?;
    Ok(made)
}

fn element_set(alloc: Global, cell: &Cell, element: &Element) -> Result<Dfa, NoMemory>
    ensures { IfOk result (IsElementSet cell.now element.now) }
{
    match element {
        Element::Known(text) => {
            let set = single(alloc, bytes_of(text))?;
            Ok(set)
        }
        Element::Free(set) => {
            let copy = set.clone()?;
            Ok(copy)
        }
        Element::Open(slot, skip) => {
            let own = slot_set(alloc, cell, slot)?;
            let set = behind(alloc, &own, *skip)?;
            Ok(set)
        }
    }
}

fn slot_set(alloc: Global, cell: &Cell, slot: &Slot) -> Result<Dfa, NoMemory>
    ensures { IfOk result (λ made. Accepts made (holds cell.now slot.now)) }
{
    match cell.set_of(slot) {
        Some(set) => {
            let copy = set.clone()?;
            Ok(copy)
        }
        None => every_text(alloc),
    }
}

/// All texts.
pub fn every_text(alloc: Global) -> Result<Dfa, NoMemory>
    ensures { IfOk result (λ made. Accepts made (λ text. true)) }
{
    let empty = single(alloc, b"")?;
    let none = product(alloc, &empty, &empty, Keep::FirstOnly)?;
    let every = complement(alloc, &none)?;
    Ok(every)
}
