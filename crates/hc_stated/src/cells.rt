ghost use Rattle.std.specs.Prelude.{◌≡◌, [], IfOk, map, option_map};
ghost use Rattle.serde_json.specs.View.{members_view};
ghost use Rattle.hc_json.specs.Cells.{slots_of};
ghost use Rattle.hc_json.specs.CommandView.{cell_view as form_view, cut_view, slot_view};
ghost use Rattle.hc_stated.specs.CellViews.{cell_view, read_cells_view, slot_sets_in};
ghost use Rattle.hc_stated.specs.Cells.{cell_sets, cut_of, sets_of_cells, slot_of, slots_behind};

use crate::field::Field;
use crate::shape::set_of;
use hc_base::{NoMemory, Text};
use hc_cells::Slot;
use hc_invariant::Cut;
use hc_json::{CellForm, CutForm, SlotForm, slot_named};
use hc_scope::SetForm;
use serde_json::{Map, Value};
use std::alloc::Global;

/// A set, and the slot that it is of.
#[derive(Drop)]
pub struct SlotSet {
    pub slot: Slot,
    pub set: SetForm,
}

/// A cell with the sets that it is written with.
#[derive(Drop)]
pub struct CellSets {
    pub at: Cut,
    pub rank: u32,
    pub round: Option<u32>,
    /// In the order of the members that they are written as.
    pub sets: Vec<SlotSet>,
}

/// The cells with their sets, or their field where one is none.
pub fn cells_in(
    alloc: Global,
    forms: &[CellForm<'_>],
) -> Result<Result<Vec<CellSets>, Field>, NoMemory>
    ensures { IfOk result (λ read. read_cells_view read ≡ sets_of_cells (map form_view forms.now)) }
{
    let mut cells = Vec::new(alloc);
    for form in forms {
        match cell_sets(alloc, *form)? {
            Some(cell) => cells.push(cell)?,
            None => return Ok(Err(Field::Cells)),
        }
    }
    Ok(Ok(cells))
}

// A cell with its sets, where each is one.
fn cell_sets(alloc: Global, form: CellForm<'_>) -> Result<Option<CellSets>, NoMemory>
    ensures { IfOk result (λ cell. option_map cell_view cell ≡ cell_sets (form_view form.entry)) }
{
    let Some(sets) = sets_of_slots(alloc, form.slots)? else {
        return Ok(None);
    };
    Ok(Some(CellSets {
        at: cut_of(alloc, form.at)?,
        rank: form.rank,
        round: form.round,
        sets,
    }))
}

fn cut_of(alloc: Global, cut: CutForm<'_>) -> Result<Cut, NoMemory>
    ensures { IfOk result (λ made. made ≡ cut_of (cut_view cut.entry)) }
{
    match cut {
        CutForm::Pass => Ok(Cut::Pass),
        CutForm::Server => Ok(Cut::Server),
        CutForm::Dir(path) => Ok(Cut::Dir(Text::copy_of(alloc, path.as_bytes())?)),
    }
}

// The sets of slots, where each is one.
fn sets_of_slots(
    alloc: Global,
    slots: &Map<String, Value>,
) -> Result<Option<Vec<SlotSet>>, NoMemory>
    ensures { IfOk result (λ sets. slot_sets_in sets ≡ slots_behind [] (slots_of (members_view slots.now.entries))) }
{
    let mut sets = Vec::new(alloc);
    for (key, value) in slots.iter() {
        let Some(form) = slot_named(key.as_str()) else {
            continue;
        };
        let Some(set) = set_of(alloc, value)? else {
            return Ok(None);
        };
        let slot = slot_of(alloc, form)?;
        sets.push(SlotSet { slot, set })?;
    }
    Ok(Some(sets))
}

fn slot_of(alloc: Global, form: SlotForm<'_>) -> Result<Slot, NoMemory>
    ensures { IfOk result (λ slot. slot ≡ slot_of (slot_view form.entry)) }
{
    match form {
        SlotForm::Origin => Ok(Slot::Origin),
        SlotForm::Path => Ok(Slot::Path),
        SlotForm::Query => Ok(Slot::Query),
        SlotForm::Text => Ok(Slot::Text),
        SlotForm::Name => Ok(Slot::Name),
        SlotForm::Info => Ok(Slot::Info),
        SlotForm::End => Ok(Slot::End),
        SlotForm::Method => Ok(Slot::Method),
        SlotForm::Request => Ok(Slot::Request),
        SlotForm::Env(name) => Ok(Slot::Env(Text::copy_of(alloc, name)?)),
        SlotForm::Header(name) => Slot::header(alloc, name),
    }
}
