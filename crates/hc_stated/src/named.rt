ghost use Rattle.std.specs.Prelude.{◌≡◌, ◌++◌, IfOk, OnOk};
ghost use Rattle.hc_stated.specs.CellViews.{Makes, cell_view, cells_view, slot_sets};
ghost use Rattle.hc_stated.specs.Cells.{AreCells, HasSets, IsCell, bad_in_cells, bad_in_sets, variable_in};
ghost use Rattle.hc_stated.specs.Cells.{variables_in};

use crate::cells::{CellSets, SlotSet};
use crate::field::Field;
use crate::stated::{StatedFault, made};
use hc_base::{List, NoMemory, Text};
use hc_cells::{Cell, Slot};
use hc_invariant::{Cut, NamedCell};
use std::alloc::Global;

/// The cells with the automata of their sets, or the first pattern in these that isn't read.
pub fn state_cells(alloc: Global, cells: &[CellSets]) -> Result<Vec<NamedCell>, StatedFault>
    ensures { Makes result (bad_in_cells (cells_view cells.now))
        (λ made. AreCells (cells_view cells.now) made.items) }
{
    let mut named = Vec::new(alloc);
    for cell in cells {
        named.push(state_cell(alloc, cell)?)?;
    }
    Ok(named)
}

fn state_cell(alloc: Global, cell: &CellSets) -> Result<NamedCell, StatedFault>
    ensures { Makes result (bad_in_sets (cell_view cell.now).sets) (IsCell (cell_view cell.now)) }
{
    let states = cell_with(alloc, &cell.sets)?;
    Ok(NamedCell {
        at: copy_cut(alloc, &cell.at)?,
        rank: cell.rank,
        round: cell.round,
        variables: variables_of(alloc, &cell.sets)?,
        cell: states,
    })
}

fn copy_cut(alloc: Global, cut: &Cut) -> Result<Cut, NoMemory>
    ensures { IfOk result (λ copy. copy ≡ cut.now) }
{
    match cut {
        Cut::Pass => Ok(Cut::Pass),
        Cut::Server => Ok(Cut::Server),
        Cut::Dir(path) => Ok(Cut::Dir(path.clone()?)),
    }
}

// The cell that has these sets and no others.
fn cell_with(alloc: Global, sets: &[SlotSet]) -> Result<Cell, StatedFault>
    ensures { Makes result (bad_in_sets (slot_sets sets.now)) (HasSets (slot_sets sets.now)) }
{
    let mut cell = Cell::all(alloc)?;
    for own in sets {
        let set = made(alloc, Field::Cells, &own.set)?;
        cell.put(alloc, own.slot.clone()?, set)?;
    }
    Ok(cell)
}

// The variables that have a set, in the order of the sets.
fn variables_of(alloc: Global, sets: &[SlotSet]) -> Result<List<Text>, NoMemory>
    ensures { IfOk result (λ names. names ≡ variables_in (slot_sets sets.now)) }
{
    let mut names = List::new(alloc);
    for own in sets {
        add_variable(&own.slot, &mut names)?;
    }
    Ok(names)
}

fn add_variable(slot: &Slot, names: &mut List<Text>) -> Result<(), NoMemory>
    ensures { OnOk result (names.new ≡ names.old ++ variable_in slot.now) }
{
    match slot {
        Slot::Env(name) => names.push(name.clone()?),
        _ => Ok(()),
    }
}
