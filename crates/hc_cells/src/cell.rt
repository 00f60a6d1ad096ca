ghost use Rattle.std.specs.Option.{option_copied};
ghost use Rattle.std.specs.Prelude.{◌≡◌, ◌↔◌, [], IfOk, IsTrue, OnOk, option_map};
ghost use Rattle.hc_cells.specs.Cells.{HasEmptySlot, LacksVariables, Puts, Restricts, holds, room_left, set_at};
ghost use Rattle.hc_cells.specs.Cells.{sets_in, states_in};
ghost use Rattle.hc_dfa.specs.Members.{IsOnlyOf};
ghost use Rattle.hc_dfa.specs.Texts.{IsEmptySet};
ghost use Rattle.hc_dfa.specs.Automata.{accepts};

use crate::Slot;
use crate::shared::Shared;
use hc_base::NoMemory;
use hc_dfa::{Dfa, Keep, least, product, reduce};
use std::alloc::Global;
use std::collections::BTreeMap;
use std::marker::Model;
use std::rc::Rc;

/// A set of texts for each slot that is there. A slot that isn't there holds any text. Copies share
/// the sets.
#[derive(Drop)]
pub struct Cell {
    sets: BTreeMap<Slot, Rc<Shared>>,
}

impl Model for Cell {
    ghost use Rattle.hc_cells.specs.Cells.{Sets, sets_in};

    ghost Value = { Sets };

    ghost view = { λ cell. sets_in cell.sets.entries };
}

impl Cell {
    /// The cell with no slot: each holds any text.
    pub fn all(alloc: Global) -> Result<Cell, NoMemory>
        ensures { IfOk result (λ cell. cell ≡ []) }
    {
        Ok(Cell {
            sets: BTreeMap::new(alloc),
        })
    }

    /// The set of a slot that is there.
    pub fn set_of(&self, slot: &Slot) -> Option<&Dfa>
        ensures { option_copied result ≡ set_at self.now slot.now }
    {
        match self.sets.get(slot) {
            Some(set) => Some(set.as_ref().set()),
            None => None,
        }
    }

    /// The text of a slot that holds one only.
    pub fn only_of(&self, slot: &Slot) -> Option<&[u8]>
        ensures { IsOnlyOf (holds self.now slot.now) (option_map (λ text. text.now) result) }
    {
        match self.sets.get(slot) {
            Some(set) => set.as_ref().only(),
            None => None,
        }
    }

    /// Gives a slot this set in place of its own.
    pub fn put(&mut self, alloc: Global, slot: Slot, set: Dfa) -> Result<(), NoMemory>
        ensures { OnOk result (Puts self.old slot set self.new) }
    {
        let shared = Rc::new(alloc, Shared::new(alloc, set)?)?;
        self.sets.insert(slot, shared)?;
        Ok(())
    }

    /// What is left of a room for states without those of the sets that are there; none where they don't fit.
    pub fn room_left(&self, room: u64) -> Option<u64>
        ensures { result ≡ room_left room (states_in self.now) }
    {
        let mut left = room;
        'sets: for (_slot, set) in self.sets() {
            let states = u64::from(set.as_ref().set().states());
            if left < states {
                return None;
            }
            left -= states;
        }
        Some(left)
    }

    /// The sets that are there, by their slots in order.
    pub(crate) fn sets(&self) -> &BTreeMap<Slot, Rc<Shared>>
        ensures { sets_in result.now.entries ≡ self.now }
    {
        &self.sets
    }
}

impl Clone for Cell {
    ghost is_clone = { λ cell copy. copy ≡ cell };

    fn clone(&self) -> Result<Cell, NoMemory> {
        Ok(Cell {
            sets: self.sets.clone()?,
        })
    }
}

/// The cell with this set in place of the slot's.
pub fn with(alloc: Global, cell: &Cell, slot: &Slot, set: &Dfa) -> Result<Cell, NoMemory>
    ensures { IfOk result (λ made. Puts cell.now slot.now set.now made) }
{
    let mut made = cell.clone()?;
    made.put(alloc, slot.clone()?, set.clone()?)?;
    Ok(made)
}

/// The cell with the slot's texts that are in the set, too.
pub fn restrict(alloc: Global, cell: &Cell, slot: &Slot, set: &Dfa) -> Result<Cell, NoMemory>
    ensures { IfOk result (λ made. Restricts cell.now slot.now (accepts set.now) made) }
{
    match cell.set_of(slot) {
        None => with(alloc, cell, slot, set),
        Some(own) => {
            let both = product(alloc, own, set, Keep::Both)?;
            let fewer = reduce(alloc, &both)?;
            with(alloc, cell, slot, &fewer)
        }
    }
}

/// The cell without the sets of variables.
pub fn without_variables(cell: &Cell) -> Result<Cell, NoMemory>
    ensures { IfOk result (λ made. LacksVariables cell.now made) }
{
    let mut made = cell.clone()?;
    'sets: for (slot, _set) in cell.sets() {
        if !slot.is_variable() {
            continue;
        }
        made.sets.remove(slot);
    }
    Ok(made)
}

/// Whether some slot holds no text.
pub fn is_empty(alloc: Global, cell: &Cell) -> Result<bool, NoMemory>
    ensures { IfOk result (λ found. IsTrue found ↔ HasEmptySlot cell.now) }
{
    'sets: for (_slot, set) in cell.sets() {
        if has_none(alloc, set.as_ref().set())? {
            return Ok(true);
        }
    }
    Ok(false)
}

/// Whether a set has no text.
pub(crate) fn has_none(alloc: Global, set: &Dfa) -> Result<bool, NoMemory>
    ensures { IfOk result (λ found. IsTrue found ↔ IsEmptySet (accepts set.now)) }
{
    let found = least(alloc, set)?;
    Ok(found.is_none())
}
