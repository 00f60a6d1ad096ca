ghost use Rattle.std.specs.Prelude.{◌≡◌, ◌&&◌, not, IfOk};
ghost use Rattle.hc_cells.specs.Cells.{holds};
ghost use Rattle.hc_cells.specs.Containing.{Contains};
ghost use Rattle.hc_dfa.specs.Automata.{accepts};
ghost use Rattle.hc_dfa.specs.Texts.{IsLeastOf};

use crate::{Cell, Slot};
use hc_base::{NoMemory, Text};
use hc_dfa::{Dfa, Keep, Member, complement, least, product};
use std::alloc::Global;

/// Whether a cell is within another; else the first slot whose set isn't, and its least text outside.
#[derive(Drop)]
pub enum Containment {
    Yes,
    No { slot: Slot, text: Text },
}

/// Whether each text that a slot holds in the first cell it holds in the second, for each slot.
pub fn within(alloc: Global, a: &Cell, b: &Cell) -> Result<Containment, NoMemory>
    ensures { IfOk result (Contains a.now b.now) }
{
    'sets: for (slot, set) in b.sets() {
        if let Some(text) = outside(alloc, a, slot, set.as_ref().set())? {
            return Ok(Containment::No {
                slot: slot.clone()?,
                text: Text::copy_of(alloc, text.as_bytes())?,
            });
        }
    }
    Ok(Containment::Yes)
}

/// The least text that the slot holds in the cell and that is not in the set.
fn outside(alloc: Global, cell: &Cell, slot: &Slot, set: &Dfa) -> Result<Option<Member>, NoMemory>
    ensures { IfOk result (IsLeastOf (λ text. holds cell.now slot.now text && not (accepts set.now text))) }
{
    match cell.set_of(slot) {
        Some(own) => {
            let more = product(alloc, own, set, Keep::FirstOnly)?;
            least(alloc, &more)
        }
        None => {
            let more = complement(alloc, set)?;
            least(alloc, &more)
        }
    }
}
