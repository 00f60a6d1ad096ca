//! Whether rules left the file name as it was, over a set of requests.
ghost use Rattle.std.specs.Prelude.{true, false, IfOk};
ghost use Rattle.hc_cells.specs.Cells.{holds};
ghost use Rattle.hc_dfa.specs.Built.{Accepts};
ghost use Rattle.hc_abs_restart.specs.Choosing.{IsAnswer, MaySay};

use hc_base::NoMemory;
use hc_cells::{Cell, Slot};
use hc_dfa::{Dfa, Keep, least, product};
use hc_plan::{Tied, every_text};
use std::alloc::Global;

/// The texts that a slot holds.
pub(crate) fn texts_at(alloc: Global, cell: &Cell, slot: &Slot) -> Result<Dfa, NoMemory>
    ensures { IfOk result (λ made. Accepts made (holds cell.now slot.now)) }
{
    match cell.set_of(slot) {
        Some(set) => {
            let copy = set.clone()?;
            Ok(copy)
        }
        None => every_text(alloc),
    }
}

/// Whether the text may be the file name.
pub(crate) fn may_be_same(alloc: Global, tied: &Tied) -> Result<bool, NoMemory>
    ensures { IfOk result (IsAnswer (MaySay tied.now true)) }
{
    let texts = texts_at(alloc, &tied.cell, &Slot::Text)?;
    let names = texts_at(alloc, &tied.cell, &Slot::Name)?;
    let both = product(alloc, &texts, &names, Keep::Both)?;
    let found = least(alloc, &both)?;
    match found {
        None => Ok(false),
        Some(_text) => Ok(true),
    }
}

/// Whether the text may be another than the file name: they are not tied, and not one text alone.
pub(crate) fn may_differ(tied: &Tied) -> bool
    ensures { IsAnswer (MaySay tied.now false) result }
{
    if tied.ties.text_name {
        return false;
    }
    let Some(text) = tied.cell.only_of(&Slot::Text) else {
        return true;
    };
    let Some(name) = tied.cell.only_of(&Slot::Name) else {
        return true;
    };
    text != name
}
