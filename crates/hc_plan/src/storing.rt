ghost use Rattle.std.specs.Prelude.{IfOk};
ghost use Rattle.hc_plan.specs.Stores.{Stores};

use hc_base::NoMemory;
use hc_cells::{Cell, Slot, Ties, with};
use hc_dfa::Dfa;
use std::alloc::Global;

/// What is stored in a slot.
#[derive(Drop)]
pub struct Stored {
    pub slot: Slot,
    pub set: Dfa,
}

/// A cell, and which of its slots are tied.
#[derive(Drop)]
pub struct Tied {
    pub cell: Cell,
    pub ties: Ties,
}

/// The cell with these sets in place of those of their slots, which are tied to no others then.
pub fn store(alloc: Global, tied: Tied, stored: &[Stored]) -> Result<Tied, NoMemory>
    ensures { IfOk result (Stores tied.cell tied.ties stored.now) }
{
    let Tied { mut cell, mut ties } = tied;
    for one in stored {
        cell = with(alloc, &cell, &one.slot, &one.set)?;
        ties = ties.without(&one.slot);
    }
    Ok(Tied { cell, ties })
}
