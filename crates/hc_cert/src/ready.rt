//! The states of named cells.
ghost use Rattle.std.specs.Prelude.{◌≡◌, IfOk};
ghost use Rattle.hc_cert.specs.Cells.{ties_at};
ghost use Rattle.hc_cert.specs.Coded.{AreReady, IsAlways, IsReady, before_pass, met_at, met_by, named_in};
ghost use Rattle.hc_dfa.specs.Built.{Accepts};
ghost use Rattle.hc_dfa.specs.Texts.{TextSet};
ghost use Rattle.hc_plan.specs.Hands.{cell_of};

use hc_abs_start::clean_paths;
use hc_base::NoMemory;
use hc_cells::{Cell, Slot, Ties, restrict};
use hc_dfa::{Dfa, Keep, product, single};
use hc_invariant::{Cut, NamedCell};
use hc_plan::Tied;
use std::alloc::Global;

/// A named cell, and the states that it has.
#[derive(Drop)]
pub(crate) struct Ready<'c> {
    pub named: &'c NamedCell,
    pub tied: Tied,
}

/// What some slots hold in all cells.
#[derive(Drop)]
struct Always {
    paths: Dfa,
    ends: Dfa,
    nothing: Dfa,
}

impl Always {
    fn new(alloc: Global) -> Result<Always, NoMemory>
        ensures { IfOk result IsAlways }
    {
        let paths = clean_paths(alloc)?;
        let nothing = single(alloc, b"")?;
        let met = single(alloc, b"1")?;
        let ends = product(alloc, &nothing, &met, Keep::Either)?;
        Ok(Always {
            paths,
            ends,
            nothing,
        })
    }
}

/// States once more; the sets are shared.
pub(crate) fn copied(tied: &Tied) -> Result<Tied, NoMemory>
    ensures { IfOk result (λ copy. copy ≡ tied.now) }
{
    Ok(Tied {
        cell: tied.cell.clone()?,
        ties: tied.ties,
    })
}

/// The states of each cell.
pub(crate) fn made_ready(alloc: Global, cells: &[NamedCell]) -> Result<Vec<Ready<'_>>, NoMemory>
    ensures ready { IfOk result (λ found. AreReady found.items) }
    ensures named { IfOk result (λ found. named_in found.items ≡ cells.now) }
{
    let always = Always::new(alloc)?;
    let mut found = Vec::new(alloc);
    for named in cells {
        let tied = states_of(alloc, &always, named)?;
        found.push(Ready { named, tied })?;
    }
    Ok(found)
}

fn states_of(alloc: Global, always: &Always, named: &NamedCell) -> Result<Tied, NoMemory>
    requires { IsAlways always.now }
    ensures { IfOk result (IsReady named.now) }
{
    let paths = met(alloc, &named.cell, &Slot::Path, &always.paths)?;
    let ends = met(alloc, &paths, &Slot::End, &always.ends)?;
    let cell = met_by(alloc, always, &named.at, ends)?;
    Ok(Tied {
        cell,
        ties: ties_at(&named.at),
    })
}

/// By where they stand.
fn met_by(alloc: Global, always: &Always, at: &Cut, cell: Cell) -> Result<Cell, NoMemory>
    requires { IsAlways always.now }
    ensures { IfOk result (λ made. cell_of made ≡ met_by at.now (cell_of cell)) }
{
    match at {
        Cut::Pass => before_pass(alloc, always, &cell),
        Cut::Server | Cut::Dir(_) => Ok(cell),
    }
}

/// Before a pass the path is rewritten, and no file is found yet.
fn before_pass(alloc: Global, always: &Always, cell: &Cell) -> Result<Cell, NoMemory>
    requires { IsAlways always.now }
    ensures { IfOk result (λ made. cell_of made ≡ before_pass (cell_of cell.now)) }
{
    let path = met_with(alloc, cell, &Slot::Path, &Slot::Text)?;
    let text = met_with(alloc, &path, &Slot::Text, &Slot::Path)?;
    let name = met(alloc, &text, &Slot::Name, &always.nothing)?;
    met(alloc, &name, &Slot::Info, &always.nothing)
}

fn ties_at(at: &Cut) -> Ties
    ensures { result ≡ ties_at at.now }
{
    Ties {
        origin_path: false,
        text_path: matches!(at, Cut::Pass),
        text_name: false,
        query_first: false,
    }
}

/// The cell with those of the slot's texts that are in the set.
fn met(alloc: Global, cell: &Cell, slot: &Slot, set: &Dfa) -> Result<Cell, NoMemory>
    ensures { IfOk result (λ made. (own : TextSet) → Accepts set.now own
        → cell_of made ≡ met_at slot.now own (cell_of cell.now)) }
{
    restrict(alloc, cell, slot, set)
}

/// The cell with those of the slot's texts that another slot may hold, too.
fn met_with(alloc: Global, cell: &Cell, slot: &Slot, other: &Slot) -> Result<Cell, NoMemory>
    ensures { IfOk result (λ made. cell_of made ≡ met_at slot.now (cell_of cell.now other.now) (cell_of cell.now)) }
{
    match cell.set_of(other) {
        Some(set) => restrict(alloc, cell, slot, set),
        None => {
            let copy = cell.clone()?;
            Ok(copy)
        },
    }
}
