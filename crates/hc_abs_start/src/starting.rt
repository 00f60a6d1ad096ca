//! What is known of the requests of a scope before their first pass.
ghost use Rattle.std.specs.Prelude.{◌≡◌, map, IfOk};
ghost use Rattle.hc_cells.specs.declared.slot.Slot.TheVariants as slot;
ghost use Rattle.hc_dfa.specs.Built.{Accepts};
ghost use Rattle.hc_dfa.specs.Texts.{TextSet};
ghost use Rattle.hc_plan.specs.Hands.{cell_of};
ghost use Rattle.hc_plan.specs.Texts.{of_bytes};
ghost use Rattle.hc_abs_pass.specs.Walks.{is_empty};
ghost use Rattle.hc_abs_start.specs.Starting.{emptied, named, of_target, put_each};
ghost use Rattle.hc_abs_start.specs.Starts.{IsStart, first_ties};

use crate::bytes::{Bytes, texts_of};
use crate::sets::{paths, queries};
use hc_base::{List, NoMemory, Text};
use hc_cells::{Cell, Slot, Ties};
use hc_dfa::{Dfa, listed, single};
use hc_plan::Tied;
use hc_scope::Scope;
use std::alloc::Global;

/// The states before the first pass of the requests of a scope, where these variables and headers are looked at; names
/// of headers are in lower case.
pub fn start(
    alloc: Global,
    scope: &Scope,
    variables: &[Text],
    headers: &[Text],
) -> Result<Tied, NoMemory>
    ensures { IfOk result (IsStart scope.now variables.now headers.now) }
{
    let named = with_names(alloc, variables, headers)?;
    let emptied = with_nothing(alloc, &named)?;
    let targets = with_targets(alloc, scope, &emptied)?;
    let methods = listed(alloc, scope.methods.as_slice())?;
    let cell = with_each(alloc, &targets, &[Slot::Method], &methods)?;
    Ok(Tied {
        cell,
        ties: first_ties(),
    })
}

/// The path is the target's, and so are the text and the query.
fn first_ties() -> Ties
    ensures { result ≡ first_ties }
{
    Ties {
        origin_path: true,
        text_path: true,
        text_name: false,
        query_first: true,
    }
}

/// The cell with this set in place of that of each of these slots.
fn with_each(alloc: Global, before: &Cell, slots: &[Slot], set: &Dfa) -> Result<Cell, NoMemory>
    ensures { IfOk result (λ made. (own : TextSet) → Accepts set.now own
        → cell_of made ≡ put_each slots.now (of_bytes own) (cell_of before.now)) }
{
    let mut cell = before.clone()?;
    for slot in slots {
        cell.put(alloc, slot.clone()?, set.clone()?)?;
    }
    Ok(cell)
}

/// The cell in which these variables and headers are looked at: no variable is set.
fn with_names(alloc: Global, variables: &[Text], headers: &[Text]) -> Result<Cell, NoMemory>
    ensures { IfOk result (λ made. cell_of made ≡ named variables.now headers.now) }
{
    let bare = Cell::all(alloc)?;
    let unset = variable_slots(alloc, variables)?;
    let begun = with_each(alloc, &bare, unset.as_slice(), &nothing(alloc)?)?;
    let sent = header_slots(alloc, headers)?;
    let made = with_each(
        alloc,
        &begun,
        sent.as_slice(),
        &texts_of(alloc, Bytes::Value)?,
    )?;
    Ok(made)
}

fn variable_slots(alloc: Global, names: &[Text]) -> Result<List<Slot>, NoMemory>
    ensures { IfOk result (λ slots. slots ≡ map slot.Env names.now) }
{
    let mut slots = List::new(alloc);
    for name in names {
        slots.push(Slot::Env(name.clone()?))?;
    }
    Ok(slots)
}

fn header_slots(alloc: Global, names: &[Text]) -> Result<List<Slot>, NoMemory>
    ensures { IfOk result (λ slots. slots ≡ map slot.Header names.now) }
{
    let mut slots = List::new(alloc);
    for name in names {
        slots.push(Slot::Header(name.clone()?))?;
    }
    Ok(slots)
}

/// The empty text.
fn nothing(alloc: Global) -> Result<Dfa, NoMemory>
    ensures { IfOk result (λ made. Accepts made is_empty) }
{
    let made = single(alloc, b"")?;
    Ok(made)
}

/// The cell in which no file is found yet, and END was not met.
fn with_nothing(alloc: Global, cell: &Cell) -> Result<Cell, NoMemory>
    ensures { IfOk result (λ made. cell_of made ≡ emptied (cell_of cell.now)) }
{
    let nothing = nothing(alloc)?;
    let slots = [Slot::Name, Slot::Info, Slot::End, Slot::Location];
    let made = with_each(alloc, cell, &slots, &nothing)?;
    Ok(made)
}

/// The cell in which the slots of the target have the paths and queries of the scope.
fn with_targets(alloc: Global, scope: &Scope, cell: &Cell) -> Result<Cell, NoMemory>
    ensures { IfOk result (λ made. cell_of made ≡ of_target scope.now (cell_of cell.now)) }
{
    let paths = paths(alloc, scope)?;
    let found = with_each(alloc, cell, &[Slot::Origin, Slot::Path, Slot::Text], &paths)?;
    let queries = queries(alloc, scope)?;
    let made = with_each(alloc, &found, &[Slot::Query, Slot::FirstQuery], &queries)?;
    Ok(made)
}
