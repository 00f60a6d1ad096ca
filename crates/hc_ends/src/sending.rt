//! Where a leaf sends requests.
ghost use Rattle.std.specs.Prelude.{◌≡◌, IfOk};
ghost use Rattle.hc_abs_pass.specs.Ends.{left_of};
ghost use Rattle.hc_abs_rw.specs.Applied.{front_by, next_of};
ghost use Rattle.hc_cells.specs.declared.slot.Slot.TheVariants.{Location, Path};
ghost use Rattle.hc_ends.specs.Chains.{AreFrom, IsSentBy, IsSentOn};
ghost use Rattle.hc_ends.specs.Sending.{IsSentIn, sends_of};
ghost use Rattle.hc_plan.specs.Hands.{cell_of, set_in};
ghost use Rattle.hc_sent.specs.Making.{AreDirected, AreRuled};

use hc_abs_leaves::{Leaf, LeafEnd};
use hc_abs_pass::Left;
use hc_abs_rw::Next;
use hc_base::NoMemory;
use hc_cells::{Cell, Slot};
use hc_dfa::{Dfa, complement, listed};
use hc_model::{Caller, Redirect};
use hc_sent::{Part, redirect_parts, ruled_parts};
use hc_template::push_origin;
use std::alloc::Global;

/// The status of a redirect, and the parts of its location.
#[derive(Drop)]
pub(crate) struct Sent {
    pub(crate) status: u16,
    pub(crate) parts: Vec<Part>,
}

/// Where a leaf sends requests; nowhere where it is no redirect.
pub(crate) fn sent_at(alloc: Global, caller: &Caller, leaf: &Leaf) -> Result<Option<Sent>, NoMemory>
    ensures { IfOk result (IsSentIn caller.now leaf.now) }
{
    match &leaf.end {
        LeafEnd::Stopped(left) => sent_by(alloc, caller, left, &leaf.tied.cell),
        LeafEnd::Ruled(next) => sent_on(alloc, caller, *next, &leaf.tied.cell),
    }
}

/// Where a pass that ends so does.
fn sent_by(
    alloc: Global,
    caller: &Caller,
    left: &Left,
    cell: &Cell,
) -> Result<Option<Sent>, NoMemory>
    ensures { IfOk result (λ found. IsSentBy caller.now (cell_of cell.now) (left_of left.now) (sends_of found)) }
{
    match left {
        Left::Sent(redirect) => Ok(Some(Sent {
            status: redirect.status,
            parts: directed(alloc, caller, redirect, cell)?,
        })),
        _ => Ok(None),
    }
}

/// Where a rule does.
fn sent_on(
    alloc: Global,
    caller: &Caller,
    next: Next,
    cell: &Cell,
) -> Result<Option<Sent>, NoMemory>
    ensures { IfOk result (λ found. IsSentOn caller.now (cell_of cell.now) (next_of caller.now next) (sends_of found)) }
{
    match next {
        Next::Redirect {
            status,
            own,
            noescape,
        } => Ok(Some(Sent {
            status,
            parts: ruled(alloc, caller, own, noescape, cell)?,
        })),
        _ => Ok(None),
    }
}

/// By a redirect of a section.
fn directed(
    alloc: Global,
    caller: &Caller,
    redirect: &Redirect,
    cell: &Cell,
) -> Result<Vec<Part>, NoMemory>
    ensures { IfOk result (λ parts. AreFrom (AreDirected caller.now redirect.now) (cell_of cell.now) Path parts.items) }
{
    let paths = texts_of(alloc, cell, &Slot::Path)?;
    let queries = texts_of(alloc, cell, &Slot::Query)?;
    redirect_parts(alloc, caller, redirect, &paths, &queries)
}

/// By a rule.
fn ruled(
    alloc: Global,
    caller: &Caller,
    own: bool,
    noescape: bool,
    cell: &Cell,
) -> Result<Vec<Part>, NoMemory>
    ensures { IfOk result (λ parts. AreFrom (AreRuled (front_by own caller.now) noescape) (cell_of cell.now) Location
        parts.items) }
{
    let front = front_of(alloc, caller, own)?;
    let locations = texts_of(alloc, cell, &Slot::Location)?;
    let queries = texts_of(alloc, cell, &Slot::Query)?;
    ruled_parts(alloc, &front, noescape, &locations, &queries)
}

/// What stands in front of the location.
fn front_of(alloc: Global, caller: &Caller, own: bool) -> Result<Vec<u8>, NoMemory>
    ensures { IfOk result (λ front. front.items ≡ front_by own caller.now) }
{
    let mut front = Vec::new(alloc);
    if own {
        push_origin(&mut front, caller)?;
    }
    Ok(front)
}

/// The texts that a slot may have.
fn texts_of(alloc: Global, cell: &Cell, slot: &Slot) -> Result<Dfa, NoMemory>
    ensures { IfOk result (λ texts. cell_of cell.now slot.now ≡ set_in texts) }
{
    match cell.set_of(slot) {
        None => complement(alloc, &listed(alloc, &[])?),
        Some(set) => set.clone(),
    }
}
