//! To which cell a branch leads.
ghost use Rattle.std.specs.Prelude.{◌≡◌, None, IfOk, option_map};
ghost use Rattle.hc_abs_view.specs.Seen.{IsAnswer};
ghost use Rattle.hc_cert.specs.Cells.{Belongs, IsOutside, IsWithin, Lacks, LiesIn, same_cut};
ghost use Rattle.hc_cert.specs.Coded.{AreReady, IsReady, led_in, named_in};
ghost use Rattle.hc_plan.specs.Hands.{cell_of};

use crate::ready::Ready;
use hc_abs_left::Finish;
use hc_abs_pass::Left;
use hc_base::{NoMemory, Text};
use hc_cells::{Cell, Containment, within};
use hc_invariant::{Cut, NamedCell};
use std::alloc::Global;

/// Where a branch leads, unless it ends the request.
pub(crate) fn led_to(finish: &Finish) -> Result<Option<Cut>, NoMemory>
    ensures { IfOk result (λ at. at ≡ led_in finish.now) }
{
    match finish {
        Finish::Stopped(Left::NextPass) => Ok(Some(Cut::Pass)),
        Finish::Stopped(_) => Ok(None),
        Finish::Ruled(_) => Ok(None),
        Finish::ServerRound { .. } => Ok(Some(Cut::Server)),
        Finish::DirRound { settings, .. } => match &settings.force.dir {
            Some(dir) => Ok(Some(Cut::Dir(dir.clone()?))),
            None => Ok(None),
        },
    }
}

/// The first of these cells at a cut in which the states lie.
pub(crate) fn belongs<'c>(
    alloc: Global,
    cells: &[Ready<'c>],
    at: &Cut,
    states: &Cell,
) -> Result<Option<&'c NamedCell>, NoMemory>
    requires { AreReady cells.now }
    ensures { IfOk result (λ found. Belongs (cell_of states.now) at.now (named_in cells.now)
        (option_map (λ own. own.now) found)) }
{
    for own in cells {
        if lies_in(alloc, own, at, states)? {
            return Ok(Some(own.named));
        }
    }
    Ok(None)
}

fn lies_in(alloc: Global, own: &Ready<'_>, at: &Cut, states: &Cell) -> Result<bool, NoMemory>
    requires { IsReady own.now.named.now own.now.tied }
    ensures { IfOk result (IsAnswer (LiesIn (cell_of states.now) at.now own.now.named.now)) }
{
    if same_cut(&own.named.at, at) {
        is_within(alloc, own, states)
    } else {
        Ok(false)
    }
}

fn is_within(alloc: Global, own: &Ready<'_>, states: &Cell) -> Result<bool, NoMemory>
    requires { IsReady own.now.named.now own.now.tied }
    ensures { IfOk result (IsAnswer (IsWithin (cell_of states.now) own.now.named.now)) }
{
    match within(alloc, states, &own.tied.cell)? {
        Containment::Yes => Ok(true),
        Containment::No { .. } => Ok(false),
    }
}

/// The least text that the first cell at the cut lacks, in the first slot of which it lacks one.
pub(crate) fn lacking(
    alloc: Global,
    cells: &[Ready<'_>],
    at: &Cut,
    states: &Cell,
) -> Result<Text, NoMemory>
    requires ready { AreReady cells.now }
    requires none { Belongs (cell_of states.now) at.now (named_in cells.now) None }
    ensures { IfOk result (Lacks (cell_of states.now) at.now (named_in cells.now)) }
{
    for own in cells {
        if same_cut(&own.named.at, at) {
            return outside(alloc, own, states);
        }
    }
    Ok(Text::new(alloc))
}

fn outside(alloc: Global, own: &Ready<'_>, states: &Cell) -> Result<Text, NoMemory>
    requires ready { IsReady own.now.named.now own.now.tied }
    requires none { IsWithin (cell_of states.now) own.now.named.now → ⊥ }
    ensures { IfOk result (IsOutside (cell_of states.now) own.now.named.now) }
{
    match within(alloc, states, &own.tied.cell)? {
        Containment::No { text, .. } => Ok(text),
        Containment::Yes => Ok(Text::new(alloc)),
    }
}

pub(crate) fn same_cut(one: &Cut, other: &Cut) -> bool
    ensures { result ≡ same_cut one.now other.now }
{
    match (one, other) {
        (Cut::Pass, Cut::Pass) => true,
        (Cut::Server, Cut::Server) => true,
        (Cut::Dir(one), Cut::Dir(other)) => one == other,
        _ => false,
    }
}
