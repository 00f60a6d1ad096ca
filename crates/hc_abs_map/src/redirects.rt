//! The first redirect that takes the URL path (Apache manual, mod_alias).
ghost use Rattle.std.specs.Prelude.{◌≡◌, ◌≤◌, ◌∷◌, [], IfOk, OnOk, None};
ghost use Rattle.hc_abs_pass.specs.Ends.{left_of};
ghost use Rattle.hc_abs_pass.specs.Mapping.{left_by};
ghost use Rattle.hc_abs_rw.specs.RuleBranches.{states_of};
ghost use Rattle.hc_plan.specs.Plan.{done};
ghost use Rattle.hc_abs_map.specs.Along.{Adds, AreOn};
ghost use Rattle.hc_abs_map.specs.Entries.{AddsSent, GoesRedirects};
ghost use Rattle.hc_abs_map.specs.Mapped.{AreRedirected, RedirectedFits};

use crate::entries::{taking, tied_on};
use hc_abs_pass::Left;
use hc_abs_rw::{Celled, Ways, fit};
use hc_base::NoMemory;
use hc_cells::{Cell, Ties};
use hc_model::Redirect;
use hc_plan::{Tied, Way};
use hc_target::is_redirection;
use std::alloc::Global;

/// What redirects leave: one that takes the path, and how the pass ends by it, or none.
#[derive(Drop)]
pub struct Redirected {
    pub tied: Tied,
    pub left: Option<Left>,
}

impl Celled for Redirected {
    ghost cell = { λ redirected. redirected.tied.cell };

    fn cell(&self) -> &Cell {
        &self.tied.cell
    }
}

/// The branches of a list of redirects over the states of a set of requests. Branches that have more states together
/// than there is room for are refused as memory is.
pub fn redirect_branches(
    alloc: Global,
    redirects: &[Redirect],
    tied: Tied,
    room: u64,
) -> Result<Vec<Redirected>, NoMemory>
    ensures branches { IfOk result (λ found. AreRedirected redirects.now tied found.items) }
    ensures room { IfOk result (λ found. states_of (λ one. one.tied.cell) found.items ≤ room) }
{
    let mut found = Vec::new(alloc);
    let rest = past_redirects(alloc, redirects, Some(tied), &mut found)?;
    add_untaken(rest, &mut found)?;
    if !fit(&found, room) {
        return Err(NoMemory);
    }
    Ok(found)
}

/// Adds the ways on which a redirect takes the path, and goes on where none does.
pub(crate) fn past_redirects(
    alloc: Global,
    redirects: &[Redirect],
    before: Option<Tied>,
    found: &mut Vec<Redirected>,
) -> Result<Option<Tied>, NoMemory>
    ensures { IfOk result (λ rest. GoesRedirects redirects.now before rest found.old.items found.new.items) }
{
    let mut rest = before;
    for redirect in redirects {
        rest = past_redirect(alloc, redirect, rest, found)?;
    }
    Ok(rest)
}

fn past_redirect(
    alloc: Global,
    redirect: &Redirect,
    before: Option<Tied>,
    found: &mut Vec<Redirected>,
) -> Result<Option<Tied>, NoMemory>
    ensures { IfOk result (λ rest. GoesRedirects (redirect.now ∷ []) before rest found.old.items found.new.items) }
{
    let Some(tied) = before else {
        return Ok(None);
    };
    let ways = taking(alloc, &redirect.from, &tied)?;
    let Ways { held, failed } = ways;
    add_sent(redirect, tied.ties, held, found)?;
    Ok(tied_on(tied.ties, failed))
}

/// Adds the way on which a redirect takes the path.
fn add_sent(
    redirect: &Redirect,
    ties: Ties,
    way: Option<Way>,
    found: &mut Vec<Redirected>,
) -> Result<(), NoMemory>
    ensures { OnOk result (AddsSent redirect.now ties way found.old.items found.new.items) }
{
    let Some(way) = way else {
        return Ok(());
    };
    let tied = Tied {
        cell: way.cell,
        ties,
    };
    let sent = left_by(redirect)?;
    let left = Some(sent);
    found.push(Redirected { tied, left })?;
    Ok(())
}

/// How a redirect ends the pass: another status is answered as it is.
fn left_by(redirect: &Redirect) -> Result<Left, NoMemory>
    ensures { IfOk result (λ left. left_of left ≡ left_by redirect.now) }
{
    if is_redirection(redirect.status) {
        return Ok(Left::Sent(redirect.clone()?));
    }
    Ok(Left::Status(redirect.status))
}

/// Adds what is left where no redirect takes the path.
pub(crate) fn add_untaken(rest: Option<Tied>, found: &mut Vec<Redirected>) -> Result<(), NoMemory>
    ensures { OnOk result (Adds (AreOn RedirectedFits rest (done None)) found.old.items found.new.items) }
{
    let Some(tied) = rest else {
        return Ok(());
    };
    found.push(Redirected { tied, left: None })?;
    Ok(())
}
