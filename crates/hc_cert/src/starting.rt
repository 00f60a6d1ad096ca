//! Whether the requests of a scope begin in a cell, and how much there is to look at.
ghost use Rattle.std.specs.Prelude.{◌≡◌, ◌≤◌, IfOk, length};
ghost use Rattle.hc_cert.specs.Coded.{AreReady, BeginsIn, IsTooManyOf, named_in};
ghost use Rattle.hc_cert.specs.declared.verdict.TheConstants.{MOST_CELLS};

use crate::belonging::{belongs, lacking};
use crate::ready::Ready;
use crate::verdict::{Condition, MOST_BRANCHES, Rejection, bare};
use crate::walking::Walked;
use hc_abs_start::start;
use hc_base::NoMemory;
use hc_invariant::Cut;
use hc_named::Names;
use hc_scope::Scope;
use std::alloc::Global;

/// The first cell with too many branches.
pub(crate) fn too_many(alloc: Global, walked: &[Walked<'_>]) -> Option<Rejection>
    requires { length walked.now ≤ MOST_CELLS }
    ensures { IsTooManyOf walked.now result }
{
    let mut number = 0;
    for own in walked {
        let branches = own.branches.as_slice();
        if branches.len() > MOST_BRANCHES {
            return Some(bare(alloc, Condition::Size, number));
        }
        number += 1;
    }
    None
}

/// Whether the requests of a scope begin in no cell.
pub(crate) fn begins(
    alloc: Global,
    scope: &Scope,
    names: &Names,
    cells: &[Ready<'_>],
) -> Result<Option<Rejection>, NoMemory>
    requires { AreReady cells.now }
    ensures { IfOk result (BeginsIn scope.now names.now (named_in cells.now)) }
{
    let variables = names.variables.as_slice();
    let tied = start(alloc, scope, variables, names.headers.as_slice())?;
    if let Some(_own) = belongs(alloc, cells, &Cut::Pass, &tied.cell)? {
        return Ok(None);
    }
    let text = lacking(alloc, cells, &Cut::Pass, &tied.cell)?;
    let own = bare(alloc, Condition::Start, 0);
    Ok(Some(Rejection { text, ..own }))
}
