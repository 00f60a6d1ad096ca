//! That the sections that are in force see a query of bytes.
ghost use Rattle.std.specs.Prelude.{◌≡◌, IfOk, false};
ghost use Rattle.std.specs.List.{AllByRecursion, list_any};
ghost use Rattle.hc_abs_left.specs.Grounds.{Stands};
ghost use Rattle.hc_cert.specs.Checking.{is_dir};
ghost use Rattle.hc_cert.specs.Coded.{AreReady, HasServerBytes, IsReady, LeaveBytesIn, LeavesBytesIn, begun, named_in};
ghost use Rattle.hc_claim.specs.Asking.{Asked};
ghost use Rattle.hc_claim.specs.Walking.{Fits};
ghost use Rattle.hc_named.specs.declared.names.Names.{Names};

use crate::ready::{Ready, copied};
use hc_abs_left::Ground;
use hc_abs_pass::{SoFar, list_branches};
use hc_abs_rw::Frame;
use hc_alias::root_of;
use hc_base::{List, NoMemory};
use hc_cells::is_empty;
use hc_invariant::Cut;
use hc_plan::Tied;
use hc_serve::rules_at;
use std::alloc::Global;

/// Whatever the server's list leaves from these cells has a query of bytes: so have all branches in code, and they are
/// walked where a cell is at a directory's list.
pub(crate) fn leave_bytes(
    alloc: Global,
    ground: Ground<'_>,
    cells: &[Ready<'_>],
) -> Result<(), NoMemory>
    requires ready { AreReady cells.now }
    requires ground { Stands ground }
    requires last { ground.last ≡ false }
    ensures { (asked : Asked) → (names : Names) → Fits asked names ground.entry
        → IfOk result (λ done. LeaveBytesIn asked names (named_in cells.now)) }
{
    if is_any_at_dir(cells) {
        each_leaves_bytes(alloc, ground, cells)
    } else {
        Ok(())
    }
}

fn each_leaves_bytes(alloc: Global, ground: Ground<'_>, cells: &[Ready<'_>]) -> Result<(), NoMemory>
    requires ready { AreReady cells.now }
    requires ground { Stands ground }
    requires last { ground.last ≡ false }
    ensures { (asked : Asked) → (names : Names) → Fits asked names ground.entry
        → IfOk result (λ done. AllByRecursion (LeavesBytesIn asked names) (named_in cells.now)) }
{
    for own in cells {
        leaves_bytes(alloc, ground, own)?;
    }
    Ok(())
}

fn is_any_at_dir(cells: &[Ready<'_>]) -> bool
    ensures { result ≡ list_any (λ own. is_dir own.at) (named_in cells.now) }
{
    for own in cells {
        if is_dir(&own.named.at) {
            return true;
        }
    }
    false
}

fn is_dir(at: &Cut) -> bool
    ensures { result ≡ is_dir at.now }
{
    matches!(at, Cut::Dir(_))
}

/// The branches of one round of the server's list have sets of texts of bytes alone.
fn leaves_bytes(alloc: Global, ground: Ground<'_>, own: &Ready<'_>) -> Result<(), NoMemory>
    requires ready { IsReady own.now.named.now own.now.tied }
    requires ground { Stands ground }
    requires last { ground.last ≡ false }
    ensures { (asked : Asked) → (names : Names) → Fits asked names ground.entry
        → IfOk result (λ done. LeavesBytesIn asked names own.now.named.now) }
{
    if is_dir(&own.named.at) {
        return Ok(());
    }
    let none = is_empty(alloc, &own.tied.cell)?;
    if none {
        return Ok(());
    }
    let tied = copied(&own.tied)?;
    walk_list(alloc, ground, tied)
}

/// One round of the server's list is walked.
fn walk_list(alloc: Global, ground: Ground<'_>, tied: Tied) -> Result<(), NoMemory>
    requires { Stands ground }
    ensures { IfOk result (λ done. HasServerBytes ground.entry tied) }
{
    let frame = Frame {
        tests: ground.tests,
        root: root_of(ground.config, ground.host),
        engine: None,
        client: ground.client,
        around: ground.around,
        room: ground.room,
    };
    let so_far = begun(alloc);
    let rules = rules_at(alloc, ground.config, ground.host)?;
    let _listed = list_branches(alloc, &frame, rules.as_slice(), so_far, tied)?;
    Ok(())
}

/// Nothing was decided yet.
fn begun(alloc: Global) -> SoFar
    ensures { result ≡ begun }
{
    SoFar {
        decisions: List::new(alloc),
        substituted: false,
        replaced: false,
    }
}
