//! The verdict on an invariant.
ghost use Rattle.std.specs.Prelude.{◌≡◌, ◌≤◌, ◌++◌, ℕ, IfOk, OnOk, false, length};
ghost use Rattle.hc_abs_left.specs.Grounds.{Stands, world_in};
ghost use Rattle.hc_abs_pass.specs.Walks.{IsListed};
ghost use Rattle.hc_cert.specs.Checking.{IsVerdict, with_cells};
ghost use Rattle.hc_cert.specs.Coded.{AreReady, AreWalkedIn, IsSaidFor, IsSaidOf, LeaveBytesIn, named_in};
ghost use Rattle.hc_cert.specs.Conditions.{bounds_of};
ghost use Rattle.hc_cert.specs.declared.verdict.TheConstants.{MOST_CELLS};
ghost use Rattle.hc_claim.specs.Asking.{host_of};
ghost use Rattle.hc_claim.specs.Trying.{asked_in};
ghost use Rattle.hc_claim.specs.Walking.{Fits};
ghost use Rattle.hc_model.specs.World.{IsWorld};
ghost use Rattle.hc_model.specs.declared.request.Caller.{Caller};
ghost use Rattle.hc_serve.specs.Lent.{Lends, Returns};
ghost use Rattle.hc_steps.specs.Shown.{shown_by};
ghost use Rattle.hc_vhost.specs.Servers.{IsHostOf};

use crate::bounds::Bounds;
use crate::faults::{Scene, first_of};
use crate::ready::{Ready, made_ready};
use crate::seeing::leave_bytes;
use crate::starting::{begins, too_many};
use crate::verdict::{Condition, MOST_CELLS, Rejection, Verdict, bare};
use crate::walking::{Walked, branches_of_each};
use hc_abs_left::Ground;
use hc_abs_rw::Around;
use hc_abs_start::sole_client;
use hc_base::{List, NoMemory, Text};
use hc_claim::{MOST_STATES, Question, tests_of};
use hc_invariant::NamedCell;
use hc_model::{Config, HostId, Overrides};
use hc_named::{Names, names_in};
use hc_rank::shrinks;
use hc_scope::Claim;
use hc_serve::{maps_at, most_passes, rules_at};
use hc_vhost::choose;
use std::alloc::Global;

/// Whether the invariant of these cells is accepted for a claim. `over` reads the `.htaccess` files of the world.
pub fn check<O: Overrides>(
    alloc: Global,
    question: Question<'_>,
    cells: &[NamedCell],
    over: &mut O,
) -> Result<Verdict, NoMemory>
    requires { Lends O.reading O.size (O.fixed over.old) question.world.now.files question.config.now }
    ensures verdict { IfOk result (λ verdict. (levels : ℕ)
        → IsListed levels (shown_by question.entry.world.now.files)
        → IsVerdict (asked_in question.entry) cells.now levels verdict) }
    ensures valid { OnOk result (IsWorld question.entry.world.now.files) }
    ensures over { Returns O.fixed O.loaded over }
{
    let scope = question.scope;
    let host = choose(
        question.config,
        scope.server,
        scope.port,
        scope.host.as_bytes(),
    );
    let mut names = names_in(alloc, question.config, host, question.world, over)?;
    if cells.len() > MOST_CELLS {
        let said = bare(alloc, Condition::Size, MOST_CELLS as u32);
        return Ok(Verdict::Rejected(said));
    }
    add_variables(cells, &mut names)?;
    match said_at(alloc, question, host, &names, cells, over)? {
        Some(said) => Ok(Verdict::Rejected(said)),
        None => Ok(Verdict::Accepted),
    }
}

/// The variables of the cells are looked at, too.
fn add_variables(cells: &[NamedCell], names: &mut Names) -> Result<(), NoMemory>
    ensures { OnOk result (names.new ≡ with_cells names.old cells.now) }
{
    for own in cells {
        add_each(own.variables.as_slice(), &mut names.variables)?;
    }
    Ok(())
}

fn add_each(variables: &[Text], names: &mut List<Text>) -> Result<(), NoMemory>
    ensures { OnOk result (names.new ≡ names.old ++ variables.now) }
{
    for name in variables {
        names.push(name.clone()?)?;
    }
    Ok(())
}

/// At the server that answers the requests of the scope.
fn said_at<O: Overrides>(
    alloc: Global,
    question: Question<'_>,
    host: HostId,
    names: &Names,
    cells: &[NamedCell],
    over: &mut O,
) -> Result<Option<Rejection>, NoMemory>
    requires few { length cells.now ≤ MOST_CELLS }
    requires host { host ≡ host_of (asked_in question) }
    requires place { IsHostOf question.config.now host }
    requires over { Lends O.reading O.size (O.fixed over.old) question.world.now.files question.config.now }
    ensures said { IfOk result (IsSaidFor (asked_in question.entry) names.now cells.now) }
    ensures bytes { OnOk result (LeaveBytesIn (asked_in question.entry) names.now cells.now) }
    ensures over { Returns O.fixed O.loaded over }
{
    let tests = tests_of(alloc, question, host)?;
    let maps = maps_at(question.config, host)?;
    let around = Around::new(alloc, question.world, maps.as_slice())?;
    let looked = names.variables.as_slice();
    let ground = Ground {
        config: question.config,
        host,
        net: &question.scope.client,
        client: sole_client(&question.scope.client),
        tests: &tests,
        around: &around,
        last: false,
        names: looked,
        room: MOST_STATES,
    };
    said_on(alloc, question, ground, names, cells, over)
}

fn said_on<O: Overrides>(
    alloc: Global,
    question: Question<'_>,
    ground: Ground<'_>,
    names: &Names,
    cells: &[NamedCell],
    over: &mut O,
) -> Result<Option<Rejection>, NoMemory>
    requires few { length cells.now ≤ MOST_CELLS }
    requires ground { Stands ground }
    requires last { ground.last ≡ false }
    requires fits { Fits (asked_in question) names.now ground }
    requires over { Lends O.reading O.size (O.fixed over.old) (world_in ground) ground.config.now }
    ensures said { IfOk result (IsSaidFor (asked_in question.entry) names.now cells.now) }
    ensures bytes { OnOk result (LeaveBytesIn (asked_in question.entry) names.now cells.now) }
    ensures over { Returns O.fixed O.loaded over }
{
    let ready = made_ready(alloc, cells)?;
    let lent = ready.as_slice();
    leave_bytes(alloc, ground, lent)?;
    let walked = branches_of_each(alloc, ground, over, lent)?;
    let found = walked.as_slice();
    said_of(alloc, question, ground, names, lent, found)
}

/// By the branches of all cells.
fn said_of(
    alloc: Global,
    question: Question<'_>,
    ground: Ground<'_>,
    names: &Names,
    cells: &[Ready<'_>],
    walked: &[Walked<'_>],
) -> Result<Option<Rejection>, NoMemory>
    requires few { length walked.now ≤ MOST_CELLS }
    requires ready { AreReady cells.now }
    requires place { IsHostOf ground.config.now ground.host }
    requires fits { Fits (asked_in question) names.now ground }
    requires walked { AreWalkedIn ground (asked_in question) names.now (named_in cells.now) walked.now }
    ensures { IfOk result (IsSaidFor (asked_in question.entry) names.now (named_in cells.now)) }
{
    if let Some(said) = too_many(alloc, walked) {
        return Ok(Some(said));
    }
    if let Some(said) = begins(alloc, question.scope, names, cells)? {
        return Ok(Some(said));
    }
    let bounds = bounds_at(alloc, ground.config, ground.host)?;
    let scene = Scene {
        claim: question.claim,
        cells,
        bounds,
    };
    by_branches(alloc, scene, walked)
}

fn bounds_at(alloc: Global, config: &Config, host: HostId) -> Result<Bounds, NoMemory>
    requires { IsHostOf config.now host }
    ensures { (caller : Caller) → IfOk result (λ bounds. bounds
        ≡ bounds_of (record { config = config.now; host = host; caller = caller })) }
{
    let rules = rules_at(alloc, config, host)?;
    Ok(Bounds {
        passes: most_passes(config, host),
        shrinks: shrinks(rules.as_slice(), false),
    })
}

/// What the conditions say of the branches.
fn by_branches(
    alloc: Global,
    scene: Scene<'_>,
    walked: &[Walked<'_>],
) -> Result<Option<Rejection>, NoMemory>
    requires few { length walked.now ≤ MOST_CELLS }
    requires ready { AreReady scene.cells.now }
    ensures { IfOk result (IsSaidOf scene.entry walked.now) }
{
    if let Some(said) = first_of(alloc, scene, Condition::Arrivals, walked)? {
        return Ok(Some(said));
    }
    if let Some(said) = first_of(alloc, scene, Condition::Ends, walked)? {
        return Ok(Some(said));
    }
    match scene.claim {
        Claim::Stops => first_of(alloc, scene, Condition::Ranks, walked),
        _ => Ok(None),
    }
}
