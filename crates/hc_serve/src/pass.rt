ghost use Rattle.std.specs.Prelude.{◌≡◌, None, IfOk};
ghost use Rattle.hc_serve.specs.Lent.{Counts, Lends, Returns};
ghost use Rattle.hc_serve.specs.DirectoryRules.{query_left};
ghost use Rattle.hc_serve.specs.Passing.{admitted, admitted_by, answered, answered_by, finished_there};
ghost use Rattle.hc_serve.specs.Passing.{mapped_at, merged, name_of, outcome_at, passed, passed_from, passed_there};
ghost use Rattle.hc_serve.specs.Passing.{reached, seen_there, sent_by, sent_there, stopped, told_pass, walked};
ghost use Rattle.hc_serve.specs.Passing.{without_dots};
ghost use Rattle.hc_serve.specs.Site.{site_of};
ghost use Rattle.hc_steps.specs.Ran.{Takes, Tells};
ghost use Rattle.hc_steps.specs.Shown.{shown_by};
ghost use Rattle.hc_steps.specs.Walking.{walk};

use crate::admission::{FORBIDDEN, authorized, lets_in};
use crate::asked::Asked;
use crate::directory_rules::rewritten_there;
use crate::force::in_force;
use crate::naming::named;
use crate::restart::restarted;
use crate::server_rules::rewritten;
use crate::stage::{Ended, Here, Named, Pass, Placed, Restarted, Stop, Walked};
use hc_alias::{Away, directory_redirect, map_url};
use hc_base::paths::{has_dots, merge_slashes};
use hc_base::{Fault, NoMemory, Text, copy_option};
use hc_model::{Authorized, Effective, Event, Kind, Outcome, Overrides, Reason, Requirement, Walk};
use hc_rw_expand::RwState;
use hc_steps::Log;
use hc_world::{World, follow};
use std::alloc::Global;

/// A pass: it ends the request, or leaves the pass that follows it.
#[tactic(auto, unfolding(crate::specs::Passing::passed), using(crate::proofs::Trees::treed))]
pub(crate) fn passed<O: Overrides>(
    asked: &Asked<'_>,
    log: &mut Log,
    over: &mut O,
    pass: Pass,
) -> Result<Restarted, Fault<Ended>>
    requires over { Lends O.reading O.size (O.fixed over.old) asked.now.world.now.files asked.now.config.now }
    ensures step { Takes result log (passed (site_of asked.now) pass) (shown_by asked.now.world.now.files) }
    ensures over { Returns O.fixed O.loaded over }
    ensures counted { Counts result asked.now.world.now.files (passed (site_of asked.now) pass)
        O.counted over }
{
    match reached(asked, log, over, pass) {
        Ok(here) => passed_from(asked, log, here),
        Err(fault) => Err(stopped_before(log.allocator(), fault)),
    }
}

// What ends a pass, with the tree that was in force.
pub(crate) fn stopped(require: Requirement, fault: Stop) -> Fault<Ended>
    ensures { result ≡ stopped require fault }
{
    match fault {
        Fault::Refused(outcome) => Fault::Refused(Ended { outcome, require }),
        Fault::NoMemory => Fault::NoMemory,
    }
}

// What ends a request before a tree is in force.
pub(crate) fn stopped_before(alloc: Global, fault: Stop) -> Fault<Ended>
    ensures { result ≡ stopped None fault }
{
    stopped(Requirement::none(alloc), fault)
}

#[tactic(auto, unfolding(crate::specs::Passing::passed_from), using(crate::proofs::Trees::treed))]
fn passed_from(asked: &Asked<'_>, log: &mut Log, here: Here) -> Result<Restarted, Fault<Ended>>
    ensures { Takes result log (passed_from (site_of asked.now) here) (shown_by asked.now.world.now.files) }
{
    match passed_there(asked, log, &here) {
        Ok(pass) => Ok(Restarted {
            pass,
            require: tree_of(here),
        }),
        Err(fault) => Err(stopped(tree_of(here), fault)),
    }
}

fn tree_of(here: Here) -> Requirement
    ensures { result ≡ here.force.require }
{
    let Here { force, .. } = here;
    let Effective { require, .. } = force;
    require
}

// Up to what is in force.
#[tactic(auto, unfolding(crate::specs::Passing::reached), using(crate::proofs::Stops::going_free))]
fn reached<O: Overrides>(
    asked: &Asked<'_>,
    log: &mut Log,
    over: &mut O,
    pass: Pass,
) -> Result<Here, Stop>
    requires over { Lends O.reading O.size (O.fixed over.old) asked.now.world.now.files asked.now.config.now }
    ensures step { Takes result log (reached (site_of asked.now) pass) (shown_by asked.now.world.now.files) }
    ensures over { Returns O.fixed O.loaded over }
    ensures counted { Counts result asked.now.world.now.files (reached (site_of asked.now) pass)
        O.counted over }
{
    let pass = told_pass(log, pass)?;
    let placed = rewritten(asked, log, pass)?;
    let named = name_of(asked, log, placed)?;
    let named = merged(log, named)?;
    let there = walked(asked.world, log, named)?;
    in_force(asked, log, over, there)
}

// The steps behind what is in force.
#[tactic(auto, unfolding(crate::specs::Passing::passed_there), using(hc_steps::proofs::Going::going))]
fn passed_there(asked: &Asked<'_>, log: &mut Log, here: &Here) -> Result<Pass, Stop>
    ensures { Takes result log (passed_there (site_of asked.now) here.now) (shown_by asked.now.world.now.files) }
{
    admitted(asked, log, here)?;
    let left = rewritten_there(asked, log, here)?;
    finished_there(asked, log, here, left)
}

#[tactic(auto, unfolding(crate::specs::Passing::finished_there), using(hc_steps::proofs::Going::going))]
fn finished_there(
    asked: &Asked<'_>,
    log: &mut Log,
    here: &Here,
    left: Option<RwState>,
) -> Result<Pass, Stop>
    ensures { Takes result log (finished_there (site_of asked.now) here.now left) (shown_by asked.now.world.now.files) }
{
    sent_there(asked, log, here, &left)?;
    answered(asked, log, here, left)
}

#[tactic(auto, unfolding(crate::specs::Passing::told_pass), using(hc_steps::proofs::Going::telling))]
fn told_pass(log: &mut Log, pass: Pass) -> Result<Pass, Stop>
    ensures { Tells result log (told_pass pass) }
{
    log.say(Event::Pass {
        number: pass.number,
        path: pass.path.clone()?,
        query: pass.query.clone()?,
    })?;
    Ok(pass)
}

// The file name of a URL path.
#[tactic(auto, unfolding(crate::specs::Passing::mapped_at), using(hc_steps::proofs::Going::telling))]
fn mapped_at(asked: &Asked<'_>, log: &mut Log, pass: Pass) -> Result<Named, Stop>
    ensures { Takes result log (mapped_at (site_of asked.now) pass) (shown_by asked.now.world.now.files) }
{
    let mapped = map_url(
        log.allocator(),
        asked.config,
        asked.host,
        pass.path.as_bytes(),
        pass.query.as_bytes(),
        asked.caller,
    )?;
    named(log, pass, mapped)
}

#[tactic(auto, unfolding(crate::specs::Passing::name_of), using(hc_steps::proofs::Going::telling))]
fn name_of(asked: &Asked<'_>, log: &mut Log, placed: Placed) -> Result<Named, Stop>
    ensures { Takes result log (name_of (site_of asked.now) placed) (shown_by asked.now.world.now.files) }
{
    match placed {
        Placed::Unnamed(pass) => mapped_at(asked, log, pass),
        Placed::Named(named) => Ok(named),
    }
}

// Repeated slashes of the name are merged. A segment of dots is outside.
#[tactic(auto, unfolding(crate::specs::Passing::merged), using(hc_steps::proofs::Going::telling))]
fn merged(log: &mut Log, named: Named) -> Result<Named, Stop>
    ensures { Tells result log (merged named) }
{
    let name = merge_slashes(log.allocator(), named.name.as_bytes())?;
    without_dots(log, Named { name, ..named })
}

#[tactic(auto, unfolding(crate::specs::Passing::without_dots), using(hc_steps::proofs::Going::telling))]
fn without_dots(log: &mut Log, named: Named) -> Result<Named, Stop>
    ensures { Tells result log (without_dots named) }
{
    if has_dots(named.name.as_bytes()) {
        return Err(Fault::Refused(Outcome::Outside(Reason::DotSegment)));
    }
    log.say(Event::Map {
        alias: copy_option(&named.from)?,
        name: named.name.clone()?,
    })?;
    Ok(named)
}

// Where the name leads.
#[tactic(auto, unfolding(crate::specs::Passing::walked), using(hc_steps::proofs::Going::going))]
fn walked(world: &World, log: &mut Log, named: Named) -> Result<Walked, Stop>
    ensures { Takes result log (walked named) (shown_by world.now.files) }
{
    let walk = follow(world, log, named.name.as_bytes())?;
    seen_there(log, named, walk)
}

#[tactic(auto, unfolding(crate::specs::Passing::seen_there), using(hc_steps::proofs::Going::telling))]
fn seen_there(log: &mut Log, named: Named, walk: Walk) -> Result<Walked, Stop>
    ensures { Tells result log (seen_there named walk) }
{
    log.say(Event::Walk {
        name: walk.name.clone()?,
        info: walk.info.clone()?,
        kind: walk.kind,
    })?;
    Ok(Walked { named, walk })
}

// Who may pass.
fn admitted(asked: &Asked<'_>, log: &mut Log, here: &Here) -> Result<(), Stop>
    ensures { Takes result log (admitted (site_of asked.now) here.now) (shown_by asked.now.world.now.files) }
{
    let value = authorized(asked.caller, &here.force.require);
    admitted_by(log, value)
}

#[tactic(auto, unfolding(crate::specs::Passing::admitted_by), using(hc_steps::proofs::Going::telling))]
fn admitted_by(log: &mut Log, value: Authorized) -> Result<(), Stop>
    ensures { Tells result log (admitted_by value) }
{
    log.say(Event::Auth { value })?;
    if lets_in(value) {
        Ok(())
    } else {
        Err(Fault::Refused(Outcome::Status(FORBIDDEN)))
    }
}

fn query_left<'h>(here: &'h Here, left: &'h Option<RwState>) -> &'h Text
    ensures { result.now ≡ query_left here.now left.now }
{
    match left {
        Some(state) => &state.query,
        None => &here.named.pass.query,
    }
}

// The redirects of the sections, on the URL path, with the query that the rules of the directory leave.
#[tactic(auto, using(hc_steps::proofs::Going::ran_no_memory))]
fn sent_there(
    asked: &Asked<'_>,
    log: &mut Log,
    here: &Here,
    left: &Option<RwState>,
) -> Result<(), Stop>
    ensures { Takes result log (sent_there (site_of asked.now) here.now left.now) (shown_by asked.now.world.now.files) }
{
    let away = directory_redirect(
        log.allocator(),
        here.force.redirects.as_slice(),
        here.named.pass.path.as_bytes(),
        query_left(here, left).as_bytes(),
        asked.caller,
    )?;
    sent_by(log, away)
}

#[tactic(auto, unfolding(crate::specs::Passing::sent_by), using(hc_steps::proofs::Going::telling))]
fn sent_by(log: &mut Log, away: Option<Away>) -> Result<(), Stop>
    ensures { Tells result log (sent_by away) }
{
    match away {
        Some(away) => match log.say(Event::Redirect { spot: away.from }) {
            Ok(()) => Err(Fault::Refused(away.outcome)),
            Err(_) => Err(Fault::NoMemory),
        },
        None => Ok(()),
    }
}

// What stands there, unless another pass follows.
#[tactic(auto, unfolding(crate::specs::Passing::answered), using(hc_steps::proofs::Going::telling))]
fn answered(
    asked: &Asked<'_>,
    log: &mut Log,
    here: &Here,
    left: Option<RwState>,
) -> Result<Pass, Stop>
    ensures { Takes result log (answered (site_of asked.now) here.now left) (shown_by asked.now.world.now.files) }
{
    match left {
        Some(state) => answered_by(asked, log, here, state),
        None => Err(Fault::Refused(outcome_at(&here.walk, &here.walk.info)?)),
    }
}

#[tactic(auto, unfolding(crate::specs::Passing::answered_by), using(hc_steps::proofs::Going::telling))]
fn answered_by(asked: &Asked<'_>, log: &mut Log, here: &Here, state: RwState) -> Result<Pass, Stop>
    ensures { Takes result log (answered_by (site_of asked.now) here.now state) (shown_by asked.now.world.now.files) }
{
    if state.text.as_bytes() == here.walk.name.as_bytes() {
        Err(Fault::Refused(outcome_at(&here.walk, &state.info)?))
    } else {
        restarted(asked, log, here, state)
    }
}

fn outcome_at(walk: &Walk, info: &Text) -> Result<Outcome, NoMemory>
    ensures { IfOk result (λ outcome. outcome ≡ outcome_at walk.now.kind walk.now.name info.now) }
{
    match walk.kind {
        Kind::Absent => Ok(Outcome::NotFound),
        Kind::Dir => Ok(Outcome::Directory {
            path: walk.name.clone()?,
        }),
        Kind::File => Ok(Outcome::File {
            path: walk.name.clone()?,
            info: info.clone()?,
        }),
    }
}
