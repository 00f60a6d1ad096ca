//! The rules of the server that answers, and what a pass goes on with behind them (Apache manual, mod_rewrite).
ghost use Rattle.std.specs.Prelude.{◌≡◌, [], IfOk, OnOk};
ghost use Rattle.hc_rw_eval.specs.Frames.{as_step};
ghost use Rattle.hc_rw_eval.specs.Lists.{run_rules};
ghost use Rattle.hc_rw_expand.specs.Contexts.{context_of};
ghost use Rattle.hc_serve.specs.Passing.{absolute_left, exists, finished, name_left, path_left, path_without_dots};
ghost use Rattle.hc_serve.specs.Passing.{rewritten, rules_run, text_left};
ghost use Rattle.hc_serve.specs.ServerRules.{context_at, is_there, looks_of, maps_at, own_name, pass_with, rules_at};
ghost use Rattle.hc_serve.specs.ServerRules.{state_at};
ghost use Rattle.hc_serve.specs.Site.{site_of};
ghost use Rattle.hc_steps.specs.Ran.{Answers, Takes, Tells};
ghost use Rattle.hc_steps.specs.Shown.{shown_by};

use crate::asked::Asked;
use crate::component::first_component;
use crate::inherited::{engine_at, maps_at, rules_at};
use crate::naming::named;
use crate::stage::{Named, Pass, Placed, Stop};
use crate::way::BAD_REQUEST;
use hc_alias::{root_of, under_root};
use hc_base::paths::{begins_with_slash, has_dots, merge_slashes};
use hc_base::{Fault, NoMemory, Text};
use hc_map::WorldMaps;
use hc_model::{Kind, Map, Outcome, Reason, Rule};
use hc_rw_eval::{Finished, Rewritten, run_rules};
use hc_rw_expand::{RwContext, RwState, Variables};
use hc_steps::Log;
use hc_world::{World, kind_at};
use std::alloc::Global;
use std::mem::replace;

/// What the rules of the server leave, where its engine is on.
#[tactic(auto, unfolding(crate::specs::Passing::rewritten), using(hc_steps::proofs::Going::ran_leaves))]
pub(crate) fn rewritten(asked: &Asked<'_>, log: &mut Log, pass: Pass) -> Result<Placed, Stop>
    ensures { Takes result log (rewritten (site_of asked.now) pass) (shown_by asked.now.world.now.files) }
{
    if engine_at(asked.config, asked.host) {
        rules_run(asked, log, pass)
    } else {
        Ok(Placed::Unnamed(pass))
    }
}

#[tactic(auto, unfolding(crate::specs::Passing::rules_run), using(hc_steps::proofs::Going::ran_no_memory))]
fn rules_run(asked: &Asked<'_>, log: &mut Log, pass: Pass) -> Result<Placed, Stop>
    ensures { Takes result log (rules_run (site_of asked.now) pass) (shown_by asked.now.world.now.files) }
{
    let mut pass = pass;
    let state = state_at(log.allocator(), &mut pass)?;
    let ran = run_at(asked, log, &pass, state)?;
    finished(asked, log, pass, ran)
}

// The state that a run begins with. It takes the variables of the pass.
fn state_at(alloc: Global, pass: &mut Pass) -> Result<RwState, NoMemory>
    ensures state { IfOk result (λ state. state ≡ state_at pass.old) }
    ensures pass { OnOk result (pass.new ≡ record pass.old { vars = [] }) }
{
    Ok(RwState {
        text: pass.path.clone()?,
        query: pass.query.clone()?,
        info: Text::new(alloc),
        vars: replace(&mut pass.vars, Variables::new()),
        end: pass.end,
        groups: None,
        cond_groups: None,
    })
}

// The rules of the server.
#[tactic(auto, using(hc_steps::proofs::Going::ran_no_memory))]
fn run_at(asked: &Asked<'_>, log: &mut Log, pass: &Pass, state: RwState) -> Result<Finished, Stop>
    ensures { Takes result log (run_rules (context_at (site_of asked.now) pass.now)
        (looks_of (maps_at (site_of asked.now))) (rules_at (site_of asked.now)) state)
        (shown_by asked.now.world.now.files) }
{
    let rules = rules_at(log.allocator(), asked.config, asked.host)?;
    let context = context_at(asked, pass);
    run_over(asked, log, &context, rules.as_slice(), state)
}

/// Rules over the maps that are in force.
#[tactic(auto, using(hc_steps::proofs::Going::ran_no_memory))]
pub(crate) fn run_over(
    asked: &Asked<'_>,
    log: &mut Log,
    context: &RwContext<'_>,
    rules: &[Rule],
    state: RwState,
) -> Result<Finished, Stop>
    ensures { Takes result log (run_rules (context_of context.now)
        (looks_of (maps_at (site_of asked.now))) rules.now state) (shown_by asked.now.world.now.files) }
{
    let maps = maps_at(asked.config, asked.host)?;
    run_with(asked.world, log, context, maps.as_slice(), rules, state)
}

// What a run came to, as a step answers it.
fn ended(came: Result<Finished, Outcome>) -> Result<Finished, Stop>
    ensures { result ≡ as_step came }
{
    match came {
        Ok(finished) => Ok(finished),
        Err(outcome) => Err(Fault::Refused(outcome)),
    }
}

// Rules over these maps in a world. Where memory is refused the log is left empty.
#[tactic(auto, using(hc_steps::proofs::Going::ran_no_memory))]
fn run_with(
    world: &World,
    log: &mut Log,
    context: &RwContext<'_>,
    maps: &[Map],
    rules: &[Rule],
    state: RwState,
) -> Result<Finished, Stop>
    ensures { Takes result log (run_rules (context_of context.now) (looks_of maps.now) rules.now state)
        (shown_by world.now.files) }
{
    let look = WorldMaps {
        alloc: log.allocator(),
        maps,
        world,
    };
    let own = replace(log, Log::new(look.alloc, None));
    let ran = run_rules(world, own, context, &look, rules, state)?;
    *log = ran.log;
    ended(ran.came)
}

fn context_at<'p>(asked: &Asked<'p>, pass: &'p Pass) -> RwContext<'p>
    ensures { context_of result ≡ context_at (site_of asked.now) pass.now }
{
    RwContext {
        caller: asked.caller,
        path: &pass.path,
        root: root_of(asked.config, asked.host),
        first_query: &pass.first_query,
        engine: None,
    }
}

#[tactic(auto, unfolding(crate::specs::Passing::finished), using(hc_steps::proofs::Going::ran_leaves))]
fn finished(asked: &Asked<'_>, log: &mut Log, pass: Pass, ran: Finished) -> Result<Placed, Stop>
    ensures { Takes result log (finished (site_of asked.now) pass ran) (shown_by asked.now.world.now.files) }
{
    let Finished { left, passed } = ran;
    let Rewritten { state, substituted } = left;
    let (pass, text) = pass_with(pass, state);
    if substituted {
        text_left(asked, passed, log, pass, text)
    } else {
        Ok(Placed::Unnamed(pass))
    }
}

// The pass behind a run, and the text that the run leaves.
fn pass_with(pass: Pass, state: RwState) -> (Pass, Text)
    ensures pass { result.0 ≡ pass_with pass state }
    ensures text { result.1 ≡ state.text }
{
    let RwState {
        text,
        query,
        vars,
        end,
        ..
    } = state;
    let pass = Pass {
        query,
        vars,
        end,
        ..pass
    };
    (pass, text)
}

#[tactic(auto, unfolding(crate::specs::Passing::text_left), using(hc_steps::proofs::Going::ran_ends))]
fn text_left(
    asked: &Asked<'_>,
    passed: bool,
    log: &mut Log,
    pass: Pass,
    text: Text,
) -> Result<Placed, Stop>
    ensures { Takes result log (text_left (site_of asked.now) passed pass text) (shown_by asked.now.world.now.files) }
{
    if begins_with_slash(text.as_bytes()) {
        absolute_left(asked, passed, log, pass, text)
    } else {
        Err(Fault::Refused(Outcome::Status(BAD_REQUEST)))
    }
}

// PT: the text is a URL path.
#[tactic(auto, unfolding(crate::specs::Passing::absolute_left), using(hc_steps::proofs::Going::ran_no_memory))]
fn absolute_left(
    asked: &Asked<'_>,
    passed: bool,
    log: &mut Log,
    pass: Pass,
    text: Text,
) -> Result<Placed, Stop>
    ensures { Takes result log (absolute_left (site_of asked.now) passed pass text)
        (shown_by asked.now.world.now.files) }
{
    if passed {
        return path_left(log, pass, text);
    }
    let first = first_component(log.allocator(), text.as_bytes())?;
    let there = exists(asked.world, log, first)?;
    name_left(asked, log, pass, text, there)
}

#[tactic(auto, unfolding(crate::specs::Passing::path_left), using(hc_steps::proofs::Going::telling))]
fn path_left(log: &mut Log, pass: Pass, text: Text) -> Result<Placed, Stop>
    ensures { Tells result log (path_left pass text) }
{
    let path = merge_slashes(log.allocator(), text.as_bytes())?;
    path_without_dots(pass, path)
}

#[tactic(auto, unfolding(crate::specs::Passing::path_without_dots), using(hc_steps::proofs::Going::telling))]
fn path_without_dots(pass: Pass, path: Text) -> Result<Placed, Stop>
    ensures { Answers result (path_without_dots pass path) }
{
    if has_dots(path.as_bytes()) {
        return Err(Fault::Refused(Outcome::Outside(Reason::DotSegment)));
    }
    Ok(Placed::Unnamed(Pass { path, ..pass }))
}

#[tactic(auto, unfolding(crate::specs::Passing::exists), using(hc_steps::proofs::Going::ran_leaves))]
fn exists(world: &World, log: &mut Log, path: Option<Text>) -> Result<bool, Stop>
    ensures { Takes result log (exists path) (shown_by world.now.files) }
{
    let Some(path) = path else {
        return Ok(false);
    };
    let kind = kind_at::<Outcome>(world, log, path.as_bytes())?;
    Ok(is_there(kind))
}

fn is_there(kind: Kind) -> bool
    ensures { result ≡ is_there kind }
{
    kind != Kind::Absent
}

// A text that names something that exists is a file name.
#[tactic(auto, unfolding(crate::specs::Passing::name_left), using(hc_steps::proofs::Going::telling))]
fn name_left(
    asked: &Asked<'_>,
    log: &mut Log,
    pass: Pass,
    text: Text,
    there: bool,
) -> Result<Placed, Stop>
    ensures { Takes result log (name_left (site_of asked.now) pass text there) (shown_by asked.now.world.now.files) }
{
    if there {
        return Ok(own_name(pass, text));
    }
    let root = root_of(asked.config, asked.host);
    let mapped = under_root(log.allocator(), root, text.as_bytes())?;
    let name = named(log, pass, mapped)?;
    Ok(Placed::Named(name))
}

fn own_name(pass: Pass, text: Text) -> Placed
    ensures { result ≡ own_name pass text }
{
    Placed::Named(Named {
        pass,
        name: text,
        from: None,
        own: true,
    })
}
