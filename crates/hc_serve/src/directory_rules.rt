//! The rules of the directory in which a request arrives (Apache manual, mod_rewrite, RewriteRule, "Per-directory
//! Rewrites").
ghost use Rattle.std.specs.Prelude.{◌≡◌, ◌&&◌, IfOk, not, option_map};
ghost use Rattle.std.specs.Str.{bytes_eq};
ghost use Rattle.hc_base.specs.Paths.{ends_with_slash};
ghost use Rattle.hc_rw_eval.specs.Lists.{run_rules};
ghost use Rattle.hc_rw_expand.specs.Contexts.{context_of, engine_of};
ghost use Rattle.hc_serve.specs.DirectoryRules.{context_in, engine_in, is_aliased, ruling_dir, state_in, unless_itself};
ghost use Rattle.hc_serve.specs.Passing.{rewritten_there, ruled, rules_left, rules_run_in};
ghost use Rattle.hc_serve.specs.ServerRules.{looks_of, maps_at};
ghost use Rattle.hc_serve.specs.Site.{site_of};
ghost use Rattle.hc_steps.specs.Ran.{Takes};
ghost use Rattle.hc_steps.specs.Shown.{shown_by};

use crate::admission::FORBIDDEN;
use crate::asked::Asked;
use crate::server_rules::run_over;
use crate::stage::{Here, Named, Stop};
use hc_alias::root_of;
use hc_base::paths::ends_with_slash;
use hc_base::{Fault, NoMemory, Text};
use hc_model::Outcome;
use hc_rw_eval::Finished;
use hc_rw_expand::{Engine, RwContext, RwState};
use hc_steps::Log;

/// What the rules of the directory leave, where they run.
#[tactic(auto, unfolding(crate::specs::Passing::rewritten_there))]
pub(crate) fn rewritten_there(
    asked: &Asked<'_>,
    log: &mut Log,
    here: &Here,
) -> Result<Option<RwState>, Stop>
    ensures { Takes result log (rewritten_there (site_of asked.now) here.now) (shown_by asked.now.world.now.files) }
{
    ruled(asked, log, here, ruling_dir(here))
}

#[tactic(auto, unfolding(crate::specs::Passing::ruled), using(hc_steps::proofs::Going::ran_leaves))]
fn ruled(
    asked: &Asked<'_>,
    log: &mut Log,
    here: &Here,
    dir: Option<&Text>,
) -> Result<Option<RwState>, Stop>
    ensures { Takes result log (ruled (site_of asked.now) here.now (option_map (λ dir. dir.now) dir.entry))
        (shown_by asked.now.world.now.files) }
{
    match dir {
        Some(dir) => rules_run_in(asked, log, here, dir),
        None => Ok(None),
    }
}

// The directory whose rules run: its engine is on, and END was not met.
fn ruling_dir(here: &Here) -> Option<&Text>
    ensures { option_map (λ dir. dir.now) result ≡ ruling_dir here.now }
{
    if here.force.engine && !here.named.pass.end {
        unless_itself(&here.walk.name, &here.force.dir)
    } else {
        None
    }
}

// A directory has no rules for itself, where its name has no final slash.
fn unless_itself<'h>(name: &Text, dir: &'h Option<Text>) -> Option<&'h Text>
    ensures { option_map (λ dir. dir.now) result ≡ unless_itself name.now dir.now }
{
    match dir {
        Some(dir) if is_itself(name, dir) => None,
        Some(dir) => Some(dir),
        None => None,
    }
}

fn is_itself(name: &Text, dir: &Text) -> bool
    ensures { result ≡ (bytes_eq name.now dir.now && not (ends_with_slash name.now)) }
{
    name.as_bytes() == dir.as_bytes() && !ends_with_slash(name.as_bytes())
}

// Rules need one of the options that let links be followed.
#[tactic(auto, unfolding(crate::specs::Passing::rules_run_in), using(hc_steps::proofs::Going::ran_ends))]
fn rules_run_in(
    asked: &Asked<'_>,
    log: &mut Log,
    here: &Here,
    dir: &Text,
) -> Result<Option<RwState>, Stop>
    ensures { Takes result log (rules_run_in (site_of asked.now) here.now dir.now)
        (shown_by asked.now.world.now.files) }
{
    if here.force.follow {
        rules_left(asked, log, here, dir)
    } else {
        Err(Fault::Refused(Outcome::Status(FORBIDDEN)))
    }
}

fn rules_left(
    asked: &Asked<'_>,
    log: &mut Log,
    here: &Here,
    dir: &Text,
) -> Result<Option<RwState>, Stop>
    ensures { Takes result log (rules_left (site_of asked.now) here.now dir.now) (shown_by asked.now.world.now.files) }
{
    let ran = run_in(asked, log, here, dir)?;
    Ok(Some(state_of(ran)))
}

fn state_of(ran: Finished) -> RwState
    ensures { result ≡ ran.left.state }
{
    ran.left.state
}

#[tactic(auto, using(hc_steps::proofs::Going::ran_no_memory))]
fn run_in(asked: &Asked<'_>, log: &mut Log, here: &Here, dir: &Text) -> Result<Finished, Stop>
    ensures { Takes result log (run_rules (context_in (site_of asked.now) here.now dir.now)
        (looks_of (maps_at (site_of asked.now))) here.now.force.rules (state_in here.now))
        (shown_by asked.now.world.now.files) }
{
    let state = state_in(here)?;
    let context = context_in(asked, here, dir);
    run_over(asked, log, &context, here.force.rules.as_slice(), state)
}

// The file name is rewritten.
fn state_in(here: &Here) -> Result<RwState, NoMemory>
    ensures { IfOk result (λ state. state ≡ state_in here.now) }
{
    let pass = &here.named.pass;
    Ok(RwState {
        text: here.walk.name.clone()?,
        query: pass.query.clone()?,
        info: here.walk.info.clone()?,
        vars: pass.vars.clone()?,
        end: pass.end,
        groups: None,
        cond_groups: None,
    })
}

fn context_in<'p>(asked: &Asked<'p>, here: &'p Here, dir: &'p Text) -> RwContext<'p>
    ensures { context_of result ≡ context_in (site_of asked.now) here.now dir.now }
{
    RwContext {
        caller: asked.caller,
        path: &here.named.pass.path,
        root: root_of(asked.config, asked.host),
        first_query: &here.named.pass.first_query,
        engine: Some(engine_in(here, dir)),
    }
}

/// A directory whose rules run.
pub(crate) fn engine_in<'p>(here: &'p Here, dir: &'p Text) -> Engine<'p>
    ensures { engine_of result ≡ engine_in here.now dir.now }
{
    Engine {
        dir,
        base: here.force.base.as_ref(),
        aliased: is_aliased(&here.named),
    }
}

// The name does not come from the document root.
fn is_aliased(named: &Named) -> bool
    ensures { result ≡ is_aliased named.now }
{
    named.own || named.from.is_some()
}
