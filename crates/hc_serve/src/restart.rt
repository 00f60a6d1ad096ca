//! The restart that the rules of a directory lead to (Apache manual, mod_rewrite, "Per-directory Rewrites").
ghost use Rattle.std.specs.Prelude.{◌≡◌, IfOk};
ghost use Rattle.hc_serve.specs.DirectoryRules.{is_last, next_pass, path_for, vars_behind};
ghost use Rattle.hc_serve.specs.Passing.{redirected, restarted, restarted_at};
ghost use Rattle.hc_serve.specs.Site.{site_of};
ghost use Rattle.hc_steps.specs.Ran.{Takes};
ghost use Rattle.hc_steps.specs.Shown.{shown_by};

use crate::asked::Asked;
use crate::directory_rules::engine_in;
use crate::site::most_passes;
use crate::stage::{Here, Pass, Stop};
use hc_alias::root_of;
use hc_base::paths::{has_dots, merge_slashes};
use hc_base::{Fault, NoMemory, Text};
use hc_model::{Event, LimitKind, Outcome, Reason};
use hc_rw_eval::url_path;
use hc_rw_expand::{RwState, Variables};
use hc_steps::Log;
use std::alloc::Global;

// What is put before the names of variables.
const RENAMED: &[u8] = b"REDIRECT_";

// The variable that says that a request was redirected, and its value.
const STATUS_NAME: &[u8] = b"REDIRECT_STATUS";

const STATUS: &[u8] = b"200";

/// The pass that follows where the rules of a directory leave another text than the file name.
#[tactic(auto, unfolding(crate::specs::Passing::restarted), using(hc_steps::proofs::Going::telling))]
pub(crate) fn restarted(
    asked: &Asked<'_>,
    log: &mut Log,
    here: &Here,
    state: RwState,
) -> Result<Pass, Stop>
    ensures { Takes result log (restarted (site_of asked.now) here.now state) (shown_by asked.now.world.now.files) }
{
    let path = path_for(log.allocator(), asked, here, &state.text)?;
    redirected(asked, log, here, state, path)
}

// The URL path that a text stands for.
fn path_for(alloc: Global, asked: &Asked<'_>, here: &Here, text: &Text) -> Result<Text, NoMemory>
    ensures { IfOk result (λ path. path ≡ path_for (site_of asked.now) here.now here.now.force.dir text.now) }
{
    let Some(dir) = &here.force.dir else {
        return text.clone();
    };
    let root = root_of(asked.config, asked.host);
    url_path(alloc, root, &engine_in(here, dir), text.as_bytes())
}

// No pass follows the last one that the limit allows.
fn is_last(asked: &Asked<'_>, here: &Here) -> bool
    ensures { result ≡ is_last (site_of asked.now) here.now }
{
    most_passes(asked.config, asked.host) <= u64::from(here.named.pass.number) + 1
}

#[tactic(auto, unfolding(crate::specs::Passing::redirected), using(hc_steps::proofs::Going::telling))]
fn redirected(
    asked: &Asked<'_>,
    log: &mut Log,
    here: &Here,
    state: RwState,
    path: Text,
) -> Result<Pass, Stop>
    ensures { Takes result log (redirected (site_of asked.now) here.now state path)
        (shown_by asked.now.world.now.files) }
{
    let path = merge_slashes(log.allocator(), path.as_bytes())?;
    restarted_at(asked, log, here, state, path)
}

#[tactic(auto, unfolding(crate::specs::Passing::restarted_at), using(hc_steps::proofs::Going::telling))]
fn restarted_at(
    asked: &Asked<'_>,
    log: &mut Log,
    here: &Here,
    state: RwState,
    path: Text,
) -> Result<Pass, Stop>
    ensures { Takes result log (restarted_at (site_of asked.now) here.now state path)
        (shown_by asked.now.world.now.files) }
{
    if has_dots(path.as_bytes()) {
        return Err(Fault::Refused(Outcome::Outside(Reason::DotSegment)));
    }
    if is_last(asked, here) {
        return Err(Fault::Refused(Outcome::Limit(LimitKind::Redirects)));
    }
    log.say(Event::Restart {
        path: path.clone()?,
    })?;
    Ok(next_pass(log.allocator(), here, state, path)?)
}

// A request that has counted its last pass finds no memory.
fn next_pass(alloc: Global, here: &Here, state: RwState, path: Text) -> Result<Pass, NoMemory>
    ensures { IfOk result (λ pass. pass ≡ next_pass here.now state path) }
{
    let Some(number) = here.named.pass.number.checked_add(1) else {
        return Err(NoMemory);
    };
    let vars = vars_behind(alloc, state.vars)?;
    Pass::at(number, path, state.query, vars, state.end)
}

// A variable STATUS is lost.
fn vars_behind(alloc: Global, vars: Variables) -> Result<Variables, NoMemory>
    ensures { IfOk result (λ behind. behind ≡ vars_behind vars) }
{
    let mut behind = vars.renamed(alloc, RENAMED)?;
    let name = Text::copy_of(alloc, STATUS_NAME)?;
    behind.set(alloc, name, Text::copy_of(alloc, STATUS)?)?;
    Ok(behind)
}
