ghost use Rattle.std.specs.Prelude.{◌≡◌, true, IfOk};
ghost use Rattle.hc_vhost.specs.Servers.{IsHostOf};
ghost use Rattle.hc_base.specs.Paths.{begins_with_slash};
ghost use Rattle.hc_serve.specs.Lent.{Counts, Lends, Returns};
ghost use Rattle.hc_serve.specs.Request.{first_pass, host_of, host_told, opened, passes, passes_at, passes_of, way};
ghost use Rattle.hc_serve.specs.Site.{site_of};
ghost use Rattle.hc_steps.specs.Ran.{Takes, Tells};
ghost use Rattle.hc_steps.specs.Shown.{shown_by};
ghost use Rattle.hc_target.specs.Targets.{read};

use crate::asked::Asked;
use crate::pass::{passed, stopped_before};
use crate::site::{caller_at, most_passes};
use crate::stage::{Ended, Opened, Pass, Restarted, Stop};
use hc_base::Fault;
use hc_model::{Config, Event, HostId, Outcome, Overrides, Reason, Request};
use hc_rw_expand::Variables;
use hc_steps::Log;
use hc_target::{TargetRead, read_target};
use hc_vhost::{choose, server_at};
use hc_world::World;

pub(crate) const BAD_REQUEST: u16 = 400;

const NOT_FOUND: u16 = 404;

/// The way of a request: it ends, or leaves a pass that would be one too many.
#[tactic(auto, unfolding(crate::specs::Request::way), using(crate::proofs::Stops::treed_free))]
pub(crate) fn way<O: Overrides>(
    config: &Config,
    world: &World,
    log: &mut Log,
    over: &mut O,
    request: &Request,
) -> Result<Restarted, Fault<Ended>>
    requires slash { begins_with_slash request.now.target ≡ true }
    requires over { Lends O.reading O.size (O.fixed over.old) world.now.files config.now }
    ensures step { Takes result log (way config.now request.now) (shown_by world.now.files) }
    ensures over { Returns O.fixed O.loaded over }
    ensures counted { Counts result world.now.files (way config.now request.now)
        O.counted over }
{
    match opened(config, world, log, request) {
        Ok(opened) => passes_of(config, world, log, over, request, opened),
        Err(fault) => Err(stopped_before(log.allocator(), fault)),
    }
}

// Before the passes.
#[tactic(auto, unfolding(crate::specs::Request::opened), using(hc_steps::proofs::Going::going))]
fn opened(config: &Config, world: &World, log: &mut Log, request: &Request) -> Result<Opened, Stop>
    requires { begins_with_slash request.now.target ≡ true }
    ensures step { Takes result log (opened config.now request.now) (shown_by world.now.files) }
    ensures host { IfOk result (λ opened. IsHostOf config.now opened.host) }
{
    let host = host_of(config, log, request)?;
    let pass = first_pass(log, request)?;
    Ok(Opened { host, pass })
}

#[tactic(auto, unfolding(crate::specs::Request::passes_of), using(crate::proofs::Stops::stopping))]
fn passes_of<O: Overrides>(
    config: &Config,
    world: &World,
    log: &mut Log,
    over: &mut O,
    request: &Request,
    opened: Opened,
) -> Result<Restarted, Fault<Ended>>
    requires host { IsHostOf config.now opened.host }
    requires over { Lends O.reading O.size (O.fixed over.old) world.now.files config.now }
    ensures step { Takes result log (passes_of config.now request.now opened) (shown_by world.now.files) }
    ensures over { Returns O.fixed O.loaded over }
    ensures counted { Counts result world.now.files (passes_of config.now request.now opened)
        O.counted over }
{
    let Opened { host, pass } = opened;
    let caller = caller_at(log.allocator(), config, host, request)?;
    let asked = Asked {
        world,
        config,
        host,
        caller: &caller,
    };
    passes_at(&asked, log, over, pass)
}

// The server that answers.
fn host_of(config: &Config, log: &mut Log, request: &Request) -> Result<HostId, Stop>
    ensures step { Tells result log (host_of config.now request.now) }
    ensures host { IfOk result (IsHostOf config.now) }
{
    let host = choose(
        config,
        request.server,
        request.port,
        request.host.as_bytes(),
    );
    host_told(config, log, host)
}

#[tactic(auto, unfolding(crate::specs::Request::host_told), using(hc_steps::proofs::Going::telling))]
fn host_told(config: &Config, log: &mut Log, host: HostId) -> Result<HostId, Stop>
    requires { IsHostOf config.now host }
    ensures step { Tells result log (host_told config.now host) }
    ensures host { IfOk result (IsHostOf config.now) }
{
    log.say(Event::Host {
        place: server_at(config, host).place.clone()?,
    })?;
    Ok(host)
}

// The first pass, or what a target that gives none ends with.
#[tactic(auto, unfolding(crate::specs::Request::first_pass), using(hc_steps::proofs::Going::telling))]
fn first_pass(log: &mut Log, request: &Request) -> Result<Pass, Stop>
    requires { begins_with_slash request.now.target ≡ true }
    ensures { Tells result log (first_pass (read request.now.target)) }
{
    match read_target(log.allocator(), request.target.as_bytes())? {
        TargetRead::Bad400 => Err(Fault::Refused(Outcome::Status(BAD_REQUEST))),
        TargetRead::Miss404 => Err(Fault::Refused(Outcome::Status(NOT_FOUND))),
        TargetRead::PathByte => Err(Fault::Refused(Outcome::Outside(Reason::PathByte))),
        TargetRead::Path { path, query } => {
            Ok(Pass::at(0, path, query, Variables::new(), false)?)
        }
    }
}

#[tactic(auto, unfolding(crate::specs::Request::passes_at))]
fn passes_at<O: Overrides>(
    asked: &Asked<'_>,
    log: &mut Log,
    over: &mut O,
    pass: Pass,
) -> Result<Restarted, Fault<Ended>>
    requires over { Lends O.reading O.size (O.fixed over.old) asked.now.world.now.files asked.now.config.now }
    ensures step { Takes result log (passes_at (site_of asked.now) pass) (shown_by asked.now.world.now.files) }
    ensures over { Returns O.fixed O.loaded over }
    ensures counted { Counts result asked.now.world.now.files (passes_at (site_of asked.now) pass)
        O.counted over }
{
    let first = Restarted::first(log.allocator(), pass);
    passes(
        asked,
        log,
        over,
        most_passes(asked.config, asked.host),
        first,
    )
}

// So many passes at most, one after another.
#[tactic(auto, using(crate::proofs::Passes::passing))]
fn passes<O: Overrides>(
    asked: &Asked<'_>,
    log: &mut Log,
    over: &mut O,
    most: u64,
    first: Restarted,
) -> Result<Restarted, Fault<Ended>>
    requires over { Lends O.reading O.size (O.fixed over.old) asked.now.world.now.files asked.now.config.now }
    ensures step { Takes result log (passes most (site_of asked.now) first) (shown_by asked.now.world.now.files) }
    ensures over { Returns O.fixed O.loaded over }
    ensures counted { Counts result asked.now.world.now.files (passes most (site_of asked.now) first)
        O.counted over }
{
    let mut left = first;
    for _turn in 0..most {
        left = passed(asked, log, over, left.pass)?;
    }
    Ok(left)
}
