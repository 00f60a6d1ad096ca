//! The leaves of the requests of a scope, up to a limit.
ghost use Rattle.std.specs.Prelude.{◌≡◌, IfOk, option_map};
ghost use Rattle.hc_abs_left.specs.Grounds.{Stands, world_in};
ghost use Rattle.hc_claim.specs.Asking.{host_of};
ghost use Rattle.hc_claim.specs.Trying.{asked_in};
ghost use Rattle.hc_claim.specs.Walking.{Fits};
ghost use Rattle.hc_ends.specs.Lending.{site_of};
ghost use Rattle.hc_ends.specs.Walking.{IsGathered, IsGatheredFor, IsWalked};
ghost use Rattle.hc_members.specs.Requests.{common_request};
ghost use Rattle.hc_serve.specs.Lent.{Lends, Returns};
ghost use Rattle.hc_serve.specs.Site.{caller_at};
ghost use Rattle.hc_vhost.specs.Servers.{IsHostOf};

use crate::chains::Chains;
use hc_abs_leaves::Leaf;
use hc_abs_left::Ground;
use hc_abs_rw::Around;
use hc_abs_start::{sole_client, start};
use hc_base::NoMemory;
use hc_claim::{MOST_STATES, Question, tests_of, tree_of};
use hc_model::{HostId, Overrides};
use hc_named::{Names, names_in};
use hc_plan::Tied;
use hc_rw_sets::TextTests;
use hc_scope::{Claim, Scope};
use hc_serve::maps_at;
use hc_vhost::choose;
use std::alloc::Global;

/// The leaves of the requests of a scope, and what is asked of texts at their server.
#[derive(Drop)]
pub(crate) struct Walked {
    pub(crate) tests: TextTests,
    pub(crate) leaves: Vec<Leaf>,
}

/// The leaves of the requests of a scope; none where there are as many as the limit.
pub(crate) fn walk<O: Overrides>(
    alloc: Global,
    chains: Chains<'_>,
    scope: &Scope,
    limit: u32,
    over: &mut O,
) -> Result<Option<Walked>, NoMemory>
    requires over { Lends O.reading O.size (O.fixed over.old) chains.world.now.files chains.config.now }
    ensures walked { IfOk result (IsWalked (site_of chains.entry) scope.now limit) }
    ensures over { Returns O.fixed O.loaded over }
{
    let question = Question {
        config: chains.config,
        world: chains.world,
        scope,
        claim: &Claim::Stops,
    };
    let host = choose(
        chains.config,
        scope.server,
        scope.port,
        scope.host.as_bytes(),
    );
    let names = names_in(alloc, chains.config, host, chains.world, over)?;
    let tests = tests_of(alloc, question, host)?;
    match leaves_at(alloc, question, host, &names, &tests, limit, over)? {
        None => Ok(None),
        Some(leaves) => Ok(Some(Walked { tests, leaves })),
    }
}

/// Those of the server that answers the requests.
fn leaves_at<O: Overrides>(
    alloc: Global,
    question: Question<'_>,
    host: HostId,
    names: &Names,
    tests: &TextTests,
    limit: u32,
    over: &mut O,
) -> Result<Option<Vec<Leaf>>, NoMemory>
    requires host { host ≡ host_of (asked_in question) }
    requires place { IsHostOf question.config.now host }
    requires tests { tests.now ≡ caller_at question.config.now host (common_request question.scope.now) }
    requires over { Lends O.reading O.size (O.fixed over.old) question.world.now.files question.config.now }
    ensures found { IfOk result (λ found. IsGatheredFor (asked_in question.entry) names.now tests.now limit
        (option_map (λ leaves. leaves.items) found)) }
    ensures over { Returns O.fixed O.loaded over }
{
    let maps = maps_at(question.config, host)?;
    let around = Around::new(alloc, question.world, maps.as_slice())?;
    let ground = Ground {
        config: question.config,
        host,
        net: &question.scope.client,
        client: sole_client(&question.scope.client),
        tests,
        around: &around,
        last: false,
        names: names.variables.as_slice(),
        room: MOST_STATES,
    };
    leaves_on(alloc, question, ground, names, limit, over)
}

/// Those from what is known before the first pass.
fn leaves_on<O: Overrides>(
    alloc: Global,
    question: Question<'_>,
    ground: Ground<'_>,
    names: &Names,
    limit: u32,
    over: &mut O,
) -> Result<Option<Vec<Leaf>>, NoMemory>
    requires ground { Stands ground }
    requires fits { Fits (asked_in question) names.now ground }
    requires over { Lends O.reading O.size (O.fixed over.old) (world_in ground) ground.config.now }
    ensures found { IfOk result (λ found. IsGatheredFor (asked_in question.entry) names.now ground.entry.tests.now limit
        (option_map (λ leaves. leaves.items) found)) }
    ensures over { Returns O.fixed O.loaded over }
{
    let variables = names.variables.as_slice();
    let tied = start(alloc, question.scope, variables, names.headers.as_slice())?;
    gather(alloc, ground, over, tied, limit)
}

/// The leaves of the tree; none where it has as many as the limit.
fn gather<O: Overrides>(
    alloc: Global,
    ground: Ground<'_>,
    over: &mut O,
    tied: Tied,
    limit: u32,
) -> Result<Option<Vec<Leaf>>, NoMemory>
    requires ground { Stands ground }
    requires over { Lends O.reading O.size (O.fixed over.old) (world_in ground) ground.config.now }
    ensures leaves { IfOk result (λ found. IsGathered ground.entry tied limit
        (option_map (λ leaves. leaves.items) found)) }
    ensures over { Returns O.fixed O.loaded over }
{
    let mut tree = tree_of(alloc, tied)?;
    let mut leaves = Vec::new(alloc);
    for _count in 0..limit {
        let Some(leaf) = tree.next(alloc, ground, over)? else {
            return Ok(Some(leaves));
        };
        leaves.push(leaf)?;
    }
    Ok(None)
}
