//! The answer to a claim.
ghost use Rattle.std.specs.Prelude.{◌≡◌, IfOk, length, option_map};
ghost use Rattle.hc_absolute.specs.Absolute.{AreAbsolute};
ghost use Rattle.hc_claim.specs.Deciding.{Answers, Runs};
ghost use Rattle.hc_claim.specs.Holding.{Holds};
ghost use Rattle.hc_claim.specs.Asking.{host_of};
ghost use Rattle.hc_claim.specs.Trying.{IsAnsweredIn, Spends, asked_in};
ghost use Rattle.hc_claim.specs.Walking.{Fits, IsWalkedFor};
ghost use Rattle.hc_abs_left.specs.Grounds.{Stands, world_in};
ghost use Rattle.hc_members.specs.Requests.{common_request};
ghost use Rattle.hc_serve.specs.Site.{caller_at};
ghost use Rattle.hc_serve.specs.Lent.{Lends, Returns};
ghost use Rattle.hc_vhost.specs.Servers.{IsHostOf};

use crate::decided::Decided;
use crate::question::Question;
use crate::trying::{Shown, first_shown};
use crate::walking::bad_leaves;
use hc_abs_leaves::Leaf;
use hc_abs_left::Ground;
use hc_abs_rw::Around;
use hc_abs_start::{sole_client, start};
use hc_base::{Counter, NoMemory, Text};
use hc_members::common_request;
use hc_model::{HostId, Overrides};
use hc_named::{Names, names_in};
use hc_rw_sets::TextTests;
use hc_serve::{caller_at, maps_at};
use hc_vhost::choose;
use std::alloc::Global;
use std::sync::ledger::Ledger;

/// How many states the cells of branches may have together: where they have more, memory is refused.
pub const MOST_STATES: u64 = 4_000_000;

/// The answer to a claim, where the tree of its scope has fewer leaves than the limit. `over` reads the `.htaccess`
/// files of the world; `evals` counts the runs of candidates.
pub fn decide<O: Overrides, L: Ledger>(
    alloc: Global,
    question: Question<'_>,
    limit: u32,
    over: &mut O,
    evals: &mut Counter<L>,
) -> Result<Decided, NoMemory>
    requires absolute { AreAbsolute question.config.now }
    requires over { Lends O.reading O.size (O.fixed over.old) question.world.now.files question.config.now }
    ensures decided { IfOk result (Answers (asked_in question.entry) limit evals.old evals.new) }
    ensures holds { IfOk result (Holds (asked_in question.entry)) }
    ensures evals { Runs (asked_in question.entry) evals.old evals.new }
    ensures over { Returns O.fixed O.loaded over }
{
    let scope = question.scope;
    let host = choose(
        question.config,
        scope.server,
        scope.port,
        scope.host.as_bytes(),
    );
    let names = names_in(alloc, question.config, host, question.world, over)?;
    match walked(alloc, question, host, &names, limit, over)? {
        None => Ok(Decided::TooMany { count: limit }),
        Some(bad) => {
            let headers = names.headers.as_slice();
            answered(alloc, question, headers, bad.as_slice(), over, evals)
        }
    }
}

/// The bad leaves of the scope's tree; none where it has as many leaves as the limit.
fn walked<O: Overrides>(
    alloc: Global,
    question: Question<'_>,
    host: HostId,
    names: &Names,
    limit: u32,
    over: &mut O,
) -> Result<Option<Vec<Leaf>>, NoMemory>
    requires host { host ≡ host_of (asked_in question) }
    requires place { IsHostOf question.config.now host }
    requires over { Lends O.reading O.size (O.fixed over.old) question.world.now.files question.config.now }
    ensures found { IfOk result (λ found. IsWalkedFor (asked_in question.entry) names.now limit
        (option_map (λ bad. bad.items) found)) }
    ensures over { Returns O.fixed O.loaded over }
{
    let tests = tests_of(alloc, question, host)?;
    let maps = maps_at(question.config, host)?;
    let around = Around::new(alloc, question.world, maps.as_slice())?;
    let ground = Ground {
        config: question.config,
        host,
        net: &question.scope.client,
        client: sole_client(&question.scope.client),
        tests: &tests,
        around: &around,
        last: false,
        names: names.variables.as_slice(),
        room: MOST_STATES,
    };
    walk_on(alloc, question, ground, names, limit, over)
}

/// What rules ask of texts, at the server that answers the requests of the scope.
pub fn tests_of(alloc: Global, question: Question<'_>, host: HostId) -> Result<TextTests, NoMemory>
    ensures { IfOk result (λ tests. tests ≡ caller_at question.entry.config.now host
        (common_request question.entry.scope.now)) }
{
    let request = common_request(alloc, question.scope)?;
    let caller = caller_at(alloc, question.config, host, &request)?;
    TextTests::new(alloc, caller)
}

/// The walk from what is known before the first pass.
fn walk_on<O: Overrides>(
    alloc: Global,
    question: Question<'_>,
    ground: Ground<'_>,
    names: &Names,
    limit: u32,
    over: &mut O,
) -> Result<Option<Vec<Leaf>>, NoMemory>
    requires ground { Stands ground }
    requires fits { Fits (asked_in question) names.now ground }
    requires over { Lends O.reading O.size (O.fixed over.old) (world_in ground) ground.config.now }
    ensures found { IfOk result (λ found. IsWalkedFor (asked_in question.entry) names.now limit
        (option_map (λ bad. bad.items) found)) }
    ensures over { Returns O.fixed O.loaded over }
{
    let variables = names.variables.as_slice();
    let tied = start(alloc, question.scope, variables, names.headers.as_slice())?;
    bad_leaves(alloc, ground, over, question.claim, tied, limit)
}

/// The answer by the bad leaves.
fn answered<O: Overrides, L: Ledger>(
    alloc: Global,
    question: Question<'_>,
    headers: &[Text],
    bad: &[Leaf],
    over: &mut O,
    evals: &mut Counter<L>,
) -> Result<Decided, NoMemory>
    requires over { Lends O.reading O.size (O.fixed over.old) question.world.now.files question.config.now }
    ensures answer { IfOk result (IsAnsweredIn (asked_in question.entry) headers.now bad.now) }
    ensures evals { Spends evals.old evals.new (length bad.now) }
    ensures over { Returns O.fixed O.loaded over }
{
    let Some(first) = bad.first() else {
        return Ok(Decided::Proved);
    };
    match first_shown(alloc, question, headers, bad, over, evals)? {
        Some(Shown { request, run }) => Ok(Decided::Refuted { request, run }),
        None => Ok(Decided::Undecided {
            branch: first.decisions.copy()?,
        }),
    }
}
