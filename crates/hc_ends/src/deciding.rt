//! The answer to the claim.
ghost use Rattle.std.specs.Prelude.{IfOk, length, option_map};
ghost use Rattle.hc_absolute.specs.Absolute.{AreAbsolute};
ghost use Rattle.hc_ends.specs.Asking.{HaveNames};
ghost use Rattle.hc_ends.specs.Deciding.{Answers, Runs};
ghost use Rattle.hc_ends.specs.Finding.{AreBadEnds};
ghost use Rattle.hc_ends.specs.Holding.{Holds};
ghost use Rattle.hc_ends.specs.Lending.{site_of};
ghost use Rattle.hc_ends.specs.Trying.{IsAnsweredIn, Spends};
ghost use Rattle.hc_serve.specs.Lent.{Lends, Returns};

use crate::chaining::{Stage, add_chains};
use crate::chains::Chains;
use crate::decided::DecidedEnds;
use crate::finding::{BadEnd, Before, Found};
use crate::trying::{Shown, first_shown};
use hc_base::{Counter, Fault, NoMemory, Text};
use hc_follow::MOST_STEPS;
use hc_model::Overrides;
use hc_named::names_in;
use hc_scope::Scope;
use hc_vhost::choose;
use std::alloc::Global;
use std::sync::ledger::Ledger;

/// Whether each chain of a request of the scope ends, where there are fewer ends than the limit. `over` reads the
/// `.htaccess` files of the world; `evals` counts the requests of the candidates' chains.
pub fn decide_ends<'s, O: Overrides, L: Ledger>(
    alloc: Global,
    chains: Chains<'s>,
    scope: &'s Scope,
    limit: u32,
    over: &mut O,
    evals: &mut Counter<L>,
) -> Result<DecidedEnds, NoMemory>
    requires absolute { AreAbsolute chains.config.now }
    requires hosts { HaveNames chains.hosts.now }
    requires over { Lends O.reading O.size (O.fixed over.old) chains.world.now.files chains.config.now }
    ensures decided { IfOk result (Answers (site_of chains.entry) scope.now limit evals.old evals.new) }
    ensures holds { IfOk result (Holds (site_of chains.entry) scope.now) }
    ensures evals { Runs (site_of chains.entry) scope.now evals.old evals.new }
    ensures over { Returns O.fixed O.loaded over }
{
    let Some(bad) = bad_ends(alloc, chains, scope, limit, over)? else {
        return Ok(DecidedEnds::TooMany { count: limit });
    };
    let host = choose(
        chains.config,
        scope.server,
        scope.port,
        scope.host.as_bytes(),
    );
    let names = names_in(alloc, chains.config, host, chains.world, over)?;
    let headers = names.headers.as_slice();
    answered(alloc, chains, scope, headers, bad.as_slice(), over, evals)
}

/// The ends at which the claim may be broken; none where there are as many ends as the limit.
fn bad_ends<'s, O: Overrides>(
    alloc: Global,
    chains: Chains<'s>,
    scope: &'s Scope,
    limit: u32,
    over: &mut O,
) -> Result<Option<Vec<BadEnd>>, NoMemory>
    requires over { Lends O.reading O.size (O.fixed over.old) chains.world.now.files chains.config.now }
    ensures bad { IfOk result (λ found. AreBadEnds (site_of chains.entry) scope.now limit
        (option_map (λ bad. bad.items) found)) }
    ensures over { Returns O.fixed O.loaded over }
{
    let mut found = Found {
        bad: Vec::new(alloc),
        left: limit,
    };
    let first = Stage {
        chains,
        scope,
        before: Before {
            decisions: &[],
            first: None,
        },
        left: MOST_STEPS,
    };
    match add_chains(alloc, first, over, &mut found) {
        Err(Fault::NoMemory) => Err(NoMemory),
        Err(Fault::Refused(_)) => Ok(None),
        Ok(()) if found.left == 0 => Ok(None),
        Ok(()) => Ok(Some(found.bad)),
    }
}

/// The answer by the bad ends.
fn answered<O: Overrides, L: Ledger>(
    alloc: Global,
    chains: Chains<'_>,
    scope: &Scope,
    headers: &[Text],
    bad: &[BadEnd],
    over: &mut O,
    evals: &mut Counter<L>,
) -> Result<DecidedEnds, NoMemory>
    requires over { Lends O.reading O.size (O.fixed over.old) chains.world.now.files chains.config.now }
    ensures answer { IfOk result (IsAnsweredIn (site_of chains.entry) scope.now headers.now bad.now) }
    ensures evals { Spends evals.old evals.new (length bad.now) }
    ensures over { Returns O.fixed O.loaded over }
{
    let Some(first) = bad.first() else {
        return Ok(DecidedEnds::Proved);
    };
    match first_shown(alloc, chains, scope, headers, bad, over, evals)? {
        Some(Shown { request, chain }) => Ok(DecidedEnds::Refuted { request, chain }),
        None => Ok(DecidedEnds::Undecided {
            branch: first.decisions.copy()?,
        }),
    }
}
