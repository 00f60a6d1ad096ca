//! Requests whose chains may break the claim are followed.
ghost use Rattle.std.specs.Prelude.{◌≡◌, IfOk, length, true};
ghost use Rattle.std.specs.List.{find, list_all};
ghost use Rattle.hc_broken.specs.Breaking.{is_outside};
ghost use Rattle.hc_ends.specs.Breaking.{breaks, breaks_by, is_broken, is_long, is_out};
ghost use Rattle.hc_ends.specs.Lending.{site_of};
ghost use Rattle.hc_ends.specs.Trying.{IsChainOf, IsShownIn, Spends, Tries};
ghost use Rattle.hc_members.specs.Requests.{is_of_scope};
ghost use Rattle.hc_serve.specs.Lent.{Lends, Returns};

use crate::chains::Chains;
use crate::finding::BadEnd;
use hc_base::{Counter, NoMemory, Text};
use hc_candidates::candidates;
use hc_follow::{Chain, Stop, follow};
use hc_model::{Outcome, Overrides, Reason, Request};
use hc_scope::Scope;
use hc_sent::LONGEST_TARGET;
use std::alloc::Global;
use std::sync::ledger::Ledger;

/// A request that breaks the claim, and its chain.
#[derive(Drop)]
pub struct Shown {
    pub request: Request,
    pub chain: Chain,
}

/// The first candidate of these ends whose chain breaks the claim.
pub(crate) fn first_shown<O: Overrides, L: Ledger>(
    alloc: Global,
    chains: Chains<'_>,
    scope: &Scope,
    headers: &[Text],
    bad: &[BadEnd],
    over: &mut O,
    evals: &mut Counter<L>,
) -> Result<Option<Shown>, NoMemory>
    requires over { Lends O.reading O.size (O.fixed over.old) chains.world.now.files chains.config.now }
    ensures shown { IfOk result (IsShownIn (site_of chains.entry) scope.now headers.now bad.now) }
    ensures evals { Spends evals.old evals.new (length bad.now) }
    ensures over { Returns O.fixed O.loaded over }
{
    for end in bad {
        let requests = candidates(alloc, scope, headers, &end.first)?;
        let first = first_of(alloc, chains, scope, requests.as_slice(), over, evals)?;
        if let Some(shown) = first {
            return Ok(Some(shown));
        }
    }
    Ok(None)
}

/// The first of these requests whose chain breaks the claim.
fn first_of<O: Overrides, L: Ledger>(
    alloc: Global,
    chains: Chains<'_>,
    scope: &Scope,
    requests: &[Request],
    over: &mut O,
    evals: &mut Counter<L>,
) -> Result<Option<Shown>, NoMemory>
    requires scope { list_all (is_of_scope scope.now) requests.now ≡ true }
    requires over { Lends O.reading O.size (O.fixed over.old) chains.world.now.files chains.config.now }
    ensures shown { IfOk result (IsChainOf (site_of chains.entry)
        (find (is_broken (site_of chains.entry)) requests.now)) }
    ensures evals { Tries evals.old evals.new (length requests.now) }
    ensures over { Returns O.fixed O.loaded over }
{
    for request in requests {
        let Chains {
            config,
            world,
            hosts,
        } = chains;
        let chain = follow(alloc, config, world, over, hosts, request, evals)?;
        if breaks(&chain) {
            let request = request.clone()?;
            return Ok(Some(Shown { request, chain }));
        }
    }
    Ok(None)
}

fn breaks(chain: &Chain) -> bool
    ensures { result ≡ breaks chain.now }
{
    match chain.stop {
        Stop::Ended => is_out(&chain.last.outcome),
        Stop::Away => false,
        Stop::BadTarget => !is_long(&chain.last.outcome),
        Stop::TooMany => true,
    }
}

fn is_out(last: &Outcome) -> bool
    ensures { result ≡ is_out last.now }
{
    match last {
        Outcome::Outside(reason) => is_outside(*reason),
        _ => false,
    }
}

fn is_outside(reason: Reason) -> bool
    ensures { result ≡ is_outside reason }
{
    !matches!(reason, Reason::LongText)
}

fn is_long(last: &Outcome) -> bool
    ensures { result ≡ is_long last.now }
{
    match last {
        Outcome::Redirect { location, .. } => LONGEST_TARGET < location.as_bytes().len(),
        _ => false,
    }
}
