//! Requests that may break a claim are run.
ghost use Rattle.std.specs.Prelude.{◌≡◌, IfOk, length, true};
ghost use Rattle.std.specs.List.{list_all};
ghost use Rattle.hc_claim.specs.Trying.{IsRunOf, IsShownIn, Spends, Tries, asked_in, broken_of};
ghost use Rattle.hc_serve.specs.Lent.{Lends, Returns};
ghost use Rattle.hc_members.specs.Requests.{is_of_scope};

use crate::question::Question;
use hc_abs_leaves::Leaf;
use hc_base::{Counter, NoMemory, Text};
use hc_broken::replay;
use hc_candidates::candidates;
use hc_model::{Overrides, Request};
use hc_serve::WholeRun;
use std::alloc::Global;
use std::sync::ledger::Ledger;

/// A request that breaks a claim, and its run.
#[derive(Drop)]
pub struct Shown {
    pub request: Request,
    pub run: WholeRun,
}

/// The first candidate of these leaves that breaks the claim.
pub(crate) fn first_shown<O: Overrides, L: Ledger>(
    alloc: Global,
    question: Question<'_>,
    headers: &[Text],
    bad: &[Leaf],
    over: &mut O,
    evals: &mut Counter<L>,
) -> Result<Option<Shown>, NoMemory>
    requires over { Lends O.reading O.size (O.fixed over.old) question.world.now.files question.config.now }
    ensures shown { IfOk result (IsShownIn (asked_in question.entry) headers.now bad.now) }
    ensures evals { Spends evals.old evals.new (length bad.now) }
    ensures over { Returns O.fixed O.loaded over }
{
    for leaf in bad {
        let requests = candidates(alloc, question.scope, headers, &leaf.tied.cell)?;
        let first = first_of(alloc, question, requests.as_slice(), over, evals)?;
        if let Some(shown) = first {
            return Ok(Some(shown));
        }
    }
    Ok(None)
}

/// The first of these requests that breaks the claim.
fn first_of<O: Overrides, L: Ledger>(
    alloc: Global,
    question: Question<'_>,
    requests: &[Request],
    over: &mut O,
    evals: &mut Counter<L>,
) -> Result<Option<Shown>, NoMemory>
    requires scope { list_all (is_of_scope question.scope.now) requests.now ≡ true }
    requires over { Lends O.reading O.size (O.fixed over.old) question.world.now.files question.config.now }
    ensures shown { IfOk result (IsRunOf (asked_in question.entry) (broken_of (asked_in question.entry) requests.now)) }
    ensures evals { Tries evals.old evals.new (length requests.now) }
    ensures over { Returns O.fixed O.loaded over }
{
    for request in requests {
        let Question {
            config,
            world,
            claim,
            ..
        } = question;
        if let Some(run) = replay(alloc, config, world, over, claim, request, evals)? {
            let request = request.clone()?;
            return Ok(Some(Shown { request, run }));
        }
    }
    Ok(None)
}
