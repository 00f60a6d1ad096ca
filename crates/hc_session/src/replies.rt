//! The lines of replies, each with what a summary counts of it.
ghost use Rattle.std.specs.Prelude.{◌≡◌, [], IfOk};
ghost use Rattle.hc_base.specs.declared.codes.TheConstants.{SET_SYNTAX};
ghost use Rattle.hc_json.specs.Command.{bad_line};
ghost use Rattle.hc_json.specs.CommandView.{no_command_view};
ghost use Rattle.hc_json.specs.Reply as reply;
ghost use Rattle.hc_json.specs.ReplyView.{reply_view};
ghost use Rattle.hc_stated.specs.Stated.{field_name};
ghost use Rattle.hc_session.specs.Deciding.{bad_pattern_line, decided_reply};
ghost use Rattle.hc_session.specs.Ending.{ends_reply};
ghost use Rattle.hc_session.specs.Following.{chain_reply, stop_told};
ghost use Rattle.hc_session.specs.Session.{Says, answer_reply, check_reply, said_of_outcome};
ghost use Rattle.hc_session.specs.Verifying.{told_as, verdict_reply};

use crate::limits::FORBIDDEN;
use crate::stepped::{Said, Stepped};
use hc_base::codes::{BAD_COMMAND, BAD_JSON, SET_SYNTAX};
use hc_base::{NoMemory, Refusal};
use hc_ends::DecidedEnds;
use hc_follow::Chain;
use hc_held::{Decided, Verdict};
use hc_json::{
    Condition, NoCommand, Rejection, Reply, Stop, Trail, bad_line, print_followed, print_outcome,
    print_refuted, print_rejected, print_reply, print_trailed, print_undecided,
};
use hc_model::{Config, Decision, Outcome, Request};
use hc_serve::Answer;
use hc_stated::{BadPattern, Field};
use hc_world::World;
use std::alloc::Global;

/// A reply that is no answer of an ask.
pub(crate) fn replied(alloc: Global, reply: &Reply) -> Result<Stepped, NoMemory>
    ensures { IfOk result (Says (reply_view reply.now)) }
{
    Ok(Stepped {
        line: print_reply(alloc, reply)?,
        said: Said::Other,
    })
}

/// The refusal of a line for a rule of its own.
pub(crate) fn refused(alloc: Global, code: u8) -> Result<Stepped, NoMemory>
    ensures { IfOk result (Says (reply.refused (bad_line code []))) }
{
    replied(alloc, &Reply::Refused(bad_line(alloc, code, "")?))
}

/// The reply to a line that is no command.
pub(crate) fn no_command(alloc: Global, why: NoCommand<'_>) -> Result<Stepped, NoMemory>
    ensures { IfOk result (Says (reply.refused (no_command_view why.entry))) }
{
    let refusal = match why {
        NoCommand::BadJson => bad_line(alloc, BAD_JSON, "")?,
        NoCommand::BadField(field) => bad_line(alloc, BAD_COMMAND, field)?,
    };
    replied(alloc, &Reply::Refused(refusal))
}

/// A refusal of the configuration.
pub(crate) fn refusing(alloc: Global, refusal: &Refusal) -> Result<Stepped, NoMemory>
    ensures { IfOk result (Says (reply.refused refusal.now)) }
{
    replied(alloc, &Reply::Refused(refusal.clone()?))
}

/// The reply to a `check`.
pub(crate) fn checked(alloc: Global, built: &Result<Config, Refusal>) -> Result<Stepped, NoMemory>
    ensures { IfOk result (Says (check_reply built.now)) }
{
    match built {
        Ok(config) => replied(alloc, &Reply::Config(config.hosts.as_slice().len())),
        Err(refusal) => refusing(alloc, refusal),
    }
}

/// The refusal of a set that is none.
pub(crate) fn no_set(alloc: Global, field: Field) -> Result<Stepped, NoMemory>
    ensures { IfOk result (Says (reply.refused (bad_line SET_SYNTAX (field_name field)))) }
{
    replied(
        alloc,
        &Reply::Refused(bad_line(alloc, SET_SYNTAX, field.name())?),
    )
}

/// The refusal of a pattern in a set.
pub(crate) fn no_pattern(alloc: Global, bad: BadPattern) -> Result<Stepped, NoMemory>
    ensures { IfOk result (Says (reply.refused (bad_pattern_line bad))) }
{
    let refusal = Refusal {
        at: bad.why.at,
        ..bad_line(alloc, bad.why.code, bad.field.name())?
    };
    replied(alloc, &Reply::Refused(refusal))
}

/// Where a chain of redirects ends.
pub(crate) fn followed(alloc: Global, chain: &Chain) -> Result<Stepped, NoMemory>
    ensures { IfOk result (Says (chain_reply chain.now)) }
{
    Ok(Stepped {
        line: print_followed(
            alloc,
            &chain.last.outcome,
            chain.steps,
            stop_told(chain.stop),
        )?,
        said: Said::Other,
    })
}

fn stop_told(stop: hc_follow::Stop) -> Stop
    ensures { result ≡ stop_told stop }
{
    match stop {
        hc_follow::Stop::Ended => Stop::Ended,
        hc_follow::Stop::Away => Stop::Away,
        hc_follow::Stop::BadTarget => Stop::BadTarget,
        hc_follow::Stop::TooMany => Stop::TooMany,
    }
}

/// The answer to a claim.
pub(crate) fn decided(alloc: Global, answer: &Decided) -> Result<Stepped, NoMemory>
    ensures { IfOk result (Says (decided_reply answer.now)) }
{
    match answer {
        Decided::Proved => replied(alloc, &Reply::Proved),
        Decided::TooMany { count } => replied(alloc, &Reply::TooMany(*count)),
        Decided::Refuted { request, run } => refuted(alloc, &run.outcome, request),
        Decided::Undecided { branch } => undecided(alloc, branch.as_slice()),
    }
}

/// The answer to the claim that chains of redirects end.
pub(crate) fn ended(alloc: Global, answer: &DecidedEnds) -> Result<Stepped, NoMemory>
    ensures { IfOk result (Says (ends_reply answer.now)) }
{
    match answer {
        DecidedEnds::Proved => replied(alloc, &Reply::Proved),
        DecidedEnds::TooMany { count } => replied(alloc, &Reply::TooMany(*count)),
        DecidedEnds::Refuted { request, chain } => refuted(alloc, &chain.last.outcome, request),
        DecidedEnds::Undecided { branch } => undecided(alloc, branch.as_slice()),
    }
}

// The request that breaks a claim, and what it receives at last.
fn refuted(alloc: Global, outcome: &Outcome, request: &Request) -> Result<Stepped, NoMemory>
    ensures { IfOk result (Says (reply.refuted outcome.now request.now)) }
{
    Ok(Stepped {
        line: print_refuted(alloc, outcome, request)?,
        said: Said::Other,
    })
}

// What was decided on the way to an end that may break a claim.
fn undecided(alloc: Global, branch: &[Decision]) -> Result<Stepped, NoMemory>
    ensures { IfOk result (Says (reply.undecided branch.now)) }
{
    Ok(Stepped {
        line: print_undecided(alloc, branch)?,
        said: Said::Other,
    })
}

/// The verdict on an invariant.
pub(crate) fn verified(alloc: Global, verdict: &Verdict) -> Result<Stepped, NoMemory>
    ensures { IfOk result (Says (verdict_reply verdict.now)) }
{
    match verdict {
        Verdict::Accepted => replied(alloc, &Reply::Accepted),
        Verdict::Rejected(rejection) => Ok(Stepped {
            line: print_rejected(alloc, rejection_of(rejection))?,
            said: Said::Other,
        }),
    }
}

fn rejection_of(rejection: &hc_held::Rejection) -> Rejection<'_>
    ensures branch { result.branch.now ≡ rejection.now.branch }
    ensures cell { result.cell ≡ rejection.now.cell }
    ensures condition { result.condition ≡ told_as rejection.now.condition }
    ensures text { result.text.now ≡ rejection.now.text }
{
    Rejection {
        branch: rejection.branch.as_slice(),
        cell: rejection.cell as usize,
        condition: told_as(rejection.condition),
        text: rejection.text.as_bytes(),
    }
}

fn told_as(condition: hc_held::Condition) -> Condition
    ensures { result ≡ told_as condition }
{
    match condition {
        hc_held::Condition::Start => Condition::Start,
        hc_held::Condition::Arrivals => Condition::Arrivals,
        hc_held::Condition::Ends => Condition::Ends,
        hc_held::Condition::Ranks => Condition::Ranks,
        hc_held::Condition::Size => Condition::Size,
    }
}

/// What a request receives: the outcome alone, or with its trail.
pub(crate) fn answered(
    alloc: Global,
    world: &World,
    trail: bool,
    answer: &Answer,
) -> Result<Stepped, NoMemory>
    ensures { IfOk result (Says (answer_reply trail world.now.files answer.now)) }
{
    let said = said_of_outcome(&answer.outcome);
    let line = if trail {
        print_trailed(alloc, world, trail_of(answer))?
    } else {
        print_outcome(alloc, &answer.outcome)?
    };
    Ok(Stepped { line, said })
}

fn trail_of(answer: &Answer) -> Trail<'_>
    ensures outcome { result.outcome.now ≡ answer.now.outcome }
    ensures events { result.events ≡ answer.now.events }
    ensures reads { result.reads.now ≡ answer.now.reads }
    ensures trail { result.trail.now ≡ answer.now.trail }
{
    Trail {
        outcome: &answer.outcome,
        events: answer.events,
        reads: answer.reads.as_slice(),
        trail: answer.trail.as_slice(),
    }
}

fn said_of_outcome(outcome: &Outcome) -> Said
    ensures { result ≡ said_of_outcome outcome.now }
{
    match outcome {
        Outcome::File { .. } => Said::File,
        Outcome::NotFound => Said::Missing,
        Outcome::Status(status) if *status == FORBIDDEN => Said::Denied,
        _ => Said::Other,
    }
}
