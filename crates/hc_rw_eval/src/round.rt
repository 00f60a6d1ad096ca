//! One round through a list of rules (Apache manual, "RewriteRule Flags": C, S, N, L, END, PT).
ghost use Rattle.std.specs.Prelude.{◌≡◌, ◌≤◌, IfOk, drop, length, nat_le};
ghost use Rattle.std.specs.List.{prefix_len};
ghost use Rattle.hc_rw_eval.specs.Frames.{context_at, looks_at, shown_at};
ghost use Rattle.hc_rw_eval.specs.Lists.{from_place, has_chain, is_followed, next_by, skipped_chain, stops_run};
ghost use Rattle.hc_rw_eval.specs.Lists.{with_end};
ghost use Rattle.hc_rw_eval.specs.Turns.{rule_held, turned, turned_match};
ghost use Rattle.hc_steps.specs.Ran.{Answers, Takes};

use crate::attempt::{Attempt, Looked, Rewritten, looked_in, pattern_held, with_groups};
use crate::frame::{Frame, Stop};
use crate::run::{Finished, NextRound, Round};
use hc_base::{Fault, NoMemory};
use hc_model::{Flags, LimitKind, Lookups, Outcome, Rule};
use hc_rw_expand::RwState;
use hc_steps::Log;

/// What follows a rule: nothing in this round, or the rules behind so many.
#[derive(Drop)]
pub(crate) enum Turn {
    Ended(Round),
    Further { skipped: usize, left: Rewritten },
}

fn with_end(end: bool, left: Rewritten) -> Rewritten
    ensures { result ≡ with_end end left }
{
    if !end {
        return left;
    }
    let Rewritten { state, substituted } = left;
    Rewritten {
        state: RwState { end: true, ..state },
        substituted,
    }
}

// How many rules with C come first.
fn chain_length(rules: &[Rule]) -> usize
    ensures value { result ≡ prefix_len has_chain rules.now }
    ensures within { result ≤ length rules.now }
{
    for (place, rule) in rules.iter().enumerate() {
        if !rule.flags.chain {
            return place;
        }
    }
    rules.len()
}

/// How many rules a rule that does not match skips: with C those up to the first without it.
pub fn skipped_chain(rule: &Rule, behind: &[Rule]) -> usize
    ensures { result ≡ skipped_chain rule.now behind.now }
{
    if rule.flags.chain {
        chain_length(behind) + 1
    } else {
        0
    }
}

// The rules behind so many.
fn beyond(rules: &[Rule], count: usize) -> &[Rule]
    ensures { result.now ≡ drop count rules.now }
{
    rules.split_at(rules.len().min(count)).1
}

/// PT, L and END stop the run.
pub fn stops_run(flags: &Flags) -> bool
    ensures { result ≡ stops_run flags.now }
{
    flags.pass || flags.last || flags.end
}

// N begins no round behind this one.
fn is_last(flags: &Flags, round: u32) -> bool
    ensures { result ≡ nat_le flags.now.rounds round }
{
    flags.rounds <= round
}

// The round that a rule with N begins.
fn next_by(rule: &Rule, left: Rewritten) -> Result<NextRound, NoMemory>
    ensures { IfOk result (λ next. next ≡ next_by rule.now left) }
{
    Ok(NextRound {
        place: rule.place.clone()?,
        bound: rule.flags.rounds,
        left,
    })
}

// A rule that matched. N in a round that is its bound ends the request.
#[tactic(auto, unfolding(crate::specs::Turns::turned_match), using(hc_steps::proofs::Going::telling))]
fn turned_match(rule: &Rule, round: u32, left: Rewritten) -> Result<Turn, Stop>
    ensures { Answers result (turned_match rule.now round left) }
{
    let flags = &rule.flags;
    if stops_run(flags) {
        return Ok(Turn::Ended(Round::Over(Finished {
            left: with_end(flags.end, left),
            passed: flags.pass,
        })));
    }
    if !flags.next {
        return Ok(Turn::Further {
            skipped: flags.skip as usize,
            left,
        });
    }
    if is_last(flags, round) {
        return Err(Fault::Refused(Outcome::Limit(LimitKind::Rounds)));
    }
    Ok(Turn::Ended(Round::Again(next_by(rule, left)?)))
}

#[tactic(auto, unfolding(crate::specs::Turns::turned), using(hc_steps::proofs::Going::telling))]
fn turned(rule: &Rule, behind: &[Rule], round: u32, attempt: Attempt) -> Result<Turn, Stop>
    ensures { Answers result (turned rule.now behind.now round attempt) }
{
    if !attempt.matched {
        return Ok(Turn::Further {
            skipped: skipped_chain(rule, behind),
            left: attempt.left,
        });
    }
    turned_match(rule, round, attempt.left)
}

/// Whether there are rules behind one.
pub fn is_followed(behind: &[Rule]) -> bool
    ensures { result ≡ is_followed behind.now }
{
    !behind.is_empty()
}

// A rule whose pattern held, with those behind it.
#[tactic(auto, unfolding(crate::specs::Turns::rule_held), using(crate::proofs::Leading::stepping))]
fn rule_held<P: Lookups>(
    frame: &Frame<'_, P>,
    log: &mut Log,
    rule: &Rule,
    behind: &[Rule],
    round: u32,
    before: Rewritten,
) -> Result<Turn, Stop>
    ensures { Takes result log (rule_held (context_at frame.now)
        (looks_at P.files P.values frame.now) rule.now behind.now round before) (shown_at frame.now) }
{
    let attempt = pattern_held(frame, log, rule, is_followed(behind), before)?;
    turned(rule, behind, round, attempt)
}

/// A round, counted from 1, through the rules of a list.
pub(crate) fn from_place<P: Lookups>(
    frame: &Frame<'_, P>,
    log: &mut Log,
    round: u32,
    rules: &[Rule],
    left: Rewritten,
) -> Result<Round, Stop>
    ensures { Takes result log (from_place (context_at frame.now)
        (looks_at P.files P.values frame.now) round 0 rules.now left) (shown_at frame.now) }
{
    let mut left = left;
    let mut rest = rules;
    while let Some((rule, behind)) = rest.split_first() {
        let looked = looked_in(frame, log, rule, &left.state)?;
        let Looked::Held(groups) = looked else {
            rest = beyond(behind, skipped_chain(rule, behind));
            continue;
        };
        let before = with_groups(left, groups);
        match rule_held(frame, log, rule, behind, round, before)? {
            Turn::Ended(round) => return Ok(round),
            Turn::Further {
                skipped,
                left: next,
            } => {
                left = next;
                rest = beyond(behind, skipped);
            }
        }
    }
    Ok(Round::Over(Finished {
        left,
        passed: false,
    }))
}
