//! The branches of one rule (Apache manual, mod_rewrite, RewriteRule; "Apache mod_rewrite Technical Details", "Ruleset
//! Processing").
ghost use Rattle.std.specs.Prelude.{◌≡◌, ◌≤◌, ◌∷◌, [], ◌++◌, IfOk, OnOk};
ghost use Rattle.hc_abs_rw.specs.Known.{frame_at};
ghost use Rattle.hc_abs_rw.specs.RuleBranches.{AddsPattern, AddsTested, AreRuleBranches, AreTested, CoverAttempts};
ghost use Rattle.hc_abs_rw.specs.RuleBranches.{matched, states_of, unmatched};
ghost use Rattle.hc_model.specs.declared.event.Decision.TheVariants as decision;

use crate::apply::{Applied, Made, Next, Setting};
use crate::conds::{Trial, conds_trials};
use crate::effect::applied;
use crate::frame::{Frame, Surroundings};
use crate::pattern::{Looked, look_for_pattern};
use crate::room::fit;
use hc_base::{List, NoMemory};
use hc_model::{Decision, Rule};
use hc_plan::Tied;
use std::alloc::Global;

/// A branch of a rule: the states that it leaves, and what the rule came to.
#[derive(Drop)]
pub struct RuleBranch {
    pub tied: Tied,
    pub decisions: List<Decision>,
    pub matched: bool,
    pub made: Made,
}

/// The branches of a rule over the states of a set of requests, in the order of its tests, each time first the way in
/// which the test holds. Branches that have more states together than the frame has room for are refused as memory is.
pub fn rule_branches<S: Surroundings>(
    alloc: Global,
    frame: &Frame<'_, S>,
    rule: &Rule,
    setting: Setting,
    before: Tied,
    so_far: &List<Decision>,
) -> Result<Vec<RuleBranch>, NoMemory>
    ensures branches { IfOk result (λ found. AreRuleBranches (frame_at S.kind S.values frame.now)
        frame.now.client rule.now setting before so_far.now found.items) }
    ensures room { IfOk result (λ found. states_of (λ branch. branch.tied.cell) found.items ≤ frame.now.room) }
    ensures cover { IfOk result (λ found. CoverAttempts (frame_at S.kind S.values frame.now) frame.now.client rule.now
        setting before so_far.now found.items) }
{
    let Tied { cell, ties } = before;
    let looked = look_for_pattern(alloc, frame, rule, cell, ties)?;
    let mut found = Vec::new(alloc);
    for one in looked {
        past_pattern(alloc, frame, rule, setting, so_far, one, &mut found)?;
    }
    if !fit(&found, frame.room) {
        return Err(NoMemory);
    }
    Ok(found)
}

/// Behind the pattern: its conditions where it holds, and else the end.
fn past_pattern<'r, S: Surroundings>(
    alloc: Global,
    frame: &Frame<'_, S>,
    rule: &'r Rule,
    setting: Setting,
    so_far: &List<Decision>,
    looked: Looked<'r>,
    found: &mut Vec<RuleBranch>,
) -> Result<(), NoMemory>
    ensures { OnOk result (AddsPattern (frame_at S.kind S.values frame.now) frame.now.client rule.now setting
        so_far.now looked.entry found.old.items found.new.items) }
{
    let Looked { known, holds } = looked;
    if !holds {
        let tied = Tied {
            cell: known.cell,
            ties: known.ties,
        };
        found.push(unmatched(so_far, rule, tied)?)?;
        return Ok(());
    }
    let decisions = so_far.copy()?;
    let trial = Trial {
        known,
        decisions,
        holds,
    };
    let trials = conds_trials(alloc, frame, trial, rule.conds.as_slice())?;
    let mut later = behind_conds(alloc, frame, rule, setting, trials)?;
    found.append(&mut later)?;
    Ok(())
}

/// What follows each of the ways through the conditions.
fn behind_conds<S: Surroundings>(
    alloc: Global,
    frame: &Frame<'_, S>,
    rule: &Rule,
    setting: Setting,
    trials: Vec<Trial<'_>>,
) -> Result<Vec<RuleBranch>, NoMemory>
    ensures { IfOk result (λ found. AreTested (frame_at S.kind S.values frame.now) frame.now.client rule.now setting
        trials.entry.items found.items) }
{
    let mut found = Vec::new(alloc);
    for trial in trials {
        past_conds(alloc, frame, rule, setting, trial, &mut found)?;
    }
    Ok(found)
}

/// Behind the conditions: what the rule does where they hold, and else the end.
fn past_conds<S: Surroundings>(
    alloc: Global,
    frame: &Frame<'_, S>,
    rule: &Rule,
    setting: Setting,
    trial: Trial<'_>,
    found: &mut Vec<RuleBranch>,
) -> Result<(), NoMemory>
    ensures { OnOk result (AddsTested (frame_at S.kind S.values frame.now) frame.now.client rule.now setting trial.entry
        found.old.items found.new.items) }
{
    let Trial {
        known,
        decisions,
        holds,
    } = trial;
    if !holds {
        let tied = Tied {
            cell: known.cell,
            ties: known.ties,
        };
        found.push(unmatched(&decisions, rule, tied)?)?;
        return Ok(());
    }
    let ends = applied(alloc, frame, rule, setting, known)?;
    add_ends(rule, &decisions, ends, found)?;
    Ok(())
}

/// What the rule did, behind its decision.
fn add_ends(
    rule: &Rule,
    so_far: &List<Decision>,
    ends: Vec<Applied>,
    found: &mut Vec<RuleBranch>,
) -> Result<(), NoMemory>
    ensures { OnOk result (found.new.items ≡ found.old.items ++ matched so_far.now rule.now ends.items) }
{
    for end in ends {
        found.push(RuleBranch {
            tied: end.tied,
            decisions: decided(so_far, rule, true)?,
            matched: true,
            made: end.made,
        })?;
    }
    Ok(())
}

/// A rule that doesn't match changes nothing.
fn unmatched(so_far: &List<Decision>, rule: &Rule, tied: Tied) -> Result<RuleBranch, NoMemory>
    ensures { IfOk result (λ made. made ≡ unmatched tied so_far.now rule.now) }
{
    Ok(RuleBranch {
        tied,
        decisions: decided(so_far, rule, false)?,
        matched: false,
        made: Made::nothing(Next::GoesOn),
    })
}

/// The decisions so far, and that of a rule.
fn decided(so_far: &List<Decision>, rule: &Rule, matched: bool) -> Result<List<Decision>, NoMemory>
    ensures { IfOk result (λ more. more ≡ so_far.now ++ decision.Rule rule.now.place matched ∷ []) }
{
    let mut more = so_far.copy()?;
    more.push(Decision::Rule {
        place: rule.place.clone()?,
        matched,
    })?;
    Ok(more)
}
