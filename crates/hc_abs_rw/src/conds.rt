//! The conditions of a rule over what is known (Apache manual, mod_rewrite, RewriteCond).
ghost use Rattle.std.specs.Prelude.{◌≡◌, ◌∷◌, [], ◌++◌, false, true};
ghost use Rattle.std.specs.Prelude.{IfOk, List, None, OnOk, option_map};
ghost use Rattle.hc_plan.specs.declared.hand.Element.{Element};
ghost use Rattle.hc_dfa.specs.Automata.{accepts};
ghost use Rattle.hc_dfa.specs.Built.{Accepts};
ghost use Rattle.hc_abs_rw.specs.Conditions.{conds_plan, group_plan};
ghost use Rattle.hc_abs_rw.specs.Known.{frame_at};
ghost use Rattle.hc_abs_rw.specs.Trials.{AddsLeft, AddsTried, ArePast, ArePastGroup, CondsLeft, IsLeft, IsTriedBy};
ghost use Rattle.hc_abs_rw.specs.Trials.{cond_set, grouping};
ghost use Rattle.hc_model.specs.declared.event.Decision.TheVariants as decision;
ghost use Rattle.hc_pattern.specs.Pattern.{pattern_of};
ghost use Rattle.hc_rw_eval.specs.Conditions.{or_groups};

use crate::elements::expanded;
use crate::frame::{Frame, Surroundings};
use crate::known::{Held, Known, shared};
use crate::room::fit;
use crate::ways::{Ways, found_texts, held_on, ways_of};
use hc_base::{List, NoMemory};
use hc_cells::Cell;
use hc_dfa::Dfa;
use hc_model::{Cond, CondKind, Decision};
use hc_pattern::Pat;
use hc_plan::{Element, Hand, Way};
use hc_rw_eval::group_length;
use hc_rw_sets::texts_like;
use std::alloc::Global;

/// What was found where conditions were tried.
#[derive(Drop)]
pub struct Trial<'r> {
    pub known: Known<'r>,
    pub decisions: List<Decision>,
    pub holds: bool,
}

/// The texts that a condition tests for.
fn cond_set<S: Surroundings>(
    alloc: Global,
    frame: &Frame<'_, S>,
    cond: &Cond,
) -> Result<Dfa, NoMemory>
    ensures { IfOk result (λ set. Accepts set
        (cond_set (frame_at S.kind S.values frame.now) cond.now.kind cond.now.nocase)) }
{
    match &cond.kind {
        CondKind::Search(pattern) => found_texts(alloc, pattern.as_pat()),
        CondKind::Equals(wanted) => texts_like(alloc, cond.nocase, wanted.as_bytes()),
        CondKind::IsFile => frame.around.files().clone(),
        CondKind::IsDir => frame.around.dirs().clone(),
    }
}

/// The pattern of which a condition leaves the groups where it holds.
fn grouping(cond: &Cond) -> Option<&Pat>
    ensures { option_map (λ pattern. pattern_of pattern.now) result ≡ grouping cond.now }
{
    match &cond.kind {
        CondKind::Search(pattern) if !cond.negated => Some(pattern.as_pat()),
        _ => None,
    }
}

/// The decisions so far, and that of a condition.
fn decided(decisions: &List<Decision>, cond: &Cond, held: bool) -> Result<List<Decision>, NoMemory>
    ensures { IfOk result (λ more. more ≡ decisions.now ++ decision.Cond cond.now.place held ∷ []) }
{
    let mut more = decisions.copy()?;
    more.push(Decision::Cond {
        place: cond.place.clone()?,
        held,
    })?;
    Ok(more)
}

/// Tries the conditions of a rule, group by group: behind a group that doesn't hold none is tried.
pub fn conds_trials<'r, S: Surroundings>(
    alloc: Global,
    frame: &Frame<'_, S>,
    trial: Trial<'r>,
    conds: &'r [Cond],
) -> Result<Vec<Trial<'r>>, NoMemory>
    ensures { IfOk result (λ found. IsTriedBy frame.now.client
        (λ so_far. conds_plan (frame_at S.kind S.values frame.now) so_far (or_groups conds.now))
        trial.entry found.items) }
{
    let mut trials = Vec::new(alloc);
    trials.push(Trial {
        holds: true,
        known: trial.known,
        decisions: trial.decisions,
    })?;
    let mut rest = conds;
    while !rest.is_empty() {
        let (group, behind) = rest.split_at(group_length(rest));
        trials = past_group(alloc, frame, trials, group)?;
        rest = behind;
    }
    Ok(trials)
}

/// Tries a group in what was found before it, unless that doesn't hold already.
fn past_group<'r, S: Surroundings>(
    alloc: Global,
    frame: &Frame<'_, S>,
    trials: Vec<Trial<'r>>,
    group: &'r [Cond],
) -> Result<Vec<Trial<'r>>, NoMemory>
    ensures { IfOk result (λ later. ArePastGroup (frame_at S.kind S.values frame.now) frame.now.client group.now
        trials.entry.items later.items) }
{
    let mut later = Vec::new(alloc);
    for trial in trials {
        if trial.holds {
            let mut found = group_trials(alloc, frame, trial, group)?;
            later.append(&mut found)?;
        } else {
            later.push(trial)?;
        }
    }
    Ok(later)
}

/// Tries the members of a group: once one holds the others are skipped.
fn group_trials<'r, S: Surroundings>(
    alloc: Global,
    frame: &Frame<'_, S>,
    trial: Trial<'r>,
    group: &'r [Cond],
) -> Result<Vec<Trial<'r>>, NoMemory>
    ensures { IfOk result (λ found. IsTriedBy frame.now.client
        (λ so_far. group_plan (frame_at S.kind S.values frame.now) so_far group.now) trial.entry found.items) }
{
    let mut trials = Vec::new(alloc);
    trials.push(Trial {
        holds: false,
        known: trial.known,
        decisions: trial.decisions,
    })?;
    for cond in group {
        trials = past_cond(alloc, frame, trials, cond)?;
        if !fit(&trials, frame.room) {
            return Err(NoMemory);
        }
    }
    Ok(trials)
}

/// Tries a condition in what was found before it, unless that holds already.
fn past_cond<'r, S: Surroundings>(
    alloc: Global,
    frame: &Frame<'_, S>,
    trials: Vec<Trial<'r>>,
    cond: &'r Cond,
) -> Result<Vec<Trial<'r>>, NoMemory>
    ensures { IfOk result (λ later. ArePast (frame_at S.kind S.values frame.now) frame.now.client cond.now
        trials.entry.items later.items) }
{
    let set = cond_set(alloc, frame, cond)?;
    let mut later = Vec::new(alloc);
    for trial in trials {
        if trial.holds {
            later.push(trial)?;
        } else {
            try_cond(alloc, frame, trial, cond, &set, &mut later)?;
        }
    }
    Ok(later)
}

/// Adds what is found where a condition is tried: first where it holds, then where it doesn't.
fn try_cond<'r, S: Surroundings>(
    alloc: Global,
    frame: &Frame<'_, S>,
    trial: Trial<'r>,
    cond: &'r Cond,
    set: &Dfa,
    later: &mut Vec<Trial<'r>>,
) -> Result<(), NoMemory>
    requires { Accepts set.now (cond_set (frame_at S.kind S.values frame.now) cond.now.kind cond.now.nocase) }
    ensures { OnOk result (AddsTried (frame_at S.kind S.values frame.now) frame.now.client cond.now trial.entry
        later.old.items later.new.items) }
{
    let elements = expanded(alloc, frame, &trial.known, cond.test.as_slice())?;
    let hand = Hand {
        elements: &elements,
        off: 0,
        side: &None,
    };
    let known = &trial.known;
    let ways = ways_of(alloc, &known.cell, known.ties, hand, set, cond.negated)?;
    let Ways { held, failed } = ways;
    add_held(alloc, &trial, cond, held, elements, later)?;
    add_failed(trial, cond, failed, later)?;
    Ok(())
}

/// Adds what is left where a condition holds.
#[tactic(auto, using(crate::proofs::Trials::adds_none, crate::proofs::Trials::adds_one))]
fn add_held<'r>(
    alloc: Global,
    trial: &Trial<'r>,
    cond: &'r Cond,
    way: Option<Way>,
    elements: Vec<Element>,
    later: &mut Vec<Trial<'r>>,
) -> Result<(), NoMemory>
    ensures { OnOk result (AddsLeft cond.now trial.now true (grouping cond.now) elements.items way
        later.old.items later.new.items) }
{
    match way {
        Some(way) => later.push(held_trial(alloc, trial, cond, way, elements)?)?,
        None => (),
    }
    Ok(())
}

/// Adds what is left where it doesn't.
#[tactic(auto, using(crate::proofs::Trials::adds_none, crate::proofs::Trials::adds_one))]
fn add_failed<'r>(
    trial: Trial<'r>,
    cond: &Cond,
    way: Option<Way>,
    later: &mut Vec<Trial<'r>>,
) -> Result<(), NoMemory>
    ensures { OnOk result ((elements : List Element)
        → AddsLeft cond.now trial.entry false None elements way later.old.items later.new.items) }
{
    match way {
        Some(way) => later.push(failed_trial(trial, cond, way)?)?,
        None => (),
    }
    Ok(())
}

/// What is left where a condition holds.
fn held_trial<'r>(
    alloc: Global,
    trial: &Trial<'r>,
    cond: &'r Cond,
    way: Way,
    elements: Vec<Element>,
) -> Result<Trial<'r>, NoMemory>
    ensures { IfOk result (IsLeft cond.now trial.now true (grouping cond.now) elements.items way) }
{
    let decisions = decided(&trial.decisions, cond, true)?;
    let groups = shared(&trial.known.groups)?;
    let Way { cell, side } = way;
    let own = cell.clone()?;
    let cond_groups = groups_left(alloc, &trial.known, cond, own, elements, side)?;
    Ok(Trial {
        known: Known {
            cell,
            ties: trial.known.ties,
            groups,
            cond_groups,
        },
        decisions,
        holds: true,
    })
}

/// What `%0` to `%9` hold then.
#[tactic(auto, using(crate::proofs::Trials::conds_kept, crate::proofs::Trials::conds_new))]
fn groups_left<'r>(
    alloc: Global,
    known: &Known<'r>,
    cond: &'r Cond,
    cell: Cell,
    elements: Vec<Element>,
    side: Option<Dfa>,
) -> Result<Held<'r>, NoMemory>
    ensures { IfOk result (CondsLeft (grouping cond.now) known.now elements.items cell side) }
{
    match grouping(cond) {
        None => {
            let held = shared(&known.cond_groups)?;
            Ok(held)
        }
        Some(pattern) => {
            let held = held_on(alloc, pattern, cell, elements, 0, side)?;
            Ok(held)
        }
    }
}

/// What is left where a condition doesn't hold.
fn failed_trial<'r>(trial: Trial<'r>, cond: &Cond, way: Way) -> Result<Trial<'r>, NoMemory>
    ensures { IfOk result (λ left. (elements : List Element)
        → IsLeft cond.now trial.entry false None elements way left) }
{
    let Trial {
        known,
        decisions,
        ..
    } = trial;
    let decisions = decided(&decisions, cond, false)?;
    Ok(Trial {
        known: Known {
            cell: way.cell,
            ..known
        },
        decisions,
        holds: false,
    })
}
