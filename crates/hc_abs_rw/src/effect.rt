//! What a rule does that matches, over what is known: its variables, its status and its substitution (Apache manual,
//! mod_rewrite, RewriteRule; "RewriteRule Flags").
ghost use Rattle.std.specs.Prelude.{IfOk, Option};
ghost use Rattle.hc_abs_rw.specs.Applied.{AreApplied, AreFrom, AreSet, IsSetBy, IsSetTo, next_of};
ghost use Rattle.hc_abs_rw.specs.Known.{frame_at};
ghost use Rattle.hc_abs_rw.specs.Substitutions.{answered_plan, nothing_made, split_plan, substituted_plan};
ghost use Rattle.hc_abs_rw.specs.Templates.{expand};
ghost use Rattle.hc_addr.specs.declared.addr.Addr.{Addr};
ghost use Rattle.hc_model.specs.declared.request.Caller.{Caller};
ghost use Rattle.hc_rw_eval.specs.Substitutions.{status_of};

use crate::apply::{Applied, Made, Next, Setting};
use crate::draft::{Task, untested};
use crate::elements::expanded;
use crate::frame::{Frame, Surroundings};
use crate::known::Known;
use crate::split::split;
use hc_base::NoMemory;
use hc_cells::Slot;
use hc_dfa::{Dfa, single};
use hc_model::{EnvSet, Flags, Rule, Template};
use hc_plan::{Stored, Tied, store};
use hc_rw_eval::status_of;
use std::alloc::Global;

/// What a rule does that matches.
pub(crate) fn applied<S: Surroundings>(
    alloc: Global,
    frame: &Frame<'_, S>,
    rule: &Rule,
    setting: Setting,
    known: Known<'_>,
) -> Result<Vec<Applied>, NoMemory>
    ensures { IfOk result (λ found. AreApplied (frame_at S.kind S.values frame.now) frame.now.client rule.now setting
        known.entry found.items) }
{
    let known = with_sets(alloc, frame, known, rule.flags.sets.as_slice())?;
    answered(alloc, frame, rule, setting, known)
}

/// A rule with a status ends the run.
fn answered<S: Surroundings>(
    alloc: Global,
    frame: &Frame<'_, S>,
    rule: &Rule,
    setting: Setting,
    known: Known<'_>,
) -> Result<Vec<Applied>, NoMemory>
    ensures { IfOk result (λ found. AreFrom frame.now.client (frame_at S.kind S.values frame.now).caller
        (answered_plan (frame_at S.kind S.values frame.now) rule.now setting (status_of rule.now.flags))
        known.entry found.items) }
{
    match status_of(&rule.flags) {
        Some(status) => unchanged(alloc, known, Next::Status(status)),
        None => substituted(alloc, frame, rule, setting, known),
    }
}

/// With `-` all stays.
fn substituted<S: Surroundings>(
    alloc: Global,
    frame: &Frame<'_, S>,
    rule: &Rule,
    setting: Setting,
    known: Known<'_>,
) -> Result<Vec<Applied>, NoMemory>
    ensures { IfOk result (λ found. AreFrom frame.now.client (frame_at S.kind S.values frame.now).caller
        (substituted_plan (frame_at S.kind S.values frame.now) rule.now.flags setting rule.now.subst)
        known.entry found.items) }
{
    match &rule.subst {
        None => unchanged(alloc, known, Next::GoesOn),
        Some(template) => filled(alloc, frame, &rule.flags, setting, known, template),
    }
}

/// What a rule comes to that changes neither the text nor the query.
fn unchanged(alloc: Global, known: Known<'_>, next: Next) -> Result<Vec<Applied>, NoMemory>
    ensures { IfOk result (λ found. (client : Option Addr) (caller : Caller)
        → AreFrom client caller (nothing_made (next_of caller next)) known.entry found.items) }
{
    let Known { cell, ties, .. } = known;
    let mut found = Vec::new(alloc);
    found.push(Applied {
        tied: Tied { cell, ties },
        made: Made::nothing(next),
    })?;
    Ok(found)
}

/// The text that a template gives.
fn filled<S: Surroundings>(
    alloc: Global,
    frame: &Frame<'_, S>,
    flags: &Flags,
    setting: Setting,
    known: Known<'_>,
    template: &Template,
) -> Result<Vec<Applied>, NoMemory>
    ensures { IfOk result (λ found. AreFrom frame.now.client (frame_at S.kind S.values frame.now).caller
        (expand (frame_at S.kind S.values frame.now) template.now
        (split_plan (frame_at S.kind S.values frame.now) flags.now setting)) known.entry found.items) }
{
    let elements = expanded(alloc, frame, &known, template.as_slice())?;
    let task = Task {
        tests: frame.tests,
        root: frame.root,
        engine: frame.engine,
        flags,
        setting,
    };
    let Known { cell, ties, .. } = known;
    let mut found = Vec::new(alloc);
    split(alloc, &task, Tied { cell, ties }, &elements, &mut found)?;
    Ok(found)
}

/// Sets variables one after another, each over what the ones before it leave.
fn with_sets<'r, S: Surroundings>(
    alloc: Global,
    frame: &Frame<'_, S>,
    known: Known<'r>,
    sets: &[EnvSet],
) -> Result<Known<'r>, NoMemory>
    ensures { IfOk result (AreSet (frame_at S.kind S.values frame.now) frame.now.client sets.now known.entry) }
{
    let mut left = known;
    for set in sets {
        left = with_set(alloc, frame, left, set)?;
    }
    Ok(left)
}

fn with_set<'r, S: Surroundings>(
    alloc: Global,
    frame: &Frame<'_, S>,
    known: Known<'r>,
    set: &EnvSet,
) -> Result<Known<'r>, NoMemory>
    ensures { IfOk result (IsSetBy (frame_at S.kind S.values frame.now) frame.now.client set.now known.entry) }
{
    let values = value_set(alloc, frame, &known, &set.value)?;
    let slot = Slot::Env(set.name.clone()?);
    let mut stored = Vec::new(alloc);
    stored.push(Stored { slot, set: values })?;
    let Known {
        cell,
        ties,
        groups,
        cond_groups,
    } = known;
    let left = store(alloc, Tied { cell, ties }, &stored)?;
    let Tied { cell, ties } = left;
    Ok(Known {
        cell,
        ties,
        groups,
        cond_groups,
    })
}

/// The texts that a variable may get. An empty one stands for a variable that is unset.
fn value_set<S: Surroundings>(
    alloc: Global,
    frame: &Frame<'_, S>,
    known: &Known<'_>,
    value: &Option<Template>,
) -> Result<Dfa, NoMemory>
    ensures { IfOk result (IsSetTo (frame_at S.kind S.values frame.now) frame.now.client known.now value.now) }
{
    match value {
        None => {
            let empty = single(alloc, b"")?;
            Ok(empty)
        }
        Some(template) => {
            let elements = expanded(alloc, frame, known, template.as_slice())?;
            untested(alloc, &known.cell, &elements)
        }
    }
}
