//! The attempt of one rule: its pattern first, then its conditions, and then what it does (Apache manual, "Apache
//! mod_rewrite Technical Details", "Ruleset Processing").
ghost use Rattle.std.specs.Prelude.{◌≡◌, IfOk, option_map};
ghost use Rattle.hc_match.specs.Settings.{captured};
ghost use Rattle.hc_rw_eval.specs.Attempts.{found_in, groups_of, matched, not_matched, pattern_held};
ghost use Rattle.hc_rw_eval.specs.Conditions.{matched_of, searched};
ghost use Rattle.hc_rw_eval.specs.Frames.{context_at, looks_at, shown_at};
ghost use Rattle.hc_rw_eval.specs.Turns.{looked, with_groups};
ghost use Rattle.hc_steps.specs.Ran.{Takes, Tells};

use crate::conditions::{Tested, conds_tried, counted};
use crate::directories::{with_info, within};
use crate::frame::{Frame, Stop};
use crate::substitution::applied;
use crate::told::tell_rule;
use hc_base::{NoMemory, Text};
use hc_match::{Captures, first_match};
use hc_model::{Lookups, Rule};
use hc_rw_expand::{Matched, RwState};
use hc_steps::Log;
use std::alloc::Global;

/// The state of a run, and whether some substitution was made in it.
#[derive(Drop)]
pub struct Rewritten {
    pub state: RwState,
    pub substituted: bool,
}

/// What an attempt leaves, and whether the rule matched: its pattern, negation counted, and its conditions.
#[derive(Drop)]
pub struct Attempt {
    pub matched: bool,
    pub left: Rewritten,
}

/// What the pattern of a rule came to, negation counted.
#[derive(Drop)]
pub(crate) enum Looked {
    Failed,
    /// It held, and the groups are set to this.
    Held(Option<Matched>),
}

impl Clone for Rewritten {
    ghost is_clone = { λ rewritten copy. copy ≡ rewritten };

    fn clone(&self) -> Result<Rewritten, NoMemory> {
        Ok(Rewritten {
            substituted: self.substituted,
            state: self.state.clone()?,
        })
    }
}

// What the groups are set to; a negated pattern sets none.
fn groups_of(
    alloc: Global,
    negated: bool,
    text: &[u8],
    found: Option<Captures>,
) -> Result<Option<Matched>, NoMemory>
    ensures { IfOk result (λ groups. groups
        ≡ groups_of negated (matched_of text.now (option_map captured found))) }
{
    match found {
        Some(captures) if !negated => {
            Ok(Some(Matched::new(alloc, Text::copy_of(alloc, text)?, &captures)?))
        },
        _ => Ok(None),
    }
}

// Looks for the pattern of a rule in a text. Nothing is made where it fails.
#[tactic(auto, unfolding(crate::specs::Turns::looked), using(hc_steps::proofs::Going::telling))]
fn looked_for(log: &mut Log, rule: &Rule, text: &[u8]) -> Result<Looked, Stop>
    ensures { Tells result log (looked rule.now (searched text.now rule.now.pat)) }
{
    let found = first_match(log.allocator(), rule.pat.as_pat(), text)?;
    if !counted(rule.negated, found.is_some()) {
        tell_rule(log, rule, false)?;
        return Ok(Looked::Failed);
    }
    Ok(Looked::Held(groups_of(log.allocator(), rule.negated, text, found)?))
}

/// Looks for the pattern of a rule: in a server in the text that is rewritten, in a directory in that and the path
/// information, less the directory.
#[tactic(auto, using(hc_steps::proofs::Going::ran_no_memory))]
pub(crate) fn looked_in<P: Lookups>(
    frame: &Frame<'_, P>,
    log: &mut Log,
    rule: &Rule,
    state: &RwState,
) -> Result<Looked, Stop>
    ensures { Takes result log (looked rule.now (found_in (context_at frame.now) rule.now state.now))
        (shown_at frame.now) }
{
    let text = state.text.as_bytes();
    let Some(engine) = &frame.context.engine else {
        return looked_for(log, rule, text);
    };
    let (dir, info) = (engine.dir.as_bytes(), state.info.as_bytes());
    if info.is_empty() {
        return looked_for(log, rule, within(dir, text));
    }
    let text = with_info(log.allocator(), text, info)?;
    looked_for(log, rule, within(dir, &text))
}

/// The groups are set, and no condition has set any for this rule.
pub(crate) fn with_groups(before: Rewritten, groups: Option<Matched>) -> Rewritten
    ensures { result ≡ with_groups groups before }
{
    let Rewritten { state, substituted } = before;
    Rewritten {
        state: RwState {
            groups,
            cond_groups: None,
            ..state
        },
        substituted,
    }
}

#[tactic(auto, unfolding(crate::specs::Attempts::matched), using(crate::proofs::Leading::stepping))]
fn matched<P: Lookups>(
    frame: &Frame<'_, P>,
    log: &mut Log,
    rule: &Rule,
    followed: bool,
    before: Rewritten,
) -> Result<Attempt, Stop>
    ensures { Takes result log (matched (context_at frame.now)
        (looks_at P.files P.values frame.now) rule.now followed before) (shown_at frame.now) }
{
    tell_rule(log, rule, true)?;
    let left = applied(frame, log, rule, followed, before)?;
    Ok(Attempt {
        matched: true,
        left,
    })
}

#[tactic(auto, unfolding(crate::specs::Attempts::not_matched), using(hc_steps::proofs::Going::telling))]
fn not_matched(log: &mut Log, rule: &Rule, left: Rewritten) -> Result<Attempt, Stop>
    ensures { Tells result log (not_matched rule.now left) }
{
    tell_rule(log, rule, false)?;
    Ok(Attempt {
        matched: false,
        left,
    })
}

/// Tries the conditions of a rule whose pattern held.
#[tactic(auto, unfolding(crate::specs::Attempts::pattern_held), using(crate::proofs::Leading::stepping))]
pub(crate) fn pattern_held<P: Lookups>(
    frame: &Frame<'_, P>,
    log: &mut Log,
    rule: &Rule,
    followed: bool,
    before: Rewritten,
) -> Result<Attempt, Stop>
    ensures { Takes result log (pattern_held (context_at frame.now)
        (looks_at P.files P.values frame.now) rule.now followed before) (shown_at frame.now) }
{
    let Rewritten { state, substituted } = before;
    let Tested { holds, state } = conds_tried(frame, log, state, rule.conds.as_slice())?;
    let before = Rewritten { state, substituted };
    if holds {
        matched(frame, log, rule, followed, before)
    } else {
        not_matched(log, rule, before)
    }
}
