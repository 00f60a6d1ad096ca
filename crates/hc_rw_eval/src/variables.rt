//! The variables that a rule sets (Apache manual, "RewriteRule Flags", E).
ghost use Rattle.std.specs.Prelude.{◌≡◌, IfOk};
ghost use Rattle.hc_rw_eval.specs.Frames.{context_at, looks_at, shown_at};
ghost use Rattle.hc_rw_eval.specs.Substitutions.{is_long, set_by, set_to, with_set, variables_set};
ghost use Rattle.hc_rw_eval.specs.Substitutions.{with_variable, without_variable};
ghost use Rattle.hc_steps.specs.Ran.{Takes, Tells};

use crate::frame::{Frame, Stop, filled};
use crate::substitution::is_long;
use hc_base::{Fault, NoMemory, Text};
use hc_model::{EnvSet, Lookups, Outcome, Reason, Template};
use hc_rw_expand::RwState;
use hc_steps::Log;
use std::alloc::Global;

fn with_variable(
    alloc: Global,
    name: &Text,
    value: Text,
    state: RwState,
) -> Result<RwState, NoMemory>
    ensures { IfOk result (λ left. left ≡ with_variable name.now value state) }
{
    let mut state = state;
    state.vars.set(alloc, name.clone()?, value)?;
    Ok(state)
}

// No template can tell an empty variable from one that is not there.
fn without_variable(alloc: Global, name: &Text, state: RwState) -> Result<RwState, NoMemory>
    ensures { IfOk result (λ left. left ≡ without_variable name.now state) }
{
    with_variable(alloc, name, Text::new(alloc), state)
}

#[tactic(auto, unfolding(crate::specs::Substitutions::set_to), using(hc_steps::proofs::Going::telling))]
fn set_to(log: &mut Log, state: RwState, name: &Text, value: Text) -> Result<RwState, Stop>
    ensures { Tells result log (set_to state name.now value) }
{
    if is_long(value.as_bytes()) {
        return Err(Fault::Refused(Outcome::Outside(Reason::LongText)));
    }
    Ok(with_variable(log.allocator(), name, value, state)?)
}

#[tactic(auto, unfolding(crate::specs::Substitutions::set_by), using(crate::proofs::Leading::stepping))]
fn set_by<P: Lookups>(
    frame: &Frame<'_, P>,
    log: &mut Log,
    state: RwState,
    name: &Text,
    value: &Option<Template>,
) -> Result<RwState, Stop>
    ensures { Takes result log (set_by (context_at frame.now)
        (looks_at P.files P.values frame.now) state name.now value.now) (shown_at frame.now) }
{
    let Some(value) = value else {
        return Ok(without_variable(log.allocator(), name, state)?);
    };
    let value = filled(frame, log, &state, value)?;
    set_to(log, state, name, value)
}

#[tactic(auto, unfolding(crate::specs::Substitutions::with_set))]
fn with_set<P: Lookups>(
    frame: &Frame<'_, P>,
    log: &mut Log,
    state: RwState,
    set: &EnvSet,
) -> Result<RwState, Stop>
    ensures { Takes result log (with_set (context_at frame.now)
        (looks_at P.files P.values frame.now) state set.now) (shown_at frame.now) }
{
    set_by(frame, log, state, &set.name, &set.value)
}

/// Sets and unsets variables, one after another.
#[tactic(auto, unfolding(crate::specs::Substitutions::variables_set), using(hc_steps::proofs::Going::items))]
pub(crate) fn variables_set<P: Lookups>(
    frame: &Frame<'_, P>,
    log: &mut Log,
    state: RwState,
    sets: &[EnvSet],
) -> Result<RwState, Stop>
    ensures { Takes result log (variables_set (context_at frame.now)
        (looks_at P.files P.values frame.now) state sets.now) (shown_at frame.now) }
{
    let mut state = state;
    for set in sets {
        state = with_set(frame, log, state, set)?;
    }
    Ok(state)
}
