//! Events that are made only where the log keeps them.
ghost use Rattle.std.specs.Prelude.{◌≡◌, IfOk, OnOk};
ghost use Rattle.hc_model.specs.declared.event.Event.{Event};
ghost use Rattle.hc_rw_eval.specs.Attempts.{rule_spot};
ghost use Rattle.hc_rw_eval.specs.Conditions.{cond_spot};
ghost use Rattle.hc_steps.specs.Ran.{Tells, with_event};

use hc_base::{NoMemory, Place, Span};
use hc_model::{Cond, Event, Rule, Spot};
use hc_rw_expand::RwState;
use hc_steps::Log;

fn spot_of(place: &Place, span: Span) -> Result<Spot, NoMemory>
    ensures { IfOk result (λ spot. spot ≡ record { place = place.now; span = span }) }
{
    Ok(Spot {
        place: place.clone()?,
        span,
    })
}

/// Tells that a condition was tried.
pub(crate) fn tell_cond(log: &mut Log, cond: &Cond, held: bool) -> Result<(), NoMemory>
    ensures { OnOk result (log.new ≡ with_event log.old (Event.Cond (cond_spot cond.now) held)) }
{
    if !log.has_room() {
        return log.pass_over();
    }
    let spot = spot_of(&cond.place, cond.span)?;
    log.say(Event::Cond { spot, held })
}

/// Tells that a rule was tried.
pub(crate) fn tell_rule(log: &mut Log, rule: &Rule, matched: bool) -> Result<(), NoMemory>
    ensures { OnOk result (log.new ≡ with_event log.old (Event.Rule (rule_spot rule.now) matched)) }
{
    if !log.has_room() {
        return log.pass_over();
    }
    let spot = spot_of(&rule.place, rule.span)?;
    log.say(Event::Rule { spot, matched })
}

/// Tells what a substitution left.
pub(crate) fn tell_text(log: &mut Log, state: &RwState) -> Result<(), NoMemory>
    ensures { OnOk result (log.new ≡ with_event log.old (Event.Text state.now.text state.now.query)) }
{
    if !log.has_room() {
        return log.pass_over();
    }
    log.say(Event::Text {
        text: state.text.clone()?,
        query: state.query.clone()?,
    })
}
