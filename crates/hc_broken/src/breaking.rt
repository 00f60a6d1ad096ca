//! What a claim says of a run.
ghost use Rattle.std.specs.Prelude.{◌≡◌};
ghost use Rattle.std.specs.List.{list_any};
ghost use Rattle.hc_broken.specs.Breaking.{breaks, breaks_by, has_place, is_limit, is_match, is_outside, is_served};
ghost use Rattle.hc_broken.specs.Breaking.{lacks, same_place};
ghost use Rattle.hc_dfa.specs.Automata.{accepts};

use hc_base::Place;
use hc_dfa::Dfa;
use hc_model::{Event, Outcome, Reason};
use hc_scope::Claim;
use hc_serve::WholeRun;

/// Whether a run breaks a claim.
pub(crate) fn breaks(claim: &Claim, whole: &WholeRun) -> bool
    ensures { result ≡ breaks claim.now whole.now.outcome whole.now.events whole.now.needs }
{
    match &whole.outcome {
        Outcome::Outside(reason) => is_outside(*reason),
        _ => breaks_by(claim, whole),
    }
}

fn is_outside(reason: Reason) -> bool
    ensures { result ≡ is_outside reason }
{
    !matches!(reason, Reason::LongText)
}

fn breaks_by(claim: &Claim, whole: &WholeRun) -> bool
    ensures { result ≡ breaks_by claim.now whole.now.outcome whole.now.events whole.now.needs }
{
    match claim {
        Claim::Stops => is_limit(&whole.outcome),
        Claim::Shadowed(place) => has_match(place, whole.events.as_slice()),
        Claim::Guarded { target, by } => {
            is_served(target, &whole.outcome) && lacks(whole.needs.as_slice(), by)
        }
    }
}

fn is_limit(outcome: &Outcome) -> bool
    ensures { result ≡ is_limit outcome.now }
{
    matches!(outcome, Outcome::Limit(_))
}

/// A file or a directory of this set.
fn is_served(set: &Dfa, outcome: &Outcome) -> bool
    ensures { result ≡ is_served (accepts set.now) outcome.now }
{
    match outcome {
        Outcome::File { path, .. } => set.accepts(path.as_bytes()),
        Outcome::Directory { path } => set.accepts(path.as_bytes()),
        _ => false,
    }
}

/// The rule of this place matched.
fn has_match(place: &Place, events: &[Event]) -> bool
    ensures { result ≡ list_any (is_match place.now) events.now }
{
    events.iter().any(|event| is_match(place, event))
}

fn is_match(place: &Place, event: &Event) -> bool
    ensures { result ≡ is_match place.now event.now }
{
    match event {
        Event::Rule { spot, matched } => *matched && is_same_place(&spot.place, place),
        _ => false,
    }
}

/// Whether two places are one.
pub fn is_same_place(one: &Place, other: &Place) -> bool
    ensures { result ≡ same_place one.now other.now }
{
    one.line == other.line && one.file.as_bytes() == other.file.as_bytes()
}

/// Whether a place is none of these.
pub fn lacks(places: &[Place], sought: &Place) -> bool
    ensures { result ≡ lacks places.now sought.now }
{
    !has_place(places, sought)
}

fn has_place(places: &[Place], sought: &Place) -> bool
    ensures { result ≡ has_place places.now sought.now }
{
    places.iter().any(|place| is_same_place(place, sought))
}
