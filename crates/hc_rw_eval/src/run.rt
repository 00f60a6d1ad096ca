//! The run of a list of rules (Apache manual, "Apache mod_rewrite Technical Details", "Ruleset Processing").
ghost use Rattle.std.specs.Prelude.{◌≡◌, ◌+◌, IfOk, OnOk};
ghost use Rattle.hc_rw_eval.specs.Frames.{as_step, context_at, looks_at, shown_at};
ghost use Rattle.hc_rw_eval.specs.Lists.{begun, most_rounds, rounds_from, run_rules};
ghost use Rattle.hc_rw_expand.specs.Contexts.{context_of};
ghost use Rattle.hc_rw_expand.specs.Lookups.{Looks, Stands};
ghost use Rattle.hc_steps.specs.Ran.{Ran, Takes, with_event};
ghost use Rattle.hc_steps.specs.Run.{run};
ghost use Rattle.hc_steps.specs.Shown.{shown_by};

use crate::attempt::Rewritten;
use crate::frame::{Frame, Stop};
use crate::round::from_place;
use hc_base::{Fault, NoMemory, Place};
use hc_model::{Event, LimitKind, Lookups, Outcome, Rule};
use hc_rw_expand::{RwContext, RwState};
use hc_steps::Log;
use hc_world::World;

/// What the run of a list leaves, and whether PT stopped it.
#[derive(Drop)]
pub struct Finished {
    pub left: Rewritten,
    pub passed: bool,
}

/// What a run came to, an outcome where the rules answer the request, and the log of the run.
#[derive(Drop)]
pub struct RulesRun {
    pub log: Log,
    pub came: Result<Finished, Outcome>,
}

/// What a further round begins with, and the rule whose N begins it: its place, and its bound of rounds.
#[derive(Drop)]
pub struct NextRound {
    pub left: Rewritten,
    pub place: Place,
    pub bound: u32,
}

/// What a round comes to: the run is over, or N begins the list again.
#[derive(Drop)]
pub enum Round {
    Over(Finished),
    Again(NextRound),
}

impl Clone for Finished {
    ghost is_clone = { λ finished copy. copy ≡ finished };

    fn clone(&self) -> Result<Finished, NoMemory> {
        Ok(Finished {
            passed: self.passed,
            left: self.left.clone()?,
        })
    }
}

// No round comes behind the greatest bound.
fn most_rounds(rules: &[Rule]) -> u32
    ensures { result ≡ most_rounds rules.now }
{
    let mut most = 1;
    for rule in rules {
        most = rule.flags.rounds.max(most);
    }
    most
}

fn begun(state: RwState) -> Rewritten
    ensures { result ≡ begun state }
{
    Rewritten {
        state,
        substituted: false,
    }
}

// A further round is told. A run that has counted its last round finds no memory.
fn tell_round(log: &mut Log, round: u32) -> Result<(), NoMemory>
    ensures { OnOk result (log.new ≡ with_event log.old (Event.Round (round + 1))) }
{
    let Some(number) = round.checked_add(1) else {
        return Err(NoMemory);
    };
    log.say(Event::Round { number })
}

// So many rounds at most.
#[tactic(auto, using(crate::proofs::Rounds::rounds_begin, hc_steps::proofs::Going::ran_no_memory))]
fn rounds_from<P: Lookups>(
    frame: &Frame<'_, P>,
    log: &mut Log,
    most: u32,
    rules: &[Rule],
    left: Rewritten,
) -> Result<Finished, Stop>
    ensures { Takes result log (rounds_from most (context_at frame.now)
        (looks_at P.files P.values frame.now) rules.now 1 left) (shown_at frame.now) }
{
    let mut left = left;
    for earlier in 0..most {
        let round = earlier + 1;
        match from_place(frame, log, round, rules, left)? {
            Round::Over(finished) => return Ok(finished),
            Round::Again(next) => {
                tell_round(log, round)?;
                left = next.left;
            }
        }
    }
    Err(Fault::Refused(Outcome::Limit(LimitKind::Rounds)))
}

// A run with its log.
fn with_log(log: Log, ended: Result<Finished, Stop>) -> Result<RulesRun, NoMemory>
    ensures { IfOk result (λ ran. (ran.log ≡ log) × (as_step ran.came ≡ ended)) }
{
    match ended {
        Ok(finished) => Ok(RulesRun {
            log,
            came: Ok(finished),
        }),
        Err(Fault::Refused(outcome)) => Ok(RulesRun {
            log,
            came: Err(outcome),
        }),
        Err(Fault::NoMemory) => Err(NoMemory),
    }
}

/// Runs a list of rules on a state, and tells each attempt, what was looked at, and each round. A request
/// that the rules answer does not go on, and neither does one at its last round. Where memory is refused the
/// log is dropped.
pub fn run_rules<P: Lookups>(
    world: &World,
    log: Log,
    context: &RwContext<'_>,
    look: &P,
    rules: &[Rule],
    state: RwState,
) -> Result<RulesRun, NoMemory>
    ensures { (looks : Looks) → Stands (P.files look.now) (P.values look.now) looks (shown_by world.now.files)
        → IfOk result (λ ran. Ran (as_step ran.came) log ran.log
        (run (run_rules (context_of context.now) looks rules.now state) (shown_by world.now.files))) }
{
    let frame = Frame {
        world,
        context,
        look,
    };
    let mut log = log;
    let ended = rounds_from(&frame, &mut log, most_rounds(rules), rules, begun(state));
    with_log(log, ended)
}
