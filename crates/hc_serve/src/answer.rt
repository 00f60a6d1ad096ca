ghost use Rattle.std.specs.Prelude.{◌≡◌, ◌+◌, ◌≤◌, true, IfOk, OnOk, Some};
ghost use Rattle.hc_base.specs.Paths.{begins_with_slash};
ghost use Rattle.hc_serve.specs.Lent.{Lends, Returns};
ghost use Rattle.hc_serve.specs.Answers.{IsServed, log_of};
ghost use Rattle.hc_serve.specs.Costs.{looked};
ghost use Rattle.hc_serve.specs.Request.{IsAnswer, IsWholeRun, way};

use crate::needs::needs_of;
use crate::way::way;
use hc_base::{Counter, Fault, List, NoMemory, Place};
use hc_model::{Config, Event, LimitKind, Outcome, Overrides, Read, Request, Requirement};
use hc_steps::Log;
use hc_world::World;
use std::alloc::Global;
use std::sync::ledger::Ledger;

/// How many events a trail has at most.
pub const LONGEST_TRAIL: usize = 200;

/// What a request receives, and how that came.
#[derive(Drop)]
pub struct Answer {
    pub outcome: Outcome,
    /// How many steps were taken.
    pub events: u64,
    /// The first of these steps.
    pub trail: List<Event>,
    /// What the outcome rests on.
    pub reads: List<Read>,
}

/// What a request receives, and all steps to it.
#[derive(Drop)]
pub struct WholeRun {
    pub outcome: Outcome,
    pub events: List<Event>,
    /// The Require lines of the last pass.
    pub needs: List<Place>,
    pub reads: List<Read>,
}

impl Clone for Answer {
    ghost use Rattle.std.specs.Prelude.{◌≡◌};

    ghost is_clone = { λ answer copy. copy ≡ answer };

    fn clone(&self) -> Result<Answer, NoMemory> {
        Ok(Answer {
            outcome: self.outcome.clone()?,
            events: self.events,
            trail: self.trail.copy()?,
            reads: self.reads.copy()?,
        })
    }
}

impl Clone for WholeRun {
    ghost use Rattle.std.specs.Prelude.{◌≡◌};

    ghost is_clone = { λ whole copy. copy ≡ whole };

    fn clone(&self) -> Result<WholeRun, NoMemory> {
        Ok(WholeRun {
            outcome: self.outcome.clone()?,
            events: self.events.copy()?,
            needs: self.needs.copy()?,
            reads: self.reads.copy()?,
        })
    }
}

/// What a request receives of a configuration and the files of a world, with the first steps to it. `over`
/// reads the `.htaccess` files of that world; `evals` counts one.
pub fn evaluate<O: Overrides, L: Ledger>(
    alloc: Global,
    config: &Config,
    world: &World,
    over: &mut O,
    request: &Request,
    evals: &mut Counter<L>,
) -> Result<Answer, NoMemory>
    requires slash { begins_with_slash request.now.target ≡ true }
    requires over { Lends O.reading O.size (O.fixed over.old) world.now.files config.now }
    ensures answer { IfOk result (IsAnswer world.now.files config.now request.now) }
    ensures evals { evals.new ≡ evals.old + 1 }
    ensures over { Returns O.fixed O.loaded over }
    ensures counted { OnOk result (O.counted over.new
        ≤ O.counted over.old + looked world.now.files (way config.now request.now)) }
{
    evals.tick();
    let served = serve(alloc, config, world, over, request, Some(LONGEST_TRAIL))?;
    let told = served.log.into_told()?;
    Ok(Answer {
        outcome: served.outcome,
        events: told.count,
        trail: told.events,
        reads: told.reads,
    })
}

/// The same, with all steps, and the Require lines that were in force in the last pass.
pub fn whole_run<O: Overrides, L: Ledger>(
    alloc: Global,
    config: &Config,
    world: &World,
    over: &mut O,
    request: &Request,
    evals: &mut Counter<L>,
) -> Result<WholeRun, NoMemory>
    requires slash { begins_with_slash request.now.target ≡ true }
    requires over { Lends O.reading O.size (O.fixed over.old) world.now.files config.now }
    ensures whole { IfOk result (IsWholeRun world.now.files config.now request.now) }
    ensures evals { evals.new ≡ evals.old + 1 }
    ensures over { Returns O.fixed O.loaded over }
    ensures counted { OnOk result (O.counted over.new
        ≤ O.counted over.old + looked world.now.files (way config.now request.now)) }
{
    evals.tick();
    let served = serve(alloc, config, world, over, request, None)?;
    let told = served.log.into_told()?;
    Ok(WholeRun {
        outcome: served.outcome,
        events: told.events,
        needs: needs_of(alloc, &served.require)?,
        reads: told.reads,
    })
}

/// What a request receives, and what was told on the way.
#[derive(Drop)]
struct Served {
    outcome: Outcome,
    require: Requirement,
    log: Log,
}

fn serve<O: Overrides>(
    alloc: Global,
    config: &Config,
    world: &World,
    over: &mut O,
    request: &Request,
    cap: Option<usize>,
) -> Result<Served, NoMemory>
    requires slash { begins_with_slash request.now.target ≡ true }
    requires over { Lends O.reading O.size (O.fixed over.old) world.now.files config.now }
    ensures served { IfOk result (IsServed cap world.now.files config.now request.now) }
    ensures over { Returns O.fixed O.loaded over }
    ensures counted { OnOk result (O.counted over.new
        ≤ O.counted over.old + looked world.now.files (way config.now request.now)) }
{
    let mut log = log_of(alloc, cap, config.reads.as_slice())?;
    match way(config, world, &mut log, over, request) {
        Ok(left) => Ok(Served {
            outcome: Outcome::Limit(LimitKind::Redirects),
            require: left.require,
            log,
        }),
        Err(Fault::Refused(ended)) => Ok(Served {
            outcome: ended.outcome,
            require: ended.require,
            log,
        }),
        Err(Fault::NoMemory) => Err(NoMemory),
    }
}

// A log that begins with the reads of the configuration.
fn log_of(alloc: Global, cap: Option<usize>, reads: &[Read]) -> Result<Log, NoMemory>
    ensures { IfOk result (λ log. log ≡ log_of cap reads.now) }
{
    let mut log = Log::new(alloc, cap);
    for read in reads {
        log.look(read.clone()?)?;
    }
    Ok(log)
}
