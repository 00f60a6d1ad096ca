ghost use Rattle.std.specs.Prelude.{◌≡◌, OnOk};
ghost use Rattle.hc_rw_eval.specs.Frames.{context_at, looks_at, shown_at};
ghost use Rattle.hc_rw_expand.specs.Lookups.{expanded};
ghost use Rattle.hc_rw_expand.specs.Values.{filling_in};
ghost use Rattle.hc_steps.specs.Ran.{Takes, with_reads};

use hc_base::{Fault, NoMemory, Text};
use hc_model::{Lookups, Outcome, Read, Template};
use hc_rw_expand::{RwContext, RwState, expand, looks_of};
use hc_steps::Log;
use hc_world::World;

/// Why a run does not go on: the request is answered, or memory was refused.
pub(crate) type Stop = Fault<Outcome>;

/// What a list of rules runs in: the world, what its rules see of the request, and the maps.
#[derive(Drop)]
pub(crate) struct Frame<'f, P> {
    pub world: &'f World,
    pub context: &'f RwContext<'f>,
    pub look: &'f P,
}

/// A template with its parts filled in, and what its look-ups look at.
#[tactic(auto, using(hc_steps::proofs::Going::ran_no_memory))]
pub(crate) fn filled<P: Lookups>(
    frame: &Frame<'_, P>,
    log: &mut Log,
    state: &RwState,
    template: &Template,
) -> Result<Text, Stop>
    ensures { Takes result log (expanded (looks_at P.files P.values frame.now)
        (filling_in (context_at frame.now) state.now) template.now) (shown_at frame.now) }
{
    let looks = looks_of(log.allocator(), template, frame.look)?;
    tell_looks(log, looks)?;
    Ok(expand(log.allocator(), template, frame.context, state, frame.look)?)
}

fn tell_looks(log: &mut Log, looks: Vec<Read>) -> Result<(), NoMemory>
    ensures { OnOk result (log.new ≡ with_reads log.old looks.items) }
{
    for look in looks {
        log.look(look)?;
    }
    Ok(())
}
