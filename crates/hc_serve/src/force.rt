ghost use Rattle.std.specs.Prelude.{◌≡◌, IfOk, OnOk};
ghost use Rattle.hc_merge.specs.Overriding.{AreLoaded, files_read, wanted_by};
ghost use Rattle.hc_serve.specs.Lent.{Counts, Lends, Returns};
ghost use Rattle.hc_serve.specs.Passing.{force_at, in_force, sections_told, view_at, with_force};
ghost use Rattle.hc_serve.specs.Site.{site_of};
ghost use Rattle.hc_steps.specs.Ran.{Takes, Tells, with_events};
ghost use Rattle.hc_steps.specs.Shown.{shown_by};

use crate::asked::Asked;
use crate::files::files_looked;
use crate::stage::{Here, Named, Stop, Walked};
use hc_base::NoMemory;
use hc_merge::effective;
use hc_model::{Event, Overrides, View, Walk};
use hc_steps::Log;
use std::alloc::Global;

/// The `.htaccess` files, and the sections in force.
#[tactic(auto, using(hc_steps::proofs::Going::ran_no_memory))]
pub(crate) fn in_force<O: Overrides>(
    asked: &Asked<'_>,
    log: &mut Log,
    over: &mut O,
    there: Walked,
) -> Result<Here, Stop>
    requires over { Lends O.reading O.size (O.fixed over.old) asked.now.world.now.files asked.now.config.now }
    ensures step { Takes result log (in_force (site_of asked.now) there) (shown_by asked.now.world.now.files) }
    ensures over { Returns O.fixed O.loaded over }
    ensures counted { Counts result asked.now.world.now.files (in_force (site_of asked.now) there)
        O.counted over }
{
    files_looked(asked, log, over, &there.walk)?;
    let here = with_force(log.allocator(), asked, over, there)?;
    sections_told(log, here)
}

fn with_force<O: Overrides>(
    alloc: Global,
    asked: &Asked<'_>,
    over: &O,
    there: Walked,
) -> Result<Here, NoMemory>
    requires loaded { AreLoaded (O.loaded over.now)
        (wanted_by asked.now.config.now asked.now.host there.walk.dirs) }
    ensures { IfOk result (λ here. here
        ≡ with_force there (force_at (site_of asked.now) there (files_read (O.reading (O.fixed over.now))))) }
{
    let Walked { named, walk } = there;
    let view = view_at(asked, &named, &walk)?;
    let force = effective(alloc, asked.config, asked.host, &walk, &view, over)?;
    Ok(Here { named, walk, force })
}

fn view_at(asked: &Asked<'_>, named: &Named, walk: &Walk) -> Result<View, NoMemory>
    ensures { IfOk result (λ view. view
        ≡ view_at (site_of asked.now) (record { named = named.now; walk = walk.now })) }
{
    Ok(View {
        caller: asked.caller.clone()?,
        path: named.pass.path.clone()?,
        query: named.pass.query.clone()?,
        name: walk.name.clone()?,
    })
}

#[tactic(auto, using(hc_steps::proofs::Going::ran_no_memory))]
fn sections_told(log: &mut Log, here: Here) -> Result<Here, Stop>
    ensures { Tells result log (sections_told here) }
{
    tell_each(log, here.force.sections.as_slice())?;
    Ok(here)
}

fn tell_each(log: &mut Log, events: &[Event]) -> Result<(), NoMemory>
    ensures { OnOk result (log.new ≡ with_events log.old events.now) }
{
    for event in events {
        log.say(copy_of(event)?)?;
    }
    Ok(())
}

fn copy_of(event: &Event) -> Result<Event, NoMemory>
    ensures { IfOk result (λ copy. copy ≡ event.now) }
{
    event.clone()
}
