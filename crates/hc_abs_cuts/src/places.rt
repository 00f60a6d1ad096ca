//! Where the list of a directory is in force (Apache manual, mod_rewrite, RewriteRule, "Per-directory Rewrites").
ghost use Rattle.std.specs.Prelude.{IfOk};
ghost use Rattle.hc_abs_cuts.specs.Coded.{AreAtEndsIn, ArePlaces, IsAtEnd};
ghost use Rattle.hc_abs_cuts.specs.Exact.{ArePlain};
ghost use Rattle.hc_abs_left.specs.Grounds.{Stands, world_in};
ghost use Rattle.hc_abs_pass.specs.Walking.{AreInfos};
ghost use Rattle.hc_serve.specs.Lent.{Lends, Returns};

use crate::exact::{Rests, exact_set, named_in};
use crate::sections::sectioned;
use hc_abs_left::Ground;
use hc_abs_pass::{End, ends_of_walk};
use hc_abs_run::refused_at;
use hc_base::{NoMemory, Text};
use hc_model::{Effective, Kind, Overrides, Walk};
use hc_plan::Tied;
use std::alloc::Global;

/// The states in which a directory's list is in force, what is in force with it, and what stands at the file name.
#[derive(Drop)]
pub struct Place {
    pub tied: Tied,
    pub force: Effective,
    pub kind: Kind,
}

/// Where the list is in force, at each end of the walk of a file name.
pub(crate) fn places<O: Overrides>(
    alloc: Global,
    ground: Ground<'_>,
    over: &mut O,
    dir: &Text,
    tied: &Tied,
) -> Result<Vec<Place>, NoMemory>
    requires ground { Stands ground }
    requires over { Lends O.reading O.size (O.fixed over.old) (world_in ground) ground.config.now }
    ensures places { IfOk result (λ found. ArePlaces ground.entry dir.now tied.now found.items) }
    ensures over { Returns O.fixed O.loaded over }
{
    let ends = ends_of_walk(alloc, ground.around.world)?;
    let found = at_ends(alloc, ground, over, dir, tied, ends)?;
    Ok(found)
}

fn at_ends<O: Overrides>(
    alloc: Global,
    ground: Ground<'_>,
    over: &mut O,
    dir: &Text,
    tied: &Tied,
    ends: Vec<End>,
) -> Result<Vec<Place>, NoMemory>
    requires ground { Stands ground }
    requires over { Lends O.reading O.size (O.fixed over.old) (world_in ground) ground.config.now }
    ensures places { IfOk result (λ found. AreAtEndsIn ground.entry dir.now tied.now ends.items found.items) }
    ensures over { Returns O.fixed O.loaded over }
{
    let rests = Rests::new(alloc)?;
    let mut found = Vec::new(alloc);
    for end in ends {
        let mut more = at_end(alloc, ground, over, dir, tied, &rests, end)?;
        found.append(&mut more)?;
    }
    Ok(found)
}

/// Where it is in force at an end. A `.htaccess` file that is refused ends the pass, so that no round follows.
fn at_end<O: Overrides>(
    alloc: Global,
    ground: Ground<'_>,
    over: &mut O,
    dir: &Text,
    tied: &Tied,
    rests: &Rests,
    end: End,
) -> Result<Vec<Place>, NoMemory>
    requires ground { Stands ground }
    requires infos { AreInfos rests.now.infos }
    requires plain { ArePlain rests.now.plain }
    requires over { Lends O.reading O.size (O.fixed over.old) (world_in ground) ground.config.now }
    ensures places { IfOk result (λ found. IsAtEnd ground.entry dir.now tied.now end found.items) }
    ensures over { Returns O.fixed O.loaded over }
{
    let set = exact_set(alloc, &end, rests)?;
    let Some(tied) = named_in(alloc, tied, &set)? else {
        return Ok(Vec::new(alloc));
    };
    let walk = Walk {
        name: Text::new(alloc),
        info: Text::new(alloc),
        kind: end.kind,
        dirs: end.dirs,
    };
    let refused = refused_at(alloc, ground.config, ground.host, over, &walk)?;
    if refused.is_some() {
        return Ok(Vec::new(alloc));
    }
    let found = sectioned(alloc, ground, over, dir, &walk, tied)?;
    Ok(found)
}
