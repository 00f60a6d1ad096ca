//! The walk of a file name, and what follows each of its ends (Apache manual, core, AcceptPathInfo; ".htaccess
//! files").
ghost use Rattle.std.specs.Prelude.{◌≡◌, IfOk};
ghost use Rattle.hc_abs_left.specs.Grounds.{Stands, world_in};
ghost use Rattle.hc_abs_name.specs.Walked.{AreBehindWalk, AreFromWalk, IsBehindWalk};
ghost use Rattle.hc_serve.specs.Lent.{Lends, Returns};

use crate::arrived::stopped;
use crate::forced::sectioned;
use crate::reading::refused_at;
use hc_abs_left::{Ground, Segment};
use hc_abs_pass::{Left, Named, Walked, walk_branches};
use hc_base::{List, NoMemory, Text};
use hc_model::{Decision, Kind, Overrides, Walk};
use std::alloc::Global;

/// The branches from the walk of a file name on.
pub(crate) fn walked_branches<O: Overrides>(
    alloc: Global,
    ground: Ground<'_>,
    over: &mut O,
    decisions: &[Decision],
    named: Named,
    aliased: bool,
) -> Result<Vec<Segment>, NoMemory>
    requires ground { Stands ground }
    requires over { Lends O.reading O.size (O.fixed over.old) (world_in ground) ground.config.now }
    ensures branches { IfOk result (λ found. AreFromWalk ground.entry decisions.now aliased named found.items) }
    ensures over { Returns O.fixed O.loaded over }
{
    let walked = walk_branches(alloc, ground.around.world, named, ground.room)?;
    let found = all_behind(alloc, ground, over, decisions, aliased, walked)?;
    Ok(found)
}

/// What follows the ends of the walk.
fn all_behind<O: Overrides>(
    alloc: Global,
    ground: Ground<'_>,
    over: &mut O,
    decisions: &[Decision],
    aliased: bool,
    walked: Vec<Walked>,
) -> Result<Vec<Segment>, NoMemory>
    requires ground { Stands ground }
    requires over { Lends O.reading O.size (O.fixed over.old) (world_in ground) ground.config.now }
    ensures branches { IfOk result (λ found. AreBehindWalk ground.entry decisions.now aliased walked.items
        found.items) }
    ensures over { Returns O.fixed O.loaded over }
{
    let mut found = Vec::new(alloc);
    for one in walked {
        let mut more = behind(alloc, ground, over, decisions, aliased, one)?;
        found.append(&mut more)?;
    }
    Ok(found)
}

/// The `.htaccess` files of the directories that were followed, of which the first that is refused ends the pass, and
/// the sections in force.
fn behind<O: Overrides>(
    alloc: Global,
    ground: Ground<'_>,
    over: &mut O,
    decisions: &[Decision],
    aliased: bool,
    one: Walked,
) -> Result<Vec<Segment>, NoMemory>
    requires ground { Stands ground }
    requires over { Lends O.reading O.size (O.fixed over.old) (world_in ground) ground.config.now }
    ensures branches { IfOk result (λ found. IsBehindWalk ground.entry decisions.now aliased one found.items) }
    ensures over { Returns O.fixed O.loaded over }
{
    let Walked { tied, kind, dirs } = one;
    let walk = walk_to(alloc, kind, dirs);
    let refused = refused_at(alloc, ground.config, ground.host, over, &walk)?;
    match refused {
        Some(refusal) => {
            let found = stopped(alloc, decisions, tied, Left::Refused(refusal))?;
            Ok(found)
        }
        None => {
            let found = sectioned(alloc, ground, over, decisions, aliased, &walk, tied)?;
            Ok(found)
        }
    }
}

/// A walk of which the name isn't known.
fn walk_to(alloc: Global, kind: Kind, dirs: List<Text>) -> Walk
    ensures kind { result.kind ≡ kind }
    ensures dirs { result.dirs ≡ dirs }
{
    Walk {
        name: Text::new(alloc),
        info: Text::new(alloc),
        kind,
        dirs,
    }
}
