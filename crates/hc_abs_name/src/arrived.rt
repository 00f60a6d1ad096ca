//! A pass from its file name on: the walk, the `.htaccess` files, the sections in force, and what follows them (Apache
//! manual, "Mapping URLs to Filesystem Locations"; "Configuration Sections"; ".htaccess files").
ghost use Rattle.std.specs.Prelude.{◌≡◌, ◌∷◌, [], IfOk};
ghost use Rattle.hc_abs_left.specs.Grounds.{Stands, world_in};
ghost use Rattle.hc_abs_name.specs.Arrived.{AreArrived};
ghost use Rattle.hc_abs_name.specs.Walked.{AreBehindReady, IsBehindReady, stopped_at};
ghost use Rattle.hc_serve.specs.Lent.{Lends, Returns};

use crate::walked::walked_branches;
use hc_abs_left::{Finish, Ground, Segment};
use hc_abs_map::{Mapped, tidied_branches};
use hc_abs_pass::{Left, Named};
use hc_base::{List, NoMemory};
use hc_model::{Decision, Overrides, Requirement};
use hc_plan::Tied;
use std::alloc::Global;

/// The branches of a pass from its file name on. The `.htaccess` files of each walk are loaded, and the first that is
/// refused ends its requests.
pub fn arrived_branches<O: Overrides>(
    alloc: Global,
    ground: Ground<'_>,
    over: &mut O,
    decisions: &[Decision],
    named: Named,
    aliased: bool,
) -> Result<Vec<Segment>, NoMemory>
    requires ground { Stands ground }
    requires over { Lends O.reading O.size (O.fixed over.old) (world_in ground) ground.config.now }
    ensures branches { IfOk result (λ found. AreArrived ground.entry decisions.now named aliased found.items) }
    ensures over { Returns O.fixed O.loaded over }
{
    let ready = tidied_branches(alloc, named, aliased, ground.room)?;
    let found = all_behind(alloc, ground, over, decisions, ready)?;
    Ok(found)
}

/// What follows a name that is made ready.
fn all_behind<O: Overrides>(
    alloc: Global,
    ground: Ground<'_>,
    over: &mut O,
    decisions: &[Decision],
    ready: Vec<Mapped>,
) -> Result<Vec<Segment>, NoMemory>
    requires ground { Stands ground }
    requires over { Lends O.reading O.size (O.fixed over.old) (world_in ground) ground.config.now }
    ensures branches { IfOk result (λ found. AreBehindReady ground.entry decisions.now ready.items found.items) }
    ensures over { Returns O.fixed O.loaded over }
{
    let mut found = Vec::new(alloc);
    for one in ready {
        let mut more = behind(alloc, ground, over, decisions, one)?;
        found.append(&mut more)?;
    }
    Ok(found)
}

fn behind<O: Overrides>(
    alloc: Global,
    ground: Ground<'_>,
    over: &mut O,
    decisions: &[Decision],
    one: Mapped,
) -> Result<Vec<Segment>, NoMemory>
    requires ground { Stands ground }
    requires over { Lends O.reading O.size (O.fixed over.old) (world_in ground) ground.config.now }
    ensures branches { IfOk result (λ found. IsBehindReady ground.entry decisions.now one found.items) }
    ensures over { Returns O.fixed O.loaded over }
{
    match one {
        Mapped::Over { tied, left } => {
            let found = stopped(alloc, decisions, tied, left)?;
            Ok(found)
        }
        Mapped::Name { named, aliased } => {
            let found = walked_branches(alloc, ground, over, decisions, named, aliased)?;
            Ok(found)
        }
    }
}

/// The pass ends before anything is in force.
pub(crate) fn stopped(
    alloc: Global,
    decisions: &[Decision],
    tied: Tied,
    left: Left,
) -> Result<Vec<Segment>, NoMemory>
    ensures { IfOk result (λ found. found.items ≡ stopped_at tied decisions.now left ∷ []) }
{
    let decisions = List::from(decisions.to_vec(alloc)?);
    let mut found = Vec::new(alloc);
    found.push(Segment {
        tied,
        decisions,
        require: Requirement::none(alloc),
        finish: Finish::Stopped(left),
    })?;
    Ok(found)
}
