//! From a cut on, up to the next pass or a further round of a list of rules.
ghost use Rattle.std.specs.Prelude.{◌≡◌, false, IfOk};
ghost use Rattle.hc_abs_cuts.specs.Coded.{AreCut, AreFromPlacesIn, IsFromPlaceIn, begun_in};
ghost use Rattle.hc_invariant.specs.declared.cut.Cut.TheVariants as cut;
ghost use Rattle.hc_abs_left.specs.Grounds.{Stands, world_in};
ghost use Rattle.hc_abs_left.specs.Segments.{AreDirRound};
ghost use Rattle.hc_serve.specs.Lent.{Lends, Returns};

use crate::places::{Place, places};
use hc_abs_left::{Ground, Segment, Settings, dir_round_branches};
use hc_abs_pass::SoFar;
use hc_abs_run::{pass_branches, server_round_branches};
use hc_base::{List, NoMemory, Text};
use hc_invariant::Cut;
use hc_model::Overrides;
use hc_plan::Tied;
use std::alloc::Global;
use std::rc::Rc;

/// The branches from a cut on. `over` reads the `.htaccess` files of the world.
pub fn cut_branches<O: Overrides>(
    alloc: Global,
    ground: Ground<'_>,
    over: &mut O,
    cut: &Cut,
    tied: Tied,
) -> Result<Vec<Segment>, NoMemory>
    requires ground { Stands ground }
    requires over { Lends O.reading O.size (O.fixed over.old) (world_in ground) ground.config.now }
    ensures branches { IfOk result (λ found. AreCut ground.entry cut.now tied found.items) }
    ensures over { Returns O.fixed O.loaded over }
{
    match cut {
        Cut::Pass => pass_branches(alloc, ground, over, tied),
        Cut::Server => server_branches(alloc, ground, over, tied),
        Cut::Dir(dir) => {
            let places = places(alloc, ground, over, dir, &tied)?;
            from_places(alloc, ground, dir, places)
        }
    }
}

/// From a further round of the server's list on: first where a substitution was made in the pass, and then where none
/// was.
fn server_branches<O: Overrides>(
    alloc: Global,
    ground: Ground<'_>,
    over: &mut O,
    tied: Tied,
) -> Result<Vec<Segment>, NoMemory>
    requires ground { Stands ground }
    requires over { Lends O.reading O.size (O.fixed over.old) (world_in ground) ground.config.now }
    ensures branches { IfOk result (λ found. AreCut ground.entry cut.Server tied found.items) }
    ensures over { Returns O.fixed O.loaded over }
{
    let other = copied(&tied)?;
    let mut found = server_round_branches(alloc, ground, over, begun_again(alloc, true), tied)?;
    let mut more = server_round_branches(alloc, ground, over, begun_again(alloc, false), other)?;
    found.append(&mut more)?;
    Ok(found)
}

/// A list goes on, and nothing was decided yet.
fn begun_again(alloc: Global, substituted: bool) -> SoFar
    ensures { result ≡ begun_in substituted }
{
    SoFar {
        decisions: List::new(alloc),
        substituted,
        replaced: true,
    }
}

fn copied(tied: &Tied) -> Result<Tied, NoMemory>
    ensures { IfOk result (λ copy. copy ≡ tied.now) }
{
    Ok(Tied {
        cell: tied.cell.clone()?,
        ties: tied.ties,
    })
}

/// From a further round of a directory's list on, wherever it is in force.
fn from_places(
    alloc: Global,
    ground: Ground<'_>,
    dir: &Text,
    places: Vec<Place>,
) -> Result<Vec<Segment>, NoMemory>
    requires { Stands ground }
    ensures { IfOk result (λ found. AreFromPlacesIn ground.entry dir.now places.items found.items) }
{
    let mut found = Vec::new(alloc);
    for place in places {
        let mut more = from_place(alloc, ground, dir, place)?;
        found.append(&mut more)?;
    }
    Ok(found)
}

/// First where the file name doesn't come from an alias, and then where it does.
fn from_place(
    alloc: Global,
    ground: Ground<'_>,
    dir: &Text,
    place: Place,
) -> Result<Vec<Segment>, NoMemory>
    requires { Stands ground }
    ensures { IfOk result (λ found. IsFromPlaceIn ground.entry dir.now place found.items) }
{
    let Place { tied, force, kind } = place;
    let other = copied(&tied)?;
    let aliased = Settings {
        force: force.clone()?,
        aliased: true,
        kind,
    };
    let settings = Settings {
        force,
        aliased: false,
        kind,
    };
    let mut found = from_round(alloc, ground, dir, settings, tied)?;
    let mut more = from_round(alloc, ground, dir, aliased, other)?;
    found.append(&mut more)?;
    Ok(found)
}

fn from_round(
    alloc: Global,
    ground: Ground<'_>,
    dir: &Text,
    settings: Settings,
    tied: Tied,
) -> Result<Vec<Segment>, NoMemory>
    requires { Stands ground }
    ensures { IfOk result (λ found. AreDirRound ground.entry settings dir.now (begun_in false) tied found.items) }
{
    let settings = Rc::new(alloc, settings)?;
    let so_far = begun_again(alloc, false);
    dir_round_branches(alloc, ground, &settings, dir, so_far, tied)
}
