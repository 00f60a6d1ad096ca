//! The Require lines of a tree (Apache manual, mod_authz_core, Require).
ghost use Rattle.std.specs.Prelude.{◌≡◌, ◌++◌, ◌∷◌, [], IfOk, map};
ghost use Rattle.hc_model.specs.Joined.{required_by};
ghost use Rattle.hc_serve.specs.Needs.{all_of, needs_of, places_in, places_joined};

use hc_base::{List, NoMemory, Place};
use hc_model::{Join, Merging, ReqTree, Requirement};
use std::alloc::Global;

/// The places of the Require lines that are in force, in the order in which they stand.
pub fn needs_of(alloc: Global, require: &Requirement) -> Result<List<Place>, NoMemory>
    ensures { IfOk result (λ places. places ≡ needs_of require.now) }
{
    places_of(alloc, require.joins())
}

fn places_of(alloc: Global, joins: &[Join]) -> Result<List<Place>, NoMemory>
    ensures { IfOk result (λ places. places ≡ needs_of (required_by joins.now)) }
{
    let mut list = List::new(alloc);
    for join in joins {
        list = places_joined(list, join)?;
    }
    Ok(list)
}

// `Off` begins anew.
fn places_joined(before: List<Place>, join: &Join) -> Result<List<Place>, NoMemory>
    ensures { IfOk result (λ places. places ≡ places_joined before (places_in join.now.tree) join.now.how) }
{
    let list = match join.how {
        Merging::Off => List::new(before.allocator()),
        Merging::And | Merging::Or => before,
    };
    with_places(list, &join.tree)
}

#[cycle(places)]
fn with_places(list: List<Place>, tree: &ReqTree) -> Result<List<Place>, NoMemory>
    ensures { IfOk result (λ places. places ≡ list ++ places_in tree.now) }
{
    match tree {
        ReqTree::Leaf { place, .. } => with_place(list, place),
        ReqTree::All(trees) => with_each(list, trees),
        ReqTree::AnyOf(trees) => with_each(list, trees),
        ReqTree::NoneOf(trees) => with_each(list, trees),
    }
}

fn with_place(mut list: List<Place>, place: &Place) -> Result<List<Place>, NoMemory>
    ensures { IfOk result (λ places. places ≡ list ++ place.now ∷ []) }
{
    list.push(place.clone()?)?;
    Ok(list)
}

#[cycle(places)]
fn with_each(list: List<Place>, trees: &List<ReqTree>) -> Result<List<Place>, NoMemory>
    ensures { IfOk result (λ places. places ≡ list ++ all_of (map places_in trees.now)) }
{
    let mut list = list;
    for tree in trees.as_slice() {
        list = with_places(list, tree)?;
    }
    Ok(list)
}
