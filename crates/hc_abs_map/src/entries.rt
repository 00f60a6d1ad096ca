//! The URL paths that an alias or a redirect takes (Apache manual, mod_alias).
ghost use Rattle.std.specs.Prelude.{◌≡◌, IfOk};
ghost use Rattle.hc_alias.specs.Tests.{is_below};
ghost use Rattle.hc_dfa.specs.Built.{Accepts};
ghost use Rattle.hc_abs_map.specs.Entries.{AreTaken, path_alone, takes, tied_on};

use hc_abs_rw::{Ways, found_texts, ways_of};
use hc_base::NoMemory;
use hc_base::paths::ends_with_slash;
use hc_cells::{Slot, Ties};
use hc_dfa::{Dfa, Keep, product, single};
use hc_model::PathTest;
use hc_plan::{Element, Hand, Tied, Way};
use hc_rw_sets::beginning_with;
use std::alloc::Global;

/// The ways of the test of an entry: where it takes the path, and where it doesn't.
pub(crate) fn taking(alloc: Global, test: &PathTest, tied: &Tied) -> Result<Ways, NoMemory>
    ensures { IfOk result (AreTaken test.now tied.now) }
{
    let set = paths_taken(alloc, test)?;
    let elements = path_alone(alloc)?;
    let hand = Hand {
        elements: &elements,
        off: 0,
        side: &None,
    };
    let ways = ways_of(alloc, &tied.cell, tied.ties, hand, &set, false)?;
    Ok(ways)
}

/// The URL path.
pub(crate) fn path_alone(alloc: Global) -> Result<Vec<Element>, NoMemory>
    ensures { IfOk result (λ made. made.items ≡ path_alone) }
{
    let mut elements = Vec::new(alloc);
    elements.push(Element::Open(Slot::Path, 0))?;
    Ok(elements)
}

/// The paths that an entry takes.
fn paths_taken(alloc: Global, test: &PathTest) -> Result<Dfa, NoMemory>
    ensures { IfOk result (λ made. Accepts made (takes test.now)) }
{
    match test {
        PathTest::Prefix(from) => below(alloc, from.as_bytes()),
        PathTest::Search(pattern) => found_texts(alloc, pattern.as_pat()),
    }
}

/// A path and what is below it.
fn below(alloc: Global, from: &[u8]) -> Result<Dfa, NoMemory>
    ensures { IfOk result (λ made. Accepts made (is_below from.now)) }
{
    if ends_with_slash(from) {
        return beginning_with(alloc, from);
    }
    let own = single(alloc, from)?;
    let mut front = from.to_vec(alloc)?;
    front.push(b'/')?;
    let further = beginning_with(alloc, &front)?;
    let made = product(alloc, &own, &further, Keep::Either)?;
    Ok(made)
}

/// The states of a way of a test, if there are any.
pub(crate) fn tied_on(ties: Ties, way: Option<Way>) -> Option<Tied>
    ensures { result ≡ tied_on ties way }
{
    match way {
        None => None,
        Some(way) => Some(Tied {
            cell: way.cell,
            ties,
        }),
    }
}
