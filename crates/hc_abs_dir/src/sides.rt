//! Both sides of a test of the text of a slot.
ghost use Rattle.std.specs.Prelude.{◌≡◌, IfOk};
ghost use Rattle.hc_abs_dir.specs.Sides.{AreSides, tied_on};

use hc_abs_rw::{Ways, ways_of};
use hc_base::NoMemory;
use hc_cells::{Slot, Ties};
use hc_dfa::Dfa;
use hc_plan::{Element, Hand, Tied, Way};
use std::alloc::Global;

/// The states in which the text is in the set, and those in which it isn't, if there are any.
#[derive(Drop)]
pub(crate) struct Sides {
    pub held: Option<Tied>,
    pub failed: Option<Tied>,
}

/// The sides of a test of the text of a slot.
pub(crate) fn sides_of(alloc: Global, slot: Slot, set: &Dfa, tied: Tied) -> Result<Sides, NoMemory>
    ensures { IfOk result (AreSides slot set.now tied) }
{
    let mut elements = Vec::new(alloc);
    elements.push(Element::Open(slot, 0))?;
    let hand = Hand {
        elements: &elements,
        off: 0,
        side: &None,
    };
    let ways = ways_of(alloc, &tied.cell, tied.ties, hand, set, false)?;
    let Ways { held, failed } = ways;
    Ok(Sides {
        held: tied_on(tied.ties, held),
        failed: tied_on(tied.ties, failed),
    })
}

/// The states of a way of a test, if there are any.
fn tied_on(ties: Ties, way: Option<Way>) -> Option<Tied>
    ensures { result ≡ tied_on ties way }
{
    match way {
        None => None,
        Some(way) => Some(Tied {
            cell: way.cell,
            ties,
        }),
    }
}
