//! The file names that lead to an end of a walk, with no path information (Apache manual, core, AcceptPathInfo).
ghost use Rattle.std.specs.Prelude.{IfOk};
ghost use Rattle.hc_abs_cuts.specs.Coded.{IsNamed};
ghost use Rattle.hc_abs_cuts.specs.Exact.{ArePlain, exact_of, exact_rests};
ghost use Rattle.hc_abs_pass.specs.Walking.{AreInfos};
ghost use Rattle.hc_dfa.specs.Built.{Accepts};

use hc_abs_pass::{Behind, End, first_components, infos, rests_of};
use hc_base::NoMemory;
use hc_cells::Slot;
use hc_dfa::{Dfa, Keep, behind_front, product};
use hc_plan::{Element, Hand, Test, Tied, every_text, way_on_side};
use std::alloc::Global;

/// What may follow the name of a file, and the texts without a slash.
#[derive(Drop)]
pub(crate) struct Rests {
    pub infos: Dfa,
    pub plain: Dfa,
}

impl Rests {
    pub fn new(alloc: Global) -> Result<Rests, NoMemory>
        ensures infos { IfOk result (λ rests. AreInfos rests.infos) }
        ensures plain { IfOk result (λ rests. ArePlain rests.plain) }
    {
        let infos = infos(alloc)?;
        let every = every_text(alloc)?;
        let plain = first_components(alloc, &every)?;
        Ok(Rests { infos, plain })
    }
}

/// The file names that lead to an end.
pub(crate) fn exact_set(alloc: Global, end: &End, rests: &Rests) -> Result<Dfa, NoMemory>
    requires infos { AreInfos rests.now.infos }
    requires plain { ArePlain rests.now.plain }
    ensures { IfOk result (λ made. Accepts made (exact_of end.now)) }
{
    let own = exact_rests(alloc, &end.behind, rests)?;
    let made = behind_front(alloc, end.front.as_bytes(), &own)?;
    Ok(made)
}

/// What follows the front of an end in them.
fn exact_rests(alloc: Global, behind: &Behind, rests: &Rests) -> Result<Dfa, NoMemory>
    requires infos { AreInfos rests.now.infos }
    requires plain { ArePlain rests.now.plain }
    ensures { IfOk result (λ made. Accepts made (exact_rests behind.now)) }
{
    let all = rests_of(alloc, behind, &rests.infos)?;
    let made = product(alloc, &all, &rests.plain, Keep::Both)?;
    Ok(made)
}

/// The states in which the file name is in a set, if there are any.
pub(crate) fn named_in(alloc: Global, tied: &Tied, set: &Dfa) -> Result<Option<Tied>, NoMemory>
    ensures { IfOk result (IsNamed tied.now set.now) }
{
    let mut elements = Vec::new(alloc);
    elements.push(Element::Open(Slot::Name, 0))?;
    let hand = Hand {
        elements: &elements,
        off: 0,
        side: &None,
    };
    let test = Test { set, held: true };
    let way = way_on_side(alloc, &tied.cell, tied.ties, hand, test)?;
    match way {
        None => Ok(None),
        Some(way) => Ok(Some(Tied {
            cell: way.cell,
            ties: tied.ties,
        })),
    }
}
