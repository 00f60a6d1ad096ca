//! A file name before its walk: slashes beside each other are one, and a segment of dots is outside.
ghost use Rattle.std.specs.Prelude.{◌≡◌, ◌≤◌, [], ℕ, IfOk, OnOk, List, Some};
ghost use Rattle.hc_abs_pass.specs.Mapping.{named as in_hand};
ghost use Rattle.hc_abs_rw.specs.RuleBranches.{states_of};
ghost use Rattle.hc_dfa.specs.Automata.{accepts};
ghost use Rattle.hc_plan.specs.Plan.{done};
ghost use Rattle.hc_abs_map.specs.Along.{Adds, AreNamed};
ghost use Rattle.hc_abs_map.specs.Ends.{AddsOver, cell_in};
ghost use Rattle.hc_abs_map.specs.Mapped.{AreTidied, MappedFits};
ghost use Rattle.hc_abs_map.specs.Names.{GoesUndotted, IsTidied, MeetsDoubled, named_on};

use crate::dots::{dotted, doubled};
use crate::mapped::Mapped;
use hc_abs_pass::{Left, Named};
use hc_abs_rw::{Ways, fit, free, ways_of};
use hc_base::NoMemory;
use hc_cells::Ties;
use hc_dfa::{Dfa, Keep, least, product};
use hc_model::Reason;
use hc_pat_lang::merge_slashes;
use hc_plan::{Element, Hand, Tied, Way, hand_set};
use std::alloc::Global;

/// The branches of a file name that is made ready for its walk, over the states of a set of requests. Branches that
/// have more states together than there is room for are refused as memory is.
pub fn tidied_branches(
    alloc: Global,
    named: Named,
    aliased: bool,
    room: u64,
) -> Result<Vec<Mapped>, NoMemory>
    ensures branches { IfOk result (λ found. AreTidied named aliased found.items) }
    ensures room { IfOk result (λ found. states_of cell_in found.items ≤ room) }
{
    let tidy = tidied(alloc, named)?;
    let mut found = Vec::new(alloc);
    let rest = past_dots(alloc, tidy, &mut found)?;
    add_named(rest, aliased, &mut found)?;
    if !fit(&found, room) {
        return Err(NoMemory);
    }
    Ok(found)
}

/// The text with its slashes merged, where two of them may stand beside each other.
pub(crate) fn tidied(alloc: Global, named: Named) -> Result<Named, NoMemory>
    ensures { IfOk result (IsTidied named) }
{
    let hand = Hand {
        elements: &named.text,
        off: 0,
        side: &named.side,
    };
    let texts = hand_set(alloc, &named.tied.cell, hand)?;
    if !meets_doubled(alloc, &texts)? {
        return Ok(named);
    }
    let merged = merge_slashes(alloc, &texts)?;
    let text = free(alloc, merged)?;
    let Named { tied, .. } = named;
    Ok(Named {
        tied,
        text,
        side: None,
    })
}

/// Whether two slashes stand beside each other in a text of the set.
fn meets_doubled(alloc: Global, texts: &Dfa) -> Result<bool, NoMemory>
    ensures { IfOk result (MeetsDoubled (accepts texts.now)) }
{
    let set = doubled(alloc)?;
    let both = product(alloc, texts, &set, Keep::Both)?;
    let found = least(alloc, &both)?;
    match found {
        None => Ok(false),
        Some(_text) => Ok(true),
    }
}

/// Adds the texts with a segment of dots, which are outside, and goes on with the others.
pub(crate) fn past_dots(
    alloc: Global,
    named: Named,
    found: &mut Vec<Mapped>,
) -> Result<Option<Named>, NoMemory>
    ensures { IfOk result (λ rest. GoesUndotted named rest found.old.items found.new.items) }
{
    let set = dotted(alloc)?;
    let Named { tied, text, side } = named;
    let hand = Hand {
        elements: &text,
        off: 0,
        side: &side,
    };
    let ways = ways_of(alloc, &tied.cell, tied.ties, hand, &set, false)?;
    let Ways { held, failed } = ways;
    add_over(tied.ties, held, Left::Outside(Reason::DotSegment), found)?;
    Ok(named_on(tied.ties, text, failed))
}

/// A text on a way of a test, if there is one.
pub(crate) fn named_on(ties: Ties, text: Vec<Element>, way: Option<Way>) -> Option<Named>
    ensures { result ≡ named_on ties text way }
{
    match way {
        None => None,
        Some(way) => {
            let Way { cell, side } = way;
            Some(Named {
                tied: Tied { cell, ties },
                text,
                side,
            })
        }
    }
}

/// Adds an end of the pass on a way of a test.
pub(crate) fn add_over(
    ties: Ties,
    way: Option<Way>,
    left: Left,
    found: &mut Vec<Mapped>,
) -> Result<(), NoMemory>
    ensures { OnOk result (AddsOver ties way left found.old.items found.new.items) }
{
    let Some(way) = way else {
        return Ok(());
    };
    let tied = Tied {
        cell: way.cell,
        ties,
    };
    found.push(Mapped::Over { tied, left })?;
    Ok(())
}

/// Adds a file name, if there is one.
pub(crate) fn add_named(
    named: Option<Named>,
    aliased: bool,
    found: &mut Vec<Mapped>,
) -> Result<(), NoMemory>
    ensures { OnOk result (Adds (AreNamed MappedFits named (done (in_hand aliased))) found.old.items found.new.items) }
{
    let Some(named) = named else {
        return Ok(());
    };
    found.push(Mapped::Name { named, aliased })?;
    Ok(())
}
