ghost use Rattle.std.specs.Prelude.{◌≡◌, drop, IfOk};
ghost use Rattle.hc_cells.specs.Cells.{holds};
ghost use Rattle.hc_dfa.specs.Automata.{accepts};
ghost use Rattle.hc_dfa.specs.Built.{Accepts};
ghost use Rattle.hc_plan.specs.Ways.{IsEmptyAnswer, IsKnownWay, IsOpenWay, IsSoleWay, IsTested, NarrowedOr, met, on};

use crate::hand::{Hand, Way};
use crate::parts::parts_set;
use crate::shape::{Shape, Sole, bytes_of, shape_of};
use hc_base::NoMemory;
use hc_cells::{Cell, Slot, Ties, restrict};
use hc_dfa::{Between, Dfa, Keep, between, complement, least, product, reduce};
use std::alloc::Global;

/// A test of a text by a set, and the side that is looked at.
#[derive(Clone, Copy)]
pub struct Test<'t> {
    pub set: &'t Dfa,
    pub held: bool,
}

/// What a test leaves where the text is on its side; none where it can't be.
pub fn way_on_side(
    alloc: Global,
    cell: &Cell,
    ties: Ties,
    hand: Hand<'_, '_>,
    test: Test<'_>,
) -> Result<Option<Way>, NoMemory>
    ensures { IfOk result (IsTested cell.now ties hand.entry.elements.now hand.entry.off hand.entry.side.now
        (on test.entry.held (accepts test.entry.set.now))) }
{
    match shape_of(alloc, cell, hand.elements)? {
        Shape::Known(whole) => known_way(cell, hand, test, whole.as_bytes()),
        Shape::Sole(sole) => sole_way(alloc, cell, ties, hand, test, &sole),
        Shape::Open => open_way(alloc, cell, hand, test),
    }
}

/// The way of a text that is known.
fn known_way(
    cell: &Cell,
    hand: Hand<'_, '_>,
    test: Test<'_>,
    whole: &[u8],
) -> Result<Option<Way>, NoMemory>
    ensures { IfOk result (IsKnownWay cell.now hand.entry.side.now
        (met hand.entry.off hand.entry.side.now (on test.entry.held (accepts test.entry.set.now))) whole.now) }
{
    if !is_met(hand, test, whole) {
        return Ok(None);
    }
    let cell = cell.clone()?;
    let side = copied(hand.side)?;
    Ok(Some(Way { cell, side }))
}

/// The way of a text with one open slot.
fn sole_way(
    alloc: Global,
    cell: &Cell,
    ties: Ties,
    hand: Hand<'_, '_>,
    test: Test<'_>,
    sole: &Sole,
) -> Result<Option<Way>, NoMemory>
    ensures { IfOk result (IsSoleWay cell.now ties
        (met hand.entry.off hand.entry.side.now (on test.entry.held (accepts test.entry.set.now))) sole.now) }
{
    let side = met(alloc, hand, test)?;
    let around = Between {
        before: bytes_of(&sole.before),
        skip: sole.skip,
        after: bytes_of(&sole.after),
    };
    let members = between(alloc, &side, around)?;
    let tied = ties.tied_to(alloc, &sole.slot)?;
    let found = narrowed(alloc, cell, &members, &sole.slot, tied.as_slice())?;
    match found {
        None => Ok(None),
        Some(cell) => Ok(Some(Way {
            cell,
            side: Some(side),
        })),
    }
}

/// The way of a text whose parts are open.
fn open_way(
    alloc: Global,
    cell: &Cell,
    hand: Hand<'_, '_>,
    test: Test<'_>,
) -> Result<Option<Way>, NoMemory>
    ensures { IfOk result (IsOpenWay cell.now hand.entry.elements.now
        (met hand.entry.off hand.entry.side.now (on test.entry.held (accepts test.entry.set.now)))) }
{
    let side = met(alloc, hand, test)?;
    let whole = parts_set(alloc, cell, hand.elements)?;
    let both = product(alloc, &whole, &side, Keep::Both)?;
    let found = least(alloc, &both)?;
    match found {
        None => Ok(None),
        Some(_text) => {
            let cell = cell.clone()?;
            Ok(Some(Way {
                cell,
                side: Some(side),
            }))
        }
    }
}

/// The cell whose slots keep the texts in the set: the first one, and those of the list. None where
/// one of them is left empty.
fn narrowed(
    alloc: Global,
    cell: &Cell,
    set: &Dfa,
    slot: &Slot,
    rest: &[Slot],
) -> Result<Option<Cell>, NoMemory>
    ensures { IfOk result (NarrowedOr cell.now slot.now rest.now (accepts set.now)) }
{
    let made = restrict(alloc, cell, slot, set)?;
    if is_empty_at(alloc, &made, slot)? {
        return Ok(None);
    }
    match rest {
        [] => Ok(Some(made)),
        [next, rest @ ..] => narrowed(alloc, &made, set, next, rest),
    }
}

/// Whether a slot holds no text.
fn is_empty_at(alloc: Global, cell: &Cell, slot: &Slot) -> Result<bool, NoMemory>
    ensures { IfOk result (IsEmptyAnswer (holds cell.now slot.now)) }
{
    match cell.set_of(slot) {
        None => Ok(false),
        Some(set) => {
            let found = least(alloc, set)?;
            match found {
                None => Ok(true),
                Some(_) => Ok(false),
            }
        }
    }
}

/// The texts on this side of a test.
fn side_of(alloc: Global, test: Test<'_>) -> Result<Dfa, NoMemory>
    ensures { IfOk result (λ made. Accepts made (on test.entry.held (accepts test.entry.set.now))) }
{
    if test.held {
        return test.set.clone();
    }
    complement(alloc, test.set)
}

/// The elements joined, when the text is on this side of a test, too.
fn met(alloc: Global, hand: Hand<'_, '_>, test: Test<'_>) -> Result<Dfa, NoMemory>
    ensures { IfOk result (λ made. Accepts made (met hand.entry.off hand.entry.side.now
        (on test.entry.held (accepts test.entry.set.now)))) }
{
    let own = side_of(alloc, test)?;
    let around = Between {
        before: &[],
        skip: hand.off,
        after: &[],
    };
    let whole = between(alloc, &own, around)?;
    match hand.side {
        None => Ok(whole),
        Some(side) => {
            let both = product(alloc, side, &whole, Keep::Both)?;
            let fewer = reduce(alloc, &both)?;
            Ok(fewer)
        }
    }
}

/// Whether the elements joined, which are this text, are on this side of a test, too.
fn is_met(hand: Hand<'_, '_>, test: Test<'_>, whole: &[u8]) -> bool
    ensures { result ≡ met hand.entry.off hand.entry.side.now
        (on test.entry.held (accepts test.entry.set.now)) whole.now }
{
    let found = answers(test, behind(whole, hand.off));
    match hand.side {
        None => found,
        Some(side) => side.accepts(whole) && found,
    }
}

/// Whether the text is on this side of a test.
fn answers(test: Test<'_>, text: &[u8]) -> bool
    ensures { result ≡ on test.entry.held (accepts test.entry.set.now) text.now }
{
    let found = test.set.accepts(text);
    if test.held { found } else { !found }
}

/// The text behind so many of its bytes.
fn behind(text: &[u8], off: usize) -> &[u8]
    ensures { result.now ≡ drop off text.now }
{
    match text.get(off..) {
        Some(rest) => rest,
        None => &[],
    }
}

fn copied(side: &Option<Dfa>) -> Result<Option<Dfa>, NoMemory>
    ensures { IfOk result (λ copy. copy ≡ side.now) }
{
    match side {
        None => Ok(None),
        Some(set) => Ok(Some(set.clone()?)),
    }
}
