//! The first alias that takes the URL path, and the name that it gives (Apache manual, mod_alias).
ghost use Rattle.std.specs.Prelude.{◌≡◌, ◌++◌, ◌∷◌, [], IfOk, OnOk};
ghost use Rattle.hc_model.specs.declared.template.Piece.TheVariants as piece;
ghost use Rattle.hc_abs_map.specs.Aliases.{AddsAliased, AreTargetsBy, GoesAliases, IsAliased, IsHeldFor, IsTargetBy};
ghost use Rattle.hc_abs_map.specs.Aliases.{rest_elements};

use crate::entries::{path_alone, taking, tied_on};
use crate::mapped::Mapped;
use hc_abs_pass::Named;
use hc_abs_rw::Ways;
use hc_base::{NoMemory, Text};
use hc_cells::{Slot, Ties};
use hc_model::{Alias, PathTest, Piece};
use hc_plan::{Element, Found, Tied, Way};
use std::alloc::Global;

/// Adds the names that aliases give where they take the path, and goes on where none does.
pub(crate) fn past_aliases(
    alloc: Global,
    aliases: &[Alias],
    before: Option<Tied>,
    found: &mut Vec<Mapped>,
) -> Result<Option<Tied>, NoMemory>
    ensures { IfOk result (λ rest. GoesAliases aliases.now before rest found.old.items found.new.items) }
{
    let mut rest = before;
    for alias in aliases {
        rest = past_alias(alloc, alias, rest, found)?;
    }
    Ok(rest)
}

fn past_alias(
    alloc: Global,
    alias: &Alias,
    before: Option<Tied>,
    found: &mut Vec<Mapped>,
) -> Result<Option<Tied>, NoMemory>
    ensures { IfOk result (λ rest. GoesAliases (alias.now ∷ []) before rest found.old.items found.new.items) }
{
    let Some(tied) = before else {
        return Ok(None);
    };
    let ways = taking(alloc, &alias.from, &tied)?;
    let Ways { held, failed } = ways;
    add_aliased(alloc, alias, tied.ties, held, found)?;
    Ok(tied_on(tied.ties, failed))
}

/// Adds the name on the way on which an alias takes the path.
fn add_aliased(
    alloc: Global,
    alias: &Alias,
    ties: Ties,
    way: Option<Way>,
    found: &mut Vec<Mapped>,
) -> Result<(), NoMemory>
    ensures { OnOk result (AddsAliased alias.now ties way found.old.items found.new.items) }
{
    let Some(way) = way else {
        return Ok(());
    };
    let named = aliased_name(alloc, alias, ties, way)?;
    found.push(Mapped::Name {
        named,
        aliased: true,
    })?;
    Ok(())
}

/// The name that an alias gives: its target, and what follows the prefix.
fn aliased_name(alloc: Global, alias: &Alias, ties: Ties, way: Way) -> Result<Named, NoMemory>
    ensures { IfOk result (IsAliased alias.now ties way) }
{
    let cell = way.cell.clone()?;
    let held = groups_on(alloc, &alias.from, way)?;
    let mut text = target_elements(alloc, &held, alias.to.as_slice())?;
    push_rest(&alias.from, &mut text)?;
    Ok(Named {
        tied: Tied { cell, ties },
        text,
        side: None,
    })
}

/// What is held of the groups of a pattern.
fn groups_on<'c>(alloc: Global, test: &'c PathTest, way: Way) -> Result<Option<Found<'c>>, NoMemory>
    ensures { IfOk result (IsHeldFor test.now way) }
{
    match test {
        PathTest::Prefix(_) => Ok(None),
        PathTest::Search(pattern) => {
            let Way { cell, side } = way;
            let elements = path_alone(alloc)?;
            Ok(Some(Found {
                pattern: pattern.as_pat(),
                cell,
                elements,
                off: 0,
                side,
            }))
        }
    }
}

/// The target of an alias, whose groups are held.
fn target_elements(
    alloc: Global,
    held: &Option<Found<'_>>,
    pieces: &[Piece],
) -> Result<Vec<Element>, NoMemory>
    ensures { IfOk result (λ made. AreTargetsBy held.now pieces.now made.items) }
{
    let mut elements = Vec::new(alloc);
    for piece in pieces {
        elements.push(target_element(alloc, held, piece)?)?;
    }
    Ok(elements)
}

fn target_element(
    alloc: Global,
    held: &Option<Found<'_>>,
    piece: &Piece,
) -> Result<Element, NoMemory>
    ensures { IfOk result (IsTargetBy held.now piece.now) }
{
    match piece {
        Piece::Bytes(bytes) => Ok(Element::Known(bytes.clone()?)),
        Piece::Group(number) => held_element(alloc, held, *number),
        Piece::CondGroup(_) => Ok(Element::Known(Text::new(alloc))),
        Piece::Var(_) => Ok(Element::Known(Text::new(alloc))),
        Piece::Lookup { .. } => Ok(Element::Known(Text::new(alloc))),
    }
}

/// What a group of the pattern holds.
fn held_element(alloc: Global, held: &Option<Found<'_>>, number: u8) -> Result<Element, NoMemory>
    ensures { IfOk result (IsTargetBy held.now (piece.Group number)) }
{
    match held {
        None => Ok(Element::Known(Text::new(alloc))),
        Some(found) => {
            let texts = found.group(alloc, number)?;
            Ok(Element::Free(texts))
        }
    }
}

/// Adds what follows a prefix.
fn push_rest(test: &PathTest, text: &mut Vec<Element>) -> Result<(), NoMemory>
    ensures { OnOk result (text.new.items ≡ text.old.items ++ rest_elements test.now) }
{
    match test {
        PathTest::Prefix(from) => {
            text.push(Element::Open(Slot::Path, from.as_bytes().len()))?;
            Ok(())
        }
        PathTest::Search(_) => Ok(()),
    }
}
