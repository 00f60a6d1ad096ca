ghost use Rattle.std.specs.Prelude.{◌≡◌, ◌++◌, drop, IfOk};
ghost use Rattle.hc_plan.specs.Hands.{IsElementShape, IsShape};
ghost use Rattle.hc_plan.specs.Shapes.{joined};
ghost use Rattle.hc_dfa.specs.Texts.{IsText};

use crate::hand::Element;
use hc_base::{NoMemory, Text};
use hc_cells::{Cell, Slot};
use std::alloc::Global;

/// The one part that is no known text, where it is a slot, between what stands before and behind it.
#[derive(Drop)]
pub struct Sole {
    pub before: Text,
    pub slot: Slot,
    pub skip: usize,
    pub after: Text,
}

/// What a list of parts is, where a slot that holds one text is that text.
#[derive(Drop)]
pub enum Shape {
    Known(Text),
    Sole(Sole),
    Open,
}

/// The shape of elements over a cell.
pub fn shape_of(alloc: Global, cell: &Cell, elements: &[Element]) -> Result<Shape, NoMemory>
    ensures { IfOk result (IsShape cell.now elements.now) }
{
    let mut shape = Shape::Known(Text::new(alloc));
    for element in elements {
        let next = element_shape(alloc, cell, element)?;
        shape = join(shape, next)?;
    }
    Ok(shape)
}

fn element_shape(alloc: Global, cell: &Cell, element: &Element) -> Result<Shape, NoMemory>
    ensures { IfOk result (IsElementShape cell.now element.now) }
{
    match element {
        Element::Known(text) => known_shape(alloc, bytes_of(text)),
        Element::Free(_) => Ok(Shape::Open),
        Element::Open(slot, skip) => match cell.only_of(slot) {
            Some(only) => {
                let rest = behind(alloc, only, *skip)?;
                Ok(Shape::Known(rest))
            }
            None => Ok(Shape::Sole(Sole {
                before: Text::new(alloc),
                slot: slot.clone()?,
                skip: *skip,
                after: Text::new(alloc),
            })),
        },
    }
}

fn known_shape(alloc: Global, text: &[u8]) -> Result<Shape, NoMemory>
    ensures { IfOk result (λ shape. shape ≡ Shape.Known text.now) }
{
    Ok(Shape::Known(Text::copy_of(alloc, text)?))
}

/// A text without so many of its first bytes.
fn behind(alloc: Global, text: &[u8], skip: usize) -> Result<Text, NoMemory>
    ensures { IfOk result (λ rest. rest ≡ drop skip text.now) }
{
    match text.get(skip..) {
        Some(rest) => Text::copy_of(alloc, rest),
        None => Ok(Text::new(alloc)),
    }
}

/// Two shapes one after the other.
fn join(first: Shape, rest: Shape) -> Result<Shape, NoMemory>
    ensures { IfOk result (λ both. both ≡ joined first rest) }
{
    match first {
        Shape::Known(text) => known_before(text, rest),
        Shape::Sole(sole) => match rest {
            Shape::Known(more) => Ok(Shape::Sole(Sole {
                before: sole.before,
                slot: sole.slot,
                skip: sole.skip,
                after: chained(sole.after, &more)?,
            })),
            Shape::Sole(_) => Ok(Shape::Open),
            Shape::Open => Ok(Shape::Open),
        },
        Shape::Open => Ok(Shape::Open),
    }
}

fn known_before(text: Text, rest: Shape) -> Result<Shape, NoMemory>
    ensures { IfOk result (λ both. both ≡ joined (Shape.Known text) rest) }
{
    match rest {
        Shape::Known(more) => Ok(Shape::Known(chained(text, &more)?)),
        Shape::Sole(sole) => Ok(Shape::Sole(Sole {
            before: chained(text, &sole.before)?,
            slot: sole.slot,
            skip: sole.skip,
            after: sole.after,
        })),
        Shape::Open => Ok(Shape::Open),
    }
}

/// One text behind the other.
fn chained(text: Text, more: &Text) -> Result<Text, NoMemory>
    ensures { IfOk result (λ both. both ≡ text ++ more.now) }
{
    let mut bytes = text.into_vec();
    bytes.extend_from_slice(more.as_bytes())?;
    Ok(Text::from(bytes))
}

/// The bytes of a text.
pub(crate) fn bytes_of(text: &Text) -> &[u8]
    ensures value { result.now ≡ text.now }
    ensures bytes { IsText text.now }
{
    as_text(text.as_bytes())
}

/// Bytes are a text.
pub(crate) fn as_text(bytes: &[u8]) -> &[u8]
    ensures value { result.now ≡ bytes.now }
    ensures bytes { IsText bytes.now }
{
    bytes
}
