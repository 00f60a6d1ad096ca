//! The parts of a text in an expression (Apache manual, "Expressions in Apache HTTP Server").
ghost use Rattle.std.specs.Prelude.{◌≡◌, [], IfOk};
ghost use Rattle.hc_abs_rw.specs.Elements.{seen_alone};
ghost use Rattle.hc_abs_view.specs.Seen.{ArePiecesOf, IsItemOf, IsPieceOf};
ghost use Rattle.hc_abs_view.specs.Viewing.{query_item, scene_of};
ghost use Rattle.hc_abs_pass.specs.Views.{named_item, view_item};
ghost use Rattle.hc_plan.specs.declared.hand.Element.TheVariants as element;
ghost use Rattle.hc_template.specs.SeenView.{seen_of};
ghost use Rattle.hc_template.specs.Variables.{value_of};

use crate::scene::{Query, Scene};
use hc_abs_rw::{client_element, header_element};
use hc_base::{NoMemory, Text};
use hc_cells::Slot;
use hc_model::{Caller, Piece, Var};
use hc_plan::{Element, every_text};
use hc_table::Variable;
use hc_template::Values;
use std::alloc::Global;

/// The parts of a template.
pub(crate) fn elements_of(
    alloc: Global,
    scene: Scene<'_>,
    pieces: &[Piece],
) -> Result<Vec<Element>, NoMemory>
    ensures { IfOk result (λ made. ArePiecesOf scene.entry pieces.now made.items) }
{
    let mut elements = Vec::new(alloc);
    for piece in pieces {
        elements.push(element(alloc, scene, piece)?)?;
    }
    Ok(elements)
}

/// A part. No group is set, and no look-up stands in an expression.
fn element(alloc: Global, scene: Scene<'_>, piece: &Piece) -> Result<Element, NoMemory>
    ensures { IfOk result (IsPieceOf scene.entry piece.now) }
{
    match piece {
        Piece::Bytes(bytes) => Ok(Element::Known(bytes.clone()?)),
        Piece::Group(_) => Ok(nothing(alloc)),
        Piece::CondGroup(_) => Ok(nothing(alloc)),
        Piece::Var(var) => variable(alloc, scene, var),
        Piece::Lookup { .. } => Ok(nothing(alloc)),
    }
}

fn nothing(alloc: Global) -> Element
    ensures { result ≡ element.Known [] }
{
    Element::Known(Text::new(alloc))
}

fn variable(alloc: Global, scene: Scene<'_>, var: &Var) -> Result<Element, NoMemory>
    ensures { IfOk result (IsItemOf scene.entry (view_item (scene_of scene.entry) var.now)) }
{
    match var {
        Var::Header(name) => header_element(alloc, name.as_bytes()),
        Var::Env(_) => Ok(nothing(alloc)),
        Var::Named(named) => named_element(alloc, scene, *named),
    }
}

fn named_element(alloc: Global, scene: Scene<'_>, variable: Variable) -> Result<Element, NoMemory>
    ensures { IfOk result (IsItemOf scene.entry (named_item (scene_of scene.entry) variable)) }
{
    match variable {
        Variable::RequestUri => Ok(open(Slot::Path)),
        Variable::RequestFilename => Ok(open(Slot::Name)),
        Variable::QueryString => query_element(alloc, scene),
        Variable::RequestMethod => Ok(open(Slot::Method)),
        Variable::HttpUserAgent => header_element(alloc, b"User-Agent"),
        Variable::HttpReferer => header_element(alloc, b"Referer"),
        Variable::RemoteAddr => client_element(alloc, scene.client),
        _ => {
            let text = shared(alloc, scene, variable)?;
            Ok(Element::Known(text))
        }
    }
}

/// The value of a slot.
fn open(slot: Slot) -> Element
    ensures { result ≡ element.Open slot 0 }
{
    Element::Open(slot, 0)
}

fn query_element(alloc: Global, scene: Scene<'_>) -> Result<Element, NoMemory>
    ensures { IfOk result (IsItemOf scene.entry (query_item scene.entry.query)) }
{
    match scene.query {
        Query::Own => Ok(open(Slot::Query)),
        Query::Any => {
            let every = every_text(alloc)?;
            Ok(Element::Free(every))
        }
    }
}

/// The value of a variable that all requests have in common.
fn shared(alloc: Global, scene: Scene<'_>, variable: Variable) -> Result<Text, NoMemory>
    ensures { IfOk result (λ text. text ≡ value_of (seen_alone scene.entry.caller.now) variable) }
{
    let mut text = Vec::new(alloc);
    values_of(scene.caller).push_value(&mut text, variable)?;
    Ok(Text::from(text))
}

fn values_of(caller: &Caller) -> Values<'_>
    ensures { seen_of result ≡ seen_alone caller.now }
{
    Values {
        caller,
        path: &[],
        query: &[],
        name: &[],
    }
}
