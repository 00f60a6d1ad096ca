//! The parts of templates over what is known (Apache manual, mod_rewrite, RewriteCond).
ghost use Rattle.std.specs.Prelude.{◌≡◌, [], ◌++◌, IfOk, OnOk, option_map, unwrap_or};
ghost use Rattle.hc_abs_rw.specs.Elements.{AreElementsOf, AreExpanded, IsElementOf, IsExpanded, IsGroupOf, IsItemOf};
ghost use Rattle.hc_abs_rw.specs.Elements.{seen_alone, shared_value};
ghost use Rattle.hc_abs_rw.specs.Known.{client_given, frame_at};
ghost use Rattle.hc_abs_rw.specs.Templates.{header_slot, named_item, variable_item};
ghost use Rattle.hc_plan.specs.Hands.{part_of};
ghost use Rattle.hc_plan.specs.States.{IsGiven};
ghost use Rattle.hc_plan.specs.declared.hand.Element.TheVariants as element;
ghost use Rattle.hc_template.specs.SeenView.{seen_of};

use crate::frame::{Frame, Surroundings};
use crate::known::{Held, Known};
use crate::looks::look_up;
use hc_addr::Addr;
use hc_base::{NoMemory, Text};
use hc_cells::Slot;
use hc_model::{Caller, Piece, Var};
use hc_plan::{Element, every_text};
use hc_table::Variable;
use hc_template::{Values, push_address};
use std::alloc::Global;

/// How many groups a template can name: `$0` to `$9`, and `%0` to `%9`.
const GROUPS: u8 = 10;

/// The parts of a template.
pub(crate) fn expanded<S: Surroundings>(
    alloc: Global,
    frame: &Frame<'_, S>,
    known: &Known<'_>,
    pieces: &[Piece],
) -> Result<Vec<Element>, NoMemory>
    ensures { IfOk result (λ made. AreExpanded (frame_at S.kind S.values frame.now) frame.now.client known.now
        pieces.now made.items) }
{
    let mut elements = Vec::new(alloc);
    for piece in pieces {
        elements.push(element(alloc, frame, known, piece)?)?;
    }
    Ok(elements)
}

fn element<S: Surroundings>(
    alloc: Global,
    frame: &Frame<'_, S>,
    known: &Known<'_>,
    piece: &Piece,
) -> Result<Element, NoMemory>
    ensures { IfOk result (IsExpanded (frame_at S.kind S.values frame.now) frame.now.client known.now piece.now) }
{
    match piece {
        Piece::Lookup { map, key, fallback } => {
            look_up(alloc, frame, known, map.get(), key.get(), fallback.get())
        }
        _ => plain_element(alloc, frame, known, piece),
    }
}

/// The parts of a template without look-ups.
pub(crate) fn plain_elements<S: Surroundings>(
    alloc: Global,
    frame: &Frame<'_, S>,
    known: &Known<'_>,
    pieces: &[Piece],
) -> Result<Vec<Element>, NoMemory>
    ensures { IfOk result (λ made. AreElementsOf (frame_at S.kind S.values frame.now) frame.now.client known.now
        pieces.now made.items) }
{
    let mut elements = Vec::new(alloc);
    for piece in pieces {
        elements.push(plain_element(alloc, frame, known, piece)?)?;
    }
    Ok(elements)
}

/// A part of a template; of a look-up nothing.
fn plain_element<S: Surroundings>(
    alloc: Global,
    frame: &Frame<'_, S>,
    known: &Known<'_>,
    piece: &Piece,
) -> Result<Element, NoMemory>
    ensures { IfOk result (IsElementOf (frame_at S.kind S.values frame.now) frame.now.client known.now piece.now) }
{
    match piece {
        Piece::Bytes(bytes) => Ok(Element::Known(bytes.clone()?)),
        Piece::Group(number) => group_element(alloc, &known.groups, *number),
        Piece::CondGroup(number) => group_element(alloc, &known.cond_groups, *number),
        Piece::Var(var) => variable(alloc, frame, var),
        Piece::Lookup { .. } => Ok(Element::Known(Text::new(alloc))),
    }
}

/// What a group holds.
pub fn group_element(alloc: Global, held: &Held<'_>, number: u8) -> Result<Element, NoMemory>
    ensures { IfOk result (IsGroupOf held.now number) }
{
    match held {
        Some(found) if number < GROUPS => {
            let texts = found.group(alloc, number)?;
            Ok(Element::Free(texts))
        }
        _ => Ok(Element::Known(Text::new(alloc))),
    }
}

fn variable<S: Surroundings>(
    alloc: Global,
    frame: &Frame<'_, S>,
    var: &Var,
) -> Result<Element, NoMemory>
    ensures { IfOk result (IsItemOf frame.now.client (variable_item (frame_at S.kind S.values frame.now) var.now)) }
{
    match var {
        Var::Header(name) if name.as_bytes().eq_ignore_ascii_case(b"Host") => {
            let host = shared(alloc, frame, Variable::HttpHost)?;
            Ok(Element::Known(host))
        }
        Var::Header(name) => header_element(alloc, name.as_bytes()),
        Var::Env(name) => Ok(open(Slot::Env(name.clone()?))),
        Var::Named(named) => named_element(alloc, frame, *named),
    }
}

fn named_element<S: Surroundings>(
    alloc: Global,
    frame: &Frame<'_, S>,
    variable: Variable,
) -> Result<Element, NoMemory>
    ensures { IfOk result (IsItemOf frame.now.client (named_item (frame_at S.kind S.values frame.now) variable)) }
{
    match variable {
        Variable::ScriptFilename | Variable::RequestFilename => Ok(open(Slot::Text)),
        Variable::PathInfo => Ok(open(Slot::Info)),
        Variable::TheRequest => Ok(open(Slot::Request)),
        Variable::RequestUri => Ok(open(Slot::Path)),
        Variable::QueryString => Ok(open(Slot::Query)),
        Variable::RequestMethod => Ok(open(Slot::Method)),
        Variable::HttpCookie => header_element(alloc, b"Cookie"),
        Variable::HttpAccept => header_element(alloc, b"Accept"),
        Variable::HttpUserAgent => header_element(alloc, b"User-Agent"),
        Variable::HttpReferer => header_element(alloc, b"Referer"),
        Variable::RemoteAddr => client_element(alloc, frame.client),
        _ => {
            let text = shared(alloc, frame, variable)?;
            Ok(Element::Known(text))
        }
    }
}

/// The value of a slot.
fn open(slot: Slot) -> Element
    ensures { result ≡ element.Open slot 0 }
{
    Element::Open(slot, 0)
}

/// The value of a header.
pub fn header_element(alloc: Global, name: &[u8]) -> Result<Element, NoMemory>
    ensures { IfOk result (λ made. made ≡ element.Open (header_slot name.now) 0) }
{
    let slot = Slot::header(alloc, name)?;
    Ok(open(slot))
}

/// The client's address as it is printed: where it may be any, any text.
pub fn client_element(alloc: Global, client: Option<Addr>) -> Result<Element, NoMemory>
    ensures { IfOk result (λ made. IsGiven (client_given client) (part_of made)) }
{
    match client {
        Some(address) => {
            let mut text = Vec::new(alloc);
            push_address(&mut text, address)?;
            Ok(Element::Known(Text::from(text)))
        }
        None => {
            let every = every_text(alloc)?;
            Ok(Element::Free(every))
        }
    }
}

/// The value of a variable that all requests have in common.
fn shared<S>(alloc: Global, frame: &Frame<'_, S>, variable: Variable) -> Result<Text, NoMemory>
    ensures { IfOk result (λ text. text
        ≡ shared_value frame.now.tests.now (option_map (λ root. root.now) frame.now.root) variable) }
{
    let mut text = Vec::new(alloc);
    match variable {
        Variable::DocumentRoot => push_root(&mut text, frame.root)?,
        Variable::ServerAddr => push_address(&mut text, frame.tests.caller().request.server)?,
        _ => values_of(frame.tests.caller()).push_value(&mut text, variable)?,
    }
    Ok(Text::from(text))
}

fn push_root(out: &mut Vec<u8>, root: Option<&Text>) -> Result<(), NoMemory>
    ensures { OnOk result (out.new.items
        ≡ out.old.items ++ unwrap_or (option_map (λ root. root.now) root.entry) []) }
{
    match root {
        Some(root) => out.extend_from_slice(root.as_bytes()),
        None => Ok(()),
    }
}

fn values_of(caller: &Caller) -> Values<'_>
    ensures { seen_of result ≡ seen_alone caller.now }
{
    Values {
        caller,
        path: &[],
        query: &[],
        name: &[],
    }
}
