ghost use Rattle.std.specs.Prelude.{◌≡◌, [], IfOk};
ghost use Rattle.std.specs.Option.{option_map};
ghost use Rattle.std.specs.Prelude.{option_and_then};
ghost use Rattle.serde_json.specs.Find.{as_bool, as_object, as_str};
ghost use Rattle.serde_json.specs.View.{items_view, view};
ghost use Rattle.hc_regset.specs.Forms.{form_of, found, only};
ghost use Rattle.hc_stated.specs.Shapes.{all_of, any_of, difference_of, every_where, members_in, set_keyed, set_of};
ghost use Rattle.hc_stated.specs.Shapes.{set_within, sets_behind, sole};
ghost use Rattle.hc_stated.specs.Views.{forms_in, keyed_view};

use hc_base::{Boxed, List, NoMemory, Text};
use hc_scope::SetForm;
use serde_json::Value;
use std::alloc::Global;

/// So many sets may stand within each other, the outermost and the innermost counted.
pub const MOST_NESTED: u32 = 32;

/// The set that a value is; none where it is none.
#[tactic(auto, unfolding(crate::specs::Shapes::set_of))]
pub(crate) fn set_of(alloc: Global, value: &Value) -> Result<Option<SetForm>, NoMemory>
    ensures { IfOk result (λ set. option_map form_of set ≡ set_of (view value.now)) }
{
    set_within(alloc, value, MOST_NESTED)
}

// In which so many sets stand within each other at most.
#[cycle(shape)]
fn set_within(alloc: Global, value: &Value, room: u32) -> Result<Option<SetForm>, NoMemory>
    ensures { IfOk result (λ set. option_map form_of set ≡ set_within room (view value.now)) }
{
    if room == 0 {
        return Ok(None);
    }
    match sole(value) {
        Some(Keyed { key, inner }) => set_keyed(alloc, key, inner, room - 1),
        None => Ok(None),
    }
}

// A set by its key; so many may stand within each other in it.
#[cycle(shape)]
fn set_keyed(
    alloc: Global,
    key: &str,
    inner: &Value,
    room: u32,
) -> Result<Option<SetForm>, NoMemory>
    ensures { IfOk result (λ set. option_map form_of set ≡ set_keyed (set_within room) key.now (view inner.now)) }
{
    match key {
        "any" => Ok(every_where(inner)),
        "literal" => literal(alloc, inner),
        "pattern" => pattern(alloc, inner),
        "and" => Ok(all_of(members_in(alloc, inner, room)?)),
        "or" => Ok(any_of(members_in(alloc, inner, room)?)),
        "minus" => difference_of(alloc, members_in(alloc, inner, room)?),
        _ => Ok(None),
    }
}

// The sets of an array, where each is one.
#[cycle(shape)]
fn members_in(alloc: Global, inner: &Value, room: u32) -> Result<Option<Vec<SetForm>>, NoMemory>
    ensures { IfOk result (λ sets. forms_in sets ≡ members_in (set_within room) (view inner.now)) }
{
    match inner.as_array() {
        Some(values) => sets_of(alloc, values, room),
        None => Ok(None),
    }
}

#[cycle(shape)]
fn sets_of(alloc: Global, values: &[Value], room: u32) -> Result<Option<Vec<SetForm>>, NoMemory>
    ensures { IfOk result (λ sets. forms_in sets ≡ sets_behind (set_within room) [] (items_view values.now)) }
{
    let mut sets = Vec::new(alloc);
    for value in values {
        match set_within(alloc, value, room)? {
            Some(set) => sets.push(set)?,
            None => return Ok(None),
        }
    }
    Ok(Some(sets))
}

// ---- the parts of a set

/// The only member of an object.
#[derive(Clone, Copy)]
struct Keyed<'v> {
    key: &'v str,
    inner: &'v Value,
}

fn sole(value: &Value) -> Option<Keyed<'_>>
    ensures { option_map keyed_view result ≡ option_and_then sole (as_object (view value.now)) }
{
    let mut members = value.as_object()?.iter();
    let (key, inner) = members.next()?;
    match members.next() {
        Some(_) => None,
        None => Some(Keyed {
            key: key.as_str(),
            inner,
        }),
    }
}

fn every_where(inner: &Value) -> Option<SetForm>
    ensures { option_map form_of result ≡ option_and_then every_where (as_bool (view inner.now)) }
{
    if inner.as_bool()? {
        Some(SetForm::Any)
    } else {
        None
    }
}

fn literal(alloc: Global, inner: &Value) -> Result<Option<SetForm>, NoMemory>
    ensures { IfOk result (λ set. option_map form_of set ≡ option_map only (as_str (view inner.now))) }
{
    match inner.as_str() {
        Some(text) => Ok(Some(SetForm::Literal(Text::copy_of(alloc, text.as_bytes())?))),
        None => Ok(None),
    }
}

fn pattern(alloc: Global, inner: &Value) -> Result<Option<SetForm>, NoMemory>
    ensures { IfOk result (λ set. option_map form_of set ≡ option_map found (as_str (view inner.now))) }
{
    match inner.as_str() {
        Some(text) => Ok(Some(SetForm::Pattern(Text::copy_of(alloc, text.as_bytes())?))),
        None => Ok(None),
    }
}

fn all_of(sets: Option<Vec<SetForm>>) -> Option<SetForm>
    ensures { option_map form_of result ≡ option_and_then all_of (forms_in sets) }
{
    let sets = sets?;
    if sets.is_empty() {
        None
    } else {
        Some(SetForm::And(List::from(sets)))
    }
}

fn any_of(sets: Option<Vec<SetForm>>) -> Option<SetForm>
    ensures { option_map form_of result ≡ option_and_then any_of (forms_in sets) }
{
    let sets = sets?;
    if sets.is_empty() {
        None
    } else {
        Some(SetForm::Or(List::from(sets)))
    }
}

fn difference_of(alloc: Global, sets: Option<Vec<SetForm>>) -> Result<Option<SetForm>, NoMemory>
    ensures { IfOk result (λ set. option_map form_of set ≡ option_and_then difference_of (forms_in sets)) }
{
    let Some(mut sets) = sets else {
        return Ok(None);
    };
    if sets.len() != 2 {
        return Ok(None);
    }
    let (Some(other), Some(one)) = (sets.pop(), sets.pop()) else {
        return Ok(None);
    };
    Ok(Some(SetForm::Minus(Boxed::new(alloc, one)?, Boxed::new(alloc, other)?)))
}
