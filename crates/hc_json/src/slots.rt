ghost use Rattle.std.specs.Prelude.{◌≡◌, [], IfOk, OnOk, option_map};
ghost use Rattle.serde_json.specs.View.{members_view, view};
ghost use Rattle.hc_json.specs.Cells.{are_slots, behind, is_new, plain_slot, slot_named, slots_in};
ghost use Rattle.hc_json.specs.Cells.{variable_or_header, with_name};
ghost use Rattle.hc_json.specs.CommandView.{slot_view, slots_field_view};

use crate::fields::BadField;
use crate::headers::lower_name;
use hc_base::{NoMemory, Text};
use serde_json::{Map, Value};
use std::alloc::Global;
use std::collections::BTreeSet;

/// What a state holds a text for, as it is written.
#[derive(Clone, Copy)]
pub enum SlotForm<'v> {
    Origin,
    Path,
    Query,
    Text,
    Name,
    Info,
    End,
    Method,
    Request,
    /// The variable of this name.
    Env(&'v [u8]),
    /// The header of this name.
    Header(&'v [u8]),
}

/// The slot of a name; none where no slot has it.
pub fn slot_named(label: &str) -> Option<SlotForm<'_>>
    ensures { option_map slot_view result ≡ slot_named label.now }
{
    match plain_slot(label) {
        Some(slot) => Some(slot),
        None => variable_or_header(label.as_bytes()),
    }
}

// One that has no name of its own.
fn plain_slot(label: &str) -> Option<SlotForm<'static>>
    ensures { option_map slot_view result ≡ plain_slot label.now }
{
    match label {
        "origin" => Some(SlotForm::Origin),
        "path" => Some(SlotForm::Path),
        "query" => Some(SlotForm::Query),
        "text" => Some(SlotForm::Text),
        "name" => Some(SlotForm::Name),
        "info" => Some(SlotForm::Info),
        "end" => Some(SlotForm::End),
        "method" => Some(SlotForm::Method),
        "request" => Some(SlotForm::Request),
        _ => None,
    }
}

// The slot of a variable or a header.
fn variable_or_header(label: &[u8]) -> Option<SlotForm<'_>>
    ensures { option_map slot_view result ≡ variable_or_header label.now }
{
    match behind(b"env:", label) {
        Some(name) => Some(SlotForm::Env(name)),
        None => Some(SlotForm::Header(behind(b"header:", label)?)),
    }
}

// What stands behind a front, where a text begins with it.
fn behind<'v>(front: &[u8], label: &'v [u8]) -> Option<&'v [u8]>
    ensures { option_map (λ rest. rest.now) result ≡ behind front.now label.now }
{
    label.strip_prefix(front)
}

/// The slots of a cell.
pub(crate) fn slots_in(
    alloc: Global,
    value: &Value,
) -> Result<Result<&Map<String, Value>, BadField<'_>>, NoMemory>
    ensures { IfOk result (λ read. slots_field_view read ≡ slots_in (view value.now)) }
{
    let Some(members) = value.get("slots").and_then(Value::as_object) else {
        return Ok(Err(BadField("slots")));
    };
    if are_slots(alloc, members)? {
        Ok(Ok(members))
    } else {
        Ok(Err(BadField("slots")))
    }
}

// Each member is a slot's, and no two names of headers are equal without case.
fn are_slots(alloc: Global, members: &Map<String, Value>) -> Result<bool, NoMemory>
    ensures { IfOk result (λ are. are ≡ are_slots [] (members_view members.now.entries)) }
{
    let mut names = BTreeSet::new(alloc);
    for (key, _) in members.iter() {
        if !put_name(alloc, &mut names, slot_named(key.as_str()))? {
            return Ok(false);
        }
    }
    Ok(true)
}

// Whether it is a slot, and none of the headers of these names. A header's own is among them then.
fn put_name(
    alloc: Global,
    names: &mut BTreeSet<Text>,
    slot: Option<SlotForm<'_>>,
) -> Result<bool, NoMemory>
    ensures new { IfOk result (λ new. new ≡ is_new names.old.keys (option_map slot_view slot.entry)) }
    ensures names { OnOk result (names.new.keys ≡ with_name names.old.keys (option_map slot_view slot.entry)) }
{
    match slot {
        None => Ok(false),
        Some(SlotForm::Header(name)) => Ok(names.insert(lower_name(alloc, name)?)?),
        Some(_) => Ok(true),
    }
}
