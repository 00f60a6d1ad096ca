ghost use Rattle.std.specs.Prelude.{◌≡◌, ◌∷◌, [], IfOk, map};
ghost use Rattle.std.specs.Option.{option_map};
ghost use Rattle.serde_json.specs.Data.{boolean};
ghost use Rattle.serde_json.specs.View.{view};
ghost use Rattle.hc_json.specs.Reply.{reply_line, trailed, trailed_data};
ghost use Rattle.hc_json.specs.Trail.{authorized_name, event_data, kind_name, named, place_of, placed};
ghost use Rattle.hc_json.specs.Trail.{read_data, reads_data, source_at, sourced, spot_of, text_at};
ghost use Rattle.hc_json.specs.Trail.{text_data, trail_data, trailed_of};

use crate::reply::{outcome_value, print_value, shown};
use hc_base::{NoMemory, Place, Text, spanned};
use hc_model::{Authorized, Event, Kind, Outcome, Read, Spot};
use hc_world::World;
use serde_json::{Value, json};
use std::alloc::Global;

/// What came of a request: the outcome, how many events there were, what was looked at, and the first
/// events.
#[derive(Clone, Copy)]
pub struct Trail<'a> {
    pub outcome: &'a Outcome,
    pub events: u64,
    pub reads: &'a [Read],
    pub trail: &'a [Event],
}

/// The line of an answer with its trail: compact JSON, and LF. The sources of events are of this world.
pub fn print_trailed(alloc: Global, world: &World, trail: Trail<'_>) -> Result<Text, NoMemory>
    ensures { IfOk result (λ line. line ≡ reply_line (trailed (trailed_of world.now.files
        trail.entry.outcome.now trail.entry.events trail.entry.reads.now trail.entry.trail.now))) }
{
    print_value(alloc, &trailed_value(alloc, world, trail)?)
}

fn trailed_value(alloc: Global, world: &World, trail: Trail<'_>) -> Result<Value, NoMemory>
    ensures { IfOk result (λ value. view value ≡ trailed_data (trailed_of world.now.files
        trail.entry.outcome.now trail.entry.events trail.entry.reads.now trail.entry.trail.now)) }
{
    let outcome = outcome_value(alloc, trail.outcome)?;
    let reads = reads_value(alloc, trail.reads)?;
    let events = trail_value(alloc, world, trail.trail)?;
    json!(in alloc; {
        "events": trail.events,
        "outcome": outcome,
        "reads": reads,
        "trail": events
    })
}

fn reads_value(alloc: Global, reads: &[Read]) -> Result<Value, NoMemory>
    ensures { IfOk result (λ value. view value ≡ reads_data reads.now) }
{
    let mut values = Vec::new(alloc);
    for read in reads {
        values.push(read_value(alloc, read)?)?;
    }
    Ok(Value::from(values))
}

fn read_value(alloc: Global, read: &Read) -> Result<Value, NoMemory>
    ensures { IfOk result (λ value. view value ≡ read_data read.now) }
{
    match read {
        Read::KindOf(path) => named_text(alloc, "kind", path),
        Read::TextOf(path) => named_text(alloc, "text", path),
        Read::NamesOf(path) => named_text(alloc, "names", path),
    }
}

fn trail_value(alloc: Global, world: &World, events: &[Event]) -> Result<Value, NoMemory>
    ensures { IfOk result (λ value. view value ≡ trail_data (map (sourced world.now.files) events.now)) }
{
    let mut values = Vec::new(alloc);
    for event in events {
        values.push(event_value(alloc, event, source_at(world, spot_of(event)))?)?;
    }
    Ok(Value::from(values))
}

// ---- sources

// The line that an event tells of.
fn spot_of(event: &Event) -> Option<&Spot>
    ensures { option_map (λ spot. spot.now) result ≡ spot_of event.now }
{
    match event {
        Event::Cond { spot, .. } => Some(spot),
        Event::Rule { spot, .. } => Some(spot),
        Event::Redirect { spot } => Some(spot),
        Event::Map { alias, .. } => alias.as_ref(),
        Event::Section { spot } => Some(spot),
        _ => None,
    }
}

// What is written at a spot.
fn source_at<'w>(world: &'w World, spot: Option<&Spot>) -> &'w [u8]
    ensures { result.now ≡ source_at world.now.files (option_map (λ spot. spot.now) spot.entry) }
{
    match spot {
        Some(spot) if spot.place.line != 0 => {
            spanned(text_at(world, spot.place.file.as_bytes()), Some(spot.span))
        }
        _ => &[],
    }
}

fn text_at<'w>(world: &'w World, file: &[u8]) -> &'w [u8]
    ensures { result.now ≡ text_at world.now.files file.now }
{
    match world.text(file) {
        Some(text) => text.as_bytes(),
        None => &[],
    }
}

// ---- events

fn event_value(alloc: Global, event: &Event, source: &[u8]) -> Result<Value, NoMemory>
    ensures { IfOk result (λ value. view value ≡ event_data event.now source.now) }
{
    match event {
        Event::Host { place } => host_value(alloc, place),
        Event::Pass {
            number,
            path,
            query,
        } => pass_value(alloc, *number, path, query),
        Event::Cond { spot, held } => test_value(alloc, "cond", &spot.place, *held, source),
        Event::Rule { spot, matched } => test_value(alloc, "rule", &spot.place, *matched, source),
        Event::Text { text, query } => text_value(alloc, text, query),
        Event::Round { number } => json!(in alloc; ["round", *number]),
        Event::Redirect { spot } => line_value(alloc, "redirect", &spot.place, source),
        Event::Map { alias, name } => map_value(alloc, alias.as_ref(), name, source),
        Event::Walk { name, info, kind } => walk_value(alloc, name, info, *kind),
        Event::Section { spot } => line_value(alloc, "section", &spot.place, source),
        Event::Auth { value } => auth_value(alloc, *value),
        Event::Restart { path } => named_text(alloc, "restart", path),
    }
}

fn named_text(alloc: Global, name: &str, text: &Text) -> Result<Value, NoMemory>
    ensures { IfOk result (λ value. view value ≡ named name.now (text_data text.now ∷ [])) }
{
    let text = shown(alloc, text.as_bytes())?;
    json!(in alloc; [name, text])
}

fn host_value(alloc: Global, place: &Place) -> Result<Value, NoMemory>
    ensures { IfOk result (λ value. view value ≡ event_data (Event.Host place.now) []) }
{
    let file = shown(alloc, place.file.as_bytes())?;
    json!(in alloc; ["host", file, place.line])
}

fn pass_value(alloc: Global, number: u32, path: &Text, query: &Text) -> Result<Value, NoMemory>
    ensures { IfOk result (λ value. view value ≡ event_data (Event.Pass number path.now query.now) []) }
{
    let path = shown(alloc, path.as_bytes())?;
    let query = shown(alloc, query.as_bytes())?;
    json!(in alloc; ["pass", number, path, query])
}

// A test on a line.
fn test_value(
    alloc: Global,
    name: &str,
    place: &Place,
    held: bool,
    source: &[u8],
) -> Result<Value, NoMemory>
    ensures { IfOk result
        (λ value. view value ≡ named name.now (placed place.now (boolean held ∷ text_data source.now ∷ []))) }
{
    let file = shown(alloc, place.file.as_bytes())?;
    let source = shown(alloc, source)?;
    json!(in alloc; [name, file, place.line, held, source])
}

fn text_value(alloc: Global, text: &Text, query: &Text) -> Result<Value, NoMemory>
    ensures { IfOk result (λ value. view value ≡ event_data (Event.Text text.now query.now) []) }
{
    let text = shown(alloc, text.as_bytes())?;
    let query = shown(alloc, query.as_bytes())?;
    json!(in alloc; ["text", text, query])
}

// A line that is in force.
fn line_value(alloc: Global, name: &str, place: &Place, source: &[u8]) -> Result<Value, NoMemory>
    ensures { IfOk result (λ value. view value ≡ named name.now (placed place.now (text_data source.now ∷ []))) }
{
    let file = shown(alloc, place.file.as_bytes())?;
    let source = shown(alloc, source)?;
    json!(in alloc; [name, file, place.line, source])
}

fn map_value(
    alloc: Global,
    alias: Option<&Spot>,
    name: &Text,
    source: &[u8],
) -> Result<Value, NoMemory>
    ensures { IfOk result (λ value. view value
        ≡ event_data (Event.Map (option_map (λ spot. spot.now) alias.entry) name.now) source.now) }
{
    let file = shown(alloc, file_of(alias))?;
    let line = line_of(alias);
    let name = shown(alloc, name.as_bytes())?;
    let source = shown(alloc, source)?;
    json!(in alloc; ["map", file, line, name, source])
}

fn file_of(alias: Option<&Spot>) -> &[u8]
    ensures { result.now ≡ (place_of (option_map (λ spot. spot.now) alias.entry)).file }
{
    match alias {
        Some(spot) => spot.place.file.as_bytes(),
        None => &[],
    }
}

fn line_of(alias: Option<&Spot>) -> u32
    ensures { result ≡ (place_of (option_map (λ spot. spot.now) alias.entry)).line }
{
    match alias {
        Some(spot) => spot.place.line,
        None => 0,
    }
}

fn walk_value(alloc: Global, name: &Text, info: &Text, kind: Kind) -> Result<Value, NoMemory>
    ensures { IfOk result (λ value. view value ≡ event_data (Event.Walk name.now info.now kind) []) }
{
    let name = shown(alloc, name.as_bytes())?;
    let info = shown(alloc, info.as_bytes())?;
    let kind = kind_name(kind);
    json!(in alloc; ["walk", name, info, kind])
}

fn kind_name(kind: Kind) -> &'static str
    ensures { result.now ≡ kind_name kind }
{
    match kind {
        Kind::Absent => "absent",
        Kind::Dir => "dir",
        Kind::File => "file",
    }
}

fn auth_value(alloc: Global, value: Authorized) -> Result<Value, NoMemory>
    ensures { IfOk result (λ json. view json ≡ event_data (Event.Auth value) []) }
{
    let name = authorized_name(value);
    json!(in alloc; ["auth", name])
}

fn authorized_name(value: Authorized) -> &'static str
    ensures { result.now ≡ authorized_name value }
{
    match value {
        Authorized::Granted => "granted",
        Authorized::Denied => "denied",
        Authorized::Neutral => "neutral",
        Authorized::Unasked => "none",
    }
}
