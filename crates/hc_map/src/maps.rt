ghost use Rattle.std.specs.Prelude.{◌≡◌, map, option_map, IfOk};
ghost use Rattle.std.specs.Char.{to_ascii_lowercase, to_ascii_uppercase};
ghost use Rattle.std.specs.Option.{option_and_then};
ghost use Rattle.hc_map.specs.Maps.{file_of, file_of_kind, look_up, map_named, text_behind, value_by, value_in};

use crate::lines::value_in;
use hc_base::{NoMemory, Text};
use hc_model::{Map, MapKind, Texts};
use std::alloc::Global;

/// What the map of a name gives for a key; none where there is no such map, and where the key has no value.
/// `NoMemory` where memory is refused.
pub fn look_up<W: Texts>(
    alloc: Global,
    maps: &[Map],
    world: &W,
    name: &[u8],
    key: &[u8],
) -> Result<Option<Text>, NoMemory>
    ensures { IfOk result (λ value. value ≡ look_up maps.now (W.texts world.now) name.now key.now) }
{
    match map_named(maps, name) {
        Some(map) => value_by(alloc, &map.kind, world, key),
        None => Ok(None),
    }
}

/// The path of the text of a map; none where it has none, or there is no such map.
pub fn file_of<'m>(maps: &'m [Map], name: &[u8]) -> Option<&'m [u8]>
    ensures { option_map (λ path. path.now) result ≡ file_of maps.now name.now }
{
    match &map_named(maps, name)?.kind {
        MapKind::File(path) => Some(path.as_bytes()),
        MapKind::Upper => None,
        MapKind::Lower => None,
    }
}

// The first map of a name.
pub(crate) fn map_named<'m>(maps: &'m [Map], name: &[u8]) -> Option<&'m Map>
    ensures { option_map (λ map. map.now) result ≡ map_named maps.now name.now }
{
    maps.iter().find(|map| map.name.as_bytes() == name)
}

fn value_by<W: Texts>(
    alloc: Global,
    kind: &MapKind,
    world: &W,
    key: &[u8],
) -> Result<Option<Text>, NoMemory>
    ensures { IfOk result (λ value.
        value ≡ value_by kind.now key.now (text_behind (W.texts world.now) (file_of_kind kind.now))) }
{
    match kind {
        MapKind::File(path) => value_at(alloc, world, path.as_bytes(), key),
        MapKind::Upper => Ok(Some(upper(alloc, key)?)),
        MapKind::Lower => Ok(Some(lower(alloc, key)?)),
    }
}

// By the text at a path.
fn value_at<W: Texts>(
    alloc: Global,
    world: &W,
    path: &[u8],
    key: &[u8],
) -> Result<Option<Text>, NoMemory>
    ensures { IfOk result (λ value. value ≡ option_and_then (value_in key.now) (W.texts world.now path.now)) }
{
    let Some(text) = world.text(path) else {
        return Ok(None);
    };
    match value_in(text.as_bytes(), key) {
        Some(value) => Ok(Some(Text::copy_of(alloc, value)?)),
        None => Ok(None),
    }
}

// `int:toupper`.
fn upper(alloc: Global, key: &[u8]) -> Result<Text, NoMemory>
    ensures { IfOk result (λ text. text ≡ map to_ascii_uppercase key.now) }
{
    let bytes: Vec<u8> = key
        .iter()
        .map(|byte| byte.to_ascii_uppercase())
        .collect(alloc)?;
    Ok(Text::from(bytes))
}

// `int:tolower`.
fn lower(alloc: Global, key: &[u8]) -> Result<Text, NoMemory>
    ensures { IfOk result (λ text. text ≡ map to_ascii_lowercase key.now) }
{
    let bytes: Vec<u8> = key
        .iter()
        .map(|byte| byte.to_ascii_lowercase())
        .collect(alloc)?;
    Ok(Text::from(bytes))
}
