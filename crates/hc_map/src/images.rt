ghost use Rattle.std.specs.Prelude.{◌≡◌, ℕ, ◌↔◌, IfOk, List, OnOk, Option, Some, map, true};
ghost use Rattle.std.specs.Option.{option_and_then};
ghost use Rattle.hc_dfa.specs.Automata.{accepts};
ghost use Rattle.hc_map.specs.Gathered.{AreGathered, HasOther, IsTableOf, changed, with_row};
ghost use Rattle.hc_map.specs.Images.{IsImageOf};
ghost use Rattle.hc_map.specs.Maps.{file_of_kind, look_up, text_behind, value_by, value_in};

use crate::lines::row_in;
use crate::maps::map_named;
use hc_base::{NoMemory, Text};
use hc_dfa::{Dfa, Keep, byte_image, least, listed, product};
use hc_model::{Map, MapKind, Texts};
use indexmap::IndexSet;
use std::alloc::Global;

/// What a map gives for the keys of a set.
#[derive(Drop)]
pub struct ImageSet {
    /// Exactly the values of the keys of the set.
    pub values: Dfa,
    /// Whether some key of the set has none.
    pub missing: bool,
}

/// The values that the keys of a set have, and whether some key has none.
pub fn image<W: Texts>(
    alloc: Global,
    maps: &[Map],
    world: &W,
    name: &[u8],
    keys: &Dfa,
) -> Result<ImageSet, NoMemory>
    ensures { IfOk result (IsImageOf (look_up maps.now (W.texts world.now) name.now) (accepts keys.now)) }
{
    match map_named(maps, name) {
        Some(map) => image_by(alloc, &map.kind, world, keys),
        None => image_in(alloc, &[], keys),
    }
}

fn image_by<W: Texts>(
    alloc: Global,
    kind: &MapKind,
    world: &W,
    keys: &Dfa,
) -> Result<ImageSet, NoMemory>
    ensures { IfOk result (IsImageOf
        (λ key. value_by kind.now key (text_behind (W.texts world.now) (file_of_kind kind.now))) (accepts keys.now)) }
{
    match kind {
        MapKind::File(path) => image_at(alloc, world, path.as_bytes(), keys),
        MapKind::Upper => Letters::Upper.image(alloc, keys),
        MapKind::Lower => Letters::Lower.image(alloc, keys),
    }
}

// By the text at a path.
fn image_at<W: Texts>(
    alloc: Global,
    world: &W,
    path: &[u8],
    keys: &Dfa,
) -> Result<ImageSet, NoMemory>
    ensures { IfOk result (IsImageOf (λ key. option_and_then (value_in key) (W.texts world.now path.now))
        (accepts keys.now)) }
{
    match world.text(path) {
        Some(text) => image_in(alloc, text.as_bytes(), keys),
        None => image_in(alloc, &[], keys),
    }
}

// By a text.
fn image_in(alloc: Global, text: &[u8], keys: &Dfa) -> Result<ImageSet, NoMemory>
    ensures { IfOk result (IsImageOf (λ key. value_in key text.now) (accepts keys.now)) }
{
    let found = found_in(alloc, text, keys)?;
    let missing = has_other(alloc, keys, found.keys.as_slice())?;
    let values = listed(alloc, &found.values)?;
    Ok(ImageSet { values, missing })
}

// Whether the set has a text that is none of these.
fn has_other(alloc: Global, set: &Dfa, texts: &[Text]) -> Result<bool, NoMemory>
    ensures { IfOk result (λ has. (has ≡ true) ↔ HasOther (accepts set.now) texts.now) }
{
    let known = listed(alloc, texts)?;
    let others = product(alloc, set, &known, Keep::FirstOnly)?;
    Ok(least(alloc, &others)?.is_some())
}

// What the lines of a text give.
fn found_in(alloc: Global, text: &[u8], set: &Dfa) -> Result<Found, NoMemory>
    ensures { IfOk result (λ found. AreGathered (λ key. value_in key text.now) (accepts set.now) found.keys.keys
        found.values.items) }
{
    let mut found = Found {
        keys: IndexSet::new(alloc),
        values: Vec::new(alloc),
    };
    for line in text.split(|byte| *byte == b'\n') {
        let Some(row) = row_in(line) else {
            continue;
        };
        found.add(alloc, set, row.key, row.value)?;
    }
    Ok(found)
}

/// The keys of lines that are in a set, and their values.
#[derive(Drop)]
struct Found {
    keys: IndexSet<Text>,
    values: Vec<Text>,
}

impl Found {
    /// Adds what a line says. Only the first line with a key counts.
    fn add(&mut self, alloc: Global, set: &Dfa, key: &[u8], value: &[u8]) -> Result<(), NoMemory>
        ensures { OnOk result ((before : List ℕ → Option (List ℕ))
            → AreGathered before (accepts set.now) self.old.keys.keys self.old.values.items
            → AreGathered (with_row before (key.now, value.now)) (accepts set.now) self.new.keys.keys
            self.new.values.items) }
    {
        if !set.accepts(key) {
            return Ok(());
        }
        if !self.keys.insert(Text::copy_of(alloc, key)?)? {
            return Ok(());
        }
        self.values.push(Text::copy_of(alloc, value)?)?;
        Ok(())
    }
}

/// What becomes of letters.
#[derive(Clone, Copy)]
enum Letters {
    Upper,
    Lower,
}

impl Letters {
    // The keys with their letters changed.
    fn image(self, alloc: Global, keys: &Dfa) -> Result<ImageSet, NoMemory>
        ensures { IfOk result (IsImageOf (λ key. Some (map (changed self) key)) (accepts keys.now)) }
    {
        let values = byte_image(alloc, keys, &self.table())?;
        Ok(ImageSet {
            values,
            missing: false,
        })
    }

    fn table(self) -> [u8; 256]
        ensures { IsTableOf result (changed self) }
    {
        let mut table = [0; 256];
        for byte in 0..256usize {
            table[byte] = self.changed(byte as u8);
        }
        table
    }

    fn changed(self, byte: u8) -> u8
        ensures { result ≡ changed self byte }
    {
        match self {
            Letters::Upper => byte.to_ascii_uppercase(),
            Letters::Lower => byte.to_ascii_lowercase(),
        }
    }
}
