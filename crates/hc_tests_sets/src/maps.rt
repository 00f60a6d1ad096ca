//! What maps give for the keys of sets, as a table of cases.

ghost use Rattle.std.specs.Prelude.{option_map};

use crate::groups::listed;
use crate::languages::found_in;
use hc_base::{NoMemory, Text};
use hc_map::image;
use hc_model::{Map, MapKind, Texts};
use std::alloc::Global;

/// Files that all have one text, or none has any.
#[derive(Clone, Copy)]
struct Files {
    text: Option<&'static str>,
}

impl Texts for Files {
    ghost texts = { λ files path. option_map (λ text. text.now) files.text };

    fn text(&self, _path: &[u8]) -> Option<&str> {
        self.text
    }
}

fn map_of(alloc: Global, name: &str, kind: MapKind) -> Result<Map, NoMemory> {
    Ok(Map {
        name: Text::copy_of(alloc, name.as_bytes())?,
        kind,
    })
}

fn all_maps(alloc: Global) -> Result<Vec<Map>, NoMemory> {
    let mut maps = Vec::new(alloc);
    let path = Text::copy_of(alloc, b"/map.txt")?;
    maps.push(map_of(alloc, "file", MapKind::File(path))?)?;
    maps.push(map_of(alloc, "upper", MapKind::Upper)?)?;
    maps.push(map_of(alloc, "lower", MapKind::Lower)?)?;
    Ok(maps)
}

/// A map, the text of its file, a pattern of keys, the values that they have, each behind a `|`, the shortest first,
/// and whether some key has none.
static IMAGES: &[(&str, Option<&str>, &str, &str, bool)] = &[
    ("file", Some("a one\nb two\n"), "^a$", "|one", false),
    ("file", Some("a one\nb two\n"), "^c$", "", true),
    ("file", Some("a one\nb two\n"), "^[ab]$", "|one|two", false),
    ("file", Some("a one\nb two\n"), "^[a-z]$", "|one|two", true),
    ("file", Some("a one\nb two\n"), "^$", "", true),
    ("file", Some("a one\nb two\n"), "a^", "", false),
    ("file", Some("a one\na two\n"), "^a$", "|one", false),
    ("file", Some("a one\nb one\n"), "^[ab]$", "|one", false),
    ("file", Some("a one\nA two\n"), "^[aA]$", "|one|two", false),
    (
        "file",
        Some("# one\n\n  b \ttwo three\r\n"),
        "^[#b]$",
        "|two",
        true,
    ),
    ("file", Some("a\nb two"), "^[ab]$", "||two", false),
    ("file", Some(""), "^[ab]$", "", true),
    ("file", None, "^[ab]$", "", true),
    ("file", None, "a^", "", false),
    ("upper", None, "^(ab|aB|c-)$", "|AB|C-", false),
    ("lower", None, "^(AB|aB|C-)$", "|ab|c-", false),
    ("lower", None, "a^", "", false),
    ("other", Some("a one\n"), "^a$", "", true),
    ("other", Some("a one\n"), "a^", "", false),
];

#[test]
fn keys_have_these_values(rt: HostRuntime) -> Result<(), NoMemory> {
    let maps = all_maps(rt.alloc())?;
    for &(name, text, keys, values, missing) in IMAGES {
        let set = found_in(&rt, rt.alloc(), keys)?;
        let made = image(rt.alloc(), &maps, &Files { text }, name.as_bytes(), &set)?;
        let told = listed(rt.alloc(), &made.values, 9)?;
        assert!(rt; told.as_slice() == values.as_bytes(), "{name} {keys}");
        assert!(rt; made.missing == missing, "{name} {keys}");
    }
    Ok(())
}
