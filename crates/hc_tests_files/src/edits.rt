//! Edits of a world, and which of them was the last to change what a read shows.

use hc_base::{Fault, NoMemory, Text};
use hc_model::Read;
use hc_world::{ListKind, World, WorldFault};
use std::alloc::Global;
use std::process::Abort;

// The refusal's code; 0 where the edit was accepted.
fn code_of(made: Result<(), WorldFault>) -> Result<u8, NoMemory> {
    match made {
        Ok(()) => Ok(0),
        Err(Fault::Refused(code)) => Ok(code),
        Err(Fault::NoMemory) => Err(NoMemory),
    }
}

fn edit(world: &mut World, word: &str, path: &str, text: &str) -> Result<u8, NoMemory> {
    if world.edits() == u64::MAX {
        return Err(NoMemory);
    }
    let path = path.as_bytes();
    code_of(match word {
        "put" => world.put(path, text),
        "dir" => world.list(path, ListKind::Dir),
        "file" => world.list(path, ListKind::File),
        _ => world.drop_path(path),
    })
}

// The last edits that changed what stands at a path, its text and its names.
fn changes(alloc: Global, world: &World, path: &str) -> Result<(u64, u64, u64), NoMemory> {
    let kind = Read::KindOf(Text::copy_of(alloc, path.as_bytes())?);
    let text = Read::TextOf(Text::copy_of(alloc, path.as_bytes())?);
    let names = Read::NamesOf(Text::copy_of(alloc, path.as_bytes())?);
    Ok((
        world.changed_at(&kind),
        world.changed_at(&text),
        world.changed_at(&names),
    ))
}

fn check_changes(
    rt: &impl Abort,
    alloc: Global,
    world: &World,
    wanted: &[(&str, (u64, u64, u64))],
) -> Result<(), NoMemory> {
    for &(path, numbers) in wanted {
        assert!(rt; changes(alloc, world, path)? == numbers, "{path}");
    }
    Ok(())
}

// An edit with its path and text, the code of its refusal, and what changed last at paths behind it.
type Row = (
    &'static str,
    &'static str,
    &'static str,
    u8,
    &'static [(&'static str, (u64, u64, u64))],
);

static ROWS: &[Row] = &[
    (
        "put",
        "/a/b/c",
        "x",
        0,
        &[
            ("/", (0, 0, 1)),
            ("/a", (1, 1, 1)),
            ("/a/b", (1, 1, 1)),
            ("/a/b/c", (1, 1, 0)),
        ],
    ),
    // what changes nothing is an edit all the same
    ("put", "/a/b/c", "x", 0, &[("/a/b/c", (1, 1, 0))]),
    ("put", "/a/b/c", "y", 0, &[("/a/b/c", (1, 3, 0))]),
    ("file", "/a/b/c", "", 0, &[("/a/b/c", (1, 4, 0))]),
    ("file", "/a/b/c", "", 0, &[("/a/b/c", (1, 4, 0))]),
    ("dir", "/a/b", "", 0, &[("/a/b", (1, 1, 1))]),
    (
        "dir",
        "/a/b/d/e",
        "",
        0,
        &[
            ("/a", (1, 1, 1)),
            ("/a/b", (1, 1, 7)),
            ("/a/b/d", (7, 7, 7)),
            ("/a/b/d/e", (7, 7, 7)),
        ],
    ),
    ("put", "/a/b-x", "z", 0, &[("/a", (1, 1, 8))]),
    ("put", "/a/b0", "z", 0, &[("/a", (1, 1, 9))]),
    ("put", "/a/b", "z", 47, &[]),
    ("put", "/a/b-x/q", "z", 42, &[]),
    ("dir", "/a/b-x", "", 42, &[]),
    ("drop", "/", "", 41, &[]),
    ("drop", "a", "", 41, &[]),
    ("drop", "/a/b/q", "", 40, &[]),
    ("drop", "/a/b-x/q", "", 40, &[("/a", (1, 1, 9))]),
    (
        "drop",
        "/a/b",
        "",
        0,
        &[
            ("/", (0, 0, 1)),
            ("/a", (1, 1, 10)),
            ("/a/b", (10, 10, 10)),
            ("/a/b/c", (10, 10, 0)),
            ("/a/b/d", (10, 10, 10)),
            ("/a/b/d/e", (10, 10, 10)),
            ("/a/b-x", (8, 8, 0)),
            ("/a/b0", (9, 9, 0)),
        ],
    ),
    (
        "put",
        "/a/b",
        "1",
        0,
        &[("/a", (1, 1, 11)), ("/a/b", (11, 11, 10))],
    ),
    (
        "drop",
        "/a",
        "",
        0,
        &[
            ("/", (0, 0, 12)),
            ("/a/b/c", (10, 10, 0)),
            ("/a/b0", (12, 12, 0)),
        ],
    ),
];

#[test]
fn reads_have_their_last_edits(rt: HostRuntime) -> Result<(), NoMemory> {
    let alloc = rt.alloc();
    let mut world = World::new(alloc)?;
    for &(word, path, text, code, wanted) in ROWS {
        assert!(rt;
            edit(&mut world, word, path, text)? == code,
            "{word} {path}"
        );
        check_changes(&rt, alloc, &world, wanted)?;
    }
    assert!(rt; world.edits() == 12);
    Ok(())
}

// A file's text, the lines that are replaced and what by, the code of the refusal, and the text behind it.
static LINES: &[(&str, u32, u32, &str, u8, &str)] = &[
    ("a\nb\nc", 1, 0, "x", 0, "xa\nb\nc"),
    ("a\nb\nc", 1, 1, "x", 0, "xb\nc"),
    ("a\nb\nc", 2, 1, "x\n", 0, "a\nx\nb\nc"),
    ("a\nb\nc", 3, 3, "x", 0, "a\nb\nx"),
    ("a\nb\nc", 4, 3, "x", 0, "a\nb\ncx"),
    ("a\nb\nc", 4, 4, "x", 43, "a\nb\nc"),
    ("a\nb\nc", 5, 4, "x", 43, "a\nb\nc"),
    ("a\nb\nc", 3, 1, "x", 43, "a\nb\nc"),
    ("a\nb\nc", 0, 0, "x", 43, "a\nb\nc"),
    ("a\nb\nc", 1, 3, "", 0, ""),
    ("a\nb\nc\n", 4, 3, "d", 0, "a\nb\nc\nd"),
    ("a\nb\nc\n", 4, 4, "d", 43, "a\nb\nc\n"),
    ("", 1, 0, "d", 0, "d"),
    ("", 1, 1, "d", 43, ""),
    ("ä\nö", 2, 2, "ü\n", 0, "ä\nü\n"),
    ("\n\n", 2, 2, "x", 0, "\nx"),
];

#[test]
fn lines_are_replaced(rt: HostRuntime) -> Result<(), NoMemory> {
    let alloc = rt.alloc();
    for &(text, from, to, new, code, wanted) in LINES {
        let mut world = World::new(alloc)?;
        assert!(rt; edit(&mut world, "put", "/f", text)? == 0);
        assert!(rt; world.edits() < 100);
        assert!(rt;
            code_of(world.edit_lines(b"/f", from, to, new))? == code,
            "{new}"
        );
        assert!(rt; world.text(b"/f") == Some(wanted), "{wanted}");
    }
    Ok(())
}
