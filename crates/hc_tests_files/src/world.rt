use hc_base::codes::{IS_DIRECTORY, PATH_FORM, UNDER_FILE};
use hc_base::{Fault, NoMemory};
use hc_model::{Kind, Walk};
use hc_world::{ListKind, World, WorldFault};
use std::alloc::Global;
use std::process::Abort;

/// A put into a world that can still count it.
pub fn put(world: &mut World, path: &str, text: &str) -> Result<(), WorldFault> {
    put_at(world, path.as_bytes(), text)
}

/// The same of a path that may be no UTF-8.
pub fn put_at(world: &mut World, path: &[u8], text: &str) -> Result<(), WorldFault> {
    if world.edits() == u64::MAX {
        return Err(Fault::NoMemory);
    }
    world.put(path, text)
}

fn list(world: &mut World, path: &str, kind: ListKind) -> Result<(), WorldFault> {
    if world.edits() == u64::MAX {
        return Err(Fault::NoMemory);
    }
    world.list(path.as_bytes(), kind)
}

// A world with two files, one of them in a directory.
fn two_files(alloc: Global) -> Result<World, WorldFault> {
    let mut world = World::new(alloc)?;
    put(&mut world, "/site/a.txt", "one")?;
    put(&mut world, "/b", "")?;
    Ok(world)
}

// That the world is the one of two files.
fn check_two_files(rt: &impl Abort, world: &World) {
    static ROWS: &[(&str, Kind, Option<&str>)] = &[
        ("/", Kind::Dir, None),
        ("/site", Kind::Dir, None),
        ("/site/a.txt", Kind::File, Some("one")),
        ("/b", Kind::File, Some("")),
        ("/b/c", Kind::Absent, None),
        ("/site/", Kind::Absent, None),
        ("/c", Kind::Absent, None),
    ];
    for &(path, kind, text) in ROWS {
        assert!(rt; world.kind(path.as_bytes()) == kind, "at {path}");
        assert!(rt; world.text(path.as_bytes()) == text, "at {path}");
    }
}

// A path of so many components of 255 bytes.
fn deep_path(alloc: Global, count: usize) -> Result<String, NoMemory> {
    let mut component = "a".repeat(alloc, 255)?;
    component.insert_str(0, "/")?;
    component.repeat(alloc, count)
}

#[test]
fn puts_files(rt: HostRuntime) -> Result<(), WorldFault> {
    let mut world = two_files(rt.alloc())?;
    check_two_files(&rt, &world);
    put(&mut world, "/b", "two")?;
    assert!(rt; world.text(b"/b") == Some("two"));
    Ok(())
}

#[test]
fn puts_deep_files(rt: HostRuntime) -> Result<(), WorldFault> {
    let mut world = two_files(rt.alloc())?;
    let longest = deep_path(rt.alloc(), 16)?;
    put(&mut world, &longest, "deep")?;
    assert!(rt; world.text(longest.as_bytes()) == Some("deep"));
    Ok(())
}

// That a put is refused with this code and changes nothing.
fn check_refused(rt: &impl Abort, world: &mut World, path: &str, code: u8) {
    let answer = put(world, path, "new");
    assert!(rt; answer == Err(Fault::Refused(code)), "at {path}");
    assert!(rt; world.edits() == 2);
    check_two_files(rt, world);
}

#[test]
fn refuses_edits(rt: HostRuntime) -> Result<(), WorldFault> {
    static ROWS: &[(&str, u8)] = &[
        ("a", PATH_FORM),
        ("", PATH_FORM),
        ("/c/", PATH_FORM),
        ("/c//b", PATH_FORM),
        ("/c/../b", PATH_FORM),
        ("/c/.", PATH_FORM),
        ("/c\n", PATH_FORM),
        ("/b/g", UNDER_FILE),
        ("/b/g/h", UNDER_FILE),
        ("/", IS_DIRECTORY),
        ("/site", IS_DIRECTORY),
    ];
    let mut world = two_files(rt.alloc())?;
    for &(path, code) in ROWS {
        check_refused(&rt, &mut world, path, code);
    }
    Ok(())
}

// A component of 256 bytes, and a path of 4,097.
#[test]
fn refuses_long_paths(rt: HostRuntime) -> Result<(), WorldFault> {
    let mut world = two_files(rt.alloc())?;
    let mut component = deep_path(rt.alloc(), 1)?;
    component.push_str("a")?;
    check_refused(&rt, &mut world, &component, PATH_FORM);
    let mut path = "/a".repeat(rt.alloc(), 2048)?;
    path.push_str("a")?;
    check_refused(&rt, &mut world, &path, PATH_FORM);
    Ok(())
}

// A walk as `name|info|kind|` and its directories with a colon behind each.
fn show_walk(alloc: Global, walk: &Walk) -> Result<Vec<u8>, NoMemory> {
    let mut shown = walk.name.as_bytes().to_vec(alloc)?;
    shown.push(b'|')?;
    shown.extend_from_slice(walk.info.as_bytes())?;
    shown.extend_from_slice(match walk.kind {
        Kind::Absent => b"|absent|",
        Kind::Dir => b"|dir|",
        Kind::File => b"|file|",
    })?;
    for dir in walk.dirs.as_slice() {
        shown.extend_from_slice(dir.as_bytes())?;
        shown.push(b':')?;
    }
    Ok(shown)
}

#[test]
fn walks(rt: HostRuntime) -> Result<(), WorldFault> {
    let world = two_files(rt.alloc())?;
    static ROWS: &[(&str, &str)] = &[
        ("/", "/||dir|/:"),
        ("/site", "/site||dir|/:/site:"),
        ("/site/", "/site/||dir|/:/site:"),
        ("/site/a.txt", "/site/a.txt||file|/:/site:"),
        ("/site/a.txt/x/y", "/site/a.txt|/x/y|file|/:/site:"),
        ("/b/", "/b|/|file|/:"),
        ("/none/x", "/none|/x|absent|/:"),
        ("/site/none", "/site/none||absent|/:/site:"),
    ];
    for &(given, wanted) in ROWS {
        let shown = show_walk(rt.alloc(), &world.walk(given.as_bytes())?)?;
        assert!(rt; shown.as_slice() == wanted.as_bytes(), "at {given}");
    }
    Ok(())
}

// The number of a refusal, 0 where there is none.
fn code_of(answer: Result<(), WorldFault>) -> Result<u8, NoMemory> {
    match answer {
        Ok(()) => Ok(0),
        Err(Fault::Refused(code)) => Ok(code),
        Err(Fault::NoMemory) => Err(NoMemory),
    }
}

// The names in a directory, with a colon behind each.
fn show_names(alloc: Global, world: &World, directory: &str) -> Result<Vec<u8>, NoMemory> {
    let mut shown = Vec::new(alloc);
    for name in world.names(directory.as_bytes())?.as_slice() {
        shown.extend_from_slice(name.as_bytes())?;
        shown.push(b':')?;
    }
    Ok(shown)
}

// Lists in their order: the refusal, the edits afterwards, and what then stands there.
static LISTS: &[(ListKind, &str, u8, u64, Kind)] = &[
    (ListKind::Dir, "/site", 0, 3, Kind::Dir),
    (ListKind::Dir, "/new/deep", 0, 4, Kind::Dir),
    (ListKind::File, "/new/f", 0, 5, Kind::File),
    (ListKind::File, "/b", 0, 6, Kind::File),
    (ListKind::File, "/site", IS_DIRECTORY, 6, Kind::Dir),
    (ListKind::File, "/", IS_DIRECTORY, 6, Kind::Dir),
    (ListKind::Dir, "/", 0, 7, Kind::Dir),
    (ListKind::Dir, "/new/f", UNDER_FILE, 7, Kind::File),
    (ListKind::Dir, "/new/f/g", UNDER_FILE, 7, Kind::Absent),
    (ListKind::File, "/b/c", UNDER_FILE, 7, Kind::Absent),
    (ListKind::Dir, "x", PATH_FORM, 7, Kind::Absent),
    (ListKind::File, "/x/", PATH_FORM, 7, Kind::Absent),
    (ListKind::File, "/new/Z", 0, 8, Kind::File),
    (ListKind::File, "/new/deep/x", 0, 9, Kind::File),
    (ListKind::File, "/new/deep.d", 0, 10, Kind::File),
    (ListKind::Dir, "/new/\u{e9}", 0, 11, Kind::Dir),
    (ListKind::File, "/d/a/x/y", 0, 12, Kind::File),
    (ListKind::File, "/d/a-b", 0, 13, Kind::File),
    (ListKind::File, "/d/a.b/c", 0, 14, Kind::File),
    (ListKind::File, "/d/a0", 0, 15, Kind::File),
    (ListKind::File, "/d-/x", 0, 16, Kind::File),
    (ListKind::File, "/d0/x", 0, 17, Kind::File),
];

static NAMES: &[(&str, &str)] = &[
    ("/", "b:d:d-:d0:new:site:"),
    ("/d", "a:a-b:a.b:a0:"),
    ("/d/a", "x:"),
    ("/d-", "x:"),
    ("/new", "Z:deep:deep.d:f:\u{e9}:"),
    ("/new/deep", "x:"),
    ("/site", "a.txt:"),
    ("/new/\u{e9}", ""),
    ("/b", ""),
    ("/none", ""),
    ("/ne", ""),
    ("/new/", ""),
    ("", ""),
];

#[test]
fn lists_and_names(rt: HostRuntime) -> Result<(), WorldFault> {
    let alloc = rt.alloc();
    let mut world = two_files(alloc)?;
    assert!(rt; World::new(alloc)?.edits() == 0);
    for &(kind, path, code, edits, there) in LISTS {
        assert!(rt; code_of(list(&mut world, path, kind))? == code, "at {path}");
        assert!(rt; world.edits() == edits, "at {path}");
        assert!(rt; world.kind(path.as_bytes()) == there, "at {path}");
    }
    assert!(rt; world.text(b"/b") == None);
    assert!(rt; world.text(b"/site/a.txt") == Some("one"));
    for &(directory, wanted) in NAMES {
        let shown = show_names(alloc, &world, directory)?;
        assert!(rt; shown.as_slice() == wanted.as_bytes(), "in {directory}");
    }
    Ok(())
}
