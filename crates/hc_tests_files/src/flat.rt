//! Flat lists: entries in their order with the openings around them, the first refusal, what was looked
//! at, variables and modules.

ghost use Rattle.std.specs.Prelude.{◌≡◌, ◌<◌};

use crate::world::{put, put_at};
use hc_base::{Counter, NoMemory, Refusal, Text};
use hc_flat::{EntryView, Flat};
use hc_include::flatten;
use hc_model::{EntryForm, Read};
use hc_world::{World, WorldFault};
use std::alloc::Global;
use std::marker::Brand;
use std::sync::ledger::{Blank, Ledger};

const MAIN: &str = "/m";

// A main file, other files, and the wanted flat list: each entry as its line, `.` for a directive, `<`
// for an opening and `>` for a close, and its text, behind it the places of the openings around it; then
// the refusal as its number and its line; then what was looked at. A file other than the main one stands
// before the line.
type Case = (
    &'static str,
    &'static [(&'static str, &'static str)],
    &'static str,
);

static CASES: &[Case] = &[
    // closes, and the openings around an entry
    (
        "User a\n<Files x>\n# c\nFoo \\\n b\n </FILES>\nBar\n",
        &[],
        "1.User a;2<Files x;4.Foo  b;6>Files x;7.Bar;=text /m;",
    ),
    (
        "<IfModule mod_x.c>\nFoo\n<Files x>\n</Files>\n</IfModule>\nBar\n",
        &[],
        "1<IfModule mod_x.c;5>IfModule mod_x.c;6.Bar;=text /m;",
    ),
    (
        "<IfDefine !X>\n<IfModule core.c>\nFoo\n</IfModule>\n</IfDefine>\n",
        &[],
        "1<IfDefine !X;2<IfModule core.c;3.Foo;4>IfModule core.c;5>IfDefine !X;=text /m;",
    ),
    (
        "<Files x>\nInclude /a\n</Files>\n",
        &[("/a", "<Limit y>\nFoo\n</Limit>\nBar")],
        "1<Files x;2.Include /a;/a 1<Limit y;/a 2.Foo;/a 3>Limit y;\
/a 4.Bar;3>Files x;=text /a;text /m;",
    ),
    // variables, and refusals behind them
    (
        "Define A b\nUser ${A} ${B}\nDefine A\nUser ${A}\n",
        &[],
        "1.Define A b;2.User b ${B};3.Define A;4.User b;=text /m;",
    ),
    ("Define a:b c\n", &[], "!12@1=text /m;"),
    ("User a\n<Files x>\n", &[], "!4@2=text /m;"),
    ("User \u{1}\n", &[], "!31@1=text /m;"),
    // 6 for each line whose words reading needs, and for no other.
    ("ServerRoot \"/x\n", &[], "!6@1=text /m;"),
    ("User a\nLoadModule 'x\n", &[], "1.User a;!6@2=text /m;"),
    ("Define \"x\n", &[], "!6@1=text /m;"),
    ("include \"x\n", &[], "!6@1=text /m;"),
    ("IncludeOptional \"x\n", &[], "!6@1=text /m;"),
    ("<IfDefine \"x>\n</IfDefine>\n", &[], "!6@1=text /m;"),
    ("<IfModule 'x>\n</IfModule>\n", &[], "!6@1=text /m;"),
    ("User \"x\n", &[], "1.User \"x;=text /m;"),
    (
        "<Files \"x>\n</Files>\n",
        &[],
        "1<Files \"x;2>Files \"x;=text /m;",
    ),
    // A wildcard is what a glob reads as one.
    (
        "Include /c/a[b\n",
        &[("/c/a[b", "X\n"), ("/c/b", "Y\n")],
        "1.Include /c/a[b;/c/a[b 1.X;=text /c/a[b;text /m;",
    ),
    (
        "Include /c/\\*\n",
        &[("/c/\\*", "X\n"), ("/c/b", "Y\n")],
        "1.Include /c/\\*;/c/\\* 1.X;=text /c/\\*;text /m;",
    ),
    (
        "Include /c/[ab]\n",
        &[("/c/b", "Y\n"), ("/c/a", "X\n"), ("/c/c", "Z\n")],
        "1.Include /c/[ab];/c/a 1.X;/c/b 1.Y;=names /c;text /c/a;text /c/b;text /m;",
    ),
    (
        "Include /?/x\n",
        &[("/a/x", "X\n"), ("/b/y", "Y\n")],
        "1.Include /?/x;/a/x 1.X;=names /;text /a/x;text /b/x;text /m;text /m/x;",
    ),
    ("Include /c/[b-a]\n", &[("/c/b", "Y\n")], "!14@1=text /m;"),
    // files that are included
    ("Include a\n", &[], "!11@1=text /m;"),
    (
        "ServerRoot /r\nInclude a\n",
        &[("/r/a", "X\n")],
        "1.ServerRoot /r;2.Include a;/r/a 1.X;=text /m;text /r/a;",
    ),
    ("Include /x\n", &[], "!8@1=text /m;text /x;"),
    (
        "IncludeOptional /x\nX\n",
        &[],
        "1.IncludeOptional /x;2.X;=text /m;text /x;",
    ),
    (
        "Include /x\n",
        &[("/x", "Include /m\n")],
        "1.Include /x;!9@/x 1=text /m;text /x;",
    ),
    ("Include /d\n", &[("/d/x", "")], "!35@1=text /d;text /m;"),
    (
        "Include /a /b\n",
        &[("/a", "X\n")],
        "1.Include /a /b;=text /m;",
    ),
    (
        "<IfModule x>\nInclude /x\n</IfModule>\n",
        &[],
        "1<IfModule x;3>IfModule x;=text /m;",
    ),
];

// The flat list of the main file of a world.
fn flat_counted<L: Ledger>(blank: Blank, alloc: Global, world: &World) -> Result<Flat, NoMemory>
    requires name { blank.name ≡ L.name }
    requires parts { blank.parts ≡ L.parts }
    requires whole { 0 < blank.parts }
{
    let mut bytes = Counter::<L>::new(blank);
    flatten(alloc, world, MAIN.as_bytes(), &mut bytes)
}

/// The flat list of a main file and those that it includes.
pub fn flat_of(alloc: Global, main: &str, files: &[(&str, &str)]) -> Result<Flat, WorldFault> {
    let world = world_of(alloc, main, files)?;
    Ok(flat_in(alloc, &world)?)
}

fn flat_in(alloc: Global, world: &World) -> Result<Flat, NoMemory> {
    flat_counted::<Brand>(Blank::new(1), alloc, world)
}

fn world_of(alloc: Global, main: &str, files: &[(&str, &str)]) -> Result<World, WorldFault> {
    let mut world = World::new(alloc)?;
    put(&mut world, MAIN, main)?;
    for (path, text) in files {
        put(&mut world, path, text)?;
    }
    Ok(world)
}

// A copy is shown, which is to be the list that was copied.
fn show_files(alloc: Global, main: &str, files: &[(&str, &str)]) -> Result<String, WorldFault> {
    let flat = flat_of(alloc, main, files)?;
    Ok(show(alloc, &flat.clone()?)?)
}

/// A flat list as a text.
pub fn show(alloc: Global, flat: &Flat) -> Result<String, NoMemory> {
    let mut shown = String::new(alloc);
    for entry in flat.entries.iter() {
        show_entry(alloc, &mut shown, entry)?;
    }
    if let Some(refusal) = &flat.stop {
        show_refusal(alloc, &mut shown, refusal)?;
    }
    shown.push_str("=")?;
    for read in flat.reads.as_slice() {
        show_read(alloc, &mut shown, read)?;
    }
    Ok(shown)
}

fn show_file(shown: &mut String, file: &Text) -> Result<(), NoMemory> {
    let file = lent(file);
    if file != MAIN {
        shown.push_str(file)?;
        shown.push_str(" ")?;
    }
    Ok(())
}

fn show_entry(alloc: Global, shown: &mut String, entry: EntryView) -> Result<(), NoMemory> {
    show_file(shown, entry.file)?;
    let sign = match entry.form {
        EntryForm::Directive => ".",
        EntryForm::Opening => "<",
        EntryForm::Close => ">",
    };
    let (line, name, rest) = (entry.line, entry.name, entry.rest);
    shown.push_str(&format!(in alloc; "{line}{sign}{name}{rest}")?)?;
    shown.push_str(";")?;
    Ok(())
}

fn show_refusal(alloc: Global, shown: &mut String, refusal: &Refusal) -> Result<(), NoMemory> {
    let (code, line) = (refusal.code, refusal.place.line);
    shown.push_str(&format!(in alloc; "!{code}@")?)?;
    show_file(shown, &refusal.place.file)?;
    shown.push_str(&format!(in alloc; "{line}")?)?;
    Ok(())
}

fn show_read(alloc: Global, shown: &mut String, read: &Read) -> Result<(), NoMemory> {
    let (kind, path) = match read {
        Read::KindOf(path) => ("kind", path),
        Read::TextOf(path) => ("text", path),
        Read::NamesOf(path) => ("names", path),
    };
    let path = lent(path);
    shown.push_str(&format!(in alloc; "{kind} {path};")?)?;
    Ok(())
}

fn lent(text: &Text) -> &str {
    match std::str::from_utf8(text.as_bytes()) {
        Ok(text) => text,
        Err(_) => "",
    }
}

#[test]
fn files_are_flat_lists(rt: HostRuntime) -> Result<(), WorldFault> {
    for &(main, files, wanted) in CASES {
        let shown = show_files(rt.alloc(), main, files)?;
        assert!(rt; shown.as_str() == wanted, "{main}");
    }
    Ok(())
}

// The flat list of a main file that includes a file of this name by a wildcard.
fn including(alloc: Global, name: &[u8], text: &str) -> Result<Flat, WorldFault> {
    let mut world = world_of(alloc, "Include /i/*.conf\n", &[])?;
    put_at(&mut world, name, text)?;
    Ok(flat_in(alloc, &world)?)
}

// The number of a refusal in this file.
fn stopped_in(flat: &Flat, name: &[u8]) -> Option<u8> {
    match &flat.stop {
        Some(refusal) if refusal.place.file.as_bytes() == name => Some(refusal.code),
        _ => None,
    }
}

// A path that is no UTF-8 comes from no line of a session, but may come from a caller of the crates.
#[test]
fn an_included_file_may_have_any_name(rt: HostRuntime) -> Result<(), WorldFault> {
    let name = b"/i/\xff.conf".as_slice();
    for (text, entries, code) in [("User a\nUser b\n", 3, None), ("<Files x>\n", 1, Some(4))] {
        let flat = including(rt.alloc(), name, text)?;
        assert!(rt; flat.entries.len() == entries);
        assert!(rt; stopped_in(&flat, name) == code);
    }
    Ok(())
}
