//! The branches of one rule, for a server and in a directory.

ghost use Rattle.std.specs.Prelude.{◌≡◌, ◌<◌};

use crate::shown::{shown_branches, slot_named};
use hc_abs_rw::{Around, Frame, RuleBranch, Setting, rule_branches};
use hc_addr::Addr;
use hc_base::{Counter, Fault, List, NoMemory, Text};
use hc_cells::{Cell, Slot, Ties, restrict, with};
use hc_config::{BuildFault, build};
use hc_dfa::Dfa;
use hc_include::flatten;
use hc_model::{Caller, Config, Request, Rule, Scheme};
use hc_pat_lang::matched;
use hc_pattern::parse_pattern;
use hc_plan::Tied;
use hc_rw_expand::Engine;
use hc_rw_sets::TextTests;
use hc_world::{ListKind, World, WorldFault};
use std::alloc::Global;
use std::marker::Brand;
use std::process::Abort;
use std::sync::ledger::{Blank, Ledger};

const MAIN_FILE: &str = "/m";

/// A map: the first line of a key counts, and a key may have the empty value.
const MAP: &str = "k one\nl two\ne\n#z three\nk four\n";

/// How many states the branches of a row may have.
pub const ROOM: u64 = 10_000;

/// The directory of the rules that stand in a section.
const DIR: &str = "/srv/d";

/// How rules are tried.
#[derive(Clone, Copy)]
pub enum How {
    Server,
    /// Text and path are one.
    Tied,
    /// Text, path, origin and name are one.
    Chained,
    /// A rule follows.
    Followed,
    /// A rule before replaced the query.
    Replaced,
    /// All requests come from one client.
    Client,
    /// In a directory.
    Within,
    /// In a directory, with a RewriteBase.
    Based,
    /// In a directory whose file name comes from an alias.
    Aliased,
}

impl How {
    pub fn is_within(self) -> bool {
        matches!(self, How::Within | How::Based | How::Aliased)
    }

    fn client(self) -> Option<Addr> {
        match self {
            How::Client => Some(Addr::V4(2)),
            _ => None,
        }
    }
}

/// Rules as a main file has them, of which the last one is tried; those of a directory stand in `<Directory /srv/d>`.
#[derive(Drop)]
pub struct Row {
    pub how: How,
    pub rules: &'static str,
    /// The sets of slots, as patterns that are found in their texts.
    pub sets: &'static [(&'static str, &'static str)],
    pub branches: &'static str,
}

fn text(alloc: Global, bytes: &str) -> Result<Text, NoMemory> {
    Text::copy_of(alloc, bytes.as_bytes())
}

// A request of a.example at port 80.
pub fn caller_of(alloc: Global) -> Result<Caller, NoMemory> {
    Ok(Caller {
        request: Request {
            method: text(alloc, "GET")?,
            scheme: Scheme::Http,
            server: Addr::V4(1),
            port: 80,
            host: text(alloc, "a.example")?,
            client: Addr::V4(2),
            headers: List::new(alloc),
            target: text(alloc, "/")?,
        },
        name: text(alloc, "a.example")?,
    })
}

fn found_in(rt: &impl Abort, alloc: Global, pattern: &str) -> Result<Dfa, NoMemory> {
    let Ok(pat) = parse_pattern(alloc, pattern.as_bytes(), false) else {
        panic!(rt; "{pattern} is no pattern");
    };
    matched(alloc, &pat)
}

fn cell_of(rt: &impl Abort, alloc: Global, row: &Row) -> Result<Cell, NoMemory> {
    let mut cell = Cell::all(alloc)?;
    for &(name, pattern) in row.sets {
        let set = found_in(rt, alloc, pattern)?;
        cell = restrict(alloc, &cell, &slot_named(alloc, name)?, &set)?;
    }
    Ok(cell)
}

// A main file with the rules, and some files.
pub fn world_of(alloc: Global, row: &Row) -> Result<World, WorldFault> {
    let main = if row.how.is_within() {
        format!(in alloc;
            "<Directory {DIR}>\n{}</Directory>\nDocumentRoot /r\n",
            row.rules
        )?
    } else {
        format!(in alloc; "{}DocumentRoot /r\n", row.rules)?
    };
    let mut world = World::new(alloc)?;
    for (path, content) in [(MAIN_FILE, main.as_str()), ("/map", MAP)] {
        if world.edits() < u64::MAX {
            world.put(path.as_bytes(), content)?;
        }
    }
    for (path, kind) in [(b"/f", ListKind::File), (b"/d", ListKind::Dir)] {
        if world.edits() < u64::MAX {
            world.list(path, kind)?;
        }
    }
    Ok(world)
}

fn config_counted<L: Ledger>(
    blank: Blank,
    alloc: Global,
    world: &World,
) -> Result<Config, BuildFault>
    requires name { blank.name ≡ L.name }
    requires parts { blank.parts ≡ L.parts }
    requires whole { 0 < blank.parts }
{
    let mut bytes = Counter::<L>::new(blank);
    let flat = flatten(alloc, world, MAIN_FILE.as_bytes(), &mut bytes)?;
    build(alloc, &flat)
}

fn config_of(alloc: Global, world: &World) -> Result<Config, BuildFault> {
    config_counted::<Brand>(Blank::new(1), alloc, world)
}

// The rules, of which the last one is tried.
pub fn rules_of<'c>(config: &'c Config, row: &Row) -> &'c [Rule] {
    match config.main.sections.as_slice().first() {
        Some(section) if row.how.is_within() => section.body.rules.as_slice(),
        _ => config.main.body.rules.as_slice(),
    }
}

// The first queries are the queries.
fn with_first(alloc: Global, cell: Cell) -> Result<Cell, NoMemory> {
    let Some(set) = cell.set_of(&Slot::Query) else {
        return Ok(cell);
    };
    with(alloc, &cell, &Slot::FirstQuery, set)
}

pub fn before_of(rt: &impl Abort, alloc: Global, row: &Row) -> Result<Tied, NoMemory> {
    let mut cell = cell_of(rt, alloc, row)?;
    let query_first = !matches!(row.how, How::Replaced);
    if query_first {
        cell = with_first(alloc, cell)?;
    }
    let ties = Ties {
        origin_path: matches!(row.how, How::Chained),
        text_path: matches!(row.how, How::Tied | How::Chained),
        text_name: matches!(row.how, How::Chained),
        query_first,
    };
    Ok(Tied { cell, ties })
}

// What rules of a directory know of it.
#[derive(Drop)]
struct Directory {
    dir: Text,
    base: Text,
}

impl Directory {
    fn new(alloc: Global) -> Result<Directory, NoMemory> {
        Ok(Directory {
            dir: text(alloc, DIR)?,
            base: text(alloc, "/b")?,
        })
    }

    fn engine(&self, how: How) -> Option<Engine<'_>> {
        if !how.is_within() {
            return None;
        }
        Some(Engine {
            dir: &self.dir,
            base: if let How::Based = how {
                Some(&self.base)
            } else {
                None
            },
            aliased: matches!(how, How::Aliased),
        })
    }
}

// The branches of a rule. Without room for so many states there are none.
fn tried(
    alloc: Global,
    frame: &Frame<'_, Around<'_>>,
    how: How,
    rule: &Rule,
    before: Tied,
) -> Result<Vec<RuleBranch>, NoMemory> {
    let setting = Setting {
        followed: matches!(how, How::Followed),
    };
    let none = List::new(alloc);
    rule_branches(alloc, frame, rule, setting, before, &none)
}

fn branches_of<'f>(
    rt: &impl Abort,
    alloc: Global,
    row: &Row,
    tests: &'f TextTests,
    around: &'f Around<'f>,
    config: &'f Config,
    room: u64,
) -> Result<Vec<RuleBranch>, NoMemory> {
    let Some(rule) = rules_of(config, row).last() else {
        panic!(rt; "no rule");
    };
    let within = Directory::new(alloc)?;
    let frame = Frame {
        tests,
        root: config.main.root.as_ref(),
        engine: within.engine(row.how),
        client: row.how.client(),
        around,
        room,
    };
    let before = before_of(rt, alloc, row)?;
    tried(alloc, &frame, row.how, rule, before)
}

pub fn built(rt: &impl Abort, alloc: Global, row: &Row, world: &World) -> Result<Config, NoMemory> {
    match config_of(alloc, world) {
        Ok(config) => Ok(config),
        Err(Fault::Refused(refusal)) => panic!(rt; "{} is refused: {}", row.rules, refusal.code),
        Err(Fault::NoMemory) => Err(NoMemory),
    }
}

pub fn found(
    rt: &impl Abort,
    alloc: Global,
    row: &Row,
    tests: &TextTests,
    room: u64,
) -> Result<Vec<RuleBranch>, WorldFault> {
    let world = world_of(alloc, row)?;
    let config = built(rt, alloc, row, &world)?;
    let around = Around::new(alloc, &world, config.main.rewrite_maps.as_slice())?;
    let branches = branches_of(rt, alloc, row, tests, &around, &config, room)?;
    Ok(branches)
}

fn check_row(
    rt: &impl Abort,
    alloc: Global,
    row: &Row,
    tests: &TextTests,
) -> Result<(), WorldFault> {
    let branches = found(rt, alloc, row, tests, ROOM)?;
    let shown = shown_branches(alloc, &branches)?;
    let wanted = row.branches;
    if shown.as_slice() != wanted.as_bytes() {
        let shown = str::from_utf8(&shown).unwrap_or("no text");
        panic!(rt; "{}: {shown} for {wanted}", row.rules);
    }
    Ok(())
}

/// Checks each row of a table.
pub fn check_rows(rt: &impl Abort, alloc: Global, rows: &[Row]) -> Result<(), WorldFault> {
    let tests = TextTests::new(alloc, caller_of(alloc)?)?;
    for row in rows {
        check_row(rt, alloc, row, &tests)?;
    }
    Ok(())
}
