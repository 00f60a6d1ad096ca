use crate::cells::{At, cell_of, slot_at};
use crate::languages::found_in;
use hc_base::{NoMemory, Text};
use hc_cells::{Cell, Ties};
use hc_dfa::Dfa;
use hc_plan::{Element, Hand, Test, Way, hand_set, way_on_side};
use std::alloc::Global;
use std::process::Abort;

/// An element of a table: a text, a slot behind so many bytes, a set as a pattern.
#[derive(Clone, Copy)]
enum Of {
    Known(&'static str),
    Open(At, usize),
    Free(&'static str),
}

/// What a slot holds behind a test: texts in it, and others.
type Left = (At, &'static [&'static str], &'static [&'static str]);

struct Row {
    sets: &'static [(At, &'static str)],
    /// Whether text and path are tied.
    tied: bool,
    hand: &'static [Of],
    off: usize,
    test: &'static str,
    held: Option<&'static [Left]>,
    failed: Option<&'static [Left]>,
}

static ROWS: &[Row] = &[
    // A known text is on one side.
    Row {
        sets: &[(At::Path, "^/a$")],
        tied: false,
        hand: &[Of::Open(At::Path, 1), Of::Known("b")],
        off: 0,
        test: "^ab$",
        held: Some(&[(At::Path, &["/a"], &["a"])]),
        failed: None,
    },
    // One open slot is narrowed, on both sides; a slot that isn't named holds all texts before.
    Row {
        sets: &[(At::Path, "^/[ab]$")],
        tied: false,
        hand: &[Of::Known("x"), Of::Open(At::Path, 1)],
        off: 0,
        test: "a",
        held: Some(&[(At::Path, &["/a"], &["/b"])]),
        failed: Some(&[(At::Path, &["/b"], &["/a"])]),
    },
    Row {
        sets: &[],
        tied: false,
        hand: &[Of::Open(At::Query, 0)],
        off: 0,
        test: "^a$",
        held: Some(&[(At::Query, &["a"], &["", "aa"])]),
        failed: Some(&[(At::Query, &["", "aa"], &["a"])]),
    },
    // So are those tied to it.
    Row {
        sets: &[(At::Path, "^/[ab]$"), (At::Text, "^/[ab]$")],
        tied: true,
        hand: &[Of::Open(At::Text, 0)],
        off: 1,
        test: "^a$",
        held: Some(&[(At::Text, &["/a"], &["/b"]), (At::Path, &["/a"], &["/b"])]),
        failed: Some(&[(At::Text, &["/b"], &["/a"]), (At::Path, &["/b"], &["/a"])]),
    },
    // One slot twice is two parts, and nothing is narrowed.
    Row {
        sets: &[(At::Query, "^[ab]$")],
        tied: false,
        hand: &[Of::Open(At::Query, 0), Of::Open(At::Query, 0)],
        off: 0,
        test: "^ab$",
        held: Some(&[(At::Query, &["a", "b"], &[])]),
        failed: Some(&[(At::Query, &["a", "b"], &[])]),
    },
    // A slot with one member is a text, a set with one isn't.
    Row {
        sets: &[(At::Path, "^/$"), (At::Query, "^[ab]$")],
        tied: false,
        hand: &[Of::Open(At::Path, 0), Of::Open(At::Query, 0)],
        off: 0,
        test: "^/a$",
        held: Some(&[(At::Query, &["a"], &["b"])]),
        failed: Some(&[(At::Query, &["b"], &["a"])]),
    },
    Row {
        sets: &[(At::Query, "^[ab]$")],
        tied: false,
        hand: &[Of::Free("^/$"), Of::Open(At::Query, 0)],
        off: 0,
        test: "^/a$",
        held: Some(&[(At::Query, &["a", "b"], &[])]),
        failed: Some(&[(At::Query, &["a", "b"], &[])]),
    },
    // There is no way where no text is on the side.
    Row {
        sets: &[(At::Query, "^[ab]$")],
        tied: false,
        hand: &[Of::Open(At::Query, 0)],
        off: 0,
        test: "^c$",
        held: None,
        failed: Some(&[(At::Query, &["a", "b"], &[])]),
    },
    // Nor where a tied slot is left empty.
    Row {
        sets: &[(At::Path, "^/b$"), (At::Text, "^/[ab]$")],
        tied: true,
        hand: &[Of::Open(At::Text, 0)],
        off: 0,
        test: "a",
        held: None,
        failed: Some(&[(At::Text, &["/b"], &["/a"]), (At::Path, &["/b"], &[])]),
    },
];

fn elements_of(rt: &impl Abort, alloc: Global, parts: &[Of]) -> Result<Vec<Element>, NoMemory> {
    let mut elements = Vec::new(alloc);
    for part in parts {
        elements.push(match *part {
            Of::Known(text) => Element::Known(Text::copy_of(alloc, text.as_bytes())?),
            Of::Open(at, skip) => Element::Open(slot_at(alloc, at)?, skip),
            Of::Free(pattern) => Element::Free(found_in(rt, alloc, pattern)?),
        })?;
    }
    Ok(elements)
}

fn check_left(
    rt: &impl Abort,
    alloc: Global,
    way: Option<Way>,
    left: Option<&[Left]>,
) -> Result<(), NoMemory> {
    let (Some(way), Some(left)) = (&way, left) else {
        assert!(rt; way.is_none() && left.is_none());
        return Ok(());
    };
    for &(at, inside, outside) in left {
        let slot = slot_at(alloc, at)?;
        let Some(set) = way.cell.set_of(&slot) else {
            rt.abort();
        };
        for text in inside {
            assert!(rt; set.accepts(text.as_bytes()), "{text}");
        }
        for text in outside {
            assert!(rt; !set.accepts(text.as_bytes()), "{text}");
        }
    }
    Ok(())
}

fn way_of(
    rt: &impl Abort,
    alloc: Global,
    row: &Row,
    cell: &Cell,
    held: bool,
) -> Result<Option<Way>, NoMemory> {
    let elements = elements_of(rt, alloc, row.hand)?;
    let hand = Hand {
        elements: &elements,
        off: row.off,
        side: &None,
    };
    let ties = Ties {
        origin_path: false,
        text_path: row.tied,
        text_name: false,
        query_first: false,
    };
    let set = found_in(rt, alloc, row.test)?;
    way_on_side(alloc, cell, ties, hand, Test { set: &set, held })
}

#[test]
fn a_test_has_two_ways(rt: HostRuntime) -> Result<(), NoMemory> {
    for row in ROWS {
        let cell = cell_of(&rt, rt.alloc(), row.sets)?;
        let held = way_of(&rt, rt.alloc(), row, &cell, true)?;
        check_left(&rt, rt.alloc(), held, row.held)?;
        let failed = way_of(&rt, rt.alloc(), row, &cell, false)?;
        check_left(&rt, rt.alloc(), failed, row.failed)?;
    }
    Ok(())
}
