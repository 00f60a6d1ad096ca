use crate::languages::found_in;
use hc_base::NoMemory;
use hc_cells::{Cell, Containment, Slot, Ties, is_empty, restrict, with, within};
use std::alloc::Global;
use std::process::Abort;

/// A slot of a table.
#[derive(Clone, Copy)]
pub enum At {
    Origin,
    Path,
    Query,
    First,
    Text,
    Name,
    Info,
    Env(&'static str),
    Header(&'static str),
}

pub fn slot_at(alloc: Global, at: At) -> Result<Slot, NoMemory> {
    match at {
        At::Origin => Ok(Slot::Origin),
        At::Path => Ok(Slot::Path),
        At::Query => Ok(Slot::Query),
        At::First => Ok(Slot::FirstQuery),
        At::Text => Ok(Slot::Text),
        At::Name => Ok(Slot::Name),
        At::Info => Ok(Slot::Info),
        At::Env(name) => Ok(Slot::Env(hc_base::Text::copy_of(alloc, name.as_bytes())?)),
        At::Header(name) => Slot::header(alloc, name.as_bytes()),
    }
}

/// A cell with these sets, as patterns that are found in their texts.
pub fn cell_of(
    rt: &impl Abort,
    alloc: Global,
    sets: &[(At, &'static str)],
) -> Result<Cell, NoMemory> {
    let mut cell = Cell::all(alloc)?;
    for &(at, pattern) in sets {
        let set = found_in(rt, alloc, pattern)?;
        cell = restrict(alloc, &cell, &slot_at(alloc, at)?, &set)?;
    }
    Ok(cell)
}

// The sets of a cell, a slot, and texts that it holds and that it doesn't.
static SETS: &[(&[(At, &str)], At, &[&str], &[&str])] = &[
    (&[], At::Path, &["", "x"], &[]),
    (&[(At::Path, "^/a")], At::Path, &["/a", "/ab"], &["a", ""]),
    (&[(At::Path, "^/a")], At::Origin, &["", "a"], &[]),
    (
        &[(At::Path, "^/a"), (At::Query, "b"), (At::Path, "c$")],
        At::Path,
        &["/ac", "/abc"],
        &["/a", "/c"],
    ),
    (
        &[(At::Env("x"), "^1$"), (At::Env("X"), "^2$")],
        At::Env("x"),
        &["1"],
        &["2"],
    ),
    (
        &[(At::Header("Accept"), "^a$")],
        At::Header("aCCEPT"),
        &["a"],
        &["b"],
    ),
    (
        &[(At::Header("accept"), "^a$")],
        At::Env("accept"),
        &["a", "b"],
        &[],
    ),
];

#[test]
fn a_slot_holds_what_its_sets_have_in_common(rt: HostRuntime) -> Result<(), NoMemory> {
    for &(sets, at, inside, outside) in SETS {
        let cell = cell_of(&rt, rt.alloc(), sets)?;
        let slot = slot_at(rt.alloc(), at)?;
        for text in inside {
            assert!(rt;
                cell.set_of(&slot)
                    .is_none_or(|set| set.accepts(text.as_bytes())),
                "{text}"
            );
        }
        for text in outside {
            assert!(rt;
                cell.set_of(&slot)
                    .is_some_and(|set| !set.accepts(text.as_bytes())),
                "{text}"
            );
        }
    }
    Ok(())
}

#[test]
fn a_set_is_put_in_the_place_of_another(rt: HostRuntime) -> Result<(), NoMemory> {
    let cell = cell_of(&rt, rt.alloc(), &[(At::Path, "^/a$"), (At::Query, "^$")])?;
    let other = found_in(&rt, rt.alloc(), "^/b$")?;
    let put = with(rt.alloc(), &cell, &Slot::Path, &other)?;
    assert!(rt; put.only_of(&Slot::Path) == Some(b"/b".as_slice()));
    assert!(rt; put.only_of(&Slot::Query) == Some(b"".as_slice()));
    assert!(rt; cell.only_of(&Slot::Path) == Some(b"/a".as_slice()));
    assert!(rt; put.only_of(&Slot::Text).is_none());
    Ok(())
}

// Two cells, and the first slot that isn't within with its least text outside.
static WITHIN: &[(&[(At, &str)], &[(At, &str)], Option<(At, &str)>)] = &[
    (&[], &[], None),
    (&[(At::Path, "^/a$")], &[(At::Path, "^/")], None),
    (&[(At::Path, "^/a$")], &[], None),
    (&[], &[(At::Path, "^/")], Some((At::Path, ""))),
    (
        &[(At::Path, "^/[ab]$"), (At::Query, "^[bc]$")],
        &[(At::Query, "b"), (At::Path, "b")],
        Some((At::Path, "/a")),
    ),
    (
        &[(At::Path, "^/b$"), (At::Query, "^[bc]$")],
        &[(At::Query, "b"), (At::Path, "b")],
        Some((At::Query, "c")),
    ),
    (
        &[(At::Header("x"), "^$")],
        &[(At::Header("X"), "a"), (At::Env("x"), "a")],
        Some((At::Env("x"), "")),
    ),
];

#[test]
fn a_cell_is_within_another_slot_by_slot(rt: HostRuntime) -> Result<(), NoMemory> {
    for &(first, second, outside) in WITHIN {
        let a = cell_of(&rt, rt.alloc(), first)?;
        let b = cell_of(&rt, rt.alloc(), second)?;
        match (within(rt.alloc(), &a, &b)?, outside) {
            (Containment::Yes, None) => {}
            (Containment::No { slot, text }, Some((at, least))) => {
                assert!(rt; slot == slot_at(rt.alloc(), at)?);
                assert!(rt; text.as_bytes() == least.as_bytes());
            }
            _ => rt.abort(),
        }
    }
    Ok(())
}

#[test]
fn a_cell_is_empty_where_one_slot_is(rt: HostRuntime) -> Result<(), NoMemory> {
    let some = cell_of(&rt, rt.alloc(), &[(At::Path, "^/a$"), (At::Query, "^$")])?;
    assert!(rt; !is_empty(rt.alloc(), &some)?);
    let none = cell_of(&rt, rt.alloc(), &[(At::Path, "^/a$"), (At::Query, "a^")])?;
    assert!(rt; is_empty(rt.alloc(), &none)?);
    Ok(())
}

// Ties (origin and path, text and path, text and name, query and first query), a slot, and the slots that hold one
// value with it.
static TIES: &[([bool; 4], At, &[At])] = &[
    ([true, true, true, false], At::Query, &[]),
    ([true, true, true, false], At::First, &[]),
    ([false, false, false, true], At::Query, &[At::First]),
    ([true, true, true, true], At::First, &[At::Query]),
    (
        [true, true, true, true],
        At::Origin,
        &[At::Path, At::Text, At::Name],
    ),
    (
        [true, true, true, true],
        At::Path,
        &[At::Origin, At::Text, At::Name],
    ),
    (
        [true, true, true, true],
        At::Text,
        &[At::Path, At::Origin, At::Name],
    ),
    (
        [true, true, true, true],
        At::Name,
        &[At::Text, At::Path, At::Origin],
    ),
    ([true, false, true, true], At::Path, &[At::Origin]),
    ([true, false, true, true], At::Text, &[At::Name]),
    ([false, true, false, true], At::Origin, &[]),
    ([false, true, false, true], At::Path, &[At::Text]),
];

#[test]
fn ties_are_a_chain_and_a_pair(rt: HostRuntime) -> Result<(), NoMemory> {
    for &([origin_path, text_path, text_name, query_first], at, slots) in TIES {
        let ties = Ties {
            origin_path,
            text_path,
            text_name,
            query_first,
        };
        let tied = ties.tied_to(rt.alloc(), &slot_at(rt.alloc(), at)?)?;
        assert!(rt; tied.as_slice().len() == slots.len());
        for (slot, at) in tied.as_slice().iter().zip(slots.iter()) {
            assert!(rt; *slot == slot_at(rt.alloc(), *at)?);
        }
    }
    Ok(())
}
