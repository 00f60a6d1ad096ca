//! The branches of the walk along a name.

use crate::rules::{How, ROOM, Row, before_of, world_of};
use crate::shown::shown_walks;
use hc_abs_pass::{Named, walk_branches};
use hc_base::NoMemory;
use hc_cells::Slot;
use hc_plan::Element;
use hc_world::{ListKind, World, WorldFault};
use std::alloc::Global;
use std::process::Abort;

/// The files `/d/g`, `/f`, `/m` and `/map`; the name is that of the slot `text`.
static ROWS: &[Row] = &[
    Row {
        how: How::Server,
        rules: "",
        sets: &[("text", "^/$")],
        branches: "dir in /, text /, info , name /\n",
    },
    Row {
        how: How::Server,
        rules: "",
        sets: &[("text", "^/f(/i)?$")],
        branches: "file in /, text /f /f/i, info  /i, name /f\n",
    },
    Row {
        how: How::Server,
        rules: "",
        sets: &[("text", "^/d/?$")],
        branches: "dir in / /d, text /d, info , name /d\ndir in / /d, text /d/, info , name /d/\n",
    },
    Row {
        how: How::Server,
        rules: "",
        sets: &[("text", "^/d/g/x/$")],
        branches: "file in / /d, text /d/g/x/, info /x/, name /d/g\n",
    },
    Row {
        how: How::Server,
        rules: "",
        sets: &[("text", "^/(d/h|g)(/j)?$")],
        branches: "absent in / /d, text /d/h /d/h/j, info  /j, name /d/h\n\
                   absent in /, text /g /g/j, info  /j, name /g\n",
    },
    Row {
        how: How::Server,
        rules: "",
        sets: &[("text", "^/(map|m|d/g|d|)$")],
        branches: "dir in /, text /, info , name /\ndir in / /d, text /d, info , name /d\n\
                   file in / /d, text /d/g, info , name /d/g\nfile in /, text /m, info , name /m\n\
                   file in /, text /map, info , name /map\n",
    },
    Row {
        how: How::Server,
        rules: "",
        sets: &[("text", "^/(x|y/z)$")],
        branches: "absent in /, text /x /y/z, info  /z, name /x /y\n",
    },
    Row {
        how: How::Tied,
        rules: "",
        sets: &[("path", "^/[fg]$"), ("text", "^/[fg]$")],
        branches: "file in /, path /f, text /f, info , name /f, tied\n\
                   absent in /, path /g, text /g, info , name /g, tied\n",
    },
    Row {
        how: How::Server,
        rules: "",
        sets: &[("text", "^a$")],
        branches: "",
    },
];

fn walked_world(alloc: Global, row: &Row) -> Result<World, WorldFault> {
    let mut world = world_of(alloc, row)?;
    if world.edits() < u64::MAX {
        world.list(b"/d/g", ListKind::File)?;
    }
    Ok(world)
}

fn shown(
    rt: &impl Abort,
    alloc: Global,
    row: &Row,
    world: &World,
    room: u64,
) -> Result<Vec<u8>, NoMemory> {
    let mut text = Vec::new(alloc);
    text.push(Element::Open(Slot::Text, 0))?;
    let named = Named {
        tied: before_of(rt, alloc, row)?,
        text,
        side: None,
    };
    let found = walk_branches(alloc, world, named, room)?;
    shown_walks(alloc, &found)
}

#[test]
fn a_walk_has_its_branches(rt: HostRuntime) -> Result<(), WorldFault> {
    let alloc = rt.alloc();
    for row in ROWS {
        let world = walked_world(alloc, row)?;
        let shown = shown(&rt, alloc, row, &world, ROOM)?;
        let wanted = row.branches;
        if shown.as_slice() != wanted.as_bytes() {
            let shown = str::from_utf8(&shown).unwrap_or("no text");
            panic!(rt; "{shown} for {wanted}");
        }
    }
    Ok(())
}
