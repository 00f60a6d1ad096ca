//! The ends of a walk over a world, in order: at each directory from `/` down its own text, the text with a slash, each
//! name in it, and last a component by which nothing stands there.
ghost use Rattle.std.specs.Prelude.{◌≡◌, ◌∷◌, [], ◌++◌, IfOk, OnOk, slice_get};
ghost use Rattle.hc_steps.specs.Shown.{shown_by};
ghost use Rattle.hc_abs_pass.specs.Walking.{Adds, AreEnds, added_by, added_next, entered, file_at, inside};
ghost use Rattle.hc_abs_pass.specs.Walking.{other_named, root_directory, slashed, unslashed, with_none};
ghost use Rattle.hc_abs_pass.specs.Walks.{is_absent};

use hc_base::{List, NoMemory, Text};
use hc_model::Kind;
use hc_world::World;
use std::alloc::Global;

/// A directory that is followed: its path, this with a slash, and all directories up to it.
#[derive(Drop)]
pub struct Directory {
    pub path: Text,
    pub front: Text,
    pub dirs: List<Text>,
}

/// What follows the front of an end: nothing; nothing, or a slash and more; a component that is none of these, with
/// what follows it.
#[derive(Drop)]
pub enum Behind {
    Nothing,
    Info,
    Other(List<Text>),
}

/// An end of a walk: the texts that lead to it, what stands there, and the directories that were followed.
#[derive(Drop)]
pub struct End {
    pub front: Text,
    pub behind: Behind,
    pub kind: Kind,
    pub dirs: List<Text>,
}

/// A directory that was entered, its names, and which of them is the next.
#[derive(Drop)]
struct Frame {
    at: Directory,
    names: List<Text>,
    next: usize,
}

/// How many names and directories of a world are looked at: where it has more, it is refused as memory is.
const MOST_TURNS: u32 = u32::MAX;

/// The ends of the walk over a world, in order.
pub fn ends_of_walk(alloc: Global, world: &World) -> Result<Vec<End>, NoMemory>
    ensures { IfOk result (λ ends. AreEnds (shown_by world.now.files) ends.items) }
{
    let mut ends = Vec::new(alloc);
    let mut frames = Vec::new(alloc);
    enter(world, root_directory(alloc)?, &mut ends, &mut frames)?;
    for _turn in 0..MOST_TURNS {
        let Some(frame) = frames.pop() else {
            return Ok(ends);
        };
        add_next(alloc, world, frame, &mut ends, &mut frames)?;
    }
    Err(NoMemory)
}

fn root_directory(alloc: Global) -> Result<Directory, NoMemory>
    ensures { IfOk result (λ made. made ≡ root_directory) }
{
    let mut dirs = List::new(alloc);
    dirs.push(Text::copy_of(alloc, b"/")?)?;
    Ok(Directory {
        path: Text::copy_of(alloc, b"/")?,
        front: Text::copy_of(alloc, b"/")?,
        dirs,
    })
}

/// Adds the text of a directory with a slash, and enters it.
fn enter(
    world: &World,
    at: Directory,
    ends: &mut Vec<End>,
    frames: &mut Vec<Frame>,
) -> Result<(), NoMemory>
    ensures { OnOk result (Adds (slashed at ∷ [], entered (shown_by world.now.files) at ∷ []) ends.old.items
        ends.new.items frames.old.items frames.new.items) }
{
    ends.push(slashed(&at)?)?;
    let names = world.names(at.path.as_bytes())?;
    frames.push(Frame { at, names, next: 0 })?;
    Ok(())
}

fn slashed(at: &Directory) -> Result<End, NoMemory>
    ensures { IfOk result (λ end. end ≡ slashed at.now) }
{
    Ok(End {
        front: at.front.clone()?,
        behind: Behind::Nothing,
        kind: Kind::Dir,
        dirs: at.dirs.copy()?,
    })
}

fn unslashed(at: &Directory) -> Result<End, NoMemory>
    ensures { IfOk result (λ end. end ≡ unslashed at.now) }
{
    Ok(End {
        front: at.path.clone()?,
        behind: Behind::Nothing,
        kind: Kind::Dir,
        dirs: at.dirs.copy()?,
    })
}

/// Adds what the next name of a frame leads to.
fn add_next(
    alloc: Global,
    world: &World,
    frame: Frame,
    ends: &mut Vec<End>,
    frames: &mut Vec<Frame>,
) -> Result<(), NoMemory>
    ensures { OnOk result (Adds (added_next (shown_by world.now.files) frame (slice_get frame.names frame.next))
        ends.old.items ends.new.items frames.old.items frames.new.items) }
{
    let Some(name) = frame.names.as_slice().get(frame.next) else {
        ends.push(other_named(world, frame)?)?;
        return Ok(());
    };
    let path = joined(alloc, &frame.at.front, name)?;
    let frame = Frame {
        next: frame.next + 1,
        ..frame
    };
    let kind = world.kind(path.as_bytes());
    add_by(alloc, world, frame, path, kind, ends, frames)?;
    Ok(())
}

/// By what stands at a path.
fn add_by(
    alloc: Global,
    world: &World,
    frame: Frame,
    path: Text,
    kind: Kind,
    ends: &mut Vec<End>,
    frames: &mut Vec<Frame>,
) -> Result<(), NoMemory>
    ensures { OnOk result (Adds (added_by (shown_by world.now.files) frame path kind) ends.old.items ends.new.items
        frames.old.items frames.new.items) }
{
    match kind {
        Kind::Absent => {
            frames.push(frame)?;
            Ok(())
        }
        Kind::File => {
            ends.push(file_at(path, &frame.at)?)?;
            frames.push(frame)?;
            Ok(())
        }
        Kind::Dir => {
            let at = inside(alloc, path, &frame.at)?;
            frames.push(frame)?;
            ends.push(unslashed(&at)?)?;
            enter(world, at, ends, frames)?;
            Ok(())
        }
    }
}

fn file_at(path: Text, at: &Directory) -> Result<End, NoMemory>
    ensures { IfOk result (λ end. end ≡ file_at at.now path) }
{
    Ok(End {
        front: path,
        behind: Behind::Info,
        kind: Kind::File,
        dirs: at.dirs.copy()?,
    })
}

/// The directory at a path in another one.
fn inside(alloc: Global, path: Text, at: &Directory) -> Result<Directory, NoMemory>
    ensures { IfOk result (λ made. made ≡ inside at.now path) }
{
    let front = joined(alloc, &path, &Text::copy_of(alloc, b"/")?)?;
    let mut dirs = at.dirs.copy()?;
    dirs.push(path.clone()?)?;
    Ok(Directory { path, front, dirs })
}

/// One text behind the other.
fn joined(alloc: Global, first: &Text, rest: &Text) -> Result<Text, NoMemory>
    ensures { IfOk result (λ both. both ≡ first.now ++ rest.now) }
{
    let mut bytes = first.as_bytes().to_vec(alloc)?;
    bytes.extend_from_slice(rest.as_bytes())?;
    Ok(Text::from(bytes))
}

/// A component by which nothing stands in a directory.
fn other_named(world: &World, frame: Frame) -> Result<End, NoMemory>
    ensures { IfOk result (λ end. end ≡ other_named (shown_by world.now.files) frame.at frame.names) }
{
    let Frame { at, names, .. } = frame;
    let kind = world.kind(at.front.as_bytes());
    let names = with_none(is_absent(kind), names)?;
    Ok(End {
        front: at.front,
        behind: Behind::Other(names),
        kind: Kind::Absent,
        dirs: at.dirs,
    })
}

fn is_absent(kind: Kind) -> bool
    ensures { result ≡ is_absent kind }
{
    match kind {
        Kind::Absent => true,
        Kind::Dir => false,
        Kind::File => false,
    }
}

/// With the empty component, where the front itself is something.
fn with_none(absent: bool, names: List<Text>) -> Result<List<Text>, NoMemory>
    ensures { IfOk result (λ all. all ≡ with_none absent names) }
{
    if absent {
        return Ok(names);
    }
    let mut names = names;
    let none = Text::new(names.allocator());
    names.push(none)?;
    Ok(names)
}
