ghost use Rattle.std.specs.Prelude.{◌≡◌, true, Ok};
ghost use Rattle.std.specs.FinMap.{get, insert};
ghost use Rattle.hc_model.specs.Node.{is_file};
ghost use Rattle.hc_model.specs.World.{IsWorld, is_path, list_dir, put_file};
ghost use Rattle.hc_world.specs.Edits.{EditsFiles, IsEdit};
ghost use Rattle.hc_world.specs.Entries.{node_of, add_in};
ghost use Rattle.hc_world.specs.Marks.{FilesGrown, FilesMarked, IsPlace, IsStep};
ghost use Rattle.hc_world.specs.Rows.{KeepsRows, written};
ghost use Rattle.hc_world.specs.Slashes.{fronts_from};

use crate::changes::Rows;
use crate::nodes::{Entry, Nodes, is_dir};
use crate::path::{is_path, next_slash};
use crate::world::WorldFault;
use hc_base::Fault;
use hc_base::codes::{IS_DIRECTORY, PATH_FORM, UNDER_FILE};
use hc_model::Kind;
use std::alloc::Global;

/// What stands at each path, and the last edits that changed what is shown there.
#[derive(Drop)]
pub(crate) struct Files {
    pub(crate) alloc: Global,
    pub(crate) nodes: Nodes,
    pub(crate) rows: Rows,
}

/// Adds an entry at a path where nothing is, and the missing directories above it that end at or after
/// `from`, all below a directory that is there; and marks them. An error leaves all as it was.
pub(crate) fn add(
    files: &mut Files,
    directory: &[u8],
    path: &[u8],
    from: usize,
    entry: Entry,
    number: u64,
) -> Result<(), WorldFault>
    requires { IsPlace files.old.nodes directory.now path.now from }
    ensures edit { EditsFiles result files.old.nodes files.new.nodes
        (add_in files.old.nodes (fronts_from path.now from) path.now (node_of entry)) }
    ensures rows { KeepsRows files.old.rows files.new.rows }
    ensures marked { FilesGrown result number files.old.nodes files.new.nodes files.old.rows files.new.rows }
{
    let Some(slash) = next_slash(path, from) else {
        return add_last(files, directory, path, entry, number);
    };
    let above = &path[..slash];
    match files.nodes.kind(above) {
        Kind::File => Err(Fault::Refused(UNDER_FILE)),
        Kind::Dir => add(files, above, path, slash + 1, entry, number),
        Kind::Absent => {
            files.rows.make_rows(files.alloc, directory, above)?;
            files.nodes.insert(files.alloc, above, Entry::Dir)?;
            match add(files, above, path, slash + 1, entry, number) {
                Ok(()) => {
                    files.rows.mark_made(directory, above, true, number);
                    Ok(())
                }
                Err(fault) => {
                    files.nodes.remove(above);
                    Err(fault)
                }
            }
        }
    }
}

// Adds an entry in a directory that is there.
fn add_last(
    files: &mut Files,
    directory: &[u8],
    path: &[u8],
    entry: Entry,
    number: u64,
) -> Result<(), WorldFault>
    requires { IsStep files.old.nodes directory.now path.now }
    ensures edit { EditsFiles result files.old.nodes files.new.nodes
        (Ok (insert files.old.nodes path.now (node_of entry))) }
    ensures rows { KeepsRows files.old.rows files.new.rows }
    ensures marked { FilesGrown result number files.old.nodes files.new.nodes files.old.rows files.new.rows }
{
    files.rows.make_rows(files.alloc, directory, path)?;
    let is_dir = is_dir(&entry);
    files.nodes.insert(files.alloc, path, entry)?;
    files.rows.mark_made(directory, path, is_dir, number);
    Ok(())
}

// Makes what is not there yet, and its missing parents.
fn make(files: &mut Files, path: &[u8], entry: Entry, number: u64) -> Result<(), WorldFault>
    requires world { IsWorld files.old.nodes }
    requires formed { is_path path.now ≡ true }
    requires free { get files.old.nodes path.now ≡ None }
    ensures edit { EditsFiles result files.old.nodes files.new.nodes
        (put_file files.old.nodes path.now (node_of entry)) }
    ensures kept { IsEdit path.now files.old.nodes files.new.nodes }
    ensures marked { FilesMarked result number files.old.nodes files.new.nodes files.old.rows files.new.rows }
{
    add(files, b"/", path, 1, entry, number)
}

/// Makes or replaces the file at a path, and makes its missing parents.
pub(crate) fn put_file(
    files: &mut Files,
    path: &[u8],
    file: Entry,
    number: u64,
) -> Result<(), WorldFault>
    requires world { IsWorld files.old.nodes }
    requires file { is_file (Some (node_of file)) ≡ true }
    ensures edit { EditsFiles result files.old.nodes files.new.nodes
        (put_file files.old.nodes path.now (node_of file)) }
    ensures kept { IsEdit path.now files.old.nodes files.new.nodes }
    ensures marked { FilesMarked result number files.old.nodes files.new.nodes files.old.rows files.new.rows }
{
    if !is_path(path) {
        return Err(Fault::Refused(PATH_FORM));
    }
    // What stands at a path has no file above it, so this is no case of a parent that is a file.
    match files.nodes.kind(path) {
        Kind::Dir => Err(Fault::Refused(IS_DIRECTORY)),
        Kind::File => replace(files, path, file, number),
        Kind::Absent => make(files, path, file, number),
    }
}

/// Makes the directory at a path, and its missing parents. One that is there stays.
pub(crate) fn make_dir(files: &mut Files, path: &[u8], number: u64) -> Result<(), WorldFault>
    requires { IsWorld files.old.nodes }
    ensures edit { EditsFiles result files.old.nodes files.new.nodes
        (list_dir files.old.nodes path.now) }
    ensures kept { IsEdit path.now files.old.nodes files.new.nodes }
    ensures marked { FilesMarked result number files.old.nodes files.new.nodes files.old.rows files.new.rows }
{
    if !is_path(path) {
        return Err(Fault::Refused(PATH_FORM));
    }
    match files.nodes.kind(path) {
        Kind::File => Err(WorldFault::Refused(UNDER_FILE)),
        Kind::Dir => Ok(()),
        Kind::Absent => make(files, path, Entry::Dir, number),
    }
}

/// Puts another file in a file's place.
pub(crate) fn replace(
    files: &mut Files,
    path: &[u8],
    file: Entry,
    number: u64,
) -> Result<(), WorldFault>
    requires there { is_file (get files.old.nodes path.now) ≡ true }
    requires file { is_file (Some (node_of file)) ≡ true }
    ensures edit { EditsFiles result files.old.nodes files.new.nodes
        (Ok (insert files.old.nodes path.now (node_of file))) }
    ensures marked { FilesMarked result number files.old.nodes files.new.nodes files.old.rows files.new.rows }
{
    files.rows.make_row(files.alloc, path)?;
    let same = files.nodes.has_text(path, &file);
    files.nodes.insert(files.alloc, path, file)?;
    mark_written(&mut files.rows, path, same, number);
    Ok(())
}

// Marks a file that was written over, unless it has the same text.
fn mark_written(rows: &mut Rows, path: &[u8], same: bool, number: u64)
    ensures { rows.new ≡ written rows.old path.now same number }
{
    if !same {
        rows.mark_text(path, number);
    }
}
