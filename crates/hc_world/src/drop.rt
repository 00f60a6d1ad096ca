ghost use Rattle.std.specs.Prelude.{◌≡◌, ◌≢◌, true, not, Contains, IsSome, IfOk, OnOk, OnErr};
ghost use Rattle.std.specs.FinMap.{get, retain_keys};
ghost use Rattle.hc_model.specs.World.{IsWorld, is_path, name_in, parents, root};
ghost use Rattle.hc_world.specs.Drops.{HasRows, paths_of, paths_within, without, without_marked};
ghost use Rattle.hc_world.specs.Edits.{EditsFiles, dropped, is_within};
ghost use Rattle.hc_world.specs.Marks.{FilesMarked, Marks};
ghost use Rattle.hc_world.specs.Rows.{KeepsRows, SameRows};
ghost use Rattle.hc_world.specs.Slashes.{IsBelow};

use crate::changes::Rows;
use crate::entries::Files;
use crate::names::with_byte;
use crate::nodes::Nodes;
use crate::path::{is_path, next_slash};
use crate::world::WorldFault;
use hc_base::codes::{NO_SUCH_PATH, PATH_FORM};
use hc_base::{Fault, NoMemory};
use hc_model::Kind;
use std::alloc::Global;

/// Takes a path and all below it away.
pub(crate) fn drop_path(files: &mut Files, path: &[u8], number: u64) -> Result<(), WorldFault>
    requires { IsWorld files.old.nodes }
    ensures edit { EditsFiles result files.old.nodes files.new.nodes
        (dropped files.old.nodes path.now) }
    ensures valid { IsWorld files.new.nodes }
    ensures marked { FilesMarked result number files.old.nodes files.new.nodes files.old.rows files.new.rows }
{
    if !is_path(path) || path == b"/".as_slice() {
        return Err(Fault::Refused(PATH_FORM));
    }
    match files.nodes.kind(path) {
        Kind::Absent => Err(Fault::Refused(NO_SUCH_PATH)),
        _ => Ok(drop_present(files, path, number)?),
    }
}

// Takes away what is there. All that needs memory comes first, so that an error leaves all as it was.
fn drop_present(files: &mut Files, path: &[u8], number: u64) -> Result<(), NoMemory>
    requires world { IsWorld files.old.nodes }
    requires apart { path.now ≢ root }
    requires there { IsSome (get files.old.nodes path.now) }
    ensures made { OnOk result (files.new.nodes
        ≡ retain_keys files.old.nodes (λ other. not (is_within path.now other))) }
    ensures valid { OnOk result (IsWorld files.new.nodes) }
    ensures marked { OnOk result (Marks number files.old.nodes files.new.nodes files.old.rows files.new.rows) }
    ensures same { OnErr result (files.new.nodes ≡ files.old.nodes) }
    ensures rows { OnErr result (SameRows files.old.rows files.new.rows) }
{
    let paths = paths_within(files.alloc, &files.nodes, path)?;
    let directory = directory_of(b"/", path, 1);
    files.rows.make_row(files.alloc, directory)?;
    make_all_rows(files.alloc, &mut files.rows, &paths)?;
    take_away(files, &paths, number);
    files.rows.mark_names(directory, number);
    Ok(())
}

// A path that is there, and those below it.
fn paths_within(alloc: Global, nodes: &Nodes, path: &[u8]) -> Result<Vec<Vec<u8>>, NoMemory>
    ensures { IfOk result (λ paths.
        paths_of paths.items ≡ paths_within nodes.now path.now) }
{
    let front = with_byte(alloc, path, b'/')?;
    let mut paths = Vec::new(alloc);
    paths.push(path.to_vec(alloc)?)?;
    let mut place = with_byte(alloc, path, b'/')?;
    while let Some(below) = nodes.first_from(&place) {
        if !below.starts_with(&front) {
            return Ok(paths);
        }
        paths.push(below.to_vec(alloc)?)?;
        place = with_byte(alloc, below, 0)?;
    }
    Ok(paths)
}

// The directory that a path stands in: this one, or one that ends at or after `from`.
fn directory_of<'p>(directory: &'p [u8], path: &'p [u8], from: usize) -> &'p [u8]
    requires formed { is_path path.now ≡ true }
    requires below { IsBelow directory.now path.now from }
    ensures named { IsSome (name_in result.now path.now) }
    ensures above { Contains (parents path.now) result.now }
{
    match next_slash(path, from) {
        None => directory,
        Some(slash) => directory_of(&path[..slash], path, slash + 1),
    }
}

// Makes the rows of these paths, as `make_row` does.
fn make_all_rows(alloc: Global, rows: &mut Rows, paths: &[Vec<u8>]) -> Result<(), NoMemory>
    ensures same { SameRows rows.old rows.new }
    ensures kept { KeepsRows rows.old rows.new }
    ensures there { OnOk result (HasRows rows.new (paths_of paths.now)) }
{
    for path in paths {
        rows.make_row(alloc, path)?;
    }
    Ok(())
}

// Takes paths away, and marks what was there.
fn take_away(files: &mut Files, paths: &[Vec<u8>], number: u64)
    ensures world { files.new.nodes
        ≡ without files.old.nodes (paths_of paths.now) }
    ensures rows { files.new.rows
        ≡ without_marked files.old.nodes files.old.rows number
        (paths_of paths.now) }
{
    for path in paths {
        let path = path.as_slice();
        let is_dir = files.nodes.is_dir(path);
        files.nodes.remove(path);
        files.rows.mark_all(path, is_dir, number);
    }
}
