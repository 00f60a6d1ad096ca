ghost use Rattle.std.specs.Prelude.{◌≡◌, [], ◌∷◌, ◌++◌, IfOk, OnOk};
ghost use Rattle.std.specs.FinMap.{keys};
ghost use Rattle.std.specs.List.{filter_map, list_any};
ghost use Rattle.std.specs.Option.{option_map};
ghost use Rattle.hc_base.specs.Paths.{is_slash};
ghost use Rattle.hc_model.specs.World.{as_name, name_in, names_in};
ghost use Rattle.hc_world.specs.Places.{GoesOn, front_of, name_behind};

use crate::nodes::Nodes;
use crate::path::next_slash;
use hc_base::paths::ends_with_slash;
use hc_base::{List, NoMemory, Text};
use hc_model::Kind;
use std::alloc::Global;

/// The names in a directory, in byte order; none where there is no directory.
pub(crate) fn names(alloc: Global, nodes: &Nodes, directory: &[u8]) -> Result<List<Text>, NoMemory>
    ensures { IfOk result (λ names. names ≡ names_in nodes.now directory.now) }
{
    match nodes.kind(directory) {
        Kind::Dir => names_below(alloc, nodes, directory),
        _ => Ok(List::new(alloc)),
    }
}

fn names_below(alloc: Global, nodes: &Nodes, directory: &[u8]) -> Result<List<Text>, NoMemory>
    ensures { IfOk result (λ names.
        names ≡ filter_map (name_in directory.now) (keys nodes.now)) }
{
    let front = front_of(alloc, directory)?;
    let mut names = List::new(alloc);
    let mut place = Vec::new(alloc);
    while let Some(path) = nodes.first_from(&place) {
        push_name(alloc, &mut names, &front, path)?;
        match place_behind(alloc, &front, path)? {
            Some(next) => place = next,
            None => return Ok(names),
        }
    }
    Ok(names)
}

// What each path in a directory begins with.
fn front_of(alloc: Global, directory: &[u8]) -> Result<Vec<u8>, NoMemory>
    ensures { IfOk result (λ front. front.items ≡ front_of directory.now) }
{
    if ends_with_slash(directory) {
        Ok(directory.to_vec(alloc)?)
    } else {
        with_byte(alloc, directory, b'/')
    }
}

fn push_name(
    alloc: Global,
    names: &mut List<Text>,
    front: &[u8],
    path: &[u8],
) -> Result<(), NoMemory>
    ensures { OnOk result (names.new ≡ names.old ++ filter_map (name_behind front.now) (path.now ∷ [])) }
{
    match name_behind(front, path) {
        Some(name) => names.push(Text::copy_of(alloc, name)?),
        None => Ok(()),
    }
}

// The place at which the search for names goes on behind a path: none of the paths between them
// has a name there. None where no path behind this one has.
fn place_behind(alloc: Global, front: &[u8], path: &[u8]) -> Result<Option<Vec<u8>>, NoMemory>
    ensures { IfOk result (λ place. GoesOn front.now path.now (option_map (λ p. p.items) place)) }
{
    if path < front {
        return Ok(Some(front.to_vec(alloc)?));
    }
    if !path.starts_with(front) {
        return Ok(None);
    }
    match next_slash(path, front.len()) {
        None => Ok(Some(with_byte(alloc, path, 0)?)),
        // behind all that lies below this child
        Some(slash) => Ok(Some(with_byte(alloc, &path[..slash], b'/' + 1)?)),
    }
}

pub(crate) fn with_byte(alloc: Global, bytes: &[u8], byte: u8) -> Result<Vec<u8>, NoMemory>
    ensures { IfOk result (λ all. all.items ≡ bytes.now ++ byte ∷ []) }
{
    let mut all = bytes.to_vec(alloc)?;
    all.push(byte)?;
    Ok(all)
}

// The name of a path that begins with this.
fn name_behind<'p>(front: &[u8], path: &'p [u8]) -> Option<&'p [u8]>
    ensures { option_map (λ name. name.now) result ≡ name_behind front.now path.now }
{
    if path.starts_with(front) {
        as_name(&path[front.len()..])
    } else {
        None
    }
}

fn as_name(rest: &[u8]) -> Option<&[u8]>
    ensures { option_map (λ name. name.now) result ≡ as_name rest.now }
{
    if !rest.is_empty() && !has_slash(rest) {
        Some(rest)
    } else {
        None
    }
}

fn has_slash(bytes: &[u8]) -> bool
    ensures { result ≡ list_any is_slash bytes.now }
{
    bytes.iter().any(|b| *b == b'/')
}
