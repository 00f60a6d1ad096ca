ghost use Rattle.std.specs.Prelude.{◌≡◌, ◌∷◌, ◌++◌, [], IfOk, filter, map};
ghost use Rattle.hc_base.specs.Gives.{Gives};
ghost use Rattle.hc_steps.specs.Ran.{Takes};
ghost use Rattle.hc_steps.specs.Shown.{shown_by};
ghost use Rattle.hc_steps.specs.Step.{in_order};
ghost use Rattle.hc_model.specs.World.{root};
ghost use Rattle.hc_include.specs.Include.{components_from, components_of, followed, in_directory, is_some_byte};
ghost use Rattle.hc_include.specs.Include.{is_there, matches, parts_of, paths_among, paths_of, texts_of};
ghost use Rattle.hc_include.specs.Include.{with_found, with_names, with_text};

use crate::component::{Component, component_of, matches};
use hc_base::{AtByte, Fault, List, NoMemory, Text};
use hc_model::{Kind, Regex};
use hc_steps::Log;
use hc_world::{FoundText, World, names_at, text_at};
use std::alloc::Global;

/// What is there of the paths that an Include names (Apache manual, core).
#[derive(Drop)]
pub struct Candidates {
    pub files: List<Text>,
    /// Some of it has no text.
    pub lacks_text: bool,
}

/// The components of a path.
pub(crate) fn components_of(alloc: Global, path: &[u8]) -> Result<List<Component>, Fault<AtByte>>
    ensures { Gives result (components_of path.now) }
{
    let parts = parts_of(alloc, path)?;
    components_among(alloc, parts.as_slice())
}

// The parts of a path that are not empty.
fn parts_of(alloc: Global, path: &[u8]) -> Result<List<Text>, NoMemory>
    ensures { IfOk result (λ parts. parts ≡ parts_of path.now) }
{
    let mut parts = List::new(alloc);
    for part in path.split(|byte| *byte == b'/') {
        parts = with_part(alloc, parts, part)?;
    }
    Ok(parts)
}

fn with_part(alloc: Global, mut parts: List<Text>, part: &[u8]) -> Result<List<Text>, NoMemory>
    ensures { IfOk result (λ later. later ≡ parts ++ filter is_some_byte (part.now ∷ [])) }
{
    if !part.is_empty() {
        parts.push(Text::copy_of(alloc, part)?)?;
    }
    Ok(parts)
}

fn components_among(alloc: Global, parts: &[Text]) -> Result<List<Component>, Fault<AtByte>>
    ensures { Gives result (components_from [] parts.now) }
{
    let mut components = List::new(alloc);
    for part in parts {
        match component_of(alloc, part.as_bytes()) {
            Ok(component) => components.push(component)?,
            Err(fault) => return Err(fault),
        }
    }
    Ok(components)
}

/// The paths that components name.
#[tactic(auto, unfolding(crate::specs::Include::paths_of), using(hc_steps::proofs::Going::ran_no_memory))]
pub(crate) fn paths_of(
    world: &World,
    log: &mut Log,
    components: &List<Component>,
) -> Result<List<Text>, Fault<AtByte>>
    ensures { Takes result log (paths_of components.now) (shown_by world.now.files) }
{
    let paths = at_root(log.allocator())?;
    followed_on(world, log, paths, components.as_slice())
}

#[tactic(auto, using(hc_steps::proofs::Going::items))]
fn followed_on(
    world: &World,
    log: &mut Log,
    mut paths: List<Text>,
    components: &[Component],
) -> Result<List<Text>, Fault<AtByte>>
    ensures { Takes result log (in_order followed paths components.now) (shown_by world.now.files) }
{
    for component in components {
        paths = followed(world, log, paths, component)?;
    }
    Ok(paths)
}

fn at_root(alloc: Global) -> Result<List<Text>, NoMemory>
    ensures { IfOk result (λ paths. paths ≡ root ∷ []) }
{
    let mut paths = List::new(alloc);
    paths.push(Text::copy_of(alloc, b"/")?)?;
    Ok(paths)
}

#[tactic(auto, unfolding(crate::specs::Include::followed), using(hc_steps::proofs::Going::telling))]
fn followed(
    world: &World,
    log: &mut Log,
    paths: List<Text>,
    component: &Component,
) -> Result<List<Text>, Fault<AtByte>>
    ensures { Takes result log (followed paths component.now) (shown_by world.now.files) }
{
    match component {
        Component::Name(name) => Ok(below_each(log.allocator(), paths.as_slice(), name)?),
        Component::Glob(glob) => names_of(world, log, glob, paths.as_slice()),
    }
}

fn below_each(alloc: Global, paths: &[Text], name: &Text) -> Result<List<Text>, NoMemory>
    ensures { IfOk result (λ below. below ≡ map (λ path. in_directory path name.now) paths.now) }
{
    let mut below = List::new(alloc);
    for path in paths {
        below.push(in_directory(alloc, path, name)?)?;
    }
    Ok(below)
}

// The path of a name in a directory.
fn in_directory(alloc: Global, directory: &Text, name: &Text) -> Result<Text, NoMemory>
    ensures { IfOk result (λ path. path ≡ in_directory directory.now name.now) }
{
    let directory = directory.as_bytes();
    let mut path = directory.to_vec(alloc)?;
    if directory.len() != 1 {
        path.push(b'/')?;
    }
    path.extend_from_slice(name.as_bytes())?;
    Ok(Text::from(path))
}

// The paths of the names in these directories that the glob matches.
#[tactic(auto, using(hc_steps::proofs::Going::items))]
fn names_of(
    world: &World,
    log: &mut Log,
    glob: &Regex,
    directories: &[Text],
) -> Result<List<Text>, Fault<AtByte>>
    ensures { Takes result log (in_order (with_names glob.now) [] directories.now) (shown_by world.now.files) }
{
    let mut paths = List::new(log.allocator());
    for directory in directories {
        paths = with_names(world, log, glob, paths, directory)?;
    }
    Ok(paths)
}

#[tactic(auto, unfolding(crate::specs::Include::with_names), using(hc_steps::proofs::Going::telling))]
fn with_names(
    world: &World,
    log: &mut Log,
    glob: &Regex,
    paths: List<Text>,
    directory: &Text,
) -> Result<List<Text>, Fault<AtByte>>
    ensures { Takes result log (with_names glob.now paths directory.now) (shown_by world.now.files) }
{
    let names = names_at(world, log, directory.as_bytes())?;
    Ok(with_matching(log.allocator(), paths, glob, directory, names)?)
}

fn with_matching(
    alloc: Global,
    paths: List<Text>,
    glob: &Regex,
    directory: &Text,
    names: Option<List<Text>>,
) -> Result<List<Text>, NoMemory>
    ensures { IfOk result (λ later. later ≡ paths ++ paths_among glob.now directory.now names) }
{
    match names {
        Some(names) => with_paths(alloc, paths, glob, directory, names.as_slice()),
        None => Ok(paths),
    }
}

// The paths of the names that the glob matches, behind others.
fn with_paths(
    alloc: Global,
    mut paths: List<Text>,
    glob: &Regex,
    directory: &Text,
    names: &[Text],
) -> Result<List<Text>, NoMemory>
    ensures { IfOk result (λ later.
        later ≡ paths ++ map (in_directory directory.now) (filter (matches glob.now) names.now)) }
{
    for name in names {
        if matches(alloc, glob, name.as_bytes())? {
            paths.push(in_directory(alloc, directory, name)?)?;
        }
    }
    Ok(paths)
}

/// What is there of some paths.
#[tactic(auto, unfolding(crate::specs::Include::texts_of))]
pub(crate) fn texts_of(
    world: &World,
    log: &mut Log,
    paths: &List<Text>,
) -> Result<Candidates, Fault<AtByte>>
    ensures { Takes result log (texts_of paths.now) (shown_by world.now.files) }
{
    let among = Candidates {
        files: List::new(log.allocator()),
        lacks_text: false,
    };
    texts_on(world, log, among, paths.as_slice())
}

#[tactic(auto, using(hc_steps::proofs::Going::items))]
fn texts_on(
    world: &World,
    log: &mut Log,
    mut among: Candidates,
    paths: &[Text],
) -> Result<Candidates, Fault<AtByte>>
    ensures { Takes result log (in_order with_text among paths.now) (shown_by world.now.files) }
{
    for path in paths {
        among = with_text(world, log, among, path)?;
    }
    Ok(among)
}

#[tactic(auto, unfolding(crate::specs::Include::with_text), using(hc_steps::proofs::Going::telling))]
fn with_text(
    world: &World,
    log: &mut Log,
    among: Candidates,
    path: &Text,
) -> Result<Candidates, Fault<AtByte>>
    ensures { Takes result log (with_text among path.now) (shown_by world.now.files) }
{
    let found = text_at(world, log, path.as_bytes())?;
    Ok(with_found(among, path, &found)?)
}

fn with_found(among: Candidates, path: &Text, found: &FoundText) -> Result<Candidates, NoMemory>
    ensures { IfOk result (λ later. later ≡ with_found among path.now found.now) }
{
    if !is_there(found.kind()) {
        return Ok(among);
    }
    let mut files = among.files;
    files.push(path.clone()?)?;
    Ok(Candidates {
        files,
        lacks_text: among.lacks_text || found.text().is_none(),
    })
}

/// Something stands there.
pub(crate) fn is_there(kind: Kind) -> bool
    ensures { result ≡ is_there kind }
{
    match kind {
        Kind::Absent => false,
        Kind::Dir => true,
        Kind::File => true,
    }
}
