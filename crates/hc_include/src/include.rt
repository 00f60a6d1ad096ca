ghost use Rattle.std.specs.Prelude.{◌≡◌, ◌++◌, ◌∷◌, IfOk, Ok};
ghost use Rattle.std.specs.List.{list_any};
ghost use Rattle.hc_base.specs.Bytes.{slash};
ghost use Rattle.hc_base.specs.Gives.{Gives};
ghost use Rattle.hc_steps.specs.Ran.{Takes};
ghost use Rattle.hc_steps.specs.Shown.{shown_by};
ghost use Rattle.hc_include.specs.Include.{below_root, components_at, files_among, files_named, include_files};
ghost use Rattle.hc_include.specs.Include.{include_refusal, is_around, path_of};
ghost use Rattle.hc_says.specs.Says.{is_among};

use crate::around::Around;
use crate::candidates::{Candidates, components_of, paths_of, texts_of};
use crate::component::Component;
use crate::order::in_byte_order;
use hc_base::codes::{
    CONTENT_MISSING, INCLUDE_CYCLE, INCLUDE_MISSING, INCLUDE_TOO_DEEP, NO_SERVER_ROOT,
};
use hc_base::paths::begins_with_slash;
use hc_base::{AtByte, Fault, List, NoMemory, Text};
use hc_says::Utf8;
use hc_steps::Log;
use hc_world::World;
use std::alloc::Global;

/// The files that an Include reads (Apache manual, core, Include, IncludeOptional).
#[tactic(auto, unfolding(crate::specs::Include::files_named), using(hc_steps::proofs::Going::telling))]
pub(crate) fn include_files(
    world: &World,
    log: &mut Log,
    around: &Around,
    optional: bool,
    root: &Option<Utf8>,
    path: &Utf8,
) -> Result<List<Text>, Fault<AtByte>>
    ensures { Takes result log (include_files around.now optional root.now path.now) (shown_by world.now.files) }
{
    match components_at(log.allocator(), root, path) {
        Ok(components) => files_named(world, log, around, optional, &components),
        Err(fault) => Err(fault),
    }
}

#[tactic(auto, unfolding(crate::specs::Include::files_named), using(hc_steps::proofs::Going::going))]
fn files_named(
    world: &World,
    log: &mut Log,
    around: &Around,
    optional: bool,
    components: &List<Component>,
) -> Result<List<Text>, Fault<AtByte>>
    ensures { Takes result log (files_named around.now optional (Ok components.now)) (shown_by world.now.files) }
{
    let paths = paths_of(world, log, components)?;
    let among = texts_of(world, log, &paths)?;
    files_among(log.allocator(), around, optional, among)
}

// The components of its path.
fn components_at(
    alloc: Global,
    root: &Option<Utf8>,
    path: &Utf8,
) -> Result<List<Component>, Fault<AtByte>>
    ensures { Gives result (components_at (path_of root.now path.now)) }
{
    match path_of(alloc, root, path) {
        Ok(full) => components_of(alloc, full.as_bytes()),
        Err(fault) => Err(fault),
    }
}

fn path_of(alloc: Global, root: &Option<Utf8>, path: &Utf8) -> Result<Text, Fault<AtByte>>
    ensures { Gives result (path_of root.now path.now) }
{
    let bytes = path.as_str().as_bytes();
    if begins_with_slash(bytes) {
        return Ok(Text::copy_of(alloc, bytes)?);
    }
    below_root(alloc, root, path)
}

fn below_root(alloc: Global, root: &Option<Utf8>, path: &Utf8) -> Result<Text, Fault<AtByte>>
    ensures { Gives result (below_root root.now path.now) }
{
    match root {
        Some(directory) => Ok(joined(alloc, directory, path)?),
        None => Err(Fault::Refused(AtByte::rule(NO_SERVER_ROOT))),
    }
}

fn joined(alloc: Global, directory: &Utf8, path: &Utf8) -> Result<Text, NoMemory>
    ensures { IfOk result (λ full. full ≡ directory.now ++ slash ∷ path.now) }
{
    let mut full = directory.as_str().as_bytes().to_vec(alloc)?;
    full.push(b'/')?;
    full.extend_from_slice(path.as_str().as_bytes())?;
    Ok(Text::from(full))
}

fn files_among(
    alloc: Global,
    around: &Around,
    optional: bool,
    among: Candidates,
) -> Result<List<Text>, Fault<AtByte>>
    ensures { Gives result (files_among around.now optional among) }
{
    match include_refusal(around, optional, &among) {
        Some(code) => Err(Fault::Refused(AtByte::rule(code))),
        None => Ok(in_byte_order(alloc, among.files.as_slice())?),
    }
}

// Why the files can't be read where the reading stands.
fn include_refusal(around: &Around, optional: bool, among: &Candidates) -> Option<u8>
    ensures { result ≡ include_refusal around.now optional among.now }
{
    let files = among.files.as_slice();
    if files.is_empty() {
        if optional {
            None
        } else {
            Some(INCLUDE_MISSING)
        }
    } else if any_around(around, files) {
        Some(INCLUDE_CYCLE)
    } else if around.room == 0 {
        Some(INCLUDE_TOO_DEEP)
    } else if among.lacks_text {
        Some(CONTENT_MISSING)
    } else {
        None
    }
}

fn any_around(around: &Around, files: &[Text]) -> bool
    ensures { result ≡ list_any (is_around around.now) files.now }
{
    files.iter().any(|file| is_around(around, file))
}

fn is_around(around: &Around, file: &Text) -> bool
    ensures { result ≡ is_around around.now file.now }
{
    is_among(around.chain.as_slice(), file)
}

fn is_among(texts: &[Text], text: &Text) -> bool
    ensures { result ≡ is_among texts.now text.now }
{
    texts
        .iter()
        .any(|other| other.as_bytes() == text.as_bytes())
}
