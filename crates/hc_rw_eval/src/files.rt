//! The tests of conditions that look at files.
ghost use Rattle.std.specs.Prelude.{◌≡◌, IfOk};
ghost use Rattle.hc_rw_eval.specs.Conditions.{dir_named, is_dir, is_file, path_named, stands_there};
ghost use Rattle.hc_steps.specs.Ran.{Takes};
ghost use Rattle.hc_steps.specs.Shown.{shown_by};
ghost use Rattle.hc_steps.specs.Step.{kind_at};

use crate::frame::Stop;
use hc_base::paths::{begins_with_slash, has_dots, merge_slashes, without_final_slash};
use hc_base::{NoMemory, Text};
use hc_model::Kind;
use hc_steps::Log;
use hc_world::World;
use std::alloc::Global;

// The path that a text names, if it names one.
fn path_named(alloc: Global, text: &[u8]) -> Result<Option<Text>, NoMemory>
    ensures { IfOk result (λ path. path ≡ path_named text.now) }
{
    if begins_with_slash(text) && !has_dots(text) {
        Ok(Some(merge_slashes(alloc, text)?))
    } else {
        Ok(None)
    }
}

// The path that a text names, without a final slash.
fn dir_named(alloc: Global, text: &[u8]) -> Result<Option<Text>, NoMemory>
    ensures { IfOk result (λ path. path ≡ dir_named text.now) }
{
    if begins_with_slash(text) && !has_dots(text) {
        let path = merge_slashes(alloc, text)?;
        Ok(Some(Text::copy_of(alloc, without_final_slash(path.as_bytes()))?))
    } else {
        Ok(None)
    }
}

fn is_file(kind: Kind) -> bool
    ensures { result ≡ is_file kind }
{
    matches!(kind, Kind::File)
}

fn is_dir(kind: Kind) -> bool
    ensures { result ≡ is_dir kind }
{
    matches!(kind, Kind::Dir)
}

fn kind_at(world: &World, log: &mut Log, path: &Text) -> Result<Kind, Stop>
    ensures { Takes result log (kind_at path.now) (shown_by world.now.files) }
{
    hc_world::kind_at(world, log, path.as_bytes())
}

// Whether a file stands at a path.
#[tactic(auto, unfolding(crate::specs::Conditions::stands_there), using(hc_steps::proofs::Going::going))]
fn file_at(world: &World, log: &mut Log, path: Option<Text>) -> Result<bool, Stop>
    ensures { Takes result log (stands_there is_file path) (shown_by world.now.files) }
{
    let Some(path) = path else {
        return Ok(false);
    };
    let kind = kind_at(world, log, &path)?;
    Ok(is_file(kind))
}

// Whether a directory stands at a path.
#[tactic(auto, unfolding(crate::specs::Conditions::stands_there), using(hc_steps::proofs::Going::going))]
fn dir_at(world: &World, log: &mut Log, path: Option<Text>) -> Result<bool, Stop>
    ensures { Takes result log (stands_there is_dir path) (shown_by world.now.files) }
{
    let Some(path) = path else {
        return Ok(false);
    };
    let kind = kind_at(world, log, &path)?;
    Ok(is_dir(kind))
}

/// Whether a text names a file.
#[tactic(auto, using(hc_steps::proofs::Going::ran_no_memory))]
pub(crate) fn file_there(world: &World, log: &mut Log, text: &Text) -> Result<bool, Stop>
    ensures { Takes result log (stands_there is_file (path_named text.now)) (shown_by world.now.files) }
{
    let path = path_named(log.allocator(), text.as_bytes())?;
    file_at(world, log, path)
}

/// Whether a text names a directory.
#[tactic(auto, using(hc_steps::proofs::Going::ran_no_memory))]
pub(crate) fn dir_there(world: &World, log: &mut Log, text: &Text) -> Result<bool, Stop>
    ensures { Takes result log (stands_there is_dir (dir_named text.now)) (shown_by world.now.files) }
{
    let path = dir_named(log.allocator(), text.as_bytes())?;
    dir_at(world, log, path)
}
