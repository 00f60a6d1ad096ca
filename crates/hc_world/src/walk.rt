ghost use Rattle.std.specs.Prelude.{◌≡◌, ◌≤◌, length, take, drop, IfOk};
ghost use Rattle.hc_steps.specs.Ran.{Takes};
ghost use Rattle.hc_steps.specs.Shown.{shown_by};
ghost use Rattle.hc_steps.specs.Walking.{ended, walk};
ghost use Rattle.hc_world.specs.Walks.{with_last};

use crate::World;
use crate::looks::kind_at;
use crate::path::next_slash;
use hc_base::paths::ends_with_slash;
use hc_base::{Fault, List, NoMemory, Text};
use hc_model::{Kind, Outcome, Walk};
use hc_steps::Log;
use std::alloc::Global;

/// Follows a name through the directories, and tells each component that is looked at.
#[tactic(auto, using(hc_steps::proofs::Going::ran_no_memory, crate::proofs::Walks::walk_steps))]
pub fn follow(world: &World, log: &mut Log, name: &[u8]) -> Result<Walk, Fault<Outcome>>
    ensures { Takes result log (walk name.now) (shown_by world.now.files) }
{
    let alloc = log.allocator();
    let mut dirs = List::new(alloc);
    dirs.push(Text::copy_of(alloc, b"/")?)?;
    let mut from = 1;
    while let Some(slash) = next_slash(name, from) {
        let front = &name[..slash];
        let kind = kind_at(world, log, front)?;
        let Kind::Dir = kind else {
            return Ok(ended(alloc, name, slash, kind, dirs)?);
        };
        dirs.push(Text::copy_of(alloc, front)?)?;
        from = slash + 1;
    }
    if ends_with_slash(name) {
        return Ok(ended(alloc, name, name.len(), Kind::Dir, dirs)?);
    }
    let kind = kind_at(world, log, name)?;
    let dirs = with_last(alloc, kind, name, dirs)?;
    Ok(ended(alloc, name, name.len(), kind, dirs)?)
}

// The directories of a walk to the end of the name.
fn with_last(
    alloc: Global,
    kind: Kind,
    name: &[u8],
    mut dirs: List<Text>,
) -> Result<List<Text>, NoMemory>
    ensures { IfOk result (λ all. all ≡ with_last kind name.now dirs) }
{
    if let Kind::Dir = kind {
        dirs.push(Text::copy_of(alloc, name)?)?;
        return Ok(dirs);
    }
    Ok(dirs)
}

// The walk that ends at a place of the name.
fn ended(
    alloc: Global,
    name: &[u8],
    end: usize,
    kind: Kind,
    dirs: List<Text>,
) -> Result<Walk, NoMemory>
    requires { end ≤ length name.now }
    ensures { IfOk result (λ w. w ≡ ended (take end name.now) (drop end name.now) kind dirs) }
{
    Ok(Walk {
        name: Text::copy_of(alloc, &name[..end])?,
        info: Text::copy_of(alloc, &name[end..])?,
        kind,
        dirs,
    })
}
