//! What comes in the place of a node.
ghost use Rattle.std.specs.Prelude.{◌≡◌, ◌++◌, IfOk, OnOk, map, reverse};
ghost use Rattle.std.specs.Rc.{rc_value};
ghost use Rattle.hc_abs_leaves.specs.Following.{directory_in, next_in, server_in};
ghost use Rattle.hc_abs_leaves.specs.Nodes.{AreAt, AreIn, Grows};
ghost use Rattle.hc_abs_left.specs.Grounds.{Stands, world_in};
ghost use Rattle.hc_serve.specs.Lent.{Lends, Returns};

use crate::following::{Parent, next_of};
use crate::node::{At, Node, Pending};
use hc_abs_left::{Ground, Segment, Settings, dir_round_branches};
use hc_abs_pass::SoFar;
use hc_abs_run::{pass_branches, server_round_branches};
use hc_base::NoMemory;
use hc_model::Overrides;
use hc_plan::Tied;
use hc_serve::most_passes;
use std::alloc::Global;
use std::rc::Rc;

/// The branches of a node come in its place: that whose leaves come first stands last.
pub(crate) fn grow<O: Overrides>(
    alloc: Global,
    ground: Ground<'_>,
    over: &mut O,
    node: Node,
    pending: &mut Vec<Pending>,
) -> Result<(), NoMemory>
    requires ground { Stands ground }
    requires over { Lends O.reading O.size (O.fixed over.old) (world_in ground) ground.config.now }
    ensures grown { OnOk result (Grows ground.entry node pending.old.items pending.new.items) }
    ensures over { Returns O.fixed O.loaded over }
{
    let Node {
        number,
        at,
        tied,
        decided,
    } = node;
    let parent = Parent {
        number,
        server: server_in(&at),
        directory: directory_in(&at),
        decided: decided.as_slice(),
    };
    let branches = branches_at(alloc, ground, over, number, at, tied)?;
    push_all(alloc, parent, branches, pending)
}

/// The round of the server's list of rules before which requests stand.
fn server_in(at: &At) -> u32
    ensures { result ≡ server_in at.now }
{
    match at {
        At::Server { round, .. } => *round,
        _ => 1,
    }
}

/// The round of a directory's list before which requests stand.
fn directory_in(at: &At) -> u32
    ensures { result ≡ directory_in at.now }
{
    match at {
        At::Directory { round, .. } => *round,
        _ => 1,
    }
}

/// The branches of the segment that begins there.
fn branches_at<O: Overrides>(
    alloc: Global,
    ground: Ground<'_>,
    over: &mut O,
    number: u32,
    at: At,
    tied: Tied,
) -> Result<Vec<Segment>, NoMemory>
    requires ground { Stands ground }
    requires over { Lends O.reading O.size (O.fixed over.old) (world_in ground) ground.config.now }
    ensures branches { IfOk result (λ found. AreAt ground.entry number at tied found.items) }
    ensures over { Returns O.fixed O.loaded over }
{
    let last = most_passes(ground.config, ground.host) <= u64::from(number) + 1;
    let ground = Ground { last, ..ground };
    match at {
        At::Pass => pass_branches(alloc, ground, over, tied),
        At::Server { so_far, .. } => server_round_branches(alloc, ground, over, so_far, tied),
        At::Directory {
            settings,
            so_far,
            ..
        } => directory_branches(alloc, ground, &settings, so_far, tied),
    }
}

/// The branches from a further round of a directory's list of rules on.
fn directory_branches(
    alloc: Global,
    ground: Ground<'_>,
    settings: &Rc<Settings>,
    so_far: SoFar,
    tied: Tied,
) -> Result<Vec<Segment>, NoMemory>
    requires { Stands ground }
    ensures { IfOk result (λ found. AreIn ground.entry (rc_value settings.now) so_far tied found.items) }
{
    let own = settings.as_ref();
    match &own.force.dir {
        Some(dir) => dir_round_branches(alloc, ground, settings, dir, so_far, tied),
        None => Ok(Vec::new(alloc)),
    }
}

/// Adds what each branch leads to, the last one first.
fn push_all(
    alloc: Global,
    parent: Parent<'_>,
    mut branches: Vec<Segment>,
    pending: &mut Vec<Pending>,
) -> Result<(), NoMemory>
    ensures { OnOk result (pending.new.items ≡ pending.old.items ++ reverse (map (next_in parent.entry)
        branches.items)) }
{
    'branches: while let Some(segment) = branches.pop() {
        let next = next_of(alloc, parent, segment)?;
        pending.push(next)?;
    }
    Ok(())
}
