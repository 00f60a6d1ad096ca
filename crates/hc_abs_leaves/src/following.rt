//! What follows a branch of a segment of a pass (Apache manual, mod_rewrite; "RewriteRule Flags": N).
ghost use Rattle.std.specs.Prelude.{◌≡◌, ◌++◌, ◌+◌, IfOk};
ghost use Rattle.hc_abs_leaves.specs.Following.{leaf_in, limited_in, next_in, node_in, on_from, stopped_in};
ghost use Rattle.hc_abs_leaves.specs.Following.{unless_bound};
ghost use Rattle.hc_abs_leaves.specs.declared.node.At.TheVariants as place;

use crate::leaf::{Leaf, LeafEnd};
use crate::node::{At, Node, Pending};
use hc_abs_left::{Finish, Segment, Settings};
use hc_abs_pass::{Left, SoFar};
use hc_base::{List, NoMemory};
use hc_model::{Decision, LimitKind, Requirement};
use hc_plan::Tied;
use std::alloc::Global;
use std::rc::Rc;

/// The node that branches come from.
#[derive(Clone, Copy)]
pub(crate) struct Parent<'p> {
    /// The number of the pass.
    pub number: u32,
    /// The round of the server's list of rules, and that of a directory's.
    pub server: u32,
    pub directory: u32,
    /// What was decided in the passes before.
    pub decided: &'p [Decision],
}

/// What a branch has come to, but for how it ends.
#[derive(Drop)]
struct Reached {
    tied: Tied,
    decisions: List<Decision>,
    require: Requirement,
}

/// A branch leads to an end, to another pass, or to a further round of a list of rules.
pub(crate) fn next_of(
    alloc: Global,
    parent: Parent<'_>,
    segment: Segment,
) -> Result<Pending, NoMemory>
    ensures { IfOk result (λ next. next ≡ next_in parent.entry segment) }
{
    let Segment {
        tied,
        decisions,
        require,
        finish,
    } = segment;
    let reached = Reached {
        tied,
        decisions,
        require,
    };
    match finish {
        Finish::Stopped(left) => stopped(alloc, parent, reached, left),
        Finish::Ruled(next) => leaf(alloc, parent, reached, LeafEnd::Ruled(next)),
        Finish::ServerRound { rule, left } => {
            let rounds = rule.flags.rounds;
            server_round(alloc, parent, reached, rounds, left)
        }
        Finish::DirRound {
            settings,
            rule,
            left,
        } => {
            let rounds = rule.flags.rounds;
            directory_round(alloc, parent, reached, rounds, settings, left)
        }
    }
}

/// The pass is over: another one follows, or none.
fn stopped(
    alloc: Global,
    parent: Parent<'_>,
    reached: Reached,
    left: Left,
) -> Result<Pending, NoMemory>
    ensures { IfOk result (λ next. next ≡ stopped_in parent.entry reached left) }
{
    if let Left::NextPass = left {
        return next_pass(alloc, parent, reached);
    }
    leaf(alloc, parent, reached, LeafEnd::Stopped(left))
}

/// The pass that follows.
fn next_pass(alloc: Global, parent: Parent<'_>, reached: Reached) -> Result<Pending, NoMemory>
    ensures { IfOk result (λ next. next ≡ node_in (parent.entry.number + 1) place.Pass reached.tied
        (parent.entry.decided.now ++ reached.decisions)) }
{
    let Reached {
        tied,
        decisions,
        ..
    } = reached;
    let Some(number) = parent.number.checked_add(1) else {
        return Err(NoMemory);
    };
    let decided = joined(alloc, parent.decided, decisions.as_slice())?;
    Ok(Pending::Goes(Node {
        number,
        at: At::Pass,
        tied,
        decided,
    }))
}

/// A further round of the server's list, where the rule's bound allows one.
fn server_round(
    alloc: Global,
    parent: Parent<'_>,
    reached: Reached,
    rounds: u32,
    left: SoFar,
) -> Result<Pending, NoMemory>
    ensures { IfOk result (λ next. next ≡ unless_bound parent.entry reached rounds parent.entry.server
        (place.Server (parent.entry.server + 1) (on_from reached.decisions left))) }
{
    if rounds <= parent.server {
        return limited(alloc, parent, reached);
    }
    let Reached {
        tied,
        decisions,
        ..
    } = reached;
    let at = At::Server {
        round: parent.server + 1,
        so_far: SoFar { decisions, ..left },
    };
    node(alloc, parent, at, tied)
}

/// A further round of a directory's list, where the rule's bound allows one.
fn directory_round(
    alloc: Global,
    parent: Parent<'_>,
    reached: Reached,
    rounds: u32,
    settings: Rc<Settings>,
    left: SoFar,
) -> Result<Pending, NoMemory>
    ensures { IfOk result (λ next. next ≡ unless_bound parent.entry reached rounds parent.entry.directory
        (place.Directory (parent.entry.directory + 1) settings (on_from reached.decisions left))) }
{
    if rounds <= parent.directory {
        return limited(alloc, parent, reached);
    }
    let Reached {
        tied,
        decisions,
        ..
    } = reached;
    let at = At::Directory {
        round: parent.directory + 1,
        settings,
        so_far: SoFar { decisions, ..left },
    };
    node(alloc, parent, at, tied)
}

/// Requests go on in the pass.
fn node(alloc: Global, parent: Parent<'_>, at: At, tied: Tied) -> Result<Pending, NoMemory>
    ensures { IfOk result (λ next. next ≡ node_in parent.entry.number at tied parent.entry.decided.now) }
{
    let decided = parent.decided.to_vec(alloc)?;
    Ok(Pending::Goes(Node {
        number: parent.number,
        at,
        tied,
        decided: List::from(decided),
    }))
}

/// The bound of rounds is reached.
fn limited(alloc: Global, parent: Parent<'_>, reached: Reached) -> Result<Pending, NoMemory>
    ensures { IfOk result (λ next. next ≡ limited_in parent.entry reached) }
{
    let left = Left::Limit(LimitKind::Rounds);
    leaf(alloc, parent, reached, LeafEnd::Stopped(left))
}

/// An end of requests.
fn leaf(
    alloc: Global,
    parent: Parent<'_>,
    reached: Reached,
    end: LeafEnd,
) -> Result<Pending, NoMemory>
    ensures { IfOk result (λ next. next ≡ leaf_in parent.entry reached end) }
{
    let decisions = joined(alloc, parent.decided, reached.decisions.as_slice())?;
    Ok(Pending::Ends(Leaf {
        tied: reached.tied,
        decisions,
        require: reached.require,
        end,
    }))
}

/// What was decided in the passes before, and what in this one.
fn joined(
    alloc: Global,
    decided: &[Decision],
    decisions: &[Decision],
) -> Result<List<Decision>, NoMemory>
    ensures { IfOk result (λ all. all ≡ decided.now ++ decisions.now) }
{
    let mut all = decided.to_vec(alloc)?;
    let mut more = decisions.to_vec(alloc)?;
    all.append(&mut more)?;
    Ok(List::from(all))
}
