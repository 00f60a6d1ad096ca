//! What trees of authorization may say.
ghost use Rattle.std.specs.Prelude.{IfOk};
ghost use Rattle.hc_abs_authz.specs.Asking.{AreValuesOf, IsKnown, MembersSay, TreeSays, says};
ghost use Rattle.hc_abs_pass.specs.Authorizing.{line_asked};
ghost use Rattle.hc_abs_authz.specs.Leaves.{AreValues, AreVotes, TreeMay};
ghost use Rattle.hc_model.specs.Joined.{required_by};

use crate::leaves::{Asking, need_answers};
use crate::values::{Container, Values, Votes};
use hc_base::{List, NoMemory};
use hc_model::{Join, Need, ReqTree};

/// What the joined trees may say; none where there is no tree.
pub(crate) fn joined_values(asking: Asking<'_>, joins: &[Join]) -> Result<Option<Values>, NoMemory>
    requires { IsKnown asking }
    ensures { IfOk result (AreValuesOf asking.entry (required_by joins.now)) }
{
    let mut so_far = None;
    for join in joins {
        let own = tree_values(asking, &join.tree)?;
        so_far = Some(Values::behind(so_far, own, join.how));
    }
    Ok(so_far)
}

/// What a tree may say.
#[cycle(values)]
fn tree_values(asking: Asking<'_>, tree: &ReqTree) -> Result<Values, NoMemory>
    requires { IsKnown asking }
    ensures { IfOk result (AreValues (TreeSays asking.entry tree.now)) }
{
    match tree {
        ReqTree::Leaf { negated, need, .. } => line_values(asking, *negated, need),
        ReqTree::All(trees) => {
            let votes = votes_of(asking, trees)?;
            Ok(votes.by(Container::All))
        }
        ReqTree::AnyOf(trees) => {
            let votes = votes_of(asking, trees)?;
            Ok(votes.by(Container::AnyOf))
        }
        ReqTree::NoneOf(trees) => {
            let votes = votes_of(asking, trees)?;
            Ok(votes.by(Container::NoneOf))
        }
    }
}

/// What the members of a container may say together.
#[cycle(values)]
fn votes_of(asking: Asking<'_>, trees: &List<ReqTree>) -> Result<Votes, NoMemory>
    requires { IsKnown asking }
    ensures { IfOk result (AreVotes (MembersSay asking.entry trees.now)) }
{
    let mut votes = Votes::none();
    for tree in trees.as_slice() {
        let values = tree_values(asking, tree)?;
        votes = votes.with(values);
    }
    Ok(votes)
}

fn line_values(asking: Asking<'_>, negated: bool, need: &Need) -> Result<Values, NoMemory>
    requires { IsKnown asking }
    ensures { IfOk result (AreValues (TreeMay (says asking.entry)
        (line_asked asking.entry.request.now negated need.now))) }
{
    let answers = need_answers(asking, need)?;
    Ok(Values::of_line(negated, answers))
}
