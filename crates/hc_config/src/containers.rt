ghost use Rattle.std.specs.Prelude.{◌≡◌};
ghost use Rattle.std.specs.List.{list_all};
ghost use Rattle.hc_config.specs.Requires.{container_rule, is_negative, section_tree, tree_of};

use hc_base::List;
use hc_base::codes::{EMPTY_CONTAINER, ONLY_NEGATIVE};
use hc_model::ReqTree;

/// `RequireAll`, `RequireAny` and `RequireNone`.
#[derive(Clone, Copy)]
pub(crate) enum Container {
    All,
    Any,
    NoneOf,
}

/// The tree of a container with these members.
pub(crate) fn tree_of(container: Container, members: List<ReqTree>) -> ReqTree
    ensures { result ≡ tree_of container members }
{
    match container {
        Container::All => ReqTree::All(members),
        Container::Any => ReqTree::AnyOf(members),
        Container::NoneOf => ReqTree::NoneOf(members),
    }
}

/// The rule that a container with these members breaks: it has a member, and a RequireAll one that is not
/// negated.
pub(crate) fn container_rule(container: Container, members: &[ReqTree]) -> Option<u8>
    ensures { result ≡ container_rule container members.now }
{
    match (container, members) {
        (_, []) => Some(EMPTY_CONTAINER),
        (Container::All, members) if all_negative(members) => Some(ONLY_NEGATIVE),
        _ => None,
    }
}

fn all_negative(members: &[ReqTree]) -> bool
    ensures { result ≡ list_all is_negative members.now }
{
    members.iter().all(|member| is_negative(member))
}

fn is_negative(member: &ReqTree) -> bool
    ensures { result ≡ is_negative member.now }
{
    match member {
        ReqTree::Leaf { negated, .. } => *negated,
        ReqTree::NoneOf(_) => true,
        ReqTree::All(_) | ReqTree::AnyOf(_) => false,
    }
}

/// The tree of a section with these members, if it has any.
pub(crate) fn section_tree(members: List<ReqTree>) -> Option<ReqTree>
    ensures { result ≡ section_tree members }
{
    if members.as_slice().is_empty() {
        None
    } else {
        Some(ReqTree::AnyOf(members))
    }
}
