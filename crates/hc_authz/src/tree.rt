ghost use Rattle.std.specs.Prelude.{◌≡◌, ◌||◌, false, map};
ghost use Rattle.hc_authz.specs.Values as definition;
ghost use Rattle.hc_authz.specs.Values.{all_value, any_value, is_denied, is_granted, line_value, none_value};
ghost use Rattle.hc_authz.specs.Values.{some_denied, some_granted};

use crate::needs::is_met;
use hc_base::List;
use hc_model::{Caller, ReqTree};

/// What a line or a container of authorization says of a caller (Apache manual, mod_authz_core, "Require").
#[derive(Clone, Copy, PartialEq, Eq)]
pub enum Tri {
    Granted,
    Denied,
    /// It says nothing.
    Neutral,
}

//// What the members of a container say.
#[derive(Clone, Copy)]
pub(crate) struct Votes {
    some_granted: bool,
    some_denied: bool,
}

/// What a tree says of a caller. It takes no memory.
#[cycle(value)]
pub fn value(tree: &ReqTree, caller: &Caller) -> Tri
    ensures { result ≡ definition.value caller.now tree.now }
{
    match tree {
        ReqTree::Leaf { negated, need, .. } => line_value(*negated, is_met(need, &caller.request)),
        ReqTree::All(trees) => votes_of(trees, caller).all(),
        ReqTree::AnyOf(trees) => votes_of(trees, caller).any(),
        ReqTree::NoneOf(trees) => votes_of(trees, caller).none(),
    }
}

#[cycle(value)]
fn votes_of(trees: &List<ReqTree>, caller: &Caller) -> Votes
    ensures granted { result.some_granted ≡ some_granted (map (definition.value caller.now) trees.now) }
    ensures denied { result.some_denied ≡ some_denied (map (definition.value caller.now) trees.now) }
{
    let mut votes = Votes::empty();
    for tree in trees.as_slice() {
        votes = votes.with(value(tree, caller));
    }
    votes
}

impl Votes {
    /// No member speaks.
    pub(crate) fn empty() -> Votes
        ensures granted { result.some_granted ≡ false }
        ensures denied { result.some_denied ≡ false }
    {
        Votes {
            some_granted: false,
            some_denied: false,
        }
    }

    pub(crate) fn with(self, value: Tri) -> Votes
        ensures granted { result.some_granted ≡ (self.some_granted || is_granted value) }
        ensures denied { result.some_denied ≡ (self.some_denied || is_denied value) }
    {
        Votes {
            some_granted: self.some_granted || value.is_granted(),
            some_denied: self.some_denied || value.is_denied(),
        }
    }

    pub(crate) fn all(self) -> Tri
        ensures { result ≡ all_value self.some_granted self.some_denied }
    {
        match (self.some_granted, self.some_denied) {
            (_, true) => Tri::Denied,
            (true, false) => Tri::Granted,
            (false, false) => Tri::Neutral,
        }
    }

    pub(crate) fn any(self) -> Tri
        ensures { result ≡ any_value self.some_granted self.some_denied }
    {
        match (self.some_granted, self.some_denied) {
            (true, _) => Tri::Granted,
            (false, true) => Tri::Denied,
            (false, false) => Tri::Neutral,
        }
    }

    fn none(self) -> Tri
        ensures { result ≡ none_value self.some_granted self.some_denied }
    {
        if self.some_granted {
            Tri::Denied
        } else {
            Tri::Neutral
        }
    }
}

impl Tri {
    fn is_granted(self) -> bool
        ensures { result ≡ is_granted self }
    {
        matches!(self, Tri::Granted)
    }

    fn is_denied(self) -> bool
        ensures { result ≡ is_denied self }
    {
        matches!(self, Tri::Denied)
    }
}

// `Require not` denies what is met, and says nothing else.
fn line_value(negated: bool, met: bool) -> Tri
    ensures { result ≡ line_value negated met }
{
    match (negated, met) {
        (false, true) => Tri::Granted,
        (false, false) => Tri::Denied,
        (true, true) => Tri::Denied,
        (true, false) => Tri::Neutral,
    }
}
