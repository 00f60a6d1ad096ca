ghost use Rattle.std.specs.Prelude.{◌≡◌, IfOk};

use hc_addr::Net;
use hc_base::{List, NoMemory, Place, Text};

/// Whether a request is let in (Apache manual, mod_authz_core, "Require" and the containers).
#[derive(Drop)]
pub enum ReqTree {
    /// A `Require` line; `negated` is `Require not`.
    Leaf {
        place: Place,
        negated: bool,
        need: Need,
    },
    /// `RequireAll`.
    All(List<ReqTree>),
    /// `RequireAny`.
    AnyOf(List<ReqTree>),
    /// `RequireNone`.
    NoneOf(List<ReqTree>),
}

/// What a `Require` line asks for (Apache manual, mod_authz_core and mod_authz_host).
#[derive(Drop)]
pub enum Need {
    /// `all granted`.
    Granted,
    /// `all denied`.
    Denied,
    /// `ip`: the client is in one of these networks.
    Ip(List<Net>),
    /// `method`: one of these methods.
    Method(List<Text>),
    /// `local`: the client is the server's own machine.
    Local,
}

/// How the tree of a section stands to those before it (Apache manual, mod_authz_core,
/// AuthMerging).
#[derive(Clone, Copy, PartialEq, Eq)]
pub enum Merging {
    Off,
    And,
    Or,
}

/// The tree of a section, and how it stands to those before it.
#[derive(Drop)]
pub struct Join {
    pub how: Merging,
    pub tree: ReqTree,
}

impl Clone for Need {
    ghost is_clone = { λ need copy. copy ≡ need };

    fn clone(&self) -> Result<Need, NoMemory> {
        match self {
            Need::Granted => Ok(Need::Granted),
            Need::Denied => Ok(Need::Denied),
            Need::Ip(nets) => Ok(Need::Ip(nets.copy()?)),
            Need::Method(names) => Ok(Need::Method(names.copy()?)),
            Need::Local => Ok(Need::Local),
        }
    }
}

impl Clone for ReqTree {
    ghost is_clone = { λ tree copy. copy ≡ tree };

    fn clone(&self) -> Result<ReqTree, NoMemory> {
        copy_tree(self)
    }
}

impl Clone for Join {
    ghost is_clone = { λ join copy. copy ≡ join };

    fn clone(&self) -> Result<Join, NoMemory> {
        Ok(Join {
            how: self.how,
            tree: self.tree.clone()?,
        })
    }
}

#[cycle(copy)]
fn copy_tree(tree: &ReqTree) -> Result<ReqTree, NoMemory>
    ensures { IfOk result (λ copy. copy ≡ tree.now) }
{
    match tree {
        ReqTree::Leaf {
            place,
            negated,
            need,
        } => Ok(ReqTree::Leaf {
            place: place.clone()?,
            negated: *negated,
            need: need.clone()?,
        }),
        ReqTree::All(trees) => Ok(ReqTree::All(copy_trees(trees)?)),
        ReqTree::AnyOf(trees) => Ok(ReqTree::AnyOf(copy_trees(trees)?)),
        ReqTree::NoneOf(trees) => Ok(ReqTree::NoneOf(copy_trees(trees)?)),
    }
}

#[cycle(copy)]
fn copy_trees(trees: &List<ReqTree>) -> Result<List<ReqTree>, NoMemory>
    ensures { IfOk result (λ copy. copy ≡ trees.now) }
{
    let mut copy = List::new(trees.allocator());
    for tree in trees.as_slice() {
        copy.push(copy_tree(tree)?)?;
    }
    Ok(copy)
}
