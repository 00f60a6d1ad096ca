//! The tree, depth first.
ghost use Rattle.std.specs.Prelude.{IfOk};
ghost use Rattle.hc_abs_left.specs.Grounds.{Stands, world_in};
ghost use Rattle.hc_abs_leaves.specs.Growing.{BeginsAt, Gives};
ghost use Rattle.hc_serve.specs.Lent.{Lends, Returns};

use crate::growing::grow;
use crate::leaf::Leaf;
use crate::node::{At, Node, Pending};
use hc_abs_left::Ground;
use hc_base::{List, NoMemory};
use hc_model::Overrides;
use hc_plan::Tied;
use std::alloc::Global;

/// The leaves that are still to come.
#[derive(Drop)]
pub struct Tree {
    /// The one whose leaves come first stands last.
    pub pending: Vec<Pending>,
}

/// How many nodes are looked at for one leaf: where there are more, it is refused as memory is.
const MOST_TURNS: u32 = u32::MAX;

impl Tree {
    /// The tree of what is known before the first pass.
    pub fn new(alloc: Global, tied: Tied) -> Result<Tree, NoMemory>
        ensures { IfOk result (BeginsAt tied) }
    {
        let mut pending = Vec::new(alloc);
        pending.push(Pending::Goes(Node {
            number: 0,
            at: At::Pass,
            tied,
            decided: List::new(alloc),
        }))?;
        Ok(Tree { pending })
    }

    /// The next leaf; none where there is no other.
    pub fn next<O: Overrides>(
        &mut self,
        alloc: Global,
        ground: Ground<'_>,
        over: &mut O,
    ) -> Result<Option<Leaf>, NoMemory>
        requires ground { Stands ground }
        requires over { Lends O.reading O.size (O.fixed over.old) (world_in ground) ground.config.now }
        ensures leaf { IfOk result (Gives ground.entry self.old self.new) }
        ensures over { Returns O.fixed O.loaded over }
    {
        for _turn in 0..MOST_TURNS {
            let Some(one) = self.pending.pop() else {
                return Ok(None);
            };
            match one {
                Pending::Ends(leaf) => return Ok(Some(leaf)),
                Pending::Goes(node) => grow(alloc, ground, over, node, &mut self.pending)?,
            }
        }
        Err(NoMemory)
    }
}
