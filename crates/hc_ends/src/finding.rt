//! The ends of chains, as they are found.
ghost use Rattle.std.specs.Prelude.{◌≡◌, ◌∷◌, ◌++◌, [], IfOk};
ghost use Rattle.hc_abs_leaves.specs.Fitting.{LeafFits};
ghost use Rattle.hc_abs_tree.specs.Trees.{Leaf as OwnLeaf};
ghost use Rattle.hc_addr.specs.declared.addr.Addr.{Addr};
ghost use Rattle.hc_ends.specs.Chains.{Before as OwnBefore, end_at};
ghost use Rattle.hc_ends.specs.Finding.{BeforeFits, Finds, first_at};
ghost use Rattle.hc_model.specs.declared.request.Caller.{Caller};
ghost use Rattle.std.specs.Prelude.{Option};

use hc_abs_leaves::Leaf;
use hc_base::{Fault, List, NoMemory};
use hc_cells::Cell;
use hc_model::Decision;
use std::alloc::Global;

/// An end of chains at which the claim may be broken.
#[derive(Drop)]
pub(crate) struct BadEnd {
    /// What was decided on the way, in all requests.
    pub(crate) decisions: List<Decision>,
    /// What is known where the first request ends.
    pub(crate) first: Cell,
}

/// The ends at which the claim may be broken, and how many ends may still come before there are too many.
#[derive(Drop)]
pub(crate) struct Found {
    pub(crate) bad: Vec<BadEnd>,
    pub(crate) left: u32,
}

/// There are too many ends.
#[derive(Clone, Copy, Drop)]
pub(crate) struct TooMany;

pub(crate) type Halt = Fault<TooMany>;

/// What comes before a request of a chain.
#[derive(Clone, Copy)]
pub(crate) struct Before<'b> {
    pub(crate) decisions: &'b [Decision],
    /// What is known where the first request ends; none before that one.
    pub(crate) first: Option<&'b Cell>,
}

impl Found {
    /// Adds the end of a leaf.
    pub(crate) fn end(
        &mut self,
        alloc: Global,
        before: Before<'_>,
        leaf: &Leaf,
        bad: bool,
    ) -> Result<(), Halt>
        ensures { (earlier : OwnBefore) (client : Option Addr) (caller : Caller) (own : OwnLeaf)
            → BeforeFits before.entry earlier → LeafFits client caller leaf.now own
            → Finds (λ cut ends. ends ≡ end_at earlier own bad ∷ []) self.old self.new result }
    {
        if self.left == 0 {
            return Err(Fault::Refused(TooMany));
        }
        self.left -= 1;
        if !bad {
            return Ok(());
        }
        let end = bad_end(alloc, before, leaf)?;
        self.bad.push(end)?;
        Ok(())
    }
}

fn bad_end(alloc: Global, before: Before<'_>, leaf: &Leaf) -> Result<BadEnd, NoMemory>
    ensures { IfOk result (λ end. (end.decisions ≡ before.entry.decisions.now ++ leaf.now.decisions)
        × (end.first ≡ first_at before.entry.first leaf.now)) }
{
    let decisions = decided(alloc, before, leaf)?;
    let first = before.first_at(leaf).clone()?;
    Ok(BadEnd { decisions, first })
}

/// What was decided up to the end of a leaf.
pub(crate) fn decided(
    alloc: Global,
    before: Before<'_>,
    leaf: &Leaf,
) -> Result<List<Decision>, NoMemory>
    ensures { IfOk result (λ decisions. decisions ≡ before.entry.decisions.now ++ leaf.now.decisions) }
{
    let mut all = before.decisions.to_vec(alloc)?;
    let mut more = leaf.decisions.as_slice().to_vec(alloc)?;
    all.append(&mut more)?;
    Ok(List::from(all))
}

impl<'b> Before<'b> {
    /// What is known where the first request ends, behind a leaf.
    pub(crate) fn first_at(self, leaf: &'b Leaf) -> &'b Cell
        ensures { result.now ≡ first_at self.entry.first leaf.now }
    {
        match self.first {
            Some(first) => first,
            None => &leaf.tied.cell,
        }
    }
}
