ghost use Rattle.std.specs.Prelude.{IfOk};
ghost use Rattle.hc_pattern.specs.Pattern.{pattern_of};
ghost use Rattle.hc_pat_lang.specs.Found.{IsFound};
ghost use Rattle.hc_pat_lang.specs.Matching.{IsFull, LooksFor};
ghost use Rattle.hc_pat_lang.specs.Sets.{AcceptsOnly};

use crate::gates::{Gate, GroupPart};
use crate::nodes::{Node, Nodes};
use hc_base::NoMemory;
use hc_dfa::Dfa;
use hc_pattern::{ByteSet, Pat};
use std::alloc::Global;

/// The automaton of the texts in which the pattern has a way at some place.
pub fn matched(alloc: Global, pat: &Pat) -> Result<Dfa, NoMemory>
    ensures { IfOk result (AcceptsOnly (IsFound (pattern_of pat.now))) }
{
    let every = every_byte();
    let mut nodes = Nodes::new(alloc, every)?;
    let entries = nodes.build(pat, GroupPart::Outside, Gate::anything())?;
    let start = nodes.look_for(every, entries)?;
    let made = nodes.automaton(alloc, start)?;
    Ok(made)
}

/// The set of all bytes.
pub fn every_byte() -> ByteSet
    ensures { IsFull result }
{
    ByteSet::empty().complement()
}

impl Nodes {
    /// Adds nodes for what the entries take at any place, behind any bytes.
    pub fn look_for(&mut self, every: ByteSet, entries: Gate) -> Result<u32, NoMemory>
        ensures { IfOk result (LooksFor self.old.list.items self.new.list.items every entries) }
    {
        let later = self.add(Node::Dead)?;
        let byte = self.add(Node::Step(every, later))?;
        self.set(later, Node::Fork(entries.still.state, byte));
        let start = self.add(Node::Fork(entries.first.state, byte))?;
        Ok(start)
    }
}
