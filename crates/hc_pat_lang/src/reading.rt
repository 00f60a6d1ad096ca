ghost use Rattle.std.specs.Prelude.{◌≡◌, ◌<◌, IfOk, length, slice_get, Some};
ghost use Rattle.hc_dfa.specs.Automata.{accepts, states};
ghost use Rattle.hc_pat_lang.specs.Graphs.{IsPlace, ReadsMarked, ReadsNode, marked_graph, node_graph};
ghost use Rattle.hc_pat_lang.specs.Nodes.{AreNodes, LeadsBelow};
ghost use Rattle.std.proofs.Common.{rules};

use crate::nodes::{Node, Nodes};
use hc_base::NoMemory;
use hc_dfa::{Choice, Dfa, Graph, Move, automaton};
use std::alloc::Global;

impl Nodes {
    /// The automaton of the texts that a node takes.
    pub fn automaton(&self, alloc: Global, start: u32) -> Result<Dfa, NoMemory>
        requires nodes { AreNodes self.now.list.items }
        requires start { start < length self.now.list.items }
        ensures { IfOk result (ReadsNode self.now.list.items start) }
    {
        let made = automaton(alloc, &Taken { nodes: self }, start)?;
        Ok(made)
    }

    /// The automaton of what is marked in the texts of a node, where the texts without marks are in the set.
    pub fn marked(&self, alloc: Global, set: &Dfa, start: u32) -> Result<Dfa, NoMemory>
        requires nodes { AreNodes self.now.list.items }
        requires start { start < length self.now.list.items }
        ensures { IfOk result (ReadsMarked self.now.list.items start (accepts set.now)) }
    {
        let made = automaton(alloc, &Marks { nodes: self, set }, (start, set.start()))?;
        Ok(made)
    }

    fn node(&self, number: u32) -> Node
        requires nodes { AreNodes self.now.list.items }
        requires number { number < length self.now.list.items }
        ensures value { slice_get self.now.list.items number ≡ Some result }
        ensures leads { LeadsBelow (length self.now.list.items) result }
    {
        self.list[number as usize]
    }
}

#[derive(Clone, Copy)]
struct Taken<'a> {
    nodes: &'a Nodes,
}

impl<'a> Graph for Taken<'a> {
    type Key = u32;

    ghost is_key = { λ taken node. AreNodes taken.nodes.now.list.items × (node < length taken.nodes.now.list.items) };

    ghost graph = { λ taken. node_graph taken.nodes.now.list.items };

    fn step(&self, node: u32, choice: Choice) -> Option<Move<u32>> {
        match (self.nodes.node(node), choice) {
            (Node::Step(set, to), Choice::Byte(byte)) if set.has(byte) => Some(Move {
                byte: Some(byte),
                to,
            }),
            (Node::Fork(to, _), Choice::One) => Some(Move { byte: None, to }),
            (Node::Fork(_, to), Choice::Other) => Some(Move { byte: None, to }),
            _ => None,
        }
    }

    fn is_final(&self, node: u32) -> bool {
        matches!(self.nodes.node(node), Node::End)
    }

    ghost same = { Prim.search rules };
}

#[derive(Clone, Copy)]
struct Marks<'a> {
    nodes: &'a Nodes,
    set: &'a Dfa,
}

impl<'a> Graph for Marks<'a> {
    type Key = (u32, u32);

    ghost is_key = { λ marks place. AreNodes marks.nodes.now.list.items
        × IsPlace marks.nodes.now.list.items marks.set.now place };

    ghost graph = { λ marks. marked_graph marks.nodes.now.list.items marks.set.now };

    fn step(&self, place: (u32, u32), choice: Choice) -> Option<Move<(u32, u32)>> {
        match (self.nodes.node(place.0), choice) {
            (Node::Step(set, to), Choice::Byte(byte)) if set.has(byte) => Some(Move {
                byte: None,
                to: (to, self.set.next_state(place.1, byte)),
            }),
            (Node::Marked(set, to), Choice::Byte(byte)) if set.has(byte) => Some(Move {
                byte: Some(byte),
                to: (to, self.set.next_state(place.1, byte)),
            }),
            (Node::Fork(to, _), Choice::One) => Some(Move {
                byte: None,
                to: (to, place.1),
            }),
            (Node::Fork(_, to), Choice::Other) => Some(Move {
                byte: None,
                to: (to, place.1),
            }),
            _ => None,
        }
    }

    fn is_final(&self, place: (u32, u32)) -> bool {
        matches!(self.nodes.node(place.0), Node::End) && self.set.is_final(place.1)
    }

    ghost same = { Prim.search rules };
}
