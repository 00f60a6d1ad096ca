ghost use Rattle.std.specs.Prelude.{◌<◌, IfOk};
ghost use Rattle.hc_dfa.specs.Automata.{accepts, states};
ghost use Rattle.hc_pat_lang.specs.Graphs.{tail_graph};
ghost use Rattle.hc_pat_lang.specs.Sets.{AcceptsOnly, IsBehind};
ghost use Rattle.std.proofs.Common.{rules};

use hc_base::NoMemory;
use hc_dfa::{Choice, Dfa, Graph, Move, automaton};
use std::alloc::Global;

/// The automaton of what is left of the texts of the set without so many of their first bytes. A shorter text leaves
/// the empty one.
pub fn behind(alloc: Global, set: &Dfa, count: usize) -> Result<Dfa, NoMemory>
    ensures { IfOk result (AcceptsOnly (IsBehind (accepts set.now) count)) }
{
    if count == 0 {
        return set.clone();
    }
    let first = Cut {
        left: count,
        state: set.start(),
    };
    let made = automaton(alloc, &Tails { set }, first)?;
    Ok(made)
}

/// A state, and how many bytes are still passed over.
#[derive(Clone, Copy, PartialEq, Eq, Hash, Drop)]
pub struct Cut {
    pub left: usize,
    pub state: u32,
}

#[derive(Clone, Copy)]
struct Tails<'a> {
    set: &'a Dfa,
}

impl<'a> Graph for Tails<'a> {
    type Key = Cut;

    ghost is_key = { λ tails cut. cut.state < states tails.set.now };

    ghost graph = { λ tails. tail_graph tails.set.now };

    fn step(&self, cut: Cut, choice: Choice) -> Option<Move<Cut>> {
        let Choice::Byte(byte) = choice else {
            return None;
        };
        Some(Move {
            byte: if cut.left == 0 { Some(byte) } else { None },
            to: Cut {
                left: cut.left.saturating_sub(1),
                state: self.set.next_state(cut.state, byte),
            },
        })
    }

    fn is_final(&self, cut: Cut) -> bool {
        self.set.is_final(cut.state)
    }

    ghost same = { Prim.search rules };
}
