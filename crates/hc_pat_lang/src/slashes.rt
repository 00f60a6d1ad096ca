ghost use Rattle.std.specs.Prelude.{◌<◌, IfOk};
ghost use Rattle.hc_dfa.specs.Automata.{accepts, states};
ghost use Rattle.hc_pat_lang.specs.Graphs.{merged_graph};
ghost use Rattle.hc_pat_lang.specs.Sets.{AcceptsOnly, IsMerged};
ghost use Rattle.std.proofs.Common.{rules};

use hc_base::NoMemory;
use hc_dfa::{Choice, Dfa, Graph, Move, automaton};
use std::alloc::Global;

/// The automaton of the texts of the set with each run of slashes as one.
pub fn merge_slashes(alloc: Global, set: &Dfa) -> Result<Dfa, NoMemory>
    ensures { IfOk result (AcceptsOnly (IsMerged (accepts set.now))) }
{
    let first = Behind {
        state: set.start(),
        slash: false,
    };
    let made = automaton(alloc, &Merged { set }, first)?;
    Ok(made)
}

/// A state, and whether a slash was read last: then further slashes are passed over.
#[derive(Clone, Copy, PartialEq, Eq, Hash, Drop)]
pub struct Behind {
    pub state: u32,
    pub slash: bool,
}

#[derive(Clone, Copy)]
struct Merged<'a> {
    set: &'a Dfa,
}

impl<'a> Graph for Merged<'a> {
    type Key = Behind;

    ghost is_key = { λ merged behind. behind.state < states merged.set.now };

    ghost graph = { λ merged. merged_graph merged.set.now };

    fn step(&self, behind: Behind, choice: Choice) -> Option<Move<Behind>> {
        let Choice::Byte(byte) = choice else {
            return None;
        };
        let slash = byte == b'/';
        Some(Move {
            byte: if behind.slash && slash {
                None
            } else {
                Some(byte)
            },
            to: Behind {
                state: self.set.next_state(behind.state, byte),
                slash,
            },
        })
    }

    fn is_final(&self, behind: Behind) -> bool {
        self.set.is_final(behind.state)
    }

    ghost same = { Prim.search rules };
}
