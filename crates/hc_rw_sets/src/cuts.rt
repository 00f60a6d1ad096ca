ghost use Rattle.std.specs.Prelude.{◌<◌, ◌||◌, ◌==◌, IfOk};
ghost use Rattle.hc_dfa.specs.Automata.{accepts, states};
ghost use Rattle.hc_pat_lang.specs.Sets.{AcceptsOnly};
ghost use Rattle.hc_rw_sets.specs.Cuts.{cut_graph, part_at};
ghost use Rattle.hc_rw_sets.specs.Made.{MadeOf};
ghost use Rattle.std.proofs.Common.{rules};

use hc_base::NoMemory;
use hc_dfa::{Choice, Dfa, Graph, Move, automaton};
use std::alloc::Global;

/// A part of a text by the first mark in it: what stands before it, what stands behind it, or the text from it on.
#[derive(Clone, Copy)]
pub enum Part {
    Before,
    Behind,
    From,
}

/// A part of each text of a set, by the first byte of this value. Where there is none, all stands before it.
pub fn cut_at(alloc: Global, set: &Dfa, mark: u8, part: Part) -> Result<Dfa, NoMemory>
    ensures { IfOk result (AcceptsOnly (MadeOf (part_at mark part) (accepts set.now))) }
{
    let first = Cut {
        state: set.start(),
        found: false,
    };
    let made = automaton(alloc, &Cutting { set, mark, part }, first)?;
    Ok(made)
}

/// A state, and whether the mark was read.
#[derive(Clone, Copy, PartialEq, Eq, Hash, Drop)]
pub struct Cut {
    pub state: u32,
    pub found: bool,
}

#[derive(Clone, Copy)]
struct Cutting<'a> {
    set: &'a Dfa,
    mark: u8,
    part: Part,
}

impl<'a> Graph for Cutting<'a> {
    type Key = Cut;

    ghost is_key = { λ cutting cut. cut.state < states cutting.set.now };

    ghost graph = { λ cutting. cut_graph cutting.set.now cutting.mark cutting.part };

    fn step(&self, cut: Cut, choice: Choice) -> Option<Move<Cut>> {
        let Choice::Byte(byte) = choice else {
            return None;
        };
        let found = cut.found || byte == self.mark;
        let kept = match self.part {
            Part::Before => !found,
            Part::Behind => cut.found,
            Part::From => found,
        };
        Some(Move {
            byte: if kept { Some(byte) } else { None },
            to: Cut {
                state: self.set.next_state(cut.state, byte),
                found,
            },
        })
    }

    fn is_final(&self, cut: Cut) -> bool {
        self.set.is_final(cut.state)
    }

    ghost same = { Prim.search rules };
}
