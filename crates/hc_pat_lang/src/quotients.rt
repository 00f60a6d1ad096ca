ghost use Rattle.std.specs.Prelude.{IfOk};
ghost use Rattle.hc_dfa.specs.Automata.{accepts};
ghost use Rattle.hc_pat_lang.specs.Graphs.{IsAlong, front_graph, rest_graph};
ghost use Rattle.hc_pat_lang.specs.Sets.{AcceptsOnly, IsFront, IsRest};
ghost use Rattle.std.proofs.Common.{rules};

use hc_base::NoMemory;
use hc_dfa::{Choice, Dfa, Graph, Move, automaton};
use std::alloc::Global;

/// The automaton of what is left of the texts of the set behind a text of the other one.
pub fn prefix_quotient(alloc: Global, set: &Dfa, by: &Dfa) -> Result<Dfa, NoMemory>
    ensures { IfOk result (AcceptsOnly (IsRest (accepts set.now) (accepts by.now))) }
{
    let first = Along::Beside(set.start(), by.start());
    let made = automaton(alloc, &Rests { set, by }, first)?;
    Ok(made)
}

/// The automaton of what stands in the texts of the set before a text of the other one.
pub fn suffix_quotient(alloc: Global, set: &Dfa, by: &Dfa) -> Result<Dfa, NoMemory>
    ensures { IfOk result (AcceptsOnly (IsFront (accepts set.now) (accepts by.now))) }
{
    let _ = by.start();
    let made = automaton(alloc, &Fronts { set, by }, Along::Alone(set.start()))?;
    Ok(made)
}

/// A state of the set's automaton, alone or beside one of the other automaton.
#[derive(Clone, Copy, PartialEq, Eq, Hash, Drop)]
pub enum Along {
    Alone(u32),
    Beside(u32, u32),
}

/// Passes a text of the other set, and then reads.
#[derive(Clone, Copy)]
struct Rests<'a> {
    set: &'a Dfa,
    by: &'a Dfa,
}

impl<'a> Graph for Rests<'a> {
    type Key = Along;

    ghost is_key = { λ rests along. IsAlong rests.set.now rests.by.now along };

    ghost graph = { λ rests. rest_graph rests.set.now rests.by.now };

    fn step(&self, along: Along, choice: Choice) -> Option<Move<Along>> {
        match (along, choice) {
            (Along::Beside(state, other), Choice::Byte(byte)) => Some(Move {
                byte: None,
                to: Along::Beside(
                    self.set.next_state(state, byte),
                    self.by.next_state(other, byte),
                ),
            }),
            (Along::Beside(state, other), Choice::One) if self.by.is_final(other) => Some(Move {
                byte: None,
                to: Along::Alone(state),
            }),
            (Along::Alone(state), Choice::Byte(byte)) => Some(Move {
                byte: Some(byte),
                to: Along::Alone(self.set.next_state(state, byte)),
            }),
            _ => None,
        }
    }

    fn is_final(&self, along: Along) -> bool {
        match along {
            Along::Alone(state) => self.set.is_final(state),
            Along::Beside(_, _) => false,
        }
    }

    ghost same = { Prim.search rules };
}

/// Reads, and then passes a text of the other set.
#[derive(Clone, Copy)]
struct Fronts<'a> {
    set: &'a Dfa,
    by: &'a Dfa,
}

impl<'a> Graph for Fronts<'a> {
    type Key = Along;

    ghost is_key = { λ fronts along. IsAlong fronts.set.now fronts.by.now along };

    ghost graph = { λ fronts. front_graph fronts.set.now fronts.by.now };

    fn step(&self, along: Along, choice: Choice) -> Option<Move<Along>> {
        match (along, choice) {
            (Along::Alone(state), Choice::Byte(byte)) => Some(Move {
                byte: Some(byte),
                to: Along::Alone(self.set.next_state(state, byte)),
            }),
            (Along::Alone(state), Choice::One) => Some(Move {
                byte: None,
                to: Along::Beside(state, self.by.start()),
            }),
            (Along::Beside(state, other), Choice::Byte(byte)) => Some(Move {
                byte: None,
                to: Along::Beside(
                    self.set.next_state(state, byte),
                    self.by.next_state(other, byte),
                ),
            }),
            _ => None,
        }
    }

    fn is_final(&self, along: Along) -> bool {
        match along {
            Along::Alone(_) => false,
            Along::Beside(state, other) => self.set.is_final(state) && self.by.is_final(other),
        }
    }

    ghost same = { Prim.search rules };
}
