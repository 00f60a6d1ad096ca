ghost use Rattle.std.specs.Prelude.{◌≡◌, ◌≤◌, IfOk, length, map, take};
ghost use Rattle.hc_dfa.specs.Automata.{accepts};
ghost use Rattle.hc_pat_lang.specs.Graphs.{IsStage, joined_graph};
ghost use Rattle.hc_pat_lang.specs.Sets.{AcceptsOnly, AreJoined, AreOnly, IsJoined};
ghost use Rattle.std.proofs.Common.{rules};

use hc_base::NoMemory;
use hc_dfa::{Choice, Dfa, Graph, Move, automaton, behind_front, only_member};
use std::alloc::Global;

/// The automaton of the texts that are made of a text of the first set and then one of the second.
pub fn concat(alloc: Global, a: &Dfa, b: &Dfa) -> Result<Dfa, NoMemory>
    ensures { IfOk result (AcceptsOnly (IsJoined (accepts a.now) (accepts b.now))) }
{
    let sets = [a.clone()?, b.clone()?];
    let made = concat_all(alloc, &sets)?;
    Ok(made)
}

/// The automaton of the texts that are made of a text of each set, one behind the other. First sets that have one text
/// each are put before the others as one text, which is much faster than a graph.
pub fn concat_all(alloc: Global, sets: &[Dfa]) -> Result<Dfa, NoMemory>
    ensures { IfOk result (AcceptsOnly (AreJoined (map accepts sets.now))) }
{
    let front = front_of(alloc, sets)?;
    let rest = others_joined(alloc, &sets[front.count..])?;
    if front.text.is_empty() {
        return Ok(rest);
    }
    let made = behind_front(alloc, &front.text, &rest)?;
    Ok(made)
}

/// The texts of the first sets that have one each, joined, and how many of them there are.
#[derive(Drop)]
struct Front {
    text: Vec<u8>,
    count: usize,
}

fn front_of(alloc: Global, sets: &[Dfa]) -> Result<Front, NoMemory>
    ensures within { IfOk result (λ front. front.count ≤ length sets.now) }
    ensures only { IfOk result (λ front. AreOnly (take front.count sets.now) front.text.items) }
{
    let mut text = Vec::new(alloc);
    for count in 0..sets.len() {
        let Some(only) = only_member(alloc, &sets[count])? else {
            return Ok(Front { text, count });
        };
        text.extend_from_slice(only.as_bytes())?;
    }
    Ok(Front {
        text,
        count: sets.len(),
    })
}

/// The same for any sets, as a graph where there is more than one.
fn others_joined(alloc: Global, sets: &[Dfa]) -> Result<Dfa, NoMemory>
    ensures { IfOk result (AcceptsOnly (AreJoined (map accepts sets.now))) }
{
    if let [set] = sets {
        let same = set.clone()?;
        return Ok(same);
    }
    let joined = Joined { sets };
    let made = automaton(alloc, &joined, joined.start_of(0))?;
    Ok(made)
}

/// A set by its number, and a state of its automaton. The number behind the last one is the end.
#[derive(Clone, Copy, PartialEq, Eq, Hash, Drop)]
pub struct Stage {
    pub set: usize,
    pub state: u32,
}

#[derive(Clone, Copy)]
struct Joined<'a> {
    sets: &'a [Dfa],
}

impl<'a> Joined<'a> {
    /// Where the texts of a set begin.
    fn start_of(&self, set: usize) -> Stage
        ensures value { result ≡ record { set = set; state = 0 } }
        ensures stage { IsStage self.now.sets.now result }
    {
        let state = match self.sets.get(set) {
            Some(set) => set.start(),
            None => 0,
        };
        Stage { set, state }
    }
}

impl<'a> Graph for Joined<'a> {
    type Key = Stage;

    ghost is_key = { λ joined. IsStage joined.sets.now };

    ghost graph = { λ joined. joined_graph joined.sets.now };

    fn step(&self, stage: Stage, choice: Choice) -> Option<Move<Stage>> {
        match (self.sets.get(stage.set), choice) {
            (Some(set), Choice::Byte(byte)) => Some(Move {
                byte: Some(byte),
                to: Stage {
                    set: stage.set,
                    state: set.next_state(stage.state, byte),
                },
            }),
            (Some(set), Choice::One) if set.is_final(stage.state) => Some(Move {
                byte: None,
                to: self.start_of(stage.set + 1),
            }),
            _ => None,
        }
    }

    fn is_final(&self, stage: Stage) -> bool {
        self.sets.get(stage.set).is_none()
    }

    ghost same = { Prim.search rules };
}
