ghost use Rattle.std.specs.Prelude.{◌≡◌, ◌<◌, IfOk, IfSome, OnOk, true};
ghost use Rattle.hc_dfa.specs.Explored.{Extends};
ghost use Rattle.hc_dfa.specs.Graphs.{AcceptsWays, AreKeys, AreSteps, Follows, GraphOf, IsChoice, ReadsWays};
ghost use Rattle.hc_dfa.specs.Graphs.{choice_number};
ghost use Rattle.hc_dfa.specs.Machines.{IsMachine};
ghost use Rattle.hc_dfa.specs.declared.graphs.Move.{Move};

use crate::Dfa;
use crate::determinize::determinized;
use crate::exploring::{Walk, explore};
use crate::machine::{Machine, Step, add_step};
use crate::numbers::{number_near, number_of};
use crate::reduced::reduce;
use hc_base::NoMemory;
use indexmap::IndexSet;
use std::alloc::Global;
use std::hash::Hash;

/// By what a key may lead on: a byte, or one of two others.
#[derive(Clone, Copy)]
pub enum Choice {
    Byte(u8),
    One,
    Other,
}

/// How many choices there are.
const CHOICES: u16 = 258;

/// The choice with a number, in their order.
fn choice_at(number: u16) -> Choice
    requires { number < 258 }
    ensures value { choice_number result ≡ number }
    ensures choice { IsChoice result }
{
    match number {
        256 => Choice::One,
        257 => Choice::Other,
        byte => Choice::Byte(byte as u8),
    }
}

/// Where a choice leads: to a key, past a byte that is read or past none.
#[derive(Clone, Copy)]
pub struct Move<K> {
    pub byte: Option<u8>,
    pub to: K,
}

/// A graph of keys. A key stands for the texts that are read on the ways from it to a final one.
pub trait Graph {
    type Key: Copy + Eq + Hash + Drop;

    ghost is_key: { Self → Self.Key → Type 0 };

    ghost graph: { Self → GraphOf Self.Key };

    /// Where a choice leads from a key, if it leads anywhere.
    fn step(&self, key: Self::Key, choice: Choice) -> Option<Move<Self::Key>>
        requires key { is_key self.now key }
        requires choice { IsChoice choice }
        ensures value { result ≡ (graph self.now).moves key choice }
        ensures to { IfSome result (λ move. is_key self.now move.to) };

    fn is_final(&self, key: Self::Key) -> bool
        requires { is_key self.now key }
        ensures { result ≡ (graph self.now).is_final key };

    ghost same: { (x y : Self.Key) → Self.Key.eq x y ≡ true → x ≡ y };
}

/// The automaton that accepts the texts of a key, reduced.
pub fn automaton<G: Graph>(alloc: Global, graph: &G, first: G::Key) -> Result<Dfa, NoMemory>
    requires { G.is_key graph.now first }
    ensures { IfOk result (AcceptsWays (G.graph graph.now) first) }
{
    let machine = machine_of(alloc, graph, first)?;
    let made = determinized(alloc, &machine)?;
    let reduced = reduce(alloc, &made)?;
    Ok(reduced)
}

/// The machine that reads the texts of a key. Its states are the keys that are met from it on.
fn machine_of<G: Graph>(alloc: Global, graph: &G, first: G::Key) -> Result<Machine, NoMemory>
    requires { G.is_key graph.now first }
    ensures machine { IfOk result IsMachine }
    ensures ways { IfOk result (ReadsWays (G.graph graph.now) first) }
{
    let mut machine = Machine {
        steps: Vec::new(alloc),
        finals: Vec::new(alloc),
    };
    let mut keys = IndexSet::new(alloc);
    number_of(&mut keys, first)?;
    explore(
        &Moves {
            alloc,
            graph,
            first,
        },
        &mut machine,
        &mut keys,
    )?;
    Ok(machine)
}

/// The walk over a graph that gathers its machine.
#[derive(Drop)]
struct Moves<'a, G: Graph> {
    alloc: Global,
    graph: &'a G,
    first: G::Key,
}

impl<'a, G: Graph> Walk for Moves<'a, G> {
    type Key = G::Key;

    type Gathered = Machine;

    ghost has_followed = { λ w m keys count. Follows (G.is_key w.graph.now) (G.graph w.graph.now) w.first keys m
        count };

    fn follow(
        &self,
        machine: &mut Machine,
        keys: &mut IndexSet<G::Key>,
        number: u32,
    ) -> Result<(), NoMemory> {
        let key = keys.as_slice()[number as usize];
        machine
            .steps
            .push(steps_of(self.alloc, self.graph, keys, key)?)?;
        machine.finals.push(self.graph.is_final(key))?;
        Ok(())
    }
}

/// The steps of a key. The keys that they lead to are added to those that are met.
fn steps_of<G: Graph>(
    alloc: Global,
    graph: &G,
    keys: &mut IndexSet<G::Key>,
    key: G::Key,
) -> Result<Vec<Step>, NoMemory>
    requires proper { AreKeys (G.is_key graph.now) keys.old.keys }
    requires key { G.is_key graph.now key }
    ensures proper { OnOk result (AreKeys (G.is_key graph.now) keys.new.keys) }
    ensures extends { OnOk result (Extends keys.old.keys keys.new.keys) }
    ensures steps { IfOk result (λ steps. AreSteps (G.graph graph.now) keys.new.keys key 258 steps.items) }
{
    let mut steps = Vec::new(alloc);
    let mut near = 0;
    for choice in 0..CHOICES {
        let Some(step) = graph.step(key, choice_at(choice)) else {
            continue;
        };
        near = number_near(keys, near, step.to)?;
        add_step(&mut steps, step.byte, near)?;
    }
    Ok(steps)
}
