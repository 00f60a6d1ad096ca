ghost use Rattle.std.specs.Prelude.{◌≡◌, ◌<◌, [], ◌∷◌, true, length, slice_get, vec_len, IfOk, OnOk};
ghost use Rattle.std.specs.List.{Contains, All};
ghost use Rattle.hc_dfa.specs.Machines.{Goes, IsMachine};
ghost use Rattle.hc_dfa.specs.Sets.{AreChanges, AreStates, GathersAll, IsClosure, IsMark, IsRead, Marks};

use crate::dfa::BYTES;
use crate::machine::{Machine, Step};
use hc_base::NoMemory;
use std::alloc::Global;

/// The states that a byte leads to from a set. For each state there is the place at which it stood last in a set.
pub fn read(
    alloc: Global,
    machine: &Machine,
    places: &mut Vec<usize>,
    set: &[u32],
    byte: u8,
) -> Result<Vec<u32>, NoMemory>
    requires machine { IsMachine machine.now }
    requires places { vec_len places.old ≡ length machine.now.steps.items }
    requires states { AreStates machine.now set.now }
    ensures places { vec_len places.new ≡ vec_len places.old }
    ensures states { IfOk result (λ found. AreStates machine.now found.items) }
    ensures read { IfOk result (λ found. IsRead machine.now set.now byte found.items) }
{
    let mut found = Vec::new(alloc);
    for state in set {
        go(machine, places, &mut found, *state, Some(byte))?;
    }
    Ok(found)
}

/// The set with all that steps past nothing lead to, in order.
pub fn close(
    machine: &Machine,
    places: &mut Vec<usize>,
    set: Vec<u32>,
) -> Result<Vec<u32>, NoMemory>
    requires machine { IsMachine machine.now }
    requires places { vec_len places.old ≡ length machine.now.steps.items }
    requires states { AreStates machine.now set.items }
    ensures places { vec_len places.new ≡ vec_len places.old }
    ensures states { IfOk result (λ closure. AreStates machine.now closure.items) }
    ensures closure { IfOk result (λ closure. IsClosure machine.now set.items closure.items) }
{
    let mut closure = set;
    for place in 0..u32::MAX {
        let Some(state) = state_at(&closure, place) else {
            closure.sort()?;
            return Ok(closure);
        };
        go(machine, places, &mut closure, state, None)?;
    }
    Err(NoMemory)
}

fn state_at(set: &[u32], place: u32) -> Option<u32>
    ensures { result ≡ slice_get set.now place }
{
    set.get(place as usize).copied()
}

/// Adds the states that steps past a byte, or past nothing, lead to from a state.
fn go(
    machine: &Machine,
    places: &mut Vec<usize>,
    set: &mut Vec<u32>,
    state: u32,
    byte: Option<u8>,
) -> Result<(), NoMemory>
    requires machine { IsMachine machine.now }
    requires places { vec_len places.old ≡ length machine.now.steps.items }
    requires state { state < length machine.now.steps.items }
    requires states { AreStates machine.now set.old.items }
    ensures places { vec_len places.new ≡ vec_len places.old }
    ensures states { OnOk result (AreStates machine.now set.new.items) }
    ensures set { OnOk result (GathersAll (Goes machine.now state byte) set.old.items set.new.items) }
{
    let row = machine.steps[state as usize].as_slice();
    for step in row {
        if step.reads(byte) {
            add(set, places, step.to)?;
        }
    }
    Ok(())
}

/// Adds a state to a set, unless it is there: its place tells, where it stands at it.
fn add(set: &mut Vec<u32>, places: &mut Vec<usize>, state: u32) -> Result<(), NoMemory>
    requires { state < vec_len places.old }
    ensures set { OnOk result (GathersAll (λ other. other ≡ state) set.old.items set.new.items) }
    ensures places { vec_len places.new ≡ vec_len places.old }
{
    if stands_at(set, places[state as usize], state) {
        return Ok(());
    }
    places[state as usize] = set.len();
    set.push(state)?;
    Ok(())
}

fn stands_at(set: &[u32], place: usize, state: u32) -> bool
    ensures { result ≡ true → Contains set.now state }
{
    match set.get(place) {
        Some(there) => *there == state,
        None => false,
    }
}

/// The bytes at which some step begins, and those after which one ends.
pub fn changes_of(alloc: Global, machine: &Machine) -> Result<Vec<bool>, NoMemory>
    ensures { IfOk result (λ changes. AreChanges machine.now.steps.items changes.items) }
{
    let mut changes = vec![in alloc; false; BYTES + 1]?;
    for steps in &machine.steps {
        mark_all(&mut changes, steps);
    }
    Ok(changes)
}

fn mark_all(changes: &mut Vec<bool>, steps: &[Step])
    requires { vec_len changes.old ≡ 257 }
    ensures { Marks steps.now changes.old.items changes.new.items }
{
    for step in steps {
        mark(changes, step);
    }
}

/// Marks where a step begins, and what follows its end.
fn mark(changes: &mut Vec<bool>, step: &Step)
    requires { vec_len changes.old ≡ 257 }
    ensures { Marks (step.now ∷ []) changes.old.items changes.new.items }
{
    if let Some(bytes) = step.bytes {
        changes[bytes.low as usize] = true;
        changes[bytes.high as usize + 1] = true;
    }
}

/// Whether a state of the set is marked.
pub fn has_marked(set: &[u32], marks: &[bool]) -> bool
    requires { All (λ state. state < length marks.now) set.now }
    ensures { IsMark marks.now set.now result }
{
    for state in set {
        if marks[*state as usize] {
            return true;
        }
    }
    false
}
