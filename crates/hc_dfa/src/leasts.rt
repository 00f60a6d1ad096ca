ghost use Rattle.std.specs.Prelude.{◌≡◌, ℕ, ◌+◌, ◌<◌, false, slice_index, length, IfOk};
ghost use Rattle.hc_dfa.specs.Automata.{Automaton, states, next_state, is_final, accepts, IsTable, value_on};
ghost use Rattle.hc_dfa.specs.Classings.{Classing, AreClasses, Tells};
ghost use Rattle.hc_dfa.specs.Distances.{Bounds, Distances, IsFirstTo, IsNearest, IsSettled};
ghost use Rattle.hc_dfa.specs.Texts.{IsLeastOf};

use crate::settling::{Passes, settle};
use crate::{Dfa, Member};
use hc_base::NoMemory;
use std::alloc::Global;

/// The distance of a state from which no final state can be reached.
pub(crate) const NONE: u32 = u32::MAX;

/// The least text that the automaton accepts: of the shortest the first in the order of bytes.
pub fn least(alloc: Global, a: &Dfa) -> Result<Option<Member>, NoMemory>
    ensures { IfOk result (λ found. IsLeastOf (accepts a.now) found) }
{
    let distances = distances(alloc, a)?;
    let mut state = a.start();
    if distances[state as usize] == NONE {
        return Ok(None);
    }
    let mut bytes = Vec::new(alloc);
    'bytes: while distances[state as usize] > 0 {
        let byte = first_step(a, &distances, state);
        state = a.next_state(state, byte);
        bytes.push(byte)?;
    }
    Ok(Some(Member::from(bytes)))
}

/// The first byte that leads from a state one nearer to a final one.
fn first_step(a: &Dfa, distances: &[u32], state: u32) -> u8
    requires distances { Distances a.now distances.now }
    requires state { state < states a.now }
    requires more { 0 < slice_index distances.now state }
    requires some { slice_index distances.now state < NONE }
    ensures nearer { slice_index distances.now state ≡ value_on a.now distances.now state result + 1 }
    ensures first { (byte : ℕ) → byte < result
        → slice_index distances.now state ≡ value_on a.now distances.now state byte + 1 → ⊥ }
{
    let left = distances[state as usize] - 1;
    let Some(byte) = first_to(a, a.classes().firsts(), distances, state, left) else {
        unreachable!()
    };
    byte
}

/// The first byte that leads from a state to one at this distance. Asked are the least bytes of classes.
fn first_to(a: &Dfa, bytes: &[u8], distances: &[u32], state: u32, distance: u32) -> Option<u8>
    requires bytes { (c : Classing) × (c.firsts ≡ bytes.now) × AreClasses c × Tells c a.now }
    requires len { length distances.now ≡ states a.now }
    requires state { state < states a.now }
    ensures { IsFirstTo a.now distances.now state distance result }
{
    for byte in bytes {
        if distances[a.next_state(state, *byte) as usize] == distance {
            return Some(*byte);
        }
    }
    None
}

/// The distance of each state to the nearest final one.
pub(crate) fn distances(alloc: Global, a: &Dfa) -> Result<Vec<u32>, NoMemory>
    ensures { IfOk result (λ found. Distances a.now found.items) }
{
    let mut distances = at_finals(alloc, a)?;
    settle(&Nearer { a }, &mut distances)?;
    Ok(distances)
}

#[derive(Clone, Copy)]
struct Nearer<'a> {
    a: &'a Dfa,
}

impl<'a> Passes for Nearer<'a> {
    type State = Vec<u32>;

    ghost is_sound = { λ nearer distances. Bounds nearer.a.now distances.items };

    ghost is_settled = { λ nearer distances. Distances nearer.a.now distances.items };

    fn pass(&self, distances: &mut Vec<u32>) -> Result<bool, NoMemory> {
        Ok(bring_all_nearer(self.a, distances))
    }
}

fn at_finals(alloc: Global, a: &Dfa) -> Result<Vec<u32>, NoMemory>
    ensures { IfOk result (λ found. Bounds a.now found.items) }
{
    let mut distances = Vec::new(alloc);
    for state in 0..a.states() {
        distances.push(if a.is_final(state) { 0 } else { NONE })?;
    }
    Ok(distances)
}

/// Brings states nearer, in one pass from the last one on: mostly states lead on to later ones. Tells
/// whether there was one to be brought nearer.
fn bring_all_nearer(a: &Dfa, distances: &mut Vec<u32>) -> bool
    requires { Bounds a.now distances.old.items }
    ensures bounds { Bounds a.now distances.new.items }
    ensures all { result ≡ false → Distances a.now distances.new.items }
{
    let mut some = false;
    for later in 0..a.states() {
        let moved = bring_nearer(a, distances, a.states() - 1 - later);
        if !moved {
            continue;
        }
        some = true;
    }
    some
}

/// Brings a state nearer where a byte leads to a nearer one. Tells whether one does.
fn bring_nearer(a: &Dfa, distances: &mut Vec<u32>, state: u32) -> bool
    requires bounds { Bounds a.now distances.old.items }
    requires state { state < states a.now }
    ensures bounds { Bounds a.now distances.new.items }
    ensures settled { result ≡ false
        → (distances.new.items ≡ distances.old.items) × IsSettled a.now distances.new.items state }
{
    let nearest = nearest(a, a.classes().firsts(), distances, state);
    let own = distances[state as usize];
    if nearest == NONE {
        return false;
    }
    if own < NONE && own <= nearest + 1 {
        return false;
    }
    distances[state as usize] = nearest + 1;
    true
}

/// The least distance of the states that bytes lead to. Asked are the least bytes of classes.
fn nearest(a: &Dfa, bytes: &[u8], distances: &[u32], state: u32) -> u32
    requires bytes { (c : Classing) × (c.firsts ≡ bytes.now) × AreClasses c × Tells c a.now }
    requires len { length distances.now ≡ states a.now }
    requires state { state < states a.now }
    ensures { IsNearest a.now distances.now state result }
{
    let mut nearest = NONE;
    for byte in bytes {
        let distance = distances[a.next_state(state, *byte) as usize];
        if nearest <= distance {
            continue;
        }
        nearest = distance;
    }
    nearest
}
