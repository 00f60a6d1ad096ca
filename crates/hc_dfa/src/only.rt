ghost use Rattle.std.specs.Prelude.{◌≡◌, ◌<◌, length, IfOk};
ghost use Rattle.hc_dfa.specs.Automata.{accepts, states};
ghost use Rattle.hc_dfa.specs.Classings.{Classing, HasEnds, Tells};
ghost use Rattle.hc_dfa.specs.Members.{IsOnlyOf, IsOnward};

use crate::leasts::{NONE, distances};
use crate::{Dfa, Member};
use hc_base::NoMemory;
use std::alloc::Global;

/// The text of a set that has one only.
pub fn only_member(alloc: Global, a: &Dfa) -> Result<Option<Member>, NoMemory>
    ensures { IfOk result (λ found. IsOnlyOf (accepts a.now) found) }
{
    let distances = distances(alloc, a)?;
    let ends = a.classes().ends(alloc)?;
    let mut state = a.start();
    let mut bytes = Vec::new(alloc);
    'bytes: while distances[state as usize] > 0 {
        let Onward::By(byte) = onward_from(a, &ends, &distances, state) else {
            return Ok(None);
        };
        state = a.next_state(state, byte);
        bytes.push(byte)?;
    }
    match onward_from(a, &ends, &distances, state) {
        Onward::Nowhere => Ok(Some(Member::from(bytes))),
        _ => Ok(None),
    }
}

/// How texts that are accepted go on from a state: not at all, by one byte alone, or in several ways.
#[derive(Clone, Copy)]
enum Onward {
    Nowhere,
    By(u8),
    Ways,
}

/// Asked are the ends of classes.
fn onward_from(a: &Dfa, ends: &[u8], distances: &[u32], state: u32) -> Onward
    requires ends { (c : Classing) × Tells c a.now × HasEnds c ends.now }
    requires len { length distances.now ≡ states a.now }
    requires state { state < states a.now }
    ensures { IsOnward a.now distances.now state result }
{
    let mut onward = Onward::Nowhere;
    for byte in ends {
        if distances[a.next_state(state, *byte) as usize] == NONE {
            continue;
        }
        onward = match onward {
            Onward::By(known) if known != *byte => return Onward::Ways,
            _ => Onward::By(*byte),
        };
    }
    onward
}
