ghost use Rattle.std.specs.Prelude.{◌≡◌, ℕ, true, false, ◌-◌, ◌<◌, ◌^◌, length, slice_index, IfOk};
ghost use Rattle.hc_dfa.specs.Automata.{accepts, next_state, states};
ghost use Rattle.hc_dfa.specs.Blocks.{AreApart, AreLeaders, IsSignature, IsStable, Refines, Represents, RespectsFinals};
ghost use Rattle.hc_dfa.specs.Built.{Accepts};

use crate::coarse::coarsened;
use crate::dfa::{complement, led};
use crate::leasts::distances;
use crate::numbers::number_of;
use crate::settling::{Passes, settle};
use crate::{Dfa, Keep, product};
use hc_base::{List, NoMemory};
use indexmap::IndexSet;
use std::alloc::Global;

/// The automaton with the same test that has the fewest states: the ones with the same test are made
/// one, and those that can't be reached are left out. That they are the fewest is tested, and no
/// contract says it.
pub fn reduce(alloc: Global, a: &Dfa) -> Result<Dfa, NoMemory>
    ensures { IfOk result (λ made. Accepts made (accepts a.now)) }
{
    let merged = merge(alloc, a)?;
    let met = product(alloc, &merged, &merged, Keep::Both)?;
    let reduced = coarsened(alloc, &met)?;
    Ok(reduced)
}

/// The same automaton, with each step led to the first state of its block.
fn merge(alloc: Global, a: &Dfa) -> Result<Dfa, NoMemory>
    ensures { IfOk result (λ made. Accepts made (accepts a.now)) }
{
    let _ = a.states();
    let blocks = stable_blocks(alloc, a)?;
    let leaders = leaders_of(alloc, &blocks)?;
    let table = led(alloc, &blocks, &leaders)?;
    let merged = a.redirected(alloc, &table)?;
    Ok(merged)
}

/// The first state of each block.
fn leaders_of(alloc: Global, blocks: &[u32]) -> Result<Vec<u32>, NoMemory>
    requires some { 0 < length blocks.now }
    requires few { length blocks.now < 2 ^ 32 }
    requires bound { (s : ℕ) → s < length blocks.now → slice_index blocks.now s < length blocks.now }
    ensures { IfOk result (λ leaders. AreLeaders (length blocks.now) blocks.now leaders.items) }
{
    let mut leaders = vec![in alloc; 0; blocks.len()]?;
    for later in 0..blocks.len() {
        let state = blocks.len() - 1 - later;
        leaders[blocks[state] as usize] = state as u32;
    }
    Ok(leaders)
}

/// The coarsest partition of the states that respects finals and steps.
fn stable_blocks(alloc: Global, a: &Dfa) -> Result<Vec<u32>, NoMemory>
    ensures { IfOk result (λ blocks. IsStable a.now blocks.items) }
{
    let bytes = a.classes().firsts();
    let mut blocks = by_distances(alloc, a)?;
    if !are_apart(&blocks) {
        settle(&Finer { alloc, a, bytes }, &mut blocks)?;
    }
    Ok(blocks)
}

#[derive(Drop)]
struct Finer<'a> {
    alloc: Global,
    a: &'a Dfa,
    bytes: &'a [u8],
}

impl<'a> Passes for Finer<'a> {
    type State = Vec<u32>;

    ghost is_sound = { λ finer blocks. Represents finer.a.now finer.bytes.now
        × (length blocks.items ≡ states finer.a.now) × RespectsFinals finer.a.now blocks.items };

    ghost is_settled = { λ finer blocks. IsStable finer.a.now blocks.items };

    fn pass(&self, blocks: &mut Vec<u32>) -> Result<bool, NoMemory> {
        let finer = refine(self.alloc, self.a, self.bytes, blocks)?;
        let settled = are_apart(&finer) || finer == *blocks;
        *blocks = finer;
        Ok(!settled)
    }
}

/// Whether each state is a block by itself, with its own number. No refinement tells more apart.
fn are_apart(blocks: &[u32]) -> bool
    ensures { result ≡ true → AreApart blocks.now }
{
    for state in 0..blocks.len() {
        if blocks[state] as usize != state {
            return false;
        }
    }
    true
}

/// States as far from a final state and from one that is not final: mostly few rounds are left then.
fn by_distances(alloc: Global, a: &Dfa) -> Result<Vec<u32>, NoMemory>
    ensures len { IfOk result (λ blocks. length blocks.items ≡ states a.now) }
    ensures finals { IfOk result (λ blocks. RespectsFinals a.now blocks.items) }
{
    let to_final = distances(alloc, a)?;
    let to_other = distances(alloc, &complement(alloc, a)?)?;
    let mut pairs = IndexSet::new(alloc);
    let mut blocks = Vec::new(alloc);
    for state in 0..a.states() {
        let other = to_other.get(state as usize).copied();
        let pair = (to_final[state as usize], other.unwrap_or(0));
        blocks.push(number_of(&mut pairs, pair)?)?;
    }
    Ok(blocks)
}

/// Tells apart the states of a block that a byte leads to different blocks.
fn refine(alloc: Global, a: &Dfa, bytes: &[u8], blocks: &[u32]) -> Result<Vec<u32>, NoMemory>
    requires bytes { Represents a.now bytes.now }
    requires len { length blocks.now ≡ states a.now }
    ensures { IfOk result (λ finer. Refines a.now blocks.now finer.items) }
{
    let mut signatures = IndexSet::new(alloc);
    let mut finer = Vec::new(alloc);
    for state in 0..a.states() {
        let signature = signature(alloc, a, bytes, blocks, state)?;
        finer.push(number_of(&mut signatures, signature)?)?;
    }
    Ok(finer)
}

fn signature(
    alloc: Global,
    a: &Dfa,
    bytes: &[u8],
    blocks: &[u32],
    state: u32,
) -> Result<List<u32>, NoMemory>
    requires len { length blocks.now ≡ states a.now }
    requires state { state < states a.now }
    ensures { IfOk result (IsSignature a.now bytes.now blocks.now state) }
{
    let mut signature = List::new(alloc);
    for byte in bytes {
        signature.push(blocks[a.next_state(state, *byte) as usize])?;
    }
    signature.push(blocks[state as usize])?;
    Ok(signature)
}
