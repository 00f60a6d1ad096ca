ghost use Rattle.std.specs.Prelude.{◌+◌, ◌<◌, ◌^◌, ◌==◌, length, IfOk};
ghost use Rattle.hc_dfa.specs.Automata.{accepts};
ghost use Rattle.hc_dfa.specs.Built.{Accepts, AreFirst};
ghost use Rattle.hc_dfa.specs.Singles.{AreOwn, single, single_step};

use crate::classes::Classes;
use crate::dfa::BYTES;
use crate::tabled::{Transitions, tabled};
use crate::{Dfa, Keep, Member, least, product, reduce};
use hc_base::{List, NoMemory};
use std::alloc::Global;

/// The first texts that the automaton accepts, in order, at most `count`: of the shortest those first
/// that come first in the order of bytes.
pub fn first_members(alloc: Global, a: &Dfa, count: usize) -> Result<List<Member>, NoMemory>
    ensures { IfOk result (λ found. AreFirst (accepts a.now) count found) }
{
    let mut found = List::new(alloc);
    let mut rest = reduce(alloc, a)?;
    for _taken in 0..count {
        let Some(text) = least(alloc, &rest)? else {
            return Ok(found);
        };
        let only = single(alloc, text.as_bytes())?;
        rest = product(alloc, &rest, &only, Keep::FirstOnly)?;
        found.push(text)?;
    }
    Ok(found)
}

/// The automaton of one text. A text of 4,294,967,294 bytes or more is refused as memory is.
pub fn single(alloc: Global, text: &[u8]) -> Result<Dfa, NoMemory>
    ensures { IfOk result (λ made. Accepts made (single text.now)) }
{
    if text.len() >= u32::MAX as usize - 1 {
        return Err(NoMemory);
    }
    let numbers = own_numbers(alloc, text)?;
    let classes = Classes::of_numbers(alloc, &numbers)?;
    let made = tabled(alloc, &Reading { text }, classes, text.len() as u32 + 2)?;
    Ok(made)
}

/// A number for each byte of the text, and 0 for all others.
pub(crate) fn own_numbers(alloc: Global, text: &[u8]) -> Result<Vec<u32>, NoMemory>
    ensures { IfOk result (λ numbers. AreOwn text.now (length text.now) numbers.items) }
{
    let mut numbers = vec![in alloc; 0; BYTES]?;
    for byte in text {
        numbers[*byte as usize] = u32::from(*byte) + 1;
    }
    Ok(numbers)
}

/// Reads a text. The states count the bytes that were read, and the last one stands for any other text.
#[derive(Clone, Copy)]
struct Reading<'t> {
    text: &'t [u8],
}

impl<'t> Transitions for Reading<'t> {
    ghost is_sound = { λ reading. length reading.text.now + 2 < 2 ^ 32 };

    ghost count = { λ reading. length reading.text.now + 2 };

    ghost step = { λ reading. single_step reading.text.now };

    ghost mark = { λ reading state. state == length reading.text.now };

    fn next(&self, state: u32, byte: u8) -> u32 {
        let place = state as usize;
        if place < self.text.len() && self.text[place] == byte {
            state + 1
        } else {
            self.text.len() as u32 + 1
        }
    }

    fn is_final(&self, state: u32) -> bool {
        state as usize == self.text.len()
    }
}
