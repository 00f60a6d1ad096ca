ghost use Rattle.std.specs.Prelude.{◌≡◌, ℕ, ◌<◌, length, slice_index, vec_len, IfOk};
ghost use Rattle.hc_dfa.specs.Automata.{is_final, next_state, states};
ghost use Rattle.hc_dfa.specs.Classings.{AreColumns, IsColumn, TellsByNumber};

use crate::Dfa;
use crate::classes::Classes;
use crate::dfa::BYTES;
use crate::numbers::number_near;
use crate::tabled::{Transitions, tabled};
use hc_base::{List, NoMemory};
use indexmap::IndexSet;
use std::alloc::Global;

/// The same automaton with the fewest classes of bytes.
pub fn coarsened(alloc: Global, a: &Dfa) -> Result<Dfa, NoMemory>
    ensures { IfOk result (λ made. made ≡ a.now) }
{
    let numbers = byte_numbers(alloc, a)?;
    let classes = Classes::of_numbers(alloc, &numbers)?;
    let made = tabled(alloc, a, classes, a.states())?;
    let _ = made.start();
    Ok(made)
}

impl Transitions for Dfa {
    ghost is_sound = { λ a. Unit {0} };

    ghost count = { λ a. states a };

    ghost step = { λ a. next_state a };

    ghost mark = { λ a. is_final a };

    fn next(&self, state: u32, byte: u8) -> u32 {
        self.next_state(state, byte)
    }

    fn is_final(&self, state: u32) -> bool {
        Dfa::is_final(self, state)
    }
}

/// A number for each byte: bytes with the same number lead from each state to the same state.
fn byte_numbers(alloc: Global, a: &Dfa) -> Result<Vec<u32>, NoMemory>
    ensures len { IfOk result (λ numbers. vec_len numbers ≡ 256) }
    ensures tells { IfOk result (λ numbers. TellsByNumber numbers.items a.now) }
{
    let classes = a.classes();
    let columns = column_numbers(alloc, a, classes.firsts())?;
    let mut numbers = Vec::new(alloc);
    for byte in 0..BYTES {
        numbers.push(columns[classes.class_of(byte as u8) as usize])?;
    }
    Ok(numbers)
}

/// The same for each of these bytes.
fn column_numbers(alloc: Global, a: &Dfa, bytes: &[u8]) -> Result<Vec<u32>, NoMemory>
    ensures { IfOk result (λ numbers. AreColumns a.now bytes.now numbers.items) }
{
    let mut columns = IndexSet::new(alloc);
    let mut numbers = Vec::new(alloc);
    let mut near = 0;
    for byte in bytes {
        let column = column(alloc, a, *byte)?;
        near = number_near(&mut columns, near, column)?;
        numbers.push(near)?;
    }
    Ok(numbers)
}

/// Where a byte leads from each state.
fn column(alloc: Global, a: &Dfa, byte: u8) -> Result<List<u32>, NoMemory>
    ensures { IfOk result (IsColumn a.now byte) }
{
    let mut column = List::new(alloc);
    for state in 0..a.states() {
        column.push(a.next_state(state, byte))?;
    }
    Ok(column)
}
