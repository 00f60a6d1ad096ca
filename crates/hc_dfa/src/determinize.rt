ghost use Rattle.std.specs.Prelude.{◌≡◌, ℕ, [], ◌∷◌, IfOk, length, vec_len};
ghost use Rattle.std.proofs.Common.{sym};
ghost use Rattle.std.specs.Cmp.Lexicographic.{same_text};
ghost use Rattle.hc_dfa.specs.Classings.{AreClasses};
ghost use Rattle.hc_dfa.specs.Machines.{AcceptsPaths, IsMachine};
ghost use Rattle.hc_dfa.specs.Sets.{ArePieces, IsClosure, IsMark, IsProper, IsStep, TellsSteps};

use crate::Dfa;
use crate::classes::Classes;
use crate::coarse::coarsened;
use crate::dfa::BYTES;
use crate::machine::Machine;
use crate::rows::{Rows, table_of};
use crate::subsets::{changes_of, close, has_marked, read};
use hc_base::{List, NoMemory};
use std::alloc::Global;

/// The automaton that accepts the machine's texts. Its states are the sets of states that are met from the first
/// state on.
pub fn determinized(alloc: Global, machine: &Machine) -> Result<Dfa, NoMemory>
    requires { IsMachine machine.now }
    ensures { IfOk result (AcceptsPaths machine.now) }
{
    let classes = alike_bytes(alloc, machine)?;
    let mut places = vec![in alloc; 0; machine.steps.len()]?;
    let first = close(machine, &mut places, vec![in alloc; 0; 1]?)?;
    let sets = Sets { alloc, machine };
    let table = table_of(alloc, &sets, places, classes.firsts(), List::from(first))?;
    let smaller = coarsened(alloc, &Dfa::made(classes, table.next, table.finals))?;
    Ok(smaller)
}

/// Sets of a machine's states.
#[derive(Clone, Copy)]
struct Sets<'a> {
    alloc: Global,
    machine: &'a Machine,
}

impl<'a> Rows for Sets<'a> {
    type Key = List<u32>;

    type Scratch = Vec<usize>;

    ghost begins = { λ sets. IsClosure sets.machine.now (0 ∷ []) };

    ghost is_key = { λ sets. IsProper sets.machine.now };

    ghost leads = { λ sets. IsStep sets.machine.now };

    ghost marks = { λ sets. IsMark sets.machine.now.finals.items };

    ghost fits = { λ sets places. IsMachine sets.machine.now
        × (vec_len places ≡ length sets.machine.now.steps.items) };

    fn next(
        &self,
        places: &mut Vec<usize>,
        set: &List<u32>,
        byte: u8,
    ) -> Result<List<u32>, NoMemory> {
        let found = read(self.alloc, self.machine, places, set.as_slice(), byte)?;
        let closure = close(self.machine, places, found)?;
        Ok(List::from(closure))
    }

    fn is_final(&self, _places: &Vec<usize>, set: &List<u32>) -> bool {
        has_marked(set.as_slice(), &self.machine.finals)
    }

    fn copy(&self, set: &List<u32>) -> Result<List<u32>, NoMemory> {
        let copy = set.copy()?;
        Ok(copy)
    }

    ghost same = { λ x y same. same_text x y (sym same) };
}

/// Classes of bytes that no step tells apart.
fn alike_bytes(alloc: Global, machine: &Machine) -> Result<Classes, NoMemory>
    ensures classes { IfOk result AreClasses }
    ensures tells { IfOk result (TellsSteps machine.now) }
{
    let changes = changes_of(alloc, machine)?;
    let numbers = pieces_of(alloc, &changes)?;
    let classes = Classes::of_numbers(alloc, &numbers)?;
    Ok(classes)
}

/// The number of each byte's piece, where a new one begins at each change.
fn pieces_of(alloc: Global, changes: &[bool]) -> Result<Vec<u32>, NoMemory>
    requires { length changes.now ≡ 257 }
    ensures len { IfOk result (λ numbers. vec_len numbers ≡ 256) }
    ensures pieces { IfOk result (λ numbers. ArePieces changes.now 256 numbers.items) }
{
    let mut numbers = Vec::new(alloc);
    let mut piece = 0;
    for byte in 0..BYTES {
        piece += changes[byte] as u32;
        numbers.push(piece)?;
    }
    Ok(numbers)
}
