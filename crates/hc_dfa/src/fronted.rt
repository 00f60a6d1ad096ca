ghost use Rattle.std.specs.Prelude.{◌≡◌, ◌+◌, ◌<◌, ◌^◌, length, IfOk};
ghost use Rattle.hc_dfa.specs.Automata.{accepts, states};
ghost use Rattle.hc_dfa.specs.Built.{Accepts};
ghost use Rattle.hc_dfa.specs.Classings.{AreClasses, Tells};
ghost use Rattle.hc_dfa.specs.Fronts.{IsToldApart, behind_text, fronted_mark, fronted_step};

use crate::Dfa;
use crate::classes::Classes;
use crate::first::own_numbers;
use crate::tabled::{Transitions, tabled};
use hc_base::NoMemory;
use std::alloc::Global;

/// The texts of a set behind a text. With 4,294,967,295 states and more it is refused as memory is.
pub fn behind_front(alloc: Global, front: &[u8], set: &Dfa) -> Result<Dfa, NoMemory>
    ensures { IfOk result (λ made. Accepts made (behind_text front.now (accepts set.now))) }
{
    if front.len() >= (u32::MAX - set.states()) as usize {
        return Err(NoMemory);
    }
    let count = front.len() as u32 + set.states() + 1;
    let classes = told_apart(alloc, front, set)?;
    let made = tabled(alloc, &Fronted { front, set }, classes, count)?;
    Ok(made)
}

/// Classes that tell apart the bytes of a text, and what the set tells apart.
fn told_apart(alloc: Global, front: &[u8], set: &Dfa) -> Result<Classes, NoMemory>
    ensures classes { IfOk result AreClasses }
    ensures own { IfOk result (IsToldApart front.now) }
    ensures set { IfOk result (λ classes. Tells classes set.now) }
{
    let numbers = own_numbers(alloc, front)?;
    let own = Classes::of_numbers(alloc, &numbers)?;
    let shared = Classes::common(alloc, &own, set.classes())?;
    Ok(shared)
}

/// The first states count the bytes of the front that were read. The set's own stand behind them, and the last one
/// stands for texts that begin otherwise.
#[derive(Clone, Copy)]
struct Fronted<'t, 's> {
    front: &'t [u8],
    set: &'s Dfa,
}

impl<'t, 's> Transitions for Fronted<'t, 's> {
    ghost is_sound = { λ fronted. length fronted.front.now + states fronted.set.now + 1 < 2 ^ 32 };

    ghost count = { λ fronted. length fronted.front.now + states fronted.set.now + 1 };

    ghost step = { λ fronted. fronted_step fronted.front.now fronted.set.now };

    ghost mark = { λ fronted. fronted_mark fronted.front.now fronted.set.now };

    fn next(&self, state: u32, byte: u8) -> u32 {
        let front = self.front.len() as u32;
        let other = front + self.set.states();
        if state == other {
            return other;
        }
        if state >= front {
            return front + self.set.next_state(state - front, byte);
        }
        if self.front[state as usize] == byte {
            state + 1
        } else {
            other
        }
    }

    fn is_final(&self, state: u32) -> bool {
        let front = self.front.len() as u32;
        state >= front && state - front < self.set.states() && self.set.is_final(state - front)
    }
}
