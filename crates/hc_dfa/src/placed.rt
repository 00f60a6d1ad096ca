ghost use Rattle.std.specs.Prelude.{◌≡◌, ◌+◌, ◌<◌, ◌^◌, IfOk};
ghost use Rattle.hc_dfa.specs.Automata.{accepts, accepts_from, states};
ghost use Rattle.hc_dfa.specs.Built.{Accepts};
ghost use Rattle.hc_dfa.specs.Placings.{between, origin, placed_step};

use crate::tabled::{Transitions, tabled};
use crate::{Between, Dfa};
use hc_base::NoMemory;
use std::alloc::Global;

/// The texts that are in the set where they stand so. With 4,294,967,295 states and more it is refused as memory is.
pub fn between(alloc: Global, set: &Dfa, around: Between<'_>) -> Result<Dfa, NoMemory>
    ensures { IfOk result (λ made. Accepts made (between around.entry.before.now around.entry.skip
        around.entry.after.now (accepts set.now))) }
{
    if around.before.is_empty() && around.skip == 0 && around.after.is_empty() {
        return set.clone();
    }
    if around.skip >= (u32::MAX - set.states()) as usize {
        return Err(NoMemory);
    }
    let skip = around.skip as u32;
    let placed = Placed {
        set,
        entry: set.run(set.start(), around.before),
        skip,
        after: around.after,
    };
    let made = tabled(
        alloc,
        &placed,
        set.classes().clone()?,
        skip + 1 + set.states(),
    )?;
    Ok(made)
}

/// The first states count the bytes that are left out. The set's own stand behind them.
#[derive(Clone, Copy)]
struct Placed<'s, 'b> {
    set: &'s Dfa,
    entry: u32,
    skip: u32,
    after: &'b [u8],
}

impl<'s, 'b> Placed<'s, 'b> {
    /// The state of the set that a state stands for.
    fn origin(&self, state: u32) -> u32
        ensures { result ≡ origin self.now.entry self.now.skip state }
    {
        if state <= self.skip {
            self.entry
        } else {
            state - (self.skip + 1)
        }
    }
}

impl<'s, 'b> Transitions for Placed<'s, 'b> {
    ghost is_sound = { λ placed. (placed.entry < states placed.set.now)
        × (placed.skip + 1 + states placed.set.now < 2 ^ 32) };

    ghost count = { λ placed. placed.skip + 1 + states placed.set.now };

    ghost step = { λ placed. placed_step placed.set.now placed.entry placed.skip };

    ghost mark = { λ placed state. accepts_from placed.set.now (origin placed.entry placed.skip state)
        placed.after.now };

    fn next(&self, state: u32, byte: u8) -> u32 {
        if state < self.skip {
            state + 1
        } else {
            self.skip + 1 + self.set.next_state(self.origin(state), byte)
        }
    }

    fn is_final(&self, state: u32) -> bool {
        self.set
            .is_final(self.set.run(self.origin(state), self.after))
    }
}
