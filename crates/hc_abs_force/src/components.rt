//! The names whose last component a pattern is found in (Apache manual, core, Files).
ghost use Rattle.std.specs.Prelude.{◌≡◌, ◌<◌, IfOk};
ghost use Rattle.std.proofs.Common.{rules};
ghost use Rattle.hc_abs_force.specs.Components.{ends_at, last_in, next_spot};
ghost use Rattle.hc_dfa.specs.Automata.{accepts, states};
ghost use Rattle.hc_dfa.specs.Built.{Accepts};
ghost use Rattle.hc_merge.specs.Reaching.{is_component_found};

use hc_abs_rw::found_texts;
use hc_base::NoMemory;
use hc_dfa::{Dfa, Reading, tested};
use hc_model::Regex;
use std::alloc::Global;

/// The names whose last component the pattern is found in: none that ends with a slash.
pub(crate) fn component_texts(alloc: Global, pattern: &Regex) -> Result<Dfa, NoMemory>
    ensures { IfOk result (λ made. Accepts made (is_component_found pattern.now)) }
{
    let set = found_texts(alloc, pattern.as_pat())?;
    let made = last_in(alloc, &set)?;
    Ok(made)
}

/// The names whose last component is in a set.
fn last_in(alloc: Global, set: &Dfa) -> Result<Dfa, NoMemory>
    ensures { IfOk result (λ made. Accepts made (last_in (accepts set.now))) }
{
    let first = Spot {
        state: set.start(),
        ended: false,
    };
    let made = tested(alloc, &Components { set }, first)?;
    Ok(made)
}

/// Reads each component by the automaton of a set.
#[derive(Clone, Copy)]
struct Components<'s> {
    set: &'s Dfa,
}

/// The state of the component so far, and whether a slash was the last byte.
#[derive(Clone, Copy, PartialEq, Eq, Hash, Drop)]
pub struct Spot {
    pub state: u32,
    pub ended: bool,
}

impl<'s> Reading for Components<'s> {
    type Key = Spot;

    ghost is_key = { λ read spot. spot.state < states read.set.now };

    ghost reads = { λ read. next_spot read.set.now };

    ghost holds = { λ read. ends_at read.set.now };

    fn next(&self, spot: Spot, byte: u8) -> Spot {
        if byte == b'/' {
            return Spot {
                state: self.set.start(),
                ended: true,
            };
        }
        Spot {
            state: self.set.next_state(spot.state, byte),
            ended: false,
        }
    }

    fn holds(&self, spot: Spot) -> bool {
        !spot.ended && self.set.is_final(spot.state)
    }

    ghost same = { Prim.search rules };
}
