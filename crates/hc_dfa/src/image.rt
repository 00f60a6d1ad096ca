ghost use Rattle.std.specs.Prelude.{◌<◌, IfOk};
ghost use Rattle.hc_dfa.specs.Automata.{states};
ghost use Rattle.hc_dfa.specs.Built.{AcceptsImages};
ghost use Rattle.hc_dfa.specs.Images.{image_graph};
ghost use Rattle.std.proofs.Common.{rules};

use crate::graphs::automaton;
use crate::{Choice, Dfa, Graph, Move};
use hc_base::NoMemory;
use std::alloc::Global;

/// The automaton of the members of a set with each byte replaced by its entry in a table.
pub fn byte_image(alloc: Global, set: &Dfa, table: &[u8; 256]) -> Result<Dfa, NoMemory>
    ensures { IfOk result (λ image. AcceptsImages set.now table.now image) }
{
    let image = automaton(alloc, &Image { set, table }, set.start())?;
    Ok(image)
}

#[derive(Clone, Copy)]
struct Image<'a> {
    set: &'a Dfa,
    table: &'a [u8; 256],
}

impl<'a> Graph for Image<'a> {
    type Key = u32;

    ghost is_key = { λ image state. state < states image.set.now };

    ghost graph = { λ image. image_graph image.set.now image.table.now };

    fn step(&self, state: u32, choice: Choice) -> Option<Move<u32>> {
        match choice {
            Choice::Byte(byte) => Some(Move {
                byte: Some(self.table[byte as usize]),
                to: self.set.next_state(state, byte),
            }),
            _ => None,
        }
    }

    fn is_final(&self, state: u32) -> bool {
        self.set.is_final(state)
    }

    ghost same = { Prim.search rules };
}
