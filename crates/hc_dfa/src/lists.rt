ghost use Rattle.std.specs.Prelude.{◌≡◌, ◌+◌, ◌<◌, ◌^◌, true, IfOk};
ghost use Rattle.hc_dfa.specs.Built.{Accepts};
ghost use Rattle.hc_dfa.specs.Lists.{has_byte, list_graph, text_at};
ghost use Rattle.hc_dfa.specs.Singles.{is_among};
ghost use Rattle.std.proofs.Common.{rules};

use crate::graphs::automaton;
use crate::{Choice, Dfa, Graph, Move};
use hc_base::{NoMemory, Text};
use std::alloc::Global;

/// The automaton of these texts.
pub fn listed(alloc: Global, texts: &[Text]) -> Result<Dfa, NoMemory>
    ensures { IfOk result (λ made. Accepts made (is_among texts.now)) }
{
    let made = automaton(alloc, &Texts { texts }, (0, 0))?;
    Ok(made)
}

/// A list of texts: a key is a text's number and a place in it.
#[derive(Clone, Copy)]
struct Texts<'a> {
    texts: &'a [Text],
}

impl<'a> Texts<'a> {
    fn text(&self, number: usize) -> &[u8]
        ensures { result.now ≡ text_at self.now.texts.now number }
    {
        match self.texts.get(number) {
            Some(text) => text.as_bytes(),
            None => &[],
        }
    }

    fn has(&self, spot: (usize, usize), byte: u8) -> bool
        ensures value { result ≡ has_byte self.now.texts.now spot byte }
        ensures within { result ≡ true → spot.1 + 1 < 2 ^ 64 }
    {
        self.text(spot.0).get(spot.1) == Some(&byte)
    }
}

impl<'a> Graph for Texts<'a> {
    type Key = (usize, usize);

    ghost is_key = { λ list spot. Unit {0} };

    ghost graph = { λ list. list_graph list.texts.now };

    fn step(&self, spot: (usize, usize), choice: Choice) -> Option<Move<(usize, usize)>> {
        match choice {
            Choice::Byte(byte) if self.has(spot, byte) => Some(Move {
                byte: Some(byte),
                to: (spot.0, spot.1 + 1),
            }),
            Choice::One if spot.1 == 0 && spot.0 < self.texts.len() => Some(Move {
                byte: None,
                to: (spot.0 + 1, 0),
            }),
            _ => None,
        }
    }

    fn is_final(&self, spot: (usize, usize)) -> bool {
        spot.0 < self.texts.len() && self.text(spot.0).len() <= spot.1
    }

    ghost same = { Prim.search rules };
}
