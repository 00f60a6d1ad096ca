ghost use Rattle.std.specs.Prelude.{◌≡◌, IfOk};
ghost use Rattle.std.proofs.Common.{rules};
ghost use Rattle.hc_dfa.specs.Automata.{is_final};
ghost use Rattle.hc_dfa.specs.Built.{Accepts, kept, product_of};
ghost use Rattle.hc_dfa.specs.Classings.{AreClasses, Tells};
ghost use Rattle.hc_dfa.specs.Pairs.{IsPair, pair_step};

use crate::Dfa;
use crate::classes::Classes;
use crate::rows::{Rows, table_of};
use hc_base::NoMemory;
use std::alloc::Global;

/// What a product keeps: the texts of both sets, of either, or of the first that aren't in the second.
#[derive(Clone, Copy)]
pub enum Keep {
    Both,
    Either,
    FirstOnly,
}

impl Keep {
    fn keeps(self, in_first: bool, in_second: bool) -> bool
        ensures { result ≡ kept self in_first in_second }
    {
        match self {
            Keep::Both => in_first && in_second,
            Keep::Either => in_first || in_second,
            Keep::FirstOnly => in_first && !in_second,
        }
    }
}

/// The automaton of what is kept of two sets. It has the pairs of states that are met from the start on.
pub fn product(alloc: Global, a: &Dfa, b: &Dfa, keep: Keep) -> Result<Dfa, NoMemory>
    ensures { IfOk result (λ made. Accepts made (product_of keep a.now b.now)) }
{
    let shared = shared_classes(alloc, a, b)?;
    let first = (a.start(), b.start());
    let table = table_of(alloc, &Pairs { a, b, keep }, (), shared.firsts(), first)?;
    Ok(Dfa::made(shared, table.next, table.finals))
}

/// Classes of bytes that neither automaton tells apart.
#[tactic(auto, using(crate::proofs::Tables::finer_tells))]
fn shared_classes(alloc: Global, a: &Dfa, b: &Dfa) -> Result<Classes, NoMemory>
    ensures classes { IfOk result AreClasses }
    ensures first { IfOk result (λ classes. Tells classes a.now) }
    ensures second { IfOk result (λ classes. Tells classes b.now) }
{
    let shared = Classes::common(alloc, a.classes(), b.classes())?;
    Ok(shared)
}

#[derive(Clone, Copy)]
struct Pairs<'a> {
    a: &'a Dfa,
    b: &'a Dfa,
    keep: Keep,
}

impl<'a> Rows for Pairs<'a> {
    type Key = (u32, u32);

    type Scratch = ();

    ghost begins = { λ pairs pair. pair ≡ (0, 0) };

    ghost is_key = { λ pairs pair. IsPair pairs.a.now pairs.b.now pair };

    ghost leads = { λ pairs pair byte to. to ≡ pair_step pairs.a.now pairs.b.now pair byte };

    ghost marks = { λ pairs pair answer.
        answer ≡ kept pairs.keep (is_final pairs.a.now pair.0) (is_final pairs.b.now pair.1) };

    ghost fits = { λ pairs scratch. Unit {0} };

    fn next(&self, _: &mut (), pair: &(u32, u32), byte: u8) -> Result<(u32, u32), NoMemory> {
        Ok((
            self.a.next_state(pair.0, byte),
            self.b.next_state(pair.1, byte),
        ))
    }

    fn is_final(&self, _: &(), pair: &(u32, u32)) -> bool {
        self.keep
            .keeps(self.a.is_final(pair.0), self.b.is_final(pair.1))
    }

    fn copy(&self, pair: &(u32, u32)) -> Result<(u32, u32), NoMemory> {
        Ok(*pair)
    }

    ghost same = { Prim.search rules };
}
