ghost use Rattle.std.specs.Prelude.{◌≡◌, IfOk};
ghost use Rattle.hc_dfa.specs.Built.{Includes, inclusion_of};

use crate::{Dfa, Keep, Member, least, product};
use hc_base::NoMemory;
use std::alloc::Global;

/// Whether each text of one set is in another, or the least text that isn't.
#[derive(Drop)]
pub enum Inclusion {
    Yes,
    No(Member),
}

impl Clone for Inclusion {
    ghost is_clone = { λ inclusion copy. copy ≡ inclusion };

    fn clone(&self) -> Result<Inclusion, NoMemory> {
        match self {
            Inclusion::Yes => Ok(Inclusion::Yes),
            Inclusion::No(text) => Ok(Inclusion::No(text.clone()?)),
        }
    }
}

/// Whether each text of the first set is in the second.
#[tactic(auto, using(crate::proofs::Outside::included))]
pub fn included(alloc: Global, a: &Dfa, b: &Dfa) -> Result<Inclusion, NoMemory>
    ensures { IfOk result (λ found. Includes a.now b.now found) }
{
    let outside = product(alloc, a, b, Keep::FirstOnly)?;
    Ok(inclusion_of(least(alloc, &outside)?))
}

fn inclusion_of(outside: Option<Member>) -> Inclusion
    ensures { result ≡ inclusion_of outside }
{
    match outside {
        None => Inclusion::Yes,
        Some(text) => Inclusion::No(text),
    }
}
