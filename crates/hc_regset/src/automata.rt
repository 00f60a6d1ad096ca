ghost use Rattle.std.specs.Prelude.{IfOk};
ghost use Rattle.hc_dfa.specs.Built.{Accepts, product_of};

use hc_base::NoMemory;
use hc_dfa::{Dfa, Keep, product, reduce};
use std::alloc::Global;

/// How many bytes there are.
const BYTES: usize = 256;

/// The automaton of one state, which answers this for each text.
pub(crate) fn constant(alloc: Global, answer: bool) -> Result<Dfa, NoMemory>
    ensures { IfOk result (λ made. Accepts made (λ text. answer)) }
{
    Dfa::from_table(alloc, &[0; BYTES], &[answer])
}

/// What is kept of two sets, without states that do the same.
pub(crate) fn kept(alloc: Global, a: &Dfa, b: &Dfa, keep: Keep) -> Result<Dfa, NoMemory>
    ensures { IfOk result (λ made. Accepts made (product_of keep a.now b.now)) }
{
    let made = product(alloc, a, b, keep)?;
    let fewer = reduce(alloc, &made)?;
    Ok(fewer)
}
