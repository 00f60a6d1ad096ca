//! The expressions of a chain of conditions (Apache manual, core, ElseIf, Else).
ghost use Rattle.std.specs.Prelude.{◌≡◌, ◌++◌, ◌∷◌, [], IfOk};
ghost use Rattle.std.specs.Option.{option_map};
ghost use Rattle.hc_abs_force.specs.Asking.{exprs};
ghost use Rattle.hc_merge.specs.Reaching.{chain_behind};

use hc_base::NoMemory;
use hc_model::{Expression, Reach};
use std::alloc::Global;

/// The chain right before what follows a section.
pub(crate) fn chain_behind<'c>(
    alloc: Global,
    chain: Vec<&'c Expression>,
    reach: Option<&'c Reach>,
) -> Result<Vec<&'c Expression>, NoMemory>
    ensures { IfOk result (λ later. exprs later.items
        ≡ chain_behind (exprs chain.entry.items) (option_map (λ reach. reach.now) reach.entry)) }
{
    match reach {
        Some(Reach::When(expr)) => with_one(Vec::new(alloc), expr),
        Some(Reach::Otherwise(expr)) => with_one(chain, expr),
        _ => Ok(Vec::new(alloc)),
    }
}

fn with_one<'c>(
    mut chain: Vec<&'c Expression>,
    expr: &'c Expression,
) -> Result<Vec<&'c Expression>, NoMemory>
    ensures { IfOk result (λ later. exprs later.items ≡ exprs chain.entry.items ++ expr.now ∷ []) }
{
    chain.push(expr)?;
    Ok(chain)
}
