//! The steps of an expression that find their parts.
ghost use Rattle.std.specs.Prelude.{◌≡◌, [], IfOk, OnOk, map, reverse};
ghost use Rattle.hc_abs_view.specs.Tokens.{BeginWith, asked_of, inverted, joined_by, kept_after, stack_of, token_of};
ghost use Rattle.hc_abs_view.specs.Tokens.{with_kept, with_leaf};

use crate::jump::Leaf;
use hc_base::NoMemory;
use hc_model::{ExprStep, Expression};
use std::alloc::Global;

/// A step of an expression.
#[derive(Clone, Copy)]
pub enum Kept<'x> {
    /// A test.
    Leaf(Leaf<'x>),
    /// `!`.
    Not,
    /// `||`, where the first part decides if it holds, or `&&`, where it decides if it doesn't; and how many tests the
    /// second part has.
    Joins { decides: bool, second: usize },
}

/// The steps of an expression that find their parts; where there are none, `false`.
pub fn kept_steps<'x>(alloc: Global, expr: &'x Expression) -> Result<Vec<Kept<'x>>, NoMemory>
    ensures { IfOk result (λ kept. BeginWith expr.now (map token_of (reverse kept.items))) }
{
    let mut kept = all_kept(alloc, expr.steps())?;
    if kept.is_empty() {
        kept.push(Kept::Leaf(Leaf::Always(false)))?;
        return Ok(kept);
    }
    Ok(kept)
}

/// Those that find their parts.
fn all_kept<'x>(alloc: Global, steps: &'x [ExprStep]) -> Result<Vec<Kept<'x>>, NoMemory>
    ensures { IfOk result (λ kept. map token_of (reverse kept.items)
        ≡ (kept_after steps.now (record { tokens = []; counts = [] })).tokens) }
{
    let mut kept = Vec::new(alloc);
    let mut counts = Vec::new(alloc);
    for step in steps {
        keep_step(step, &mut counts, &mut kept)?;
    }
    Ok(kept)
}

/// A step more. Where its parts are missing it is left out.
fn keep_step<'x>(
    step: &'x ExprStep,
    counts: &mut Vec<usize>,
    kept: &mut Vec<Kept<'x>>,
) -> Result<(), NoMemory>
    ensures { OnOk result (stack_of kept.new.items counts.new.items
        ≡ with_kept step.now (stack_of kept.old.items counts.old.items)) }
{
    match step {
        ExprStep::Yes => keep_leaf(Leaf::Always(true), counts, kept),
        ExprStep::No => keep_leaf(Leaf::Always(false), counts, kept),
        ExprStep::Same(left, right) => keep_leaf(Leaf::Same(left, right), counts, kept),
        ExprStep::Search(text, pattern) => keep_leaf(Leaf::Search(text, pattern), counts, kept),
        ExprStep::IpMatch(text, net) => keep_leaf(Leaf::Within(text, *net), counts, kept),
        ExprStep::Not => keep_not(counts, kept),
        ExprStep::And => keep_join(false, counts, kept),
        ExprStep::Or => keep_join(true, counts, kept),
    }
}

fn keep_leaf<'x>(
    leaf: Leaf<'x>,
    counts: &mut Vec<usize>,
    kept: &mut Vec<Kept<'x>>,
) -> Result<(), NoMemory>
    ensures { OnOk result (stack_of kept.new.items counts.new.items
        ≡ with_leaf (asked_of leaf.entry) (stack_of kept.old.items counts.old.items)) }
{
    counts.push(1)?;
    kept.push(Kept::Leaf(leaf))?;
    Ok(())
}

fn keep_not<'x>(counts: &mut Vec<usize>, kept: &mut Vec<Kept<'x>>) -> Result<(), NoMemory>
    ensures { OnOk result (stack_of kept.new.items counts.new.items
        ≡ inverted (map token_of (reverse kept.old.items)) (reverse counts.old.items)) }
{
    let Some(count) = counts.pop() else {
        return Ok(());
    };
    counts.push(count)?;
    kept.push(Kept::Not)?;
    Ok(())
}

/// More tests than a number can say are refused as memory is.
fn keep_join<'x>(
    decides: bool,
    counts: &mut Vec<usize>,
    kept: &mut Vec<Kept<'x>>,
) -> Result<(), NoMemory>
    ensures { OnOk result (stack_of kept.new.items counts.new.items
        ≡ joined_by decides (map token_of (reverse kept.old.items)) (reverse counts.old.items)) }
{
    let Some(first) = counts.pop() else {
        return Ok(());
    };
    let Some(second) = counts.pop() else {
        counts.push(first)?;
        return Ok(());
    };
    let Some(both) = first.checked_add(second) else {
        return Err(NoMemory);
    };
    counts.push(both)?;
    kept.push(Kept::Joins { decides, second })?;
    Ok(())
}
