//! The jumps of an expression, from its kept steps.
ghost use Rattle.std.specs.Prelude.{◌≡◌, ◌∷◌, [], IfOk, OnOk, map, reverse};
ghost use Rattle.hc_abs_view.specs.Tokens.{fork_of, made_after, made_of, token_of, with_token};
ghost use Rattle.hc_abs_view.specs.Trees.{AddsForks, AreBefore, AreForks, further, lead_of_first, opposed};
ghost use Rattle.hc_rw_eval.specs.Conditions.{counted};

use crate::jump::{Jump, Lead, Target};
use crate::kept::{Kept, kept_steps};
use hc_base::NoMemory;
use hc_model::Expression;
use std::alloc::Global;

const BEFORE: Lead = Lead {
    negated: true,
    yes: Target::Behind(0),
    no: Target::Over(false),
};

const LAST: Lead = Lead {
    negated: false,
    yes: Target::Over(true),
    no: Target::Over(false),
};

/// The jumps of an expression behind a chain of others: none of those holds, and this one does.
pub fn jumps_of<'x>(
    alloc: Global,
    chain: &'x [&'x Expression],
    expr: &'x Expression,
) -> Result<Vec<Jump<'x>>, NoMemory>
    ensures { IfOk result (λ jumps. AreForks (map (λ one. one.now) chain.now) expr.now (map fork_of jumps.items)) }
{
    let mut jumps = chain_jumps(alloc, chain)?;
    add_jumps(alloc, expr, LAST, &mut jumps)?;
    Ok(jumps)
}

/// Those of the chain.
fn chain_jumps<'x>(alloc: Global, chain: &'x [&'x Expression]) -> Result<Vec<Jump<'x>>, NoMemory>
    ensures { IfOk result (λ jumps. AreBefore (map (λ one. one.now) chain.now) (map fork_of jumps.items)) }
{
    let mut jumps = Vec::new(alloc);
    for one in chain {
        add_jumps(alloc, one, BEFORE, &mut jumps)?;
    }
    Ok(jumps)
}

/// Adds those of an expression.
fn add_jumps<'x>(
    alloc: Global,
    expr: &'x Expression,
    lead: Lead,
    jumps: &mut Vec<Jump<'x>>,
) -> Result<(), NoMemory>
    ensures { OnOk result (AddsForks expr.now lead (map fork_of jumps.old.items) (map fork_of jumps.new.items)) }
{
    let kept = kept_steps(alloc, expr)?;
    take_all(alloc, kept, lead, jumps)?;
    Ok(())
}

/// From the last step on.
fn take_all<'x>(
    alloc: Global,
    mut kept: Vec<Kept<'x>>,
    lead: Lead,
    jumps: &mut Vec<Jump<'x>>,
) -> Result<(), NoMemory>
    ensures { OnOk result (map fork_of jumps.new.items
        ≡ made_after (map token_of (reverse kept.entry.items)) (lead ∷ []) (map fork_of jumps.old.items)) }
{
    let mut leads = Vec::new(alloc);
    leads.push(lead)?;
    'kept: while let Some(one) = kept.pop() {
        let Some(lead) = leads.pop() else {
            return Ok(());
        };
        take(one, lead, &mut leads, jumps)?;
    }
    Ok(())
}

/// One step: it leads so, and those behind it as before.
fn take<'x>(
    one: Kept<'x>,
    lead: Lead,
    leads: &mut Vec<Lead>,
    jumps: &mut Vec<Jump<'x>>,
) -> Result<(), NoMemory>
    ensures { OnOk result (made_of leads.new.items jumps.new.items
        ≡ with_token (token_of one.entry) lead (made_of leads.old.items jumps.old.items)) }
{
    match one {
        Kept::Leaf(leaf) => {
            jumps.push(Jump { leaf, lead })?;
            Ok(())
        }
        Kept::Not => {
            leads.push(opposed(lead))?;
            Ok(())
        }
        Kept::Joins { decides, second } => {
            let first = lead_of_first(decides, second, lead)?;
            leads.push(lead)?;
            leads.push(first)?;
            Ok(())
        }
    }
}

fn opposed(lead: Lead) -> Lead
    ensures { result ≡ opposed lead }
{
    Lead {
        negated: !lead.negated,
        yes: lead.yes,
        no: lead.no,
    }
}

/// Where the first part leads.
fn lead_of_first(decides: bool, count: usize, lead: Lead) -> Result<Lead, NoMemory>
    ensures { IfOk result (λ first. first ≡ lead_of_first decides count lead) }
{
    if counted(lead.negated, decides) {
        return Ok(Lead {
            negated: lead.negated,
            yes: further(count, lead.yes)?,
            no: Target::Behind(0),
        });
    }
    Ok(Lead {
        negated: lead.negated,
        yes: Target::Behind(0),
        no: further(count, lead.no)?,
    })
}

pub(crate) fn counted(negated: bool, holds: bool) -> bool
    ensures { result ≡ counted negated holds }
{
    if negated { !holds } else { holds }
}

/// Behind so many jumps more. More than a number can say are refused as memory is.
fn further(count: usize, target: Target) -> Result<Target, NoMemory>
    ensures { IfOk result (λ later. later ≡ further count target) }
{
    match target {
        Target::Over(is) => Ok(Target::Over(is)),
        Target::Behind(more) => {
            let Some(both) = count.checked_add(more) else {
                return Err(NoMemory);
            };
            Ok(Target::Behind(both))
        }
    }
}
