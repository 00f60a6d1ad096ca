//! Questions to sets, and sets that are made of sets.
ghost use Rattle.std.specs.Prelude.{◌≡◌, ◌++◌, IfOk, OnOk};
ghost use Rattle.std.specs.Option.{option_to_list};
ghost use Rattle.hc_dfa.specs.Automata.{accepts};
ghost use Rattle.hc_dfa.specs.Built.{Accepts, product_of};
ghost use Rattle.hc_follow.specs.Next.{slashed};
ghost use Rattle.hc_pat_lang.specs.Sets.{AcceptsOnly};
ghost use Rattle.hc_rw_sets.specs.Made.{MadeOf};
ghost use Rattle.hc_sent.specs.Sets.{HasOther, HasText, IsAnswer, IsWhere};

use hc_base::NoMemory;
use hc_dfa::{Dfa, Inclusion, Keep, behind_front, included, least, product, reduce};
use hc_rw_sets::absolute;
use std::alloc::Global;

/// Whether a set has a text.
pub fn has_text(alloc: Global, set: &Dfa) -> Result<bool, NoMemory>
    ensures { IfOk result (IsAnswer (HasText (accepts set.now))) }
{
    match least(alloc, set)? {
        Some(_) => Ok(true),
        None => Ok(false),
    }
}

/// Whether a set has a text that isn't one of the other.
pub fn has_other(alloc: Global, set: &Dfa, other: &Dfa) -> Result<bool, NoMemory>
    ensures { IfOk result (IsAnswer (HasOther (accepts set.now) (accepts other.now))) }
{
    match included(alloc, set, other)? {
        Inclusion::Yes => Ok(false),
        Inclusion::No(_) => Ok(true),
    }
}

/// A value, where a set has a text.
pub fn where_any<T: Drop>(alloc: Global, set: &Dfa, value: T) -> Result<Option<T>, NoMemory>
    ensures { IfOk result (IsWhere (HasText (accepts set.now)) value) }
{
    if has_text(alloc, set)? {
        Ok(Some(value))
    } else {
        Ok(None)
    }
}

/// Adds what may be there.
pub fn add<T: Drop>(found: &mut Vec<T>, more: Option<T>) -> Result<(), NoMemory>
    ensures { OnOk result (found.new.items ≡ found.old.items ++ option_to_list more) }
{
    if let Some(more) = more {
        found.push(more)?;
    }
    Ok(())
}

/// A product, reduced.
pub fn kept(alloc: Global, a: &Dfa, b: &Dfa, keep: Keep) -> Result<Dfa, NoMemory>
    ensures { IfOk result (λ made. Accepts made (product_of keep a.now b.now)) }
{
    let pairs = product(alloc, a, b, keep)?;
    let made = reduce(alloc, &pairs)?;
    Ok(made)
}

/// The texts of a set, with a slash in front of those that have none.
pub fn slashed(alloc: Global, set: &Dfa) -> Result<Dfa, NoMemory>
    ensures { IfOk result (AcceptsOnly (MadeOf slashed (accepts set.now))) }
{
    let absolute = absolute(alloc)?;
    let paths = product(alloc, set, &absolute, Keep::Both)?;
    let others = product(alloc, set, &absolute, Keep::FirstOnly)?;
    let behind = behind_front(alloc, b"/", &others)?;
    let made = product(alloc, &paths, &behind, Keep::Either)?;
    Ok(made)
}
