//! Parts of the texts of a set: their first components, and what follows these.
ghost use Rattle.std.specs.Prelude.{IfOk};
ghost use Rattle.hc_dfa.specs.Automata.{accepts};
ghost use Rattle.hc_pat_lang.specs.Sets.{AcceptsOnly};
ghost use Rattle.hc_rw_sets.specs.Made.{MadeOf};
ghost use Rattle.std.specs.List.{list_any};
ghost use Rattle.std.specs.Str.{bytes_eq};
ghost use Rattle.hc_dfa.specs.Built.{Accepts};
ghost use Rattle.hc_abs_pass.specs.Walking.{AreInfos, rests_of};
ghost use Rattle.hc_abs_pass.specs.Walks.{behind_component, component, is_empty};
ghost use Rattle.hc_abs_pass.specs.declared.walk_ends.Behind.TheVariants as behind;

use crate::walk_ends::Behind;
use hc_base::{List, NoMemory, Text};
use hc_dfa::{Dfa, Keep, complement, listed, product, single};
use hc_pat_lang::concat;
use hc_plan::every_text;
use hc_rw_sets::{Part, beginning_with, cut_at};
use std::alloc::Global;

/// What follows the front of an end, by what may follow the name of a file.
pub fn rests_of(alloc: Global, behind: &Behind, infos: &Dfa) -> Result<Dfa, NoMemory>
    requires { AreInfos infos.now }
    ensures { IfOk result (λ made. Accepts made (rests_of behind.now)) }
{
    match behind {
        Behind::Nothing => nothing(alloc),
        Behind::Info => infos.clone(),
        Behind::Other(names) => others(alloc, names, infos),
    }
}

/// The empty text.
fn nothing(alloc: Global) -> Result<Dfa, NoMemory>
    ensures { IfOk result (λ made. Accepts made is_empty) }
{
    let made = single(alloc, b"")?;
    Ok(made)
}

/// What may follow the name of a file: nothing, or a slash and more.
pub fn infos(alloc: Global) -> Result<Dfa, NoMemory>
    ensures { IfOk result AreInfos }
{
    let nothing = nothing(alloc)?;
    let slashed = beginning_with(alloc, b"/")?;
    let made = product(alloc, &nothing, &slashed, Keep::Either)?;
    Ok(made)
}

/// A component that is none of these, or another text that begins with a slash.
fn others(alloc: Global, names: &List<Text>, infos: &Dfa) -> Result<Dfa, NoMemory>
    requires { AreInfos infos.now }
    ensures { IfOk result (λ made. Accepts made (rests_of (behind.Other names.now))) }
{
    let nothing = nothing(alloc)?;
    let named = named(alloc, names.as_slice(), infos)?;
    let either = product(alloc, &nothing, &named, Keep::Either)?;
    let made = complement(alloc, &either)?;
    Ok(made)
}

/// The texts whose first component is one of these.
fn named(alloc: Global, names: &[Text], infos: &Dfa) -> Result<Dfa, NoMemory>
    requires { AreInfos infos.now }
    ensures { IfOk result (λ made. Accepts made (λ text. list_any (bytes_eq (component text)) names.now)) }
{
    let texts = listed(alloc, names)?;
    let plain = first_components(alloc, &every_text(alloc)?)?;
    let own = product(alloc, &texts, &plain, Keep::Both)?;
    let made = concat(alloc, &own, infos)?;
    Ok(made)
}

/// What stands before the first slash in the texts of a set.
pub fn first_components(alloc: Global, set: &Dfa) -> Result<Dfa, NoMemory>
    ensures { IfOk result (AcceptsOnly (MadeOf component (accepts set.now))) }
{
    cut_at(alloc, set, b'/', Part::Before)
}

/// What stands behind that, from the slash on.
pub(crate) fn behind_components(alloc: Global, set: &Dfa) -> Result<Dfa, NoMemory>
    ensures { IfOk result (AcceptsOnly (MadeOf behind_component (accepts set.now))) }
{
    cut_at(alloc, set, b'/', Part::From)
}
