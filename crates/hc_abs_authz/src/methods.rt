//! The methods of requests.
ghost use Rattle.std.specs.Prelude.{◌≡◌, IfOk};
ghost use Rattle.std.specs.List.{list_any};
ghost use Rattle.hc_abs_authz.specs.Methods.{HasAnswer, is_get, is_one_of};
ghost use Rattle.hc_dfa.specs.Automata.{accepts};
ghost use Rattle.hc_dfa.specs.Built.{Accepts, product_of};

use hc_base::{NoMemory, Text};
use hc_dfa::{Dfa, Keep, least, listed, product};
use std::alloc::Global;

/// Whether a set has a text.
pub(crate) fn has_text(alloc: Global, set: &Dfa) -> Result<bool, NoMemory>
    ensures { IfOk result (HasAnswer (accepts set.now)) }
{
    let found = least(alloc, set)?;
    match found {
        None => Ok(false),
        Some(_) => Ok(true),
    }
}

/// Whether two sets have a text that is kept of both.
pub(crate) fn meets(alloc: Global, a: &Dfa, b: &Dfa, keep: Keep) -> Result<bool, NoMemory>
    ensures { IfOk result (HasAnswer (product_of keep a.now b.now)) }
{
    let both = product(alloc, a, b, keep)?;
    has_text(alloc, &both)
}

/// The methods that are one of these.
pub(crate) fn method_set(alloc: Global, names: &[Text]) -> Result<Dfa, NoMemory>
    ensures { IfOk result (λ made. Accepts made (is_one_of names.now)) }
{
    let own = listed(alloc, names)?;
    if !has_get(names) {
        return Ok(own);
    }
    let both = gets(alloc)?;
    let made = product(alloc, &own, &both, Keep::Either)?;
    Ok(made)
}

/// GET or HEAD is one of these.
fn has_get(names: &[Text]) -> bool
    ensures { result ≡ list_any is_get names.now }
{
    names.iter().any(|name| is_get(name.as_bytes()))
}

fn is_get(name: &[u8]) -> bool
    ensures { result ≡ is_get name.now }
{
    name == b"GET".as_slice() || name == b"HEAD".as_slice()
}

/// GET and HEAD.
fn gets(alloc: Global) -> Result<Dfa, NoMemory>
    ensures { IfOk result (λ made. Accepts made is_get) }
{
    let mut texts = Vec::new(alloc);
    texts.push(Text::copy_of(alloc, b"GET")?)?;
    texts.push(Text::copy_of(alloc, b"HEAD")?)?;
    let made = listed(alloc, &texts)?;
    Ok(made)
}
