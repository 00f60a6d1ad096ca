//! The sets of slots.
ghost use Rattle.std.specs.Prelude.{◌≡◌, IfOk};
ghost use Rattle.hc_dfa.specs.Built.{Accepts};
ghost use Rattle.hc_target.specs.Segments.{is_normal};
ghost use Rattle.hc_abs_start.specs.Starts.{is_path, is_query};

use crate::bytes::{Bytes, texts_of};
use crate::clean::clean_paths;
use hc_base::NoMemory;
use hc_dfa::{Dfa, Keep, product, reduce};
use hc_scope::Scope;
use std::alloc::Global;

/// The normal paths of a scope.
pub(crate) fn paths(alloc: Global, scope: &Scope) -> Result<Dfa, NoMemory>
    ensures { IfOk result (λ made. Accepts made (is_path scope.now)) }
{
    let normal = normal_paths(alloc)?;
    let both = product(alloc, &normal, &scope.path, Keep::Both)?;
    let made = reduce(alloc, &both)?;
    Ok(made)
}

fn normal_paths(alloc: Global) -> Result<Dfa, NoMemory>
    ensures { IfOk result (λ made. Accepts made is_normal) }
{
    let clean = clean_paths(alloc)?;
    let plain = texts_of(alloc, Bytes::Plain)?;
    let made = product(alloc, &clean, &plain, Keep::Both)?;
    Ok(made)
}

/// The queries of a scope, of the bytes that a target may have.
pub(crate) fn queries(alloc: Global, scope: &Scope) -> Result<Dfa, NoMemory>
    ensures { IfOk result (λ made. Accepts made (is_query scope.now)) }
{
    let bytes = texts_of(alloc, Bytes::Target)?;
    let both = product(alloc, &bytes, &scope.query, Keep::Both)?;
    let made = reduce(alloc, &both)?;
    Ok(made)
}
