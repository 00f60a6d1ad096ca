//! The URL paths of a location (Apache manual, core, Location).
ghost use Rattle.std.specs.Prelude.{◌≡◌, IfOk};
ghost use Rattle.hc_alias.specs.Tests.{is_below};
ghost use Rattle.hc_dfa.specs.Built.{Accepts};
ghost use Rattle.hc_merge.specs.Reaching.{is_at};

use hc_base::NoMemory;
use hc_base::paths::{begins_with_slash, ends_with_slash};
use hc_dfa::{Dfa, Keep, product, single};
use hc_rw_sets::beginning_with;
use std::alloc::Global;

/// A location and what is below it. One that does not begin with a slash is that of no path.
pub(crate) fn located(alloc: Global, location: &[u8]) -> Result<Dfa, NoMemory>
    ensures { IfOk result (λ made. Accepts made (is_at location.now)) }
{
    if !begins_with_slash(location) {
        let own = single(alloc, location)?;
        return product(alloc, &own, &own, Keep::FirstOnly);
    }
    let made = below(alloc, location)?;
    Ok(made)
}

/// A path and what is below it.
fn below(alloc: Global, from: &[u8]) -> Result<Dfa, NoMemory>
    ensures { IfOk result (λ made. Accepts made (is_below from.now)) }
{
    if ends_with_slash(from) {
        return beginning_with(alloc, from);
    }
    let own = single(alloc, from)?;
    let mut front = from.to_vec(alloc)?;
    front.push(b'/')?;
    let further = beginning_with(alloc, &front)?;
    let made = product(alloc, &own, &further, Keep::Either)?;
    Ok(made)
}
