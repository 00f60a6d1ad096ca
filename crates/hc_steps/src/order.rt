ghost use Rattle.std.specs.Prelude.{◌≡◌, IfOk};

use hc_base::{List, NoMemory};
use std::alloc::Global;
use std::collections::BTreeSet;

/// The items of an ordered set, as a list.
pub fn listed<T: Ord + Drop>(alloc: Global, set: BTreeSet<T>) -> Result<List<T>, NoMemory>
    ensures { IfOk result (λ list. list ≡ set.keys) }
{
    let items: Vec<T> = set.into_iter().collect(alloc)?;
    Ok(List::from(items))
}
