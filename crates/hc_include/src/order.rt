ghost use Rattle.std.specs.Prelude.{◌≡◌, IfOk};
ghost use Rattle.hc_include.specs.Include.{in_byte_order};

use hc_base::{List, NoMemory, Text};
use hc_steps::listed;
use std::alloc::Global;
use std::collections::BTreeSet;

/// The same paths, each once, in byte order.
pub(crate) fn in_byte_order(alloc: Global, paths: &[Text]) -> Result<List<Text>, NoMemory>
    ensures { IfOk result (λ sorted. sorted ≡ in_byte_order paths.now) }
{
    let mut sorted = BTreeSet::new(alloc);
    for path in paths {
        sorted.insert(path.clone()?)?;
    }
    listed(alloc, sorted)
}
