ghost use Rattle.std.specs.Prelude.{◌≡◌};
ghost use Rattle.hc_cache.specs.Entries.{is_current};

use hc_model::Read;
use hc_world::World;

/// Whether no edit behind the one of this number changed what one of these reads shows.
pub fn is_current(world: &World, reads: &[Read], at: u64) -> bool
    ensures { result ≡ is_current world.now reads.now at }
{
    reads.iter().all(|read| world.changed_at(read) <= at)
}
