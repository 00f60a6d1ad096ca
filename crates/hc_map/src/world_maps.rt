ghost use Rattle.hc_map.specs.Maps.{file_of, look_up};

use crate::maps::{file_of, look_up};
use hc_base::{NoMemory, Text};
use hc_model::{Lookups, Map, Texts};
use std::alloc::Global;

/// The maps of a server, and the files in which their texts stand (Apache manual, mod_rewrite, RewriteMap).
/// Values are made with the allocator.
#[derive_where(Clone, Copy)]
pub struct WorldMaps<'a, W> {
    pub alloc: Global,
    pub maps: &'a [Map],
    pub world: &'a W,
}

impl<'a, W: Texts> Lookups for WorldMaps<'a, W> {
    ghost values = { λ look. look_up look.maps.now (W.texts look.world.now) };

    ghost files = { λ look. file_of look.maps.now };

    fn value(&self, name: &[u8], key: &[u8]) -> Result<Option<Text>, NoMemory> {
        look_up(self.alloc, self.maps, self.world, name, key)
    }

    fn file(&self, name: &[u8]) -> Option<&[u8]> {
        file_of(self.maps, name)
    }
}
