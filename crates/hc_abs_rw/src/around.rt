ghost use Rattle.std.specs.Prelude.{◌≡◌, ◌<◌, IfOk};
ghost use Rattle.std.proofs.lemmas.List.Elements.{recursion_from_All};
ghost use Rattle.hc_abs_rw.specs.Around.{GivesBytes, NamesDirs, NamesFiles, kind_in, texts_in};
ghost use Rattle.hc_map.specs.Maps.{look_up};

use crate::frame::Surroundings;
use hc_base::{NoMemory, Text};
use hc_dfa::Dfa;
use hc_map::{ImageSet, image, look_up};
use hc_model::Map;
use hc_rw_sets::{dirs_named, files_named};
use hc_world::{ListKind, World};
use std::alloc::Global;

/// A world and the maps of a server in it, with the texts that name its files and directories: sets that are made
/// once. Values are made with the allocator.
#[derive(Drop)]
pub struct Around<'w> {
    alloc: Global,
    pub world: &'w World,
    pub maps: &'w [Map],
    files: Dfa,
    dirs: Dfa,
    ghost gives_bytes: { GivesBytes maps.now world.now.files },
    ghost files_are: { NamesFiles world.now.files files },
    ghost dirs_are: { NamesDirs world.now.files dirs },
}

impl<'w> Around<'w> {
    pub fn new(alloc: Global, world: &'w World, maps: &'w [Map]) -> Result<Around<'w>, NoMemory>
        ensures world { IfOk result (λ around. around.world.now ≡ world.now) }
        ensures maps { IfOk result (λ around. around.maps.now ≡ maps.now) }
    {
        let paths = world.paths(ListKind::File)?;
        let files = files_named(alloc, paths.as_slice())?;
        let paths = world.paths(ListKind::Dir)?;
        let dirs = dirs_named(alloc, paths.as_slice())?;
        Ok(Around {
            alloc,
            world,
            maps,
            files,
            dirs,
        })
    }
}

impl<'w> Surroundings for Around<'w> {
    ghost kind = { λ around. kind_in around.world.now.files };

    ghost values = { λ around. look_up around.maps.now (texts_in around.world.now.files) };

    fn files(&self) -> &Dfa {
        &self.files
    }

    fn dirs(&self) -> &Dfa {
        &self.dirs
    }

    fn value(&self, name: &[u8], key: &[u8]) -> Result<Option<Text>, NoMemory> {
        look_up(self.alloc, self.maps, self.world, name, key)
    }

    fn image(&self, alloc: Global, name: &[u8], keys: &Dfa) -> Result<ImageSet, NoMemory> {
        image(alloc, self.maps, self.world, name, keys)
    }

    ghost bytes = { λ around name key value text is.
        recursion_from_All (λ byte. byte < 256) value (around.gives_bytes name key value text is) };
}
