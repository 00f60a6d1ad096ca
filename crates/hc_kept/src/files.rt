ghost use Rattle.std.specs.Prelude.{◌≡◌, [], IfNone, IfSome, OnErr, OnOk, option_and_then, option_map};
ghost use Rattle.indexmap.specs.IndexMap.{get_by};
ghost use Rattle.hc_cache.specs.Views.{value_kept};
ghost use Rattle.hc_kept.specs.Files.{AllKept, KeepsFresh};
ghost use Rattle.hc_kept.specs.Entries.{HasNoCurrent, IsCurrent, IsOwn, Puts, file_for, file_of};
ghost use Rattle.hc_kept.specs.Keys.{is_at};

use crate::asked::AskedKey;
use crate::cached::FreshFile;
use crate::key::FileKey;
use hc_base::{List, NoMemory, Refusal};
use hc_cache::{Kept, value_kept};
use hc_merge::htaccess_of;
use hc_model::{Allowed, HtFile, Read};
use hc_world::World;
use indexmap::IndexMap;
use std::alloc::Global;
use std::marker::Model;

/// What reading a `.htaccess` gave.
pub(crate) type Found = Result<Option<HtFile>, Refusal>;

/// The `.htaccess` files that were read, by directory and by what is allowed there.
#[derive(Drop)]
pub struct KeptFiles {
    alloc: Global,
    by_key: IndexMap<FileKey, Kept<Found>>,
}

impl Model for KeptFiles {
    ghost use Rattle.std.specs.Prelude.{List};
    ghost use Rattle.std.specs.Coded.{codes};
    ghost use Rattle.hc_kept.specs.Files.{KeptFile};
    ghost use Rattle.hc_kept.specs.Entries.{AreEntries, files_in};
    ghost use Rattle.hc_model.specs.contracts.section.HtFile as f;
    ghost use Rattle.hc_base.specs.contracts.place.Refusal as r;

    ghost Value = { List KeptFile };

    ghost coded = { Prim.hlevel (codes, f.the_row.coded, r.the_row.coded) };

    ghost view = { λ k. files_in k.by_key.entries };

    ghost invariant = { λ k. AreEntries k.by_key.entries };
}

impl KeptFiles {
    /// None yet. It takes no memory.
    pub fn new(alloc: Global) -> KeptFiles
        ensures { result ≡ [] }
    {
        KeptFiles {
            alloc,
            by_key: IndexMap::new(alloc),
        }
    }

    /// What the file of a directory was read as for what is allowed there, if its text has stayed since.
    pub(crate) fn current(&self, world: &World, dir: &[u8], allowed: Allowed) -> Option<&Found>
        ensures some { IfSome result (λ found. IsCurrent world.now self.now dir.now allowed found.now) }
        ensures none { IfNone result (HasNoCurrent world.now self.now dir.now allowed) }
    {
        current_in(&self.by_key, world, dir, allowed)
    }

    /// Keeps what reading a directory's file gave, as of the edit of this number, in the place of what was kept of it
    /// for what is allowed there.
    pub(crate) fn put(
        &mut self,
        dir: &[u8],
        allowed: Allowed,
        found: Found,
        at: u64,
    ) -> Result<(), NoMemory>
        ensures ok { OnOk result (Puts self.old self.new (file_for dir.now allowed found at)) }
        ensures err { OnErr result (self.new ≡ self.old) }
    {
        let mut reads = List::new(self.alloc);
        reads.push(Read::TextOf(htaccess_of(self.alloc, dir)?))?;
        let dir = dir.to_vec(self.alloc)?;
        let kept = Kept {
            reads,
            at,
            value: found,
        };
        self.put_entry(FileKey { dir, allowed }, kept)
    }

    fn put_entry(&mut self, key: FileKey, kept: Kept<Found>) -> Result<(), NoMemory>
        requires { IsOwn (key, kept) }
        ensures ok { OnOk result (Puts self.old self.new (file_of (key, kept))) }
        ensures err { OnErr result (self.new ≡ self.old) }
    {
        self.by_key.insert(key, kept)?;
        Ok(())
    }

    /// Keeps what was read of a world since its last edit. Where memory is refused some of it may be left out.
    pub fn keep(&mut self, world: &World, mut fresh: Vec<FreshFile>) -> Result<(), NoMemory>
        ensures right { KeepsFresh world.now self.old fresh.items self.new }
        ensures all { OnOk result (AllKept fresh.items self.new) }
    {
        let at = world.edits();
        'files: while let Some(
            FreshFile {
                dir,
                allowed,
                found,
            },
        ) = fresh.pop()
        {
            self.put(dir.as_bytes(), allowed, found, at)?;
        }
        Ok(())
    }
}

// What a directory's file was read as, if its text has stayed since.
fn current_in<'e>(
    entries: &'e IndexMap<FileKey, Kept<Found>>,
    world: &World,
    dir: &[u8],
    allowed: Allowed,
) -> Option<&'e Found>
    ensures { option_map (λ found. found.now) result
        ≡ option_and_then (value_kept world.now) (get_by (is_at dir.now allowed) entries.now) }
{
    value_kept(entries.get(AskedKey { dir, allowed })?, world)
}
