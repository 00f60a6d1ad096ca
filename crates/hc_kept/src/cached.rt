//! The `.htaccess` files of a world, kept as long as their texts stay.
ghost use Rattle.std.specs.Prelude.{◌≡◌, ◌+◌, ◌≤◌, [], IfNone, IfOk, IfSome, OnOk, OnSome, option_map};
ghost use Rattle.std.specs.List.{find};
ghost use Rattle.hc_htaccess.specs.Loading.{answer_of};
ghost use Rattle.hc_htaccess.specs.Pairs.{is_for};
ghost use Rattle.hc_htaccess.specs.Reading.{size_in};
ghost use Rattle.hc_kept.specs.Files.{AreFilesOf, AreFresh, IsLoaded, fresh_as_loaded, loaded_of, reading_of};
ghost use Rattle.hc_model.specs.Overrides.{IsRead, Kept, Override, file_of};

use crate::KeptFiles;
use crate::files::Found;
use crate::settled::settled;
use hc_base::{Counter, Fault, NoMemory, Text};
use hc_htaccess::read_htaccess;
use hc_model::{Allowed, AtFault, Config, HtFile, Overrides};
use hc_world::World;
use std::alloc::Global;
use std::marker::Model;
use std::sync::ledger::Ledger;

/// What reading the `.htaccess` of a directory gave in a request, for what is allowed there.
#[derive(Drop)]
pub struct FreshFile {
    pub(crate) dir: Text,
    pub(crate) allowed: Allowed,
    pub(crate) found: Found,
}

/// The `.htaccess` files of a world under a configuration, as far as they are kept or were read since. What was
/// read can be taken out, to be kept.
#[derive(Drop)]
pub struct CachedFiles<'a> {
    alloc: Global,
    config: &'a Config,
    world: &'a World,
    kept: &'a KeptFiles,
    fresh: Vec<FreshFile>,
}

impl<'a> Model for CachedFiles<'a> {
    ghost use Rattle.std.specs.Coded.{codes};
    ghost use Rattle.hc_kept.specs.Files.{AreRight, Cached};
    ghost use Rattle.hc_world.specs.Edits.{edited_code};
    ghost use Rattle.hc_base.specs.contracts.place.Refusal as r;
    ghost use Rattle.hc_kept.specs.contracts.cached.FreshFile as n;
    ghost use Rattle.hc_model.specs.contracts.config.Config as c;
    ghost use Rattle.hc_model.specs.contracts.section.HtFile as f;

    ghost Value = { Cached };

    ghost coded = { Prim.hlevel
        (codes, edited_code, c.the_row.coded, f.the_row.coded, r.the_row.coded, n.the_row.coded) };

    ghost view = { λ o.
        record { world = o.world.now; config = o.config.now; kept = o.kept.now; fresh = o.fresh.items } };

    ghost invariant = { λ o. AreRight
        (record { world = o.world.now; config = o.config.now; kept = o.kept.now; fresh = o.fresh.items }) };
}

impl<'a> CachedFiles<'a> {
    /// Those that are kept are loaded, as far as their texts have stayed.
    pub fn new(
        alloc: Global,
        config: &'a Config,
        world: &'a World,
        kept: &'a KeptFiles,
    ) -> CachedFiles<'a>
        requires { AreFilesOf world.now config.now kept.now }
        ensures { result ≡ record { world = world.now; config = config.now; kept = kept.now; fresh = [] } }
    {
        CachedFiles {
            alloc,
            config,
            world,
            kept,
            fresh: Vec::new(alloc),
        }
    }

    /// What was read, and was not kept.
    pub fn into_fresh(self) -> Vec<FreshFile>
        ensures files { result.items ≡ self.entry.fresh }
        ensures right { AreFresh (reading_of self.entry) result.items }
    {
        self.fresh
    }

    // What the file of a directory is read as, if it is loaded.
    fn found(&self, dir: &[u8], allowed: Allowed) -> Option<&Found>
        ensures some { IfSome result (λ found. found.now ≡ answer_of (reading_of self.now dir.now allowed)) }
        ensures there { OnSome result (IsLoaded self.now dir.now allowed) }
        ensures none { IfNone result (IsLoaded self.now dir.now allowed → ⊥) }
    {
        match self.kept.current(self.world, dir, allowed) {
            Some(found) => Some(found),
            None => Some(&fresh_for(&self.fresh, dir, allowed)?.found),
        }
    }

    fn read<L: Ledger>(
        &self,
        bytes: &mut Counter<L>,
        dir: &[u8],
        allowed: Allowed,
    ) -> Result<Found, NoMemory>
        ensures found { IfOk result (λ found. found ≡ answer_of (reading_of self.now dir.now allowed)) }
        ensures bytes { OnOk result (bytes.new ≤ bytes.old + size_in self.now.world.files dir.now) }
    {
        settled(read_htaccess(self.alloc, self.config, self.world, bytes, dir, allowed))
    }

    fn keep(&mut self, dir: &[u8], allowed: Allowed, found: Found) -> Result<(), NoMemory>
        requires { found ≡ answer_of (reading_of self.old dir.now allowed) }
        ensures world { self.new.world ≡ self.old.world }
        ensures config { self.new.config ≡ self.old.config }
        ensures kept { Kept (loaded_of self.old) (loaded_of self.new) }
        ensures loads { OnOk result (IsLoaded self.new dir.now allowed) }
    {
        let dir = Text::copy_of(self.alloc, dir)?;
        self.fresh.push(FreshFile {
            dir,
            allowed,
            found,
        })?;
        Ok(())
    }
}

/// These files, each read when it is loaded and was not kept, or its text has changed since, and a counter that rises
/// by the bytes of each text that is read.
#[derive(Drop)]
pub struct CachedOverrides<'b, 'a, L: Ledger> {
    pub files: &'b mut CachedFiles<'a>,
    pub bytes: &'b mut Counter<L>,
}

impl<'b, 'a, L: Ledger> Overrides for CachedOverrides<'b, 'a, L> {
    ghost use Rattle.std.specs.Borrow.{GName};
    ghost use Rattle.hc_htaccess.specs.Loading.{Fixed, reading_by, size_by};
    ghost use Rattle.hc_kept.specs.Files.{fixed_of, loaded_of};

    ghost Fixed = { Fixed × GName };

    ghost fixed = { λ o. (fixed_of o.files.now o.bytes.ghost_name, o.files.ghost_name) };

    ghost reading = { λ fixed. reading_by fixed.0 };

    ghost size = { λ fixed. size_by fixed.0 };

    ghost loaded = { λ o. loaded_of o.files.now };

    ghost counted = { λ o. o.bytes.now };

    fn load(&mut self, dir: &[u8], allowed: Allowed) -> Result<(), AtFault> {
        if let Some(found) = self.files.found(dir, allowed) {
            return verdict(found);
        }
        let found = self.files.read(self.bytes, dir, allowed)?;
        let verdict = verdict(&found);
        self.files.keep(dir, allowed, found)?;
        verdict
    }

    fn get(&self, dir: &[u8], allowed: Allowed) -> Option<&HtFile> {
        file_of(self.files.found(dir, allowed)?)
    }
}

// The first of a directory for what is allowed there.
fn fresh_for<'f>(fresh: &'f [FreshFile], dir: &[u8], allowed: Allowed) -> Option<&'f FreshFile>
    ensures { option_map (λ file. file.now) result
        ≡ find (λ file. is_for (fresh_as_loaded file) dir.now allowed) fresh.now }
{
    fresh.iter().find(|file| is_for(file, dir, allowed))
}

fn is_for(file: &FreshFile, dir: &[u8], allowed: Allowed) -> bool
    ensures { result ≡ is_for (fresh_as_loaded file.now) dir.now allowed }
{
    file.dir.as_bytes() == dir && file.allowed == allowed
}

// Whether it is refused.
fn verdict(found: &Found) -> Result<(), AtFault>
    ensures { (override : Override) → found.now ≡ answer_of override → IsRead result override }
{
    match found {
        Ok(_) => Ok(()),
        Err(refusal) => Err(Fault::Refused(refusal.clone()?)),
    }
}

fn file_of(found: &Found) -> Option<&HtFile>
    ensures { (override : Override) → found.now ≡ answer_of override
        → option_map (λ file. file.now) result ≡ file_of override }
{
    match found {
        Ok(file) => file.as_ref(),
        Err(_) => None,
    }
}
