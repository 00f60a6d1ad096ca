//! The `.htaccess` files of a world, read when they are asked for.
ghost use Rattle.std.specs.Prelude.{◌≡◌, ◌+◌, ◌≤◌, ◌++◌, ◌∷◌, Contains, OnErr, OnOk, []};
ghost use Rattle.std.specs.Prelude.{option_map};
ghost use Rattle.hc_base.specs.Gives.{Gives};
ghost use Rattle.hc_htaccess.specs.Loading.{answer_of, kept_for, loaded_as, loaded_of, reading_of};
ghost use Rattle.hc_htaccess.specs.Pairs.{is_for};
ghost use Rattle.hc_htaccess.specs.Reading.{size_in};
ghost use Rattle.hc_model.specs.Overrides.{IfMemory, Kept as KeepsLoaded, file_of};

use crate::there::read_htaccess;
use hc_base::{Counter, NoMemory, Text};
use hc_model::{Allowed, AtFault, Config, HtFile, Overrides};
use hc_world::World;
use std::alloc::Global;
use std::marker::Model;
use std::sync::ledger::Ledger;

/// A directory whose `.htaccess` was read for what is allowed there.
#[derive(Drop)]
pub(crate) struct Kept {
    dir: Text,
    allowed: Allowed,
    file: Option<HtFile>,
}

/// What was read of a world under a configuration.
#[derive(Drop)]
pub(crate) struct PlainFiles<'a> {
    alloc: Global,
    config: &'a Config,
    world: &'a World,
    kept: Vec<Kept>,
}

impl<'a> Model for PlainFiles<'a> {
    ghost use Rattle.std.specs.Coded.{codes};
    ghost use Rattle.hc_htaccess.specs.Loading.{AreKept, Plain};
    ghost use Rattle.hc_htaccess.specs.Reading.{reading_in};
    ghost use Rattle.hc_model.specs.World.{world_code};
    ghost use Rattle.hc_model.specs.contracts.config.Config as c;
    ghost use Rattle.hc_model.specs.contracts.section.HtFile as f;

    ghost Value = { Plain };

    ghost coded = { Prim.hlevel (codes, world_code, c.the_row.coded, f.the_row.coded) };

    ghost view = { λ p. record { world = p.world.now.files; config = p.config.now; kept = p.kept.items } };

    ghost invariant = { λ p. AreKept (reading_in p.world.now.files p.config.now) p.kept.items };
}

impl<'a> PlainFiles<'a> {
    fn read<L: Ledger>(
        &self,
        bytes: &mut Counter<L>,
        dir: &[u8],
        allowed: Allowed,
    ) -> Result<Option<HtFile>, AtFault>
        ensures found { Gives result (answer_of (reading_of self.now dir.now allowed)) }
        ensures bytes { IfMemory result (bytes.new ≤ bytes.old + size_in self.now.world dir.now) }
    {
        read_htaccess(self.alloc, self.config, self.world, bytes, dir, allowed)
    }

    fn keep(&mut self, dir: &[u8], allowed: Allowed, file: Option<HtFile>) -> Result<(), NoMemory>
        requires { file ≡ file_of (reading_of self.old dir.now allowed) }
        ensures world { self.new.world ≡ self.old.world }
        ensures config { self.new.config ≡ self.old.config }
        ensures kept { KeepsLoaded (loaded_of self.old) (loaded_of self.new) }
        ensures loads { OnOk result (Contains (loaded_of self.new) (record { dir = dir.now; allowed = allowed })) }
    {
        let dir = Text::copy_of(self.alloc, dir)?;
        self.kept.push(Kept { dir, allowed, file })?;
        Ok(())
    }

    fn get(&self, dir: &[u8], allowed: Allowed) -> Option<&HtFile>
        ensures { Contains (loaded_of self.now) (record { dir = dir.now; allowed = allowed })
            → option_map (λ file. file.now) result ≡ file_of (reading_of self.now dir.now allowed) }
    {
        kept_for(&self.kept, dir, allowed)?.file.as_ref()
    }
}

/// The `.htaccess` files of a world under a configuration: each is read when it is loaded, and kept.
#[derive(Drop)]
pub struct PlainOverrides<'a, L: Ledger> {
    files: PlainFiles<'a>,
    bytes: &'a mut Counter<L>,
}

impl<'a, L: Ledger> PlainOverrides<'a, L> {
    /// Nothing is loaded. `bytes` will rise by the bytes of each text that is read.
    pub fn new(
        alloc: Global,
        config: &'a Config,
        world: &'a World,
        bytes: &'a mut Counter<L>,
    ) -> PlainOverrides<'a, L>
        ensures files { result.files ≡ record { world = world.now.files; config = config.now; kept = [] } }
        ensures bytes { result.bytes ≡ bytes.entry }
    {
        let files = PlainFiles {
            alloc,
            config,
            world,
            kept: Vec::new(alloc),
        };
        PlainOverrides { files, bytes }
    }
}

impl<'a, L: Ledger> Overrides for PlainOverrides<'a, L> {
    ghost use Rattle.hc_htaccess.specs.Loading.{Fixed, loaded_of, reading_by, size_by};

    ghost Fixed = { Fixed };

    ghost fixed = { λ p.
        record { files = p.files.world; config = p.files.config; counter = p.bytes.ghost_name } };

    ghost reading = { reading_by };

    ghost size = { size_by };

    ghost loaded = { λ p. loaded_of p.files };

    ghost counted = { λ p. p.bytes.now };

    fn load(&mut self, dir: &[u8], allowed: Allowed) -> Result<(), AtFault> {
        let file = self.files.read(self.bytes, dir, allowed)?;
        self.files.keep(dir, allowed, file)?;
        Ok(())
    }

    fn get(&self, dir: &[u8], allowed: Allowed) -> Option<&HtFile> {
        self.files.get(dir, allowed)
    }
}

// The first that is kept of a directory for what is allowed there.
fn kept_for<'k>(kept: &'k [Kept], dir: &[u8], allowed: Allowed) -> Option<&'k Kept>
    ensures { option_map (λ each. each.now) result ≡ kept_for dir.now allowed kept.now }
{
    kept.iter().find(|each| is_for(each, dir, allowed))
}

fn is_for(kept: &Kept, dir: &[u8], allowed: Allowed) -> bool
    ensures { result ≡ is_for (loaded_as kept.now) dir.now allowed }
{
    kept.dir.as_bytes() == dir && kept.allowed == allowed
}
