ghost use Rattle.std.specs.Prelude.{◌≡◌, ◌+◌, ◌≤◌, IfOk};
ghost use Rattle.hc_include.specs.Flat.{bytes_of};
ghost use Rattle.hc_kept.specs.Site.{IsRead, is_current_site};

use crate::KeptFiles;
use crate::settled::settled;
use hc_base::{Counter, List, NoMemory, Refusal, Text};
use hc_cache::is_current;
use hc_claim_lines::ClaimLines;
use hc_config::build;
use hc_include::flatten;
use hc_model::{Config, Read};
use hc_world::World;
use std::alloc::Global;
use std::sync::ledger::Ledger;

/// What a main file was read as, and the `.htaccess` files that were read under it, with what that
/// rests on.
#[derive(Drop)]
pub struct Site {
    /// The path of the main file.
    pub main: Text,
    /// The configuration, or the first rule that its files break.
    pub built: Result<Config, Refusal>,
    /// The lines of its files that claims may speak of.
    pub lines: ClaimLines,
    /// What of the world was looked at for it.
    pub reads: List<Read>,
    /// The number of the last edit before it was read.
    pub at: u64,
    /// What was read under it.
    pub files: KeptFiles,
}

impl Site {
    /// Reads the main file of a world, and what it includes (Apache manual, "Configuration Files").
    /// `bytes` rises by the bytes of the texts that are read.
    #[tactic(auto, unfolding(crate::specs::Site::configuration))]
    pub fn read<L: Ledger>(
        alloc: Global,
        world: &World,
        main: &[u8],
        bytes: &mut Counter<L>,
    ) -> Result<Site, NoMemory>
        ensures site { IfOk result (IsRead world.now main.now) }
        ensures bytes { IfOk result (λ _. bytes.new ≡ bytes.old + bytes_of world.now.files main.now) }
        ensures rise { bytes.old ≤ bytes.new }
    {
        let flat = flatten(alloc, world, main, bytes)?;
        let built = settled(build(alloc, &flat))?;
        Ok(Site {
            main: Text::copy_of(alloc, main)?,
            built,
            lines: ClaimLines::of(alloc, &flat.entries)?,
            reads: flat.reads,
            at: world.edits(),
            files: KeptFiles::new(alloc),
        })
    }

    /// Whether no edit since has changed what it rests on, beside the texts of the `.htaccess` files.
    pub fn is_current(&self, world: &World) -> bool
        ensures { result ≡ is_current_site world.now self.now }
    {
        is_current(world, self.reads.as_slice(), self.at)
    }
}
