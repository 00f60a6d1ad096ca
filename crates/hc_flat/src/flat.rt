ghost use Rattle.std.specs.Prelude.{◌≡◌};

use crate::entries::Entries;
use hc_base::{List, NoMemory, Refusal, Text};
use hc_model::{Define, Read};

/// The flat list of a configuration (Apache manual, "Configuration Files"; core, Include).
#[derive(Drop)]
pub struct Flat {
    /// The file that reading began with.
    pub file: Text,
    /// The directives, openings and closes, with the files of an Include at its place.
    pub entries: Entries,
    /// The Define lines among them (core).
    pub defines: List<Define>,
    /// The modules behind them: those that are always present, and the loaded ones (mod_so).
    pub modules: List<Text>,
    /// The first refusal of reading; the entries are those before it.
    pub stop: Option<Refusal>,
    /// What of the world was looked at, each once, in byte order of the path, and at one path the
    /// text before the names.
    pub reads: List<Read>,
}

impl Clone for Flat {
    ghost is_clone = { λ flat copy. copy ≡ flat };

    fn clone(&self) -> Result<Flat, NoMemory> {
        Ok(Flat {
            file: self.file.clone()?,
            entries: self.entries.clone()?,
            defines: self.defines.copy()?,
            modules: self.modules.copy()?,
            stop: self.stop.clone()?,
            reads: self.reads.copy()?,
        })
    }
}
