//! What a `.htaccess` is read as.
ghost use Rattle.std.specs.Prelude.{◌≡◌, ◌+◌, ◌≤◌, length};
ghost use Rattle.hc_base.specs.Gives.{Gives};
ghost use Rattle.hc_htaccess.specs.Reading.{file_read};
ghost use Rattle.hc_model.specs.Overrides.{IfMemory};

use hc_base::{Counter, Text};
use hc_config::build_override;
use hc_include::flatten_override;
use hc_merge::htaccess_of;
use hc_model::{Allowed, AtFault, Config, HtFile};
use std::alloc::Global;
use std::sync::ledger::Ledger;

/// The `.htaccess` of a directory, by its text and by what is allowed there, under the Defines and modules of
/// a configuration (Apache manual, ".htaccess files"; core, AllowOverride), or the first rule that it breaks.
/// `bytes` rises by the bytes of the text.
#[tactic(auto, unfolding(crate::specs::Reading::file_read), using(crate::proofs::Memory::whatever))]
pub fn read_overrides<L: Ledger>(
    alloc: Global,
    text: &str,
    dir: &[u8],
    allowed: Allowed,
    config: &Config,
    bytes: &mut Counter<L>,
) -> Result<HtFile, AtFault>
    ensures file { Gives result (file_read config.now dir.now allowed text.now) }
    ensures bytes { IfMemory result (bytes.new ≡ bytes.old + length text.now) }
    ensures rise { bytes.old ≤ bytes.new }
{
    let path = htaccess_of(alloc, dir)?;
    let flat = flatten_override(alloc, text, path.as_bytes(), config, bytes)?;
    match build_override(alloc, &flat, allowed) {
        Ok(body) => Ok(HtFile {
            dir: Text::copy_of(alloc, dir)?,
            body,
        }),
        Err(fault) => Err(fault),
    }
}
