//! What reading the `.htaccess` of a directory gives.
ghost use Rattle.std.specs.Prelude.{◌≡◌, ◌+◌, ◌≤◌, IfOk, option_map};
ghost use Rattle.hc_base.specs.Gives.{Gives};
ghost use Rattle.hc_htaccess.specs.Loading.{answer_of};
ghost use Rattle.hc_htaccess.specs.Reading.{length_of, reading_in, size_in, text_there, without_text};
ghost use Rattle.hc_model.specs.Overrides.{IfMemory};

use crate::reading::read_overrides;
use hc_base::codes::CONTENT_MISSING;
use hc_base::{AtByte, Counter, Fault, NoMemory, Place, Refusal};
use hc_merge::htaccess_of;
use hc_model::{Allowed, AtFault, Config, HtFile, Kind};
use hc_world::World;
use std::alloc::Global;
use std::sync::ledger::Ledger;

/// What reading the `.htaccess` of a directory of a world gives, by what is allowed there, under the Defines and
/// modules of a configuration (Apache manual, ".htaccess files"): none where no file is there, or the first rule that
/// it breaks. `bytes` rises by the bytes of its text.
#[tactic(auto, unfolding(crate::specs::Reading::found_there))]
pub fn read_htaccess<L: Ledger>(
    alloc: Global,
    config: &Config,
    world: &World,
    bytes: &mut Counter<L>,
    dir: &[u8],
    allowed: Allowed,
) -> Result<Option<HtFile>, AtFault>
    ensures found { Gives result (answer_of (reading_in world.now.files config.now dir.now allowed)) }
    ensures bytes { IfMemory result (bytes.new ≤ bytes.old + size_in world.now.files dir.now) }
{
    let path = htaccess_of(alloc, dir)?;
    match world.kind(path.as_bytes()) {
        Kind::Absent | Kind::Dir => Ok(None),
        Kind::File => read_text(
            alloc,
            config,
            bytes,
            dir,
            allowed,
            world.text(path.as_bytes()),
        ),
    }
}

// The same where it is a file, which may have a text.
fn read_text<L: Ledger>(
    alloc: Global,
    config: &Config,
    bytes: &mut Counter<L>,
    dir: &[u8],
    allowed: Allowed,
    text: Option<&str>,
) -> Result<Option<HtFile>, AtFault>
    ensures found { Gives result
        (answer_of (text_there config.now dir.now allowed (option_map (λ text. text.now) text.entry))) }
    ensures bytes { IfMemory result (bytes.new ≤ bytes.old + length_of (option_map (λ text. text.now) text.entry)) }
{
    let Some(text) = text else {
        return Err(Fault::Refused(without_text(alloc, dir)?));
    };
    match read_overrides(alloc, text, dir, allowed, config, bytes) {
        Ok(file) => Ok(Some(file)),
        Err(fault) => Err(fault),
    }
}

fn without_text(alloc: Global, dir: &[u8]) -> Result<Refusal, NoMemory>
    ensures { IfOk result (λ refusal. refusal ≡ without_text dir.now) }
{
    let place = Place {
        file: htaccess_of(alloc, dir)?,
        line: 0,
    };
    Ok(Refusal::at(alloc, place, AtByte::rule(CONTENT_MISSING)))
}
