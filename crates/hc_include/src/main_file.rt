ghost use Rattle.std.specs.Prelude.{◌≡◌, ◌+◌, ◌≤◌, [], IfOk};
ghost use Rattle.hc_steps.specs.Ran.{Takes};
ghost use Rattle.hc_steps.specs.Shown.{shown_by};
ghost use Rattle.hc_include.specs.Counting.{Counts};
ghost use Rattle.hc_include.specs.Flat.{begun, bytes_of, flat_at, flat_of, main_read, main_setting};
ghost use Rattle.hc_says.specs.Says.{built_in};

use crate::files::{read_file, within};
use crate::reading::{Reading, Setting, Stopped};
use hc_base::{Counter, Fault, NoMemory, Refusal, Text};
use hc_flat::{Entries, Flat, Places};
use hc_lines::FileKind;
use hc_says::{Defines, built_in};
use hc_steps::Log;
use hc_world::World;
use std::alloc::Global;
use std::sync::ledger::Ledger;

/// The most files that stand within each other, without the main file.
const DEEPEST: u32 = 32;

/// The flat list of the configuration of a main file (Apache manual, "Configuration Files"; core,
/// Include, IncludeOptional, Define, IfDefine, IfModule): its lines and those of the files that it
/// includes, each at its place, with their variables replaced.
///
/// `bytes` rises by the bytes of the texts that are read, each time that one is. More than 2^32
/// entries, or 4 GiB of their texts, find no memory.
pub fn flatten<L: Ledger>(
    alloc: Global,
    world: &World,
    main: &[u8],
    bytes: &mut Counter<L>,
) -> Result<Flat, NoMemory>
    ensures flat { IfOk result (λ flat. flat ≡ flat_of world.now.files main.now) }
    ensures bytes { IfOk result (λ _. bytes.new ≡ bytes.old + bytes_of world.now.files main.now) }
    ensures rise { bytes.old ≤ bytes.new }
{
    let main = Text::copy_of(alloc, main)?;
    let mut log = Log::new(alloc, None);
    match read_main(world, &mut log, bytes, &main) {
        Ok(reading) => Ok(flat_at(main, log, None, reading)?),
        Err(Fault::Refused(stopped)) => {
            let Stopped { reading, refusal } = stopped;
            Ok(flat_at(main, log, Some(refusal), reading)?)
        }
        Err(Fault::NoMemory) => Err(NoMemory),
    }
}

fn flat_at(main: Text, log: Log, stop: Option<Refusal>, reading: Reading) -> Result<Flat, NoMemory>
    ensures { IfOk result (λ flat. flat ≡ flat_at main log.reads stop reading) }
{
    Ok(reading.into_flat(main, log.into_told()?.reads, stop))
}

#[tactic(auto, using(hc_steps::proofs::Going::ran_no_memory))]
fn read_main<L: Ledger>(
    world: &World,
    log: &mut Log,
    bytes: &mut Counter<L>,
    main: &Text,
) -> Result<Reading, Fault<Stopped>>
    ensures read { Takes result log (main_read main.now) (shown_by world.now.files) }
    ensures bytes { Counts result bytes.old bytes.new 0 }
{
    let around = within(log.allocator(), DEEPEST, &[], main)?;
    let reading = begun(log.allocator())?;
    read_file(world, log, bytes, &around, reading)
}

// Before the first line.
fn begun(alloc: Global) -> Result<Reading, NoMemory>
    ensures { IfOk result (λ reading. reading ≡ begun main_setting [] built_in) }
{
    Ok(Reading {
        setting: Setting {
            kind: FileKind::Config,
            says: true,
        },
        entries: Entries::new(alloc),
        defines: Defines::none(alloc),
        modules: built_in(alloc)?,
        root: None,
        openings: Places::none(alloc),
        dropped: 0,
        bytes: 0,
    })
}
