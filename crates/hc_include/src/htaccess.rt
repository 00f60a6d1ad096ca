ghost use Rattle.std.specs.Prelude.{◌≡◌, ◌+◌, ◌≤◌, length, IfOk};
ghost use Rattle.hc_base.specs.Gives.{Gives};
ghost use Rattle.hc_include.specs.Flat.{begun};
ghost use Rattle.hc_include.specs.Lines.{change_by, ruled_lines};
ghost use Rattle.hc_include.specs.Override.{line_alone, lines_alone, override_flat, override_setting, text_alone};
ghost use Rattle.hc_lines.specs.declared.line.FileKind.TheVariants.{Htaccess};

use crate::change::change_by;
use crate::reading::{Reading, Setting, Stopped};
use crate::ruled::ruled_lines;
use hc_base::{AtByte, Counter, Fault, List, NoMemory, Text};
use hc_flat::{Entries, Flat, Places};
use hc_lines::{FileKind, Line};
use hc_model::Config;
use hc_says::{Defines, Modules};
use std::alloc::Global;
use std::sync::ledger::Ledger;

/// The flat list of the text of a `.htaccess` file at a path (Apache manual, ".htaccess files"; core,
/// Define, IfDefine, IfModule), under what a configuration defines and loads. A directive says
/// nothing to the lines behind it: a Define, a LoadModule and an Include stand in the list like
/// others, and nothing is looked at.
///
/// `bytes` rises by the bytes of the text. More than 2^32 entries, 4 GiB of text, or a configuration
/// with a Define or a module that is no UTF-8 find no memory; one that was read has none such.
#[tactic(auto, unfolding(crate::specs::Override::override_flat))]
pub fn flatten_override<L: Ledger>(
    alloc: Global,
    text: &str,
    path: &[u8],
    config: &Config,
    bytes: &mut Counter<L>,
) -> Result<Flat, NoMemory>
    ensures flat { IfOk result (λ flat.
        flat ≡ override_flat path.now text.now config.now.defines config.now.modules) }
    ensures bytes { IfOk result (λ _. bytes.new ≡ bytes.old + length text.now) }
    ensures rise { bytes.old ≤ bytes.new }
{
    let file = Text::copy_of(alloc, path)?;
    let reads = List::new(alloc);
    let reading = begun(alloc, config)?;
    match text_alone(alloc, bytes, &file, reading, text) {
        Ok(reading) => Ok(reading.into_flat(file, reads, None)),
        Err(Fault::Refused(stopped)) => {
            let Stopped { reading, refusal } = stopped;
            Ok(reading.into_flat(file, reads, Some(refusal)))
        }
        Err(Fault::NoMemory) => Err(NoMemory),
    }
}

// Before the first line.
fn begun(alloc: Global, config: &Config) -> Result<Reading, NoMemory>
    ensures { IfOk result (λ reading.
        reading ≡ begun override_setting config.now.defines config.now.modules) }
{
    Ok(Reading {
        setting: Setting {
            kind: FileKind::Htaccess,
            says: false,
        },
        entries: Entries::new(alloc),
        defines: Defines::of(alloc, &config.defines)?,
        modules: Modules::of(alloc, &config.modules)?,
        root: None,
        openings: Places::none(alloc),
        dropped: 0,
        bytes: 0,
    })
}

// A text behind which no files come.
fn text_alone<L: Ledger>(
    alloc: Global,
    bytes: &mut Counter<L>,
    file: &Text,
    reading: Reading,
    text: &str,
) -> Result<Reading, Fault<Stopped>>
    ensures read { Gives result (text_alone file.now reading (ruled_lines Htaccess text.now)) }
    ensures bytes { bytes.new ≡ bytes.old + length text.now }
{
    match ruled_lines(alloc, text, FileKind::Htaccess, bytes) {
        Ok(lines) => lines_alone(alloc, file, reading.with_room(&lines), &lines),
        Err(Fault::Refused(broken)) => Err(Fault::Refused(reading.stopped_at(
            file,
            broken.line,
            AtByte::rule(broken.code),
        )?)),
        Err(Fault::NoMemory) => Err(Fault::NoMemory),
    }
}

fn lines_alone(
    alloc: Global,
    file: &Text,
    mut reading: Reading,
    lines: &[Line],
) -> Result<Reading, Fault<Stopped>>
    ensures { Gives result (lines_alone file.now reading lines.now) }
{
    for line in lines {
        match line_alone(alloc, file, reading, line) {
            Ok(later) => reading = later,
            Err(fault) => return Err(fault),
        }
    }
    Ok(reading)
}

fn line_alone(
    alloc: Global,
    file: &Text,
    reading: Reading,
    line: &Line,
) -> Result<Reading, Fault<Stopped>>
    ensures { Gives result (line_alone file.now reading line.now (change_by reading line.now)) }
{
    match change_by(alloc, &reading, line) {
        Ok(change) => Ok(reading.changed(file, line, change)?),
        Err(Fault::Refused(broken)) => {
            Err(Fault::Refused(reading.stopped_at(file, line.number, broken)?))
        }
        Err(Fault::NoMemory) => Err(Fault::NoMemory),
    }
}
