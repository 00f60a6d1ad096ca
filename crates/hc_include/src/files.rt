ghost use Rattle.std.specs.Prelude.{◌≡◌, ℕ, IfOk, Ok};
ghost use Rattle.hc_steps.specs.Ran.{Answers, Takes};
ghost use Rattle.hc_steps.specs.Shown.{shown_by};
ghost use Rattle.hc_steps.specs.Step.{ends, in_order};
ghost use Rattle.hc_include.specs.Counting.{Counts};
ghost use Rattle.hc_include.specs.Flat.{behind_change, file_read, having_read, inner, line_read, lines_read};
ghost use Rattle.hc_include.specs.Flat.{missing, text_read, within};
ghost use Rattle.hc_include.specs.Lines.{ruled_lines, stopped_at};

use crate::around::Around;
use crate::candidates::is_there;
use crate::change::{Change, change_by, files_behind};
use crate::reading::{Reading, Stopped};
use crate::ruled::ruled_lines;
use hc_base::codes::{CONTENT_MISSING, INCLUDE_MISSING};
use hc_base::{AtByte, Counter, Fault, List, NoMemory, Text};
use hc_lines::Line;
use hc_model::Kind;
use hc_steps::Log;
use hc_world::{FoundText, World, text_at};
use std::alloc::Global;
use std::sync::ledger::Ledger;

/// Reads a file where the reading stands.
#[tactic(auto, using(hc_steps::proofs::Going::ran_no_memory))]
#[cycle(files)]
pub(crate) fn read_file<L: Ledger>(
    world: &World,
    log: &mut Log,
    bytes: &mut Counter<L>,
    around: &Around,
    reading: Reading,
) -> Result<Reading, Fault<Stopped>>
    ensures read { Takes result log (file_read around.now (inner around.now) reading) (shown_by world.now.files) }
    ensures bytes { Counts result bytes.old bytes.new reading.bytes }
{
    let found: Result<FoundText, Fault<Stopped>> = text_at(world, log, around.file.as_bytes());
    match found {
        Ok(found) => read_found(world, log, bytes, around, reading, &found),
        Err(_) => Err(Fault::NoMemory),
    }
}

#[tactic(auto, using(hc_steps::proofs::Going::ran_no_memory))]
#[cycle(files)]
fn read_found<L: Ledger>(
    world: &World,
    log: &mut Log,
    bytes: &mut Counter<L>,
    around: &Around,
    reading: Reading,
    found: &FoundText,
) -> Result<Reading, Fault<Stopped>>
    ensures read { Takes result log (text_read around.now (inner around.now) reading found.now.kind found.now.text)
        (shown_by world.now.files) }
    ensures bytes { Counts result bytes.old bytes.new reading.bytes }
{
    let Some(text) = found.text() else {
        return stop(&around.file, 0, reading, missing(found.kind()));
    };
    read_text(world, log, bytes, around, reading, text)
}

// Reads the text of a file where the reading stands.
#[tactic(auto, using(hc_steps::proofs::Going::ran_no_memory))]
#[cycle(files)]
fn read_text<L: Ledger>(
    world: &World,
    log: &mut Log,
    bytes: &mut Counter<L>,
    around: &Around,
    reading: Reading,
    text: &str,
) -> Result<Reading, Fault<Stopped>>
    ensures read { Takes result log
        (lines_read around.now (inner around.now) (having_read text.now reading)
        (ruled_lines reading.setting.kind text.now)) (shown_by world.now.files) }
    ensures bytes { Counts result bytes.old bytes.new reading.bytes }
{
    let kind = reading.setting.kind;
    let reading = having_read(reading, text)?;
    match ruled_lines(log.allocator(), text, kind, bytes) {
        Ok(lines) => {
            let reading = reading.with_room(&lines);
            read_lines(world, log, bytes, around, reading, &lines)
        }
        Err(Fault::Refused(broken)) => {
            stop(
                &around.file,
                broken.line,
                reading,
                AtByte::rule(broken.code),
            )
        }
        Err(Fault::NoMemory) => Err(Fault::NoMemory),
    }
}

// Why a file has no text.
fn missing(kind: Kind) -> AtByte
    ensures { result ≡ missing kind }
{
    if is_there(kind) {
        AtByte::rule(CONTENT_MISSING)
    } else {
        AtByte::rule(INCLUDE_MISSING)
    }
}

// More than 2^64 bytes find no memory.
fn having_read(mut reading: Reading, text: &str) -> Result<Reading, NoMemory>
    ensures { IfOk result (λ later. later ≡ having_read text.now reading) }
{
    let Some(bytes) = reading.bytes.checked_add(text.len() as u64) else {
        return Err(NoMemory);
    };
    reading.bytes = bytes;
    Ok(reading)
}

#[tactic(auto, using(hc_steps::proofs::Going::telling))]
fn stop(file: &Text, line: u32, reading: Reading, broken: AtByte) -> Result<Reading, Fault<Stopped>>
    ensures read { Answers result (ends (stopped_at file.now line reading broken)) }
    ensures bytes { (count : ℕ) → Counts result count count reading.bytes }
{
    Err(Fault::Refused(reading.stopped_at(file, line, broken)?))
}

#[tactic(auto, using(hc_steps::proofs::Going::items, hc_steps::proofs::Going::ran_no_memory))]
#[cycle(files)]
fn read_lines<L: Ledger>(
    world: &World,
    log: &mut Log,
    bytes: &mut Counter<L>,
    around: &Around,
    mut reading: Reading,
    lines: &[Line],
) -> Result<Reading, Fault<Stopped>>
    ensures read { Takes result log (in_order (line_read around.now (inner around.now)) reading lines.now)
        (shown_by world.now.files) }
    ensures bytes { Counts result bytes.old bytes.new reading.bytes }
{
    for line in lines {
        reading = read_line(world, log, bytes, around, reading, line)?;
    }
    Ok(reading)
}

// A line, and the files that come behind it.
#[tactic(auto, using(hc_steps::proofs::Going::ran_no_memory))]
#[cycle(files)]
fn read_line<L: Ledger>(
    world: &World,
    log: &mut Log,
    bytes: &mut Counter<L>,
    around: &Around,
    reading: Reading,
    line: &Line,
) -> Result<Reading, Fault<Stopped>>
    ensures read { Takes result log (line_read around.now (inner around.now) reading line.now)
        (shown_by world.now.files) }
    ensures bytes { Counts result bytes.old bytes.new reading.bytes }
{
    match change_by(log.allocator(), &reading, line) {
        Ok(change) => read_behind(world, log, bytes, around, reading, line, change),
        Err(Fault::Refused(broken)) => stop(&around.file, line.number, reading, broken),
        Err(Fault::NoMemory) => Err(Fault::NoMemory),
    }
}

// The same of a line that changes this.
#[tactic(auto, using(hc_steps::proofs::Going::ran_no_memory))]
#[cycle(files)]
fn read_behind<L: Ledger>(
    world: &World,
    log: &mut Log,
    bytes: &mut Counter<L>,
    around: &Around,
    reading: Reading,
    line: &Line,
    change: Change,
) -> Result<Reading, Fault<Stopped>>
    ensures read { Takes result log (behind_change around.now (inner around.now) reading line.now (Ok change))
        (shown_by world.now.files) }
    ensures bytes { Counts result bytes.old bytes.new reading.bytes }
{
    let files = match files_behind(world, log, around, &reading.root, &change) {
        Ok(files) => files,
        Err(Fault::Refused(broken)) => return stop(&around.file, line.number, reading, broken),
        Err(Fault::NoMemory) => return Err(Fault::NoMemory),
    };
    let reading = reading.changed(&around.file, line, change)?;
    read_files(world, log, bytes, around, reading, files.as_slice())
}

// Reads files one after another within the one that is read.
#[tactic(auto, using(hc_steps::proofs::Going::items, hc_steps::proofs::Going::ran_no_memory))]
#[cycle(files)]
fn read_files<L: Ledger>(
    world: &World,
    log: &mut Log,
    bytes: &mut Counter<L>,
    around: &Around,
    mut reading: Reading,
    files: &[Text],
) -> Result<Reading, Fault<Stopped>>
    ensures read { Takes result log (in_order (inner around.now) reading files.now) (shown_by world.now.files) }
    ensures bytes { Counts result bytes.old bytes.new reading.bytes }
{
    if around.room == 0 {
        return Ok(reading);
    }
    for file in files {
        let inner = within(
            log.allocator(),
            around.room - 1,
            around.chain.as_slice(),
            file,
        )?;
        reading = read_file(world, log, bytes, &inner, reading)?;
    }
    Ok(reading)
}

/// A file behind these, where so many may stand within it.
pub(crate) fn within(
    alloc: Global,
    room: u32,
    chain: &[Text],
    file: &Text,
) -> Result<Around, NoMemory>
    ensures { IfOk result (λ around. around ≡ within room chain.now file.now) }
{
    let mut files = List::new(alloc);
    for outer in chain {
        files.push(outer.clone()?)?;
    }
    files.push(file.clone()?)?;
    Ok(Around {
        file: file.clone()?,
        chain: files,
        room,
    })
}
