ghost use Rattle.std.specs.Prelude.{◌≡◌, IfOk};
ghost use Rattle.hc_base.specs.Gives.{Gives};
ghost use Rattle.hc_steps.specs.Ran.{Takes};
ghost use Rattle.hc_steps.specs.Shown.{shown_by};
ghost use Rattle.hc_include.specs.Lines.{change_by, directive_read, dropping, files_behind, files_said};
ghost use Rattle.hc_include.specs.Lines.{is_too_long, kept_line, opening_read, said_by};

use crate::around::Around;
use crate::include::include_files;
use crate::reading::{Reading, Setting};
use hc_base::codes::WRONG_ARGUMENTS;
use hc_base::{AtByte, Fault, List, NoMemory, Text};
use hc_lines::{Line, skip_blanks};
use hc_nodes::{inside_brackets, is_close, is_complete, split_name};
use hc_says::{Says, Utf8, body_kept, said_of};
use hc_steps::Log;
use hc_world::World;
use std::alloc::Global;

/// The most bytes of a line once its variables are replaced.
const LONGEST_REPLACED: usize = 1_048_576;

/// What a line changes.
#[derive(Drop)]
pub enum Change {
    /// So many sections are open in a body that is dropped.
    Drops(u32),
    Closes,
    /// A section with this between its brackets, whose body is kept or not.
    Opens { inside: Utf8, is_kept: bool },
    /// A directive of this text, with what it says.
    Keeps { text: Utf8, says: Says },
}

/// What a line changes, by what was read before it.
#[tactic(auto, unfolding(crate::specs::Lines::change_by))]
pub(crate) fn change_by(
    alloc: Global,
    reading: &Reading,
    line: &Line,
) -> Result<Change, Fault<AtByte>>
    ensures { Gives result (change_by reading.now line.now) }
{
    if reading.dropped == 0 {
        return kept_line(alloc, reading, line);
    }
    Ok(dropping(reading.dropped, line)?)
}

// Behind a line of a body that is dropped. The close of its own section is kept.
fn dropping(dropped: u32, line: &Line) -> Result<Change, NoMemory>
    ensures { IfOk result (λ change. change ≡ dropping dropped line.now) }
{
    if is_close(line) {
        if dropped == 1 {
            return Ok(Change::Closes);
        }
        return Ok(Change::Drops(dropped.saturating_sub(1)));
    }
    if !is_complete(line) {
        return Ok(Change::Drops(dropped));
    }
    match dropped.checked_add(1) {
        Some(more) => Ok(Change::Drops(more)),
        None => Err(NoMemory),
    }
}

fn kept_line(alloc: Global, reading: &Reading, line: &Line) -> Result<Change, Fault<AtByte>>
    ensures { Gives result (kept_line reading.now line.now) }
{
    if is_close(line) {
        return Ok(Change::Closes);
    }
    if is_complete(line) {
        let inside = reading.replaced(alloc, inside_brackets(line))?;
        return opening_read(alloc, reading, inside);
    }
    let text = reading.replaced(alloc, line.text.as_str())?;
    directive_read(alloc, reading.setting, text)
}

fn opening_read(alloc: Global, reading: &Reading, inside: Utf8) -> Result<Change, Fault<AtByte>>
    ensures { Gives result (opening_read reading.now inside) }
{
    // The brackets are two bytes.
    if is_too_long(inside.as_str().len() + 2) {
        return Err(Fault::Refused(AtByte::rule(WRONG_ARGUMENTS)));
    }
    let (name, rest) = split_name(inside.as_str());
    match body_kept(alloc, &reading.defines, &reading.modules, name, rest) {
        Ok(is_kept) => Ok(Change::Opens { inside, is_kept }),
        Err(fault) => Err(fault),
    }
}

fn is_too_long(len: usize) -> bool
    ensures { result ≡ is_too_long len }
{
    len > LONGEST_REPLACED
}

fn directive_read(alloc: Global, setting: Setting, text: Utf8) -> Result<Change, Fault<AtByte>>
    ensures { Gives result (directive_read setting text) }
{
    if is_too_long(text.as_str().len()) {
        return Err(Fault::Refused(AtByte::rule(WRONG_ARGUMENTS)));
    }
    match said_by(alloc, setting, text.as_str()) {
        Ok(says) => Ok(Change::Keeps { text, says }),
        Err(fault) => Err(fault),
    }
}

fn said_by(alloc: Global, setting: Setting, text: &str) -> Result<Says, Fault<AtByte>>
    ensures { Gives result (said_by setting text.now) }
{
    if !setting.says {
        return Ok(Says::Nothing);
    }
    let (name, rest) = split_name(skip_blanks(text));
    said_of(alloc, name, rest)
}

/// The files that come behind a line.
#[tactic(auto, unfolding(crate::specs::Lines::files_behind), using(hc_steps::proofs::Going::ran_leaves))]
pub(crate) fn files_behind(
    world: &World,
    log: &mut Log,
    around: &Around,
    root: &Option<Utf8>,
    change: &Change,
) -> Result<List<Text>, Fault<AtByte>>
    ensures { Takes result log (files_behind around.now root.now change.now) (shown_by world.now.files) }
{
    match change {
        Change::Keeps { says, .. } => files_said(world, log, around, root, says),
        _ => Ok(List::new(log.allocator())),
    }
}

#[tactic(auto, using(hc_steps::proofs::Going::ran_leaves))]
fn files_said(
    world: &World,
    log: &mut Log,
    around: &Around,
    root: &Option<Utf8>,
    says: &Says,
) -> Result<List<Text>, Fault<AtByte>>
    ensures { Takes result log (files_said around.now root.now says.now) (shown_by world.now.files) }
{
    match says {
        Says::Includes { optional, path } => {
            include_files(world, log, around, *optional, root, path)
        }
        _ => Ok(List::new(log.allocator())),
    }
}
