ghost use Rattle.std.specs.Prelude.{◌≡◌, ◌<◌, IfOk, IfNone, IfSome, length, option_map, string_bytes};
ghost use Rattle.std.specs.List.{position};
ghost use Rattle.hc_base.specs.Lines.{is_lf, pieces};
ghost use Rattle.hc_model.specs.World.{IsWorld};
ghost use Rattle.hc_world.specs.Edits.{EditsFiles, IsEdit, lines_edited};
ghost use Rattle.hc_world.specs.Lines.{IsBehind, edited, line_len};
ghost use Rattle.hc_world.specs.Marks.{FilesMarked};

use crate::entries::{Files, replace};
use crate::nodes::Entry;
use crate::path::is_path;
use crate::world::WorldFault;
use hc_base::codes::{BAD_RANGE, NO_SUCH_PATH, PATH_FORM};
use hc_base::{Fault, NoMemory};
use std::alloc::Global;

/// Replaces the physical lines `from` to `to` of a file, counted from 1, by a text as it stands.
pub(crate) fn edit_lines(
    files: &mut Files,
    path: &[u8],
    from: usize,
    to: usize,
    new: &str,
    number: u64,
) -> Result<(), WorldFault>
    requires { IsWorld files.old.nodes }
    ensures edit { EditsFiles result files.old.nodes files.new.nodes
        (lines_edited files.old.nodes path.now from to new.now) }
    ensures kept { IsEdit path.now files.old.nodes files.new.nodes }
    ensures marked { FilesMarked result number files.old.nodes files.new.nodes files.old.rows files.new.rows }
{
    if !is_path(path) {
        return Err(Fault::Refused(PATH_FORM));
    }
    let Some(old) = files.nodes.text(path) else {
        return Err(Fault::Refused(NO_SUCH_PATH));
    };
    match with_lines(files.alloc, old, from, to, new)? {
        Some(edited) => replace(files, path, Entry::Text(edited), number),
        None => Err(Fault::Refused(BAD_RANGE)),
    }
}

// The text with the physical lines `from` to `to`, counted from 1, replaced by another text as it
// stands; None where there are no such lines.
fn with_lines(
    alloc: Global,
    old: &str,
    from: usize,
    to: usize,
    new: &str,
) -> Result<Option<String>, NoMemory>
    ensures { IfOk result (λ all. option_map string_bytes all ≡ edited old.now from to new.now) }
{
    if from == 0 || to < from - 1 {
        return Ok(None);
    }
    let Some(end) = after_lines(old, to) else {
        return Ok(None);
    };
    let Some(start) = after_lines(old, from - 1) else {
        return Ok(None);
    };
    let mut all = String::from_str(alloc, &old[..start])?;
    all.push_str(new)?;
    all.push_str(&old[end..])?;
    Ok(Some(all))
}

// The place behind so many lines; None where there are fewer.
fn after_lines(text: &str, lines: usize) -> Option<usize>
    ensures none { IfNone result (length (pieces text.now) < lines) }
    ensures some { IfSome result (IsBehind text.now lines) }
{
    let mut at = 0;
    for _ in 0..lines {
        if at == text.len() {
            return None;
        }
        at += first_line(&text.as_bytes()[at..]);
    }
    Some(at)
}

// The length of the first line, with its LF.
fn first_line(text: &[u8]) -> usize
    ensures { result ≡ line_len text.now }
{
    match first_lf(text) {
        Some(lf) => lf + 1,
        None => text.len(),
    }
}

fn first_lf(text: &[u8]) -> Option<usize>
    ensures { result ≡ position is_lf text.now }
{
    text.iter().position(|b| *b == b'\n')
}
