ghost use Rattle.std.specs.Prelude.{◌≡◌, ◌+◌, ◌^◌, ◌<◌, ◌≤◌, true, length, drop, string_bytes, IfOk};
ghost use Rattle.std.specs.Str.{IsUtf8};
ghost use Rattle.hc_base.specs.Lines.{pieces};
ghost use Rattle.hc_kept_lines.specs.Edit.{bytes_made, is_idle, is_range, spliced};
ghost use Rattle.hc_kept_lines.specs.Places.{IsPart};
ghost use Rattle.hc_kept_lines.specs.Runs.{AreKept};

use crate::cut::split_line;
use crate::places::{after_lines, open_start, touched_len};
use crate::read::read_runs;
use crate::runs::{KeptRun, with_runs};
use hc_base::{Counter, NoMemory};
use std::alloc::Global;
use std::sync::ledger::Ledger;

/// An edit replaces nothing by nothing.
pub(crate) fn is_idle(from: u32, to: u32, new: &str) -> bool
    ensures { result ≡ is_idle from to new.now }
{
    match new.as_bytes() {
        [] => to < from,
        _ => false,
    }
}

/// The logical lines of a text whose physical lines `from` to `to`, counted from 1, are replaced by
/// another text as it stands, from those of the text.
pub(crate) fn edited_runs<L: Ledger>(
    alloc: Global,
    runs: &[KeptRun],
    old: &str,
    from: usize,
    to: usize,
    new: &str,
    bytes: &mut Counter<L>,
) -> Result<Vec<KeptRun>, NoMemory>
    requires small { length old.now < 2 ^ 32 }
    requires kept { AreKept old.now runs.now }
    requires range { is_range (length (pieces old.now)) from to ≡ true }
    ensures small { IfOk result (λ made. length (spliced old.now from to new.now) < 2 ^ 32) }
    ensures kept { IfOk result (λ made. AreKept (spliced old.now from to new.now) made.items) }
    ensures rise { bytes.old ≤ bytes.new }
    ensures bytes { bytes.new ≤ bytes.old + bytes_made old.now from to new.now }
{
    let start = after_lines(old, from - 1);
    let end = after_lines(old, to);
    if start + new.len() + (old.len() - end) > u32::MAX as usize {
        return Err(NoMemory);
    }
    let part = touched_part(alloc, old, start, end, new)?;
    let fresh = read_runs(alloc, &part.text, bytes)?;
    with_runs(alloc, runs, part.first, part.last, &fresh)
}

// What an edit touches: the old text from one place to another becomes this text.
#[derive(Drop)]
struct Part {
    first: usize,
    last: usize,
    text: String,
}

// The old text between two places is replaced by another one.
fn touched_part(
    alloc: Global,
    old: &str,
    start: usize,
    end: usize,
    new: &str,
) -> Result<Part, NoMemory>
    requires order { start ≤ end }
    requires within { end ≤ length old.now }
    requires cut { IsUtf8 (drop start old.now) }
    requires resumed { IsUtf8 (drop end old.now) }
    ensures { IfOk result (λ part. IsPart old.now start end new.now part.first part.last (string_bytes part.text)) }
{
    let (front, _) = old.split_at(start);
    let (before, back) = old.split_at(end);
    let first = open_start(front.as_bytes());
    let (_, open) = split_line(front, first);
    let mut text = String::from_str(alloc, open)?;
    text.push_str(new)?;
    let more = touched_len(before.as_bytes(), text.as_bytes(), back.as_bytes());
    let (touched, _) = split_line(back, more);
    text.push_str(touched)?;
    let last = end + more;
    Ok(Part { first, last, text })
}
