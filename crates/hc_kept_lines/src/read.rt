ghost use Rattle.std.specs.Prelude.{◌≡◌, ◌+◌, ◌^◌, ◌<◌, ◌≤◌, [], ◌∷◌, length, IfOk};
ghost use Rattle.hc_base.specs.Lines.{pieces};
ghost use Rattle.hc_lines.specs.Logical.{runs, size, without_end, without_last};
ghost use Rattle.hc_kept_lines.specs.Runs.{AreKept, IsKeptRun, IsReadAs, IsUncut, reading_of};

use crate::cut::split_line;
use crate::ends::{count_lines, line_len};
use crate::runs::{KeptRun, Reading};
use hc_base::bytes::ends_with;
use hc_base::{Counter, Fault, NoMemory};
use hc_lines::{FileKind, Line, logical_lines};
use std::alloc::Global;
use std::sync::ledger::Ledger;

/// Reads each logical line of a text.
pub(crate) fn read_runs<L: Ledger>(
    alloc: Global,
    text: &str,
    bytes: &mut Counter<L>,
) -> Result<Vec<KeptRun>, NoMemory>
    requires { length text.now < 2 ^ 32 }
    ensures kept { IfOk result (λ made. AreKept text.now made.items) }
    ensures rise { bytes.old ≤ bytes.new }
    ensures bytes { bytes.new ≤ bytes.old + length text.now }
{
    let mut runs = Vec::new(alloc);
    let mut rest = text;
    'lines: while !rest.is_empty() {
        let (line, behind) = split_line(rest, line_len(rest.as_bytes()));
        let run = read_run(alloc, line, bytes)?;
        runs.push(run)?;
        rest = behind;
    }
    Ok(runs)
}

// Reads one logical line.
fn read_run<L: Ledger>(
    alloc: Global,
    line: &str,
    bytes: &mut Counter<L>,
) -> Result<KeptRun, NoMemory>
    requires small { length line.now < 2 ^ 32 }
    requires some { 0 < length line.now }
    requires uncut { IsUncut line.now }
    ensures kept { IfOk result (IsKeptRun line.now []) }
    ensures bytes { bytes.new ≡ bytes.old + length line.now }
{
    let read = read_line(alloc, line, bytes)?;
    let count = count_lines(line.as_bytes());
    let size = size(line.as_bytes(), count);
    Ok(KeptRun {
        bytes: line.len() as u32,
        count: count as u32,
        size: size as u32,
        read,
    })
}

// What a logical line is read as where it isn't too long. A line that is too long for either kind is
// read as what it may.
fn read_line<L: Ledger>(
    alloc: Global,
    line: &str,
    bytes: &mut Counter<L>,
) -> Result<Reading, NoMemory>
    requires { runs (pieces line.now) ≡ pieces line.now ∷ [] }
    ensures read { IfOk result (IsReadAs line.now (size (length (pieces line.now)) line.now)) }
    ensures bytes { bytes.new ≡ bytes.old + length line.now }
{
    match logical_lines(alloc, line, FileKind::Config, bytes) {
        Ok(lines) => Ok(reading_of(&lines)),
        Err(Fault::Refused(_)) => Ok(Reading::Forbidden),
        Err(Fault::NoMemory) => Err(NoMemory),
    }
}

fn reading_of(lines: &[Line]) -> Reading
    ensures { result ≡ reading_of lines.now }
{
    match lines {
        [] => Reading::Nothing,
        [line, ..] => Reading::Said {
            start: line.span.start,
            end: line.span.end,
        },
    }
}

// How many bytes a logical line of so many physical lines has without its end and its joins.
fn size(line: &[u8], count: usize) -> usize
    requires { count ≤ length line.now }
    ensures { result ≡ size count line.now }
{
    let joins = count.saturating_sub(1);
    without_end(line).len().saturating_sub(2 * joins)
}

// A text without the LF, or the CR and LF, that ends it.
fn without_end(text: &[u8]) -> &[u8]
    ensures { result.now ≡ without_end text.now }
{
    if ends_with(text, b'\n') {
        without_last(without_last(text, b'\n'), b'\r')
    } else {
        text
    }
}

fn without_last(text: &[u8], byte: u8) -> &[u8]
    ensures { result.now ≡ without_last byte text.now }
{
    if ends_with(text, byte) {
        &text[..text.len() - 1]
    } else {
        text
    }
}
