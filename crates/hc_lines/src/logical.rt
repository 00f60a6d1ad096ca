ghost use Rattle.std.specs.Prelude.{◌≡◌, ◌+◌, ◌^◌, ◌<◌, ◌≤◌, [], ◌++◌, length, IfOk, OnOk};
ghost use Rattle.std.specs.List.{cons_option, list_any};
ghost use Rattle.hc_base.specs.Gives.{Gives, GivesList};
ghost use Rattle.hc_lines.specs.Logical.{AreSpansFrom, broken_by, is_forbidden, line_at};
ghost use Rattle.hc_lines.specs.Logical.{lines_of, longest, size, without_end};

use crate::line::{FileKind, Line, LineFault};
use crate::run::{Run, split_run};
use crate::trim::{from_first, up_to_last, without_end};
use crate::unjoin::unjoined;
use hc_base::bytes::{DELETE, begins_with};
use hc_base::codes::{CONTROL_BYTE, LINE_TOO_LONG};
use hc_base::{AtLine, Counter, Fault, NoMemory, Span};
use std::alloc::Global;
use std::sync::ledger::Ledger;

/// The most bytes of a logical line of a configuration, before and after its variables are replaced.
pub const LONGEST_LINE: usize = 1_048_576;

/// The most bytes of a logical line of an `.htaccess` file.
pub const LONGEST_HTACCESS_LINE: usize = 8_190;

impl FileKind {
    // The most bytes of a logical line.
    fn longest(self) -> usize
        ensures { result ≡ longest self }
    {
        match self {
            FileKind::Config => LONGEST_LINE,
            FileKind::Htaccess => LONGEST_HTACCESS_LINE,
        }
    }
}

/// The logical lines of a configuration text that say something: neither blank nor a comment
/// (Apache manual, "Configuration Files").
///
/// Refused are a line that is too long (7: over 1,048,576 bytes, and over 8,190 in an `.htaccess`
/// file, without its joins and its end) and one with a control byte (31: below 0x20 but tab, LF and
/// a CR before LF, or 0x7F): the first such line, and 7 before 31. `bytes` rises by the bytes of
/// the text, whatever the answer. A text of 4 GiB or more finds no memory.
pub fn logical_lines<'t, L: Ledger>(
    alloc: Global,
    text: &'t str,
    file: FileKind,
    bytes: &mut Counter<L>,
) -> Result<Vec<Line<'t>>, LineFault>
    ensures lines { GivesList result (lines_of file text.now) }
    ensures spans { IfOk result (λ lines. AreSpansFrom 0 text.now lines.items) }
    ensures bytes { bytes.new ≡ bytes.old + length text.now }
{
    tick_each(text.as_bytes(), bytes);
    if text.len() > u32::MAX as usize {
        return Err(Fault::NoMemory);
    }
    read_lines(alloc, text, file)
}

// Counts each byte of a text.
fn tick_each<L: Ledger>(text: &[u8], bytes: &mut Counter<L>)
    ensures { bytes.new ≡ bytes.old + length text.now }
{
    for _byte in text {
        bytes.tick();
    }
}

fn read_lines<'t>(alloc: Global, text: &'t str, file: FileKind) -> Result<Vec<Line<'t>>, LineFault>
    requires { length text.now < 2 ^ 32 }
    ensures { GivesList result (lines_of file text.now) }
{
    let mut lines = Vec::new(alloc);
    let mut number = 1usize;
    let mut place = 0usize;
    let mut rest = text;
    'runs: while let Some((run, behind)) = split_run(rest) {
        let line = match read_line(alloc, file, number, place, run) {
            Ok(line) => line,
            Err(fault) => return Err(fault),
        };
        keep(&mut lines, line)?;
        number += run.count;
        place += run.bytes.len();
        rest = behind;
    }
    Ok(lines)
}

// Adds a line that says something.
fn keep<'t>(lines: &mut Vec<Line<'t>>, line: Option<Line<'t>>) -> Result<(), NoMemory>
    ensures { OnOk result (lines.new.items ≡ lines.old.items ++ cons_option line.entry []) }
{
    if let Some(line) = line {
        lines.push(line)?;
    }
    Ok(())
}

// The line that a run says, where it says something.
fn read_line<'t>(
    alloc: Global,
    file: FileKind,
    number: usize,
    place: usize,
    run: Run<'t>,
) -> Result<Option<Line<'t>>, LineFault>
    requires number { number < 2 ^ 32 }
    requires place { place + length run.bytes.now < 2 ^ 32 }
    requires some { 0 < run.count }
    requires within { run.count ≤ length run.bytes.now }
    ensures { Gives result (line_at file number place run.entry.count run.entry.bytes.now) }
{
    let number = number as u32;
    if let Some(code) = broken_by(file, run) {
        return Err(Fault::Refused(AtLine { code, line: number }));
    }
    let body = without_end(run.bytes);
    let inner = from_first(body);
    let source = up_to_last(inner);
    if source.is_empty() || begins_with(source.as_bytes(), b'#') {
        return Ok(None);
    }
    let Ok(text) = unjoined(alloc, source) else {
        return Err(Fault::NoMemory);
    };
    let start = place + (body.len() - inner.len());
    let span = Span {
        start: start as u32,
        end: (start + source.len()) as u32,
    };
    Ok(Some(Line { number, span, text }))
}

// The rule that a run breaks.
fn broken_by(file: FileKind, run: Run) -> Option<u8>
    requires some { 0 < run.count }
    requires within { run.count ≤ length run.bytes.now }
    ensures { result ≡ broken_by file run.entry.count run.entry.bytes.now }
{
    let body = without_end(run.bytes);
    if body.len().saturating_sub(2 * (run.count - 1)) > file.longest() {
        Some(LINE_TOO_LONG)
    } else if has_forbidden(body.as_bytes()) {
        Some(CONTROL_BYTE)
    } else {
        None
    }
}

fn has_forbidden(text: &[u8]) -> bool
    ensures { result ≡ list_any is_forbidden text.now }
{
    text.iter().any(|byte| is_forbidden(*byte))
}

// A control byte other than tab and LF, which ends the lines that are joined.
fn is_forbidden(byte: u8) -> bool
    ensures { result ≡ is_forbidden byte }
{
    (byte < b' ' || byte == DELETE) && byte != b'\t' && byte != b'\n'
}
