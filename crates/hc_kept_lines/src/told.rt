ghost use Rattle.std.specs.Prelude.{◌≡◌, ◌+◌, ◌^◌, ◌<◌, [], ◌++◌, length, OnOk};
ghost use Rattle.std.specs.List.{cons_option};
ghost use Rattle.hc_base.specs.Gives.{Gives};
ghost use Rattle.hc_lines.specs.Logical.{longest};
ghost use Rattle.hc_kept_lines.specs.Runs.{IsSpan, told, told_in};

use crate::runs::{KeptRun, Reading};
use crate::unjoin::unjoined;
use hc_base::codes::{CONTROL_BYTE, LINE_TOO_LONG};
use hc_base::{AtLine, Fault, NoMemory, Span};
use hc_lines::{FileKind, LONGEST_LINE, Line, LineFault};
use std::alloc::Global;

const LONGEST_HTACCESS_LINE: usize = 8_190;

/// What a logical line is in a file of a kind. It has this number and begins at this place of the
/// text.
pub(crate) fn told_in<'t>(
    alloc: Global,
    kind: FileKind,
    run: KeptRun,
    line: &'t str,
    number: usize,
    place: usize,
) -> Result<Option<Line<'t>>, LineFault>
    requires number { number < 2 ^ 32 }
    requires place { place + length line.now < 2 ^ 32 }
    requires span { IsSpan run.read line.now }
    ensures { Gives result (told_in kind run.size run.read line.now number place) }
{
    if run.size as usize > longest(kind) {
        return Err(Fault::Refused(AtLine {
            code: LINE_TOO_LONG,
            line: number as u32,
        }));
    }
    told(alloc, run.read, line, number, place)
}

// The most bytes of a logical line.
fn longest(kind: FileKind) -> usize
    ensures { result ≡ longest kind }
{
    match kind {
        FileKind::Config => LONGEST_LINE,
        FileKind::Htaccess => LONGEST_HTACCESS_LINE,
    }
}

// What a logical line is that isn't too long.
fn told<'t>(
    alloc: Global,
    read: Reading,
    line: &'t str,
    number: usize,
    place: usize,
) -> Result<Option<Line<'t>>, LineFault>
    requires number { number < 2 ^ 32 }
    requires place { place + length line.now < 2 ^ 32 }
    requires span { IsSpan read line.now }
    ensures { Gives result (told read line.now number place) }
{
    let number = number as u32;
    let (start, end) = match read {
        Reading::Nothing => return Ok(None),
        Reading::Said { start, end } => (start as usize, end as usize),
        Reading::Forbidden => {
            let code = CONTROL_BYTE;
            return Err(Fault::Refused(AtLine { code, line: number }));
        }
    };
    let Ok(text) = unjoined(alloc, &line[start..end]) else {
        return Err(Fault::NoMemory);
    };
    let span = Span {
        start: (place + start) as u32,
        end: (place + end) as u32,
    };
    Ok(Some(Line { number, span, text }))
}

/// Adds a line that is said.
pub(crate) fn keep<'t>(lines: &mut Vec<Line<'t>>, line: Option<Line<'t>>) -> Result<(), NoMemory>
    ensures { OnOk result (lines.new.items ≡ lines.old.items ++ cons_option line.entry []) }
{
    if let Some(line) = line {
        lines.push(line)?;
    }
    Ok(())
}
