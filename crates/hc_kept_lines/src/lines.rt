ghost use Rattle.std.specs.Prelude.{◌≡◌, ◌+◌, ◌≤◌, true, length, IfOk};
ghost use Rattle.hc_base.specs.Gives.{GivesList};
ghost use Rattle.hc_base.specs.Lines.{pieces};
ghost use Rattle.hc_lines.specs.Logical.{lines_of};
ghost use Rattle.hc_kept_lines.specs.Edit.{anew, is_range, spliced};
ghost use Rattle.hc_kept_lines.specs.Runs.{AreLinesOf};

use crate::cut::split_line;
use crate::edit::{edited_runs, is_idle};
use crate::read::read_runs;
use crate::runs::{KeptRun, copied};
use crate::told::{keep, told_in};
use hc_base::{Counter, NoMemory};
use hc_lines::{FileKind, Line, LineFault};
use std::alloc::Global;
use std::sync::ledger::Ledger;

/// What the logical lines of a text were read as. The text stands elsewhere.
#[derive(Drop)]
pub struct KeptLines {
    runs: Vec<KeptRun>,
}

impl KeptLines {
    /// Reads each logical line of a text. A text of 4 GiB or more finds no memory.
    pub fn of<L: Ledger>(
        alloc: Global,
        text: &str,
        bytes: &mut Counter<L>,
    ) -> Result<KeptLines, NoMemory>
        ensures lines { IfOk result (AreLinesOf text.now) }
        ensures rise { bytes.old ≤ bytes.new }
        ensures bytes { bytes.new ≤ bytes.old + length text.now }
    {
        if text.len() > u32::MAX as usize {
            return Err(NoMemory);
        }
        let runs = read_runs(alloc, text, bytes)?;
        Ok(KeptLines { runs })
    }

    /// Those of a text whose physical lines `from` to `to`, counted from 1, are replaced, with their
    /// LFs, by another text as it stands; where `to` is one less than `from`, it is put before that
    /// line. Only the logical lines that this makes are read. A text that would have 4 GiB or more
    /// finds no memory.
    pub fn edited<L: Ledger>(
        &self,
        alloc: Global,
        old: &str,
        from: u32,
        to: u32,
        new: &str,
        bytes: &mut Counter<L>,
    ) -> Result<KeptLines, NoMemory>
        requires lines { AreLinesOf old.now self.now }
        requires range { is_range (length (pieces old.now)) from to ≡ true }
        ensures lines { IfOk result (AreLinesOf (spliced old.now from to new.now)) }
        ensures rise { bytes.old ≤ bytes.new }
        ensures bytes { bytes.new ≤ bytes.old + anew old.now from to new.now }
    {
        if is_idle(from, to, new) {
            let runs = copied(alloc, &self.runs)?;
            return Ok(KeptLines { runs });
        }
        let (from, to) = (from as usize, to as usize);
        let runs = edited_runs(alloc, &self.runs, old, from, to, new, bytes)?;
        Ok(KeptLines { runs })
    }

    /// The lines of the text as one of this kind, or the first refusal: a line that is too long (7),
    /// or has a control byte (31).
    pub fn lines<'t>(
        &self,
        alloc: Global,
        text: &'t str,
        kind: FileKind,
    ) -> Result<Vec<Line<'t>>, LineFault>
        requires { AreLinesOf text.now self.now }
        ensures { GivesList result (lines_of kind text.now) }
    {
        let mut lines = Vec::new(alloc);
        let mut number = 1usize;
        let mut place = 0usize;
        let mut rest = text;
        for run in &self.runs {
            let (line, behind) = split_line(rest, run.bytes as usize);
            let line = match told_in(alloc, kind, *run, line, number, place) {
                Ok(line) => line,
                Err(fault) => return Err(fault),
            };
            keep(&mut lines, line)?;
            number += run.count as usize;
            place += run.bytes as usize;
            rest = behind;
        }
        Ok(lines)
    }
}
