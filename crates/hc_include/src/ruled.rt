ghost use Rattle.std.specs.Prelude.{◌≡◌, ◌+◌, length};
ghost use Rattle.hc_base.specs.Gives.{GivesList};
ghost use Rattle.hc_include.specs.Lines.{ruled_lines};

use hc_base::{Counter, Fault};
use hc_lines::{FileKind, Line, LineFault, logical_lines};
use hc_nodes::first_refusal;
use std::alloc::Global;
use std::sync::ledger::Ledger;

/// The lines of a text, or the first rule that they break: those of lines come first, then those of sections.
/// `bytes` rises by the bytes of the text.
#[tactic(auto, unfolding(crate::specs::Lines::ruled_lines))]
pub(crate) fn ruled_lines<'t, L: Ledger>(
    alloc: Global,
    text: &'t str,
    kind: FileKind,
    bytes: &mut Counter<L>,
) -> Result<Vec<Line<'t>>, LineFault>
    ensures lines { GivesList result (ruled_lines kind text.now) }
    ensures bytes { bytes.new ≡ bytes.old + length text.now }
{
    let lines = match logical_lines(alloc, text, kind, bytes) {
        Ok(lines) => lines,
        Err(fault) => return Err(fault),
    };
    match first_refusal(alloc, &lines)? {
        Some(broken) => Err(Fault::Refused(broken)),
        None => Ok(lines),
    }
}
