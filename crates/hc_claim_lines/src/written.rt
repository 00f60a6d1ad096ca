ghost use Rattle.std.specs.Prelude.{◌≡◌, ◌≤◌, IfOk};
ghost use Rattle.std.specs.List.{list_any};
ghost use Rattle.hc_claim_lines.specs.ClaimLines.{is_among, is_written, stands_in};
ghost use Rattle.hc_lines.specs.Logical.{lines_of};
ghost use Rattle.hc_lines.specs.declared.line.FileKind.TheVariants.{Htaccess};

use crate::subject::Subject;
use hc_base::{Counter, Fault, NoMemory, Place};
use hc_lines::{FileKind, Line, logical_lines, skip_blanks};
use hc_nodes::split_name;
use hc_world::World;
use std::alloc::Global;
use std::sync::ledger::Ledger;

/// Whether it stands at a place of a `.htaccess` text of the world, in whatever section, and whether or not the text is
/// read for a request. `bytes` rises by the bytes of that text.
#[tactic(auto, unfolding(crate::specs::ClaimLines::stands_in))]
pub fn stands_in<L: Ledger>(
    alloc: Global,
    world: &World,
    subject: Subject,
    place: &Place,
    bytes: &mut Counter<L>,
) -> Result<bool, NoMemory>
    ensures stands { IfOk result (λ stands. stands ≡ stands_in world.now.files subject place.now) }
    ensures rise { bytes.old ≤ bytes.new }
{
    let file = place.file.as_bytes();
    if !file.ends_with(b"/.htaccess") {
        return Ok(false);
    }
    match world.text(file) {
        Some(text) => is_among(alloc, subject, place.line, text, bytes),
        None => Ok(false),
    }
}

fn is_among<L: Ledger>(
    alloc: Global,
    subject: Subject,
    number: u32,
    text: &str,
    bytes: &mut Counter<L>,
) -> Result<bool, NoMemory>
    ensures among { IfOk result (λ among. among ≡ is_among subject number (lines_of Htaccess text.now)) }
    ensures rise { bytes.old ≤ bytes.new }
{
    match logical_lines(alloc, text, FileKind::Htaccess, bytes) {
        Ok(lines) => Ok(has_written(subject, number, &lines)),
        Err(Fault::Refused(_)) => Ok(false),
        Err(Fault::NoMemory) => Err(NoMemory),
    }
}

fn has_written(subject: Subject, number: u32, lines: &[Line]) -> bool
    ensures { result ≡ list_any (is_written subject number) lines.now }
{
    lines.iter().any(|line| is_written(subject, number, line))
}

fn is_written(subject: Subject, number: u32, line: &Line) -> bool
    ensures { result ≡ is_written subject number line.now }
{
    line.number == number
        && subject.is_named(split_name(skip_blanks(line.text.as_str())).0.as_bytes())
}
