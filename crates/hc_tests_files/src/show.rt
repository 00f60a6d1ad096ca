//! What the tables of cases share: texts and their lines, and answers as texts.

ghost use Rattle.std.specs.Prelude.{◌≡◌, ◌<◌};

use hc_base::{AtLine, Counter, Fault, NoMemory};
use hc_lines::{FileKind, Line, LineFault, logical_lines};
use std::alloc::Global;
use std::fmt::Write as _;
use std::marker::Brand;
use std::sync::ledger::{Blank, Ledger};

/// A configuration text and where it stands.
#[derive(Clone, Copy)]
pub struct Source<'t> {
    pub text: &'t str,
    pub file: FileKind,
}

// The text is no argument of its own, since a call that takes a `&str` can't pick its ledger.
fn count_lines<'t, L: Ledger>(
    blank: Blank,
    alloc: Global,
    source: Source<'t>,
) -> Result<Vec<Line<'t>>, LineFault>
    requires name { blank.name ≡ L.name }
    requires parts { blank.parts ≡ L.parts }
    requires whole { 0 < blank.parts }
{
    let mut bytes = Counter::<L>::new(blank);
    logical_lines(alloc, source.text, source.file, &mut bytes)
}

/// The logical lines of a text, with a counter of their own.
pub fn lines_of<'t>(alloc: Global, source: Source<'t>) -> Result<Vec<Line<'t>>, LineFault> {
    count_lines::<Brand>(Blank::new(1), alloc, source)
}

/// Appends a number in decimal digits.
pub fn push_number(text: &mut String, number: u64) -> Result<(), NoMemory> {
    write!(text, "{number}")
}

/// Appends these pieces.
pub fn push_all(text: &mut String, pieces: &[&str]) -> Result<(), NoMemory> {
    for piece in pieces {
        text.push_str(piece)?;
    }
    Ok(())
}

/// A text of these pieces, each so many times.
pub fn text_of(alloc: Global, pieces: &[(&str, usize)]) -> Result<String, NoMemory> {
    let mut text = String::new(alloc);
    for (piece, count) in pieces {
        text.push_str(&piece.repeat(alloc, *count)?)?;
    }
    Ok(text)
}

/// A refusal, as `!code@line`.
pub fn show_fault(alloc: Global, fault: Fault<AtLine>) -> Result<String, NoMemory> {
    match fault {
        Fault::NoMemory => Err(NoMemory),
        Fault::Refused(broken) => show_rule(alloc, broken.code, broken.line),
    }
}

/// A rule that is broken at a line or a byte, as `!code@place`.
pub fn show_rule(alloc: Global, code: u8, place: u32) -> Result<String, NoMemory> {
    let mut shown = String::new(alloc);
    shown.push_str("!")?;
    push_number(&mut shown, u64::from(code))?;
    shown.push_str("@")?;
    push_number(&mut shown, u64::from(place))?;
    Ok(shown)
}
