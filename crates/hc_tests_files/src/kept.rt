ghost use Rattle.std.specs.Prelude.{◌≡◌, ◌<◌, true, length, string_bytes, IfOk, IfSome};
ghost use Rattle.std.specs.List.{position};
ghost use Rattle.hc_base.specs.Lines.{is_lf, pieces};
ghost use Rattle.hc_kept_lines.specs.Edit.{is_range, spliced};
ghost use Rattle.hc_kept_lines.specs.Places.{IsBehind, piece_len};
ghost use Rattle.hc_kept_lines.specs.Runs.{AreLinesOf};

use crate::lines::{show_all, show_lines};
use crate::show::{Source, show_fault, text_of};
use hc_base::{Counter, NoMemory};
use hc_kept_lines::KeptLines;
use hc_lines::FileKind;
use std::alloc::Global;
use std::marker::Brand;
use std::process::Abort;
use std::sync::ledger::{Blank, Ledger};

// A text, the lines that are replaced and what by, and the text behind it.
static EDITS: &[(&str, u32, u32, &str, &str)] = &[
    ("a\nb\nc", 2, 2, "x\n", "a\nx\nc"),
    ("a\nb\nc", 1, 0, "x", "xa\nb\nc"),
    ("a\nb\nc", 1, 1, "", "b\nc"),
    ("a\nb\nc\n", 1, 3, "", ""),
    ("", 1, 0, "a\nb", "a\nb"),
    // inside, before and behind a joined line
    ("a\\\nb\nc\n", 2, 2, "x\n", "a\\\nx\nc\n"),
    ("a\\\nb\\\nc\nd\n", 2, 2, "", "a\\\nc\nd\n"),
    ("a\\\nb\nc\n", 1, 0, "x\n", "x\na\\\nb\nc\n"),
    ("a\\\nb\nc\n", 3, 3, "x\n", "a\\\nb\nx\n"),
    ("a\\\nb\nc\n", 2, 1, "", "a\\\nb\nc\n"),
    // parted and joined
    ("a\\\nb\nc\n", 1, 1, "", "b\nc\n"),
    ("a\\\nb\nc\n", 1, 1, "a\n", "a\nb\nc\n"),
    ("a\nb\nc\n", 1, 1, "a\\\n", "a\\\nb\nc\n"),
    ("a\nb\nc\n", 3, 3, "c\\\n", "a\nb\nc\\\n"),
    ("a\n\nb\nc\n", 2, 1, "x\\", "a\nx\\\nb\nc\n"),
    ("\n\n\n", 2, 2, "\\\n", "\n\\\n\n"),
    // a last line without LF, and CR
    ("a\nb", 3, 2, "c", "a\nbc"),
    ("a\nb\\", 3, 2, "\nc", "a\nb\\\nc"),
    ("a\nb\n", 3, 2, "c", "a\nb\nc"),
    ("a\r\nb\r\n", 2, 1, " x \r\n", "a\r\n x \r\nb\r\n"),
    ("a\\\r\nb\r\n", 2, 1, "# x\r\n", "a\\\r\n# x\r\nb\r\n"),
    // refused, and mended
    ("a\n\u{1}\nb\n", 2, 2, "ä \\\n ö\n", "a\nä \\\n ö\nb\n"),
    ("a\nb\n", 1, 1, "\u{1}\n", "\u{1}\nb\n"),
];

#[derive(Clone, Copy)]
struct Edit<'t> {
    text: &'t str,
    from: u32,
    to: u32,
    new: &'t str,
    wanted: &'t str,
}

// The place behind so many physical lines; None where there are fewer.
fn after_lines(text: &str, lines: usize) -> Option<usize>
    ensures { IfSome result (IsBehind text.now lines) }
{
    let mut at = 0;
    for _ in 0..lines {
        if at == text.len() {
            return None;
        }
        at += piece_len(&text.as_bytes()[at..]);
    }
    Some(at)
}

// The length of the first physical line, with its LF.
fn piece_len(text: &[u8]) -> usize
    ensures { result ≡ piece_len text.now }
{
    match first_lf(text) {
        Some(lf) => lf + 1,
        None => text.len(),
    }
}

fn first_lf(text: &[u8]) -> Option<usize>
    ensures { result ≡ position is_lf text.now }
{
    text.iter().position(|b| *b == b'\n')
}

// The text behind an edit; None where there are no such lines.
fn text_behind(
    alloc: Global,
    old: &str,
    from: usize,
    to: usize,
    new: &str,
) -> Result<Option<String>, NoMemory>
    ensures { IfOk result (λ made. IfSome made (λ all. (is_range (length (pieces old.now)) from to ≡ true)
        × (string_bytes all ≡ spliced old.now from to new.now))) }
{
    if from == 0 || to < from - 1 {
        return Ok(None);
    }
    let Some(start) = after_lines(old, from - 1) else {
        return Ok(None);
    };
    let Some(end) = after_lines(old, to) else {
        return Ok(None);
    };
    let mut all = String::from_str(alloc, &old[..start])?;
    all.push_str(new)?;
    all.push_str(&old[end..])?;
    Ok(Some(all))
}

// The lines that are kept are those that the text has when it is read whole.
fn are_shown(alloc: Global, kept: &KeptLines, source: Source) -> Result<bool, NoMemory>
    requires { AreLinesOf source.text.now kept.now }
{
    let shown = match kept.lines(alloc, source.text, source.file) {
        Ok(lines) => show_all(alloc, &lines)?,
        Err(fault) => show_fault(alloc, fault)?,
    };
    Ok(shown == show_lines(alloc, source)?)
}

// For both kinds of file.
fn are_kept(alloc: Global, kept: &KeptLines, text: &str) -> Result<bool, NoMemory>
    requires { AreLinesOf text.now kept.now }
{
    let file = FileKind::Config;
    let config = are_shown(alloc, kept, Source { text, file })?;
    let file = FileKind::Htaccess;
    let htaccess = are_shown(alloc, kept, Source { text, file })?;
    Ok(config && htaccess)
}

// The text behind an edit is the wanted one, and its lines are those that it has when it is read whole.
fn is_kept<L: Ledger>(blank: Blank, alloc: Global, edit: Edit) -> Result<bool, NoMemory>
    requires name { blank.name ≡ L.name }
    requires parts { blank.parts ≡ L.parts }
    requires whole { 0 < blank.parts }
{
    let mut bytes = Counter::<L>::new(blank);
    let kept = KeptLines::of(alloc, edit.text, &mut bytes)?;
    let whole = are_kept(alloc, &kept, edit.text)?;
    let (from, to) = (edit.from as usize, edit.to as usize);
    let Some(behind) = text_behind(alloc, edit.text, from, to, edit.new)? else {
        return Ok(false);
    };
    let edited = kept.edited(alloc, edit.text, edit.from, edit.to, edit.new, &mut bytes)?;
    let again = are_kept(alloc, &edited, &behind)?;
    Ok(whole && again && behind.as_str() == edit.wanted)
}

// With a counter of its own.
fn is_kept_so(alloc: Global, edit: Edit) -> Result<bool, NoMemory> {
    is_kept::<Brand>(Blank::new(1), alloc, edit)
}

#[test]
fn edited_texts_have_their_lines(rt: HostRuntime) -> Result<(), NoMemory> {
    for &(text, from, to, new, wanted) in EDITS {
        let edit = Edit {
            text,
            from,
            to,
            new,
            wanted,
        };
        assert!(rt; is_kept_so(rt.alloc(), edit)?, "{wanted}");
    }
    Ok(())
}

// What stands before and behind so many `a`: lines with as many bytes as an `.htaccess` file or a
// configuration may have, or with more; joins don't count.
static SIZES: &[(&str, usize, &str)] = &[
    ("", 8_190, "\n"),
    ("", 8_191, "\n"),
    ("b\\\n\\\n", 8_189, "\n"),
    ("b\\\n\\\n", 8_190, "\r\n"),
    ("", 1_048_576, "\n"),
    ("", 1_048_577, "\n"),
    ("b\\\n", 1_048_576, ""),
];

#[test]
fn long_lines_are_kept_for_both_kinds(rt: HostRuntime) -> Result<(), NoMemory> {
    for &(front, count, back) in SIZES {
        let new = text_of(rt.alloc(), &[(front, 1), ("a", count), (back, 1)])?;
        let wanted = text_of(rt.alloc(), &[("x\n", 1), (&new, 1), ("z\n", 1)])?;
        let edit = Edit {
            text: "x\ny\nz\n",
            from: 2,
            to: 2,
            new: &new,
            wanted: &wanted,
        };
        assert!(rt; is_kept_so(rt.alloc(), edit)?, "{count} after {front:?}");
    }
    Ok(())
}
