ghost use Rattle.std.specs.Prelude.{◌≡◌, ◌<◌, ◌++◌, length, count_by};
ghost use Rattle.hc_base.specs.Lines.{is_lf, pieces};
ghost use Rattle.hc_lines.specs.Logical.{joins};
ghost use Rattle.hc_kept_lines.specs.Edit.{is_ended};
ghost use Rattle.hc_kept_lines.specs.Runs.{IsLineLen};

use hc_base::bytes::ends_with;

/// No logical line goes on behind these bytes: there are none, or they end in an LF that no
/// backslash stands before.
pub(crate) fn is_ended(text: &[u8]) -> bool
    ensures { result ≡ is_ended text.now }
{
    if text.is_empty() {
        return true;
    }
    ends_with(text, b'\n') && !joins(text)
}

/// No logical line goes on behind a text and more behind it.
pub(crate) fn is_ended_behind(front: &[u8], back: &[u8]) -> bool
    ensures { result ≡ is_ended (front.now ++ back.now) }
{
    match back {
        [] => is_ended(front),
        [byte] => *byte == b'\n' && !ends_with(front, b'\\'),
        _ => is_ended(back),
    }
}

// The bytes end in a backslash and LF.
fn joins(text: &[u8]) -> bool
    ensures { result ≡ joins text.now }
{
    text.ends_with(b"\\\n")
}

/// How many bytes the first logical line of a text has.
pub(crate) fn line_len(text: &[u8]) -> usize
    requires { 0 < length text.now }
    ensures { IsLineLen text.now result }
{
    for end in 1..text.len() {
        if is_ended(&text[..end]) {
            return end;
        }
    }
    text.len()
}

/// How many physical lines a text has; the last one may have no LF.
pub(crate) fn count_lines(text: &[u8]) -> usize
    ensures { result ≡ length (pieces text.now) }
{
    let ends = count_ends(text);
    if text.is_empty() {
        return 0;
    }
    if ends_with(text, b'\n') {
        return ends;
    }
    ends + 1
}

fn count_ends(text: &[u8]) -> usize
    ensures { result ≡ count_by is_lf text.now }
{
    text.iter().filter(|byte| **byte == b'\n').count()
}
