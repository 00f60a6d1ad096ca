ghost use Rattle.std.specs.Prelude.{◌≡◌, ◌+◌, ◌-◌, ◌<◌, ◌≤◌, []};
ghost use Rattle.std.specs.Prelude.{◌∷◌, length, drop, MatchOption, position, slice_index};
ghost use Rattle.std.specs.List.{concat};
ghost use Rattle.hc_base.specs.Bytes.{lf};
ghost use Rattle.hc_base.specs.Lines.{is_lf, pieces};
ghost use Rattle.hc_lines.specs.Logical.{runs};
ghost use Rattle.hc_lines.specs.Run.{StartsWith, after_run, first_run};

use crate::cut::cut_behind;
use crate::trim::joins;

/// The physical lines that make a logical line: their bytes, with the last one's end, and how many
/// they are.
#[derive(Clone, Copy)]
pub(crate) struct Run<'t> {
    pub(crate) bytes: &'t str,
    pub(crate) count: usize,
}

/// The first logical line of a text, and what follows it.
pub(crate) fn split_run<'t>(text: &'t str) -> Option<(Run<'t>, &'t str)>
    ensures { MatchOption result (text.now ≡ [])
        (λ parts. StartsWith text.now parts.0.bytes.now parts.0.count parts.1.now) }
{
    if text.is_empty() {
        return None;
    }
    let (end, count) = run_end(text.as_bytes());
    if end == text.len() {
        return Some((Run { bytes: text, count }, ""));
    }
    let (bytes, behind) = cut_behind(text, end - 1);
    Some((Run { bytes, count }, behind))
}

// How many bytes and physical lines the first logical line of a text has.
fn run_end(text: &[u8]) -> (usize, usize)
    requires { 0 < length text.now }
    ensures bytes { length (concat (first_run (pieces text.now))) ≡ result.0 }
    ensures count { length (first_run (pieces text.now)) ≡ result.1 }
    ensures behind { after_run (pieces text.now) ≡ pieces (drop result.0 text.now) }
    ensures some { 0 < result.1 }
    ensures within { result.1 ≤ result.0 }
    ensures inside { result.0 ≤ length text.now }
    ensures end { result.0 < length text.now → slice_index text.now (result.0 - 1) ≡ lf }
{
    let mut end = 0;
    let mut count = 0;
    'lines: while end < text.len() {
        let piece = first_piece(&text[end..]);
        end += piece.len();
        count += 1;
        if !joins(piece) {
            return (end, count);
        }
    }
    (end, count)
}

// The first physical line of a text, with its LF where it has one.
fn first_piece(text: &[u8]) -> &[u8]
    requires { 0 < length text.now }
    ensures cut { pieces text.now ≡ result.now ∷ pieces (drop (length result.now) text.now) }
    ensures some { 0 < length result.now }
    ensures inside { length result.now ≤ length text.now }
    ensures end { length result.now < length text.now → slice_index text.now (length result.now - 1) ≡ lf }
{
    match line_end(text) {
        Some(end) => &text[..end + 1],
        None => text,
    }
}

// Where the first LF of a text stands.
fn line_end(text: &[u8]) -> Option<usize>
    ensures { result ≡ position is_lf text.now }
{
    text.iter().position(|b| *b == b'\n')
}
