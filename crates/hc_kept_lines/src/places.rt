ghost use Rattle.std.specs.Prelude.{◌≡◌, ◌≤◌, ◌++◌, true, length, take, drop, ◌&&◌};
ghost use Rattle.std.specs.List.{position};
ghost use Rattle.hc_base.specs.Lines.{is_lf, pieces};
ghost use Rattle.hc_kept_lines.specs.Edit.{is_ended, open_line, touched};
ghost use Rattle.hc_kept_lines.specs.Places.{IsBehind, piece_len};
ghost use Rattle.hc_kept_lines.specs.Runs.{Parts};

use crate::ends::{is_ended, is_ended_behind};

/// The last place of a text at which a logical line ends; what stands behind it is open.
pub(crate) fn open_start(text: &[u8]) -> usize
    ensures inside { result ≤ length text.now }
    ensures ended { is_ended (take result text.now) ≡ true }
    ensures open { open_line text.now ≡ drop result text.now }
{
    let mut end = text.len();
    'open: while !is_ended(&text[..end]) {
        end -= 1;
    }
    end
}

/// How many bytes behind an old and a new text stand before the first place at which a logical line
/// ends in both.
pub(crate) fn touched_len(was: &[u8], now: &[u8], back: &[u8]) -> usize
    ensures value { result ≡ length (touched was.now now.now back.now) }
    ensures inside { result ≤ length back.now }
    ensures was { Parts (was.now ++ take result back.now) (drop result back.now) }
    ensures now { Parts (now.now ++ take result back.now) (drop result back.now) }
{
    for more in 0..back.len() {
        if are_ended(was, now, &back[..more]) {
            return more;
        }
    }
    back.len()
}

fn are_ended(was: &[u8], now: &[u8], more: &[u8]) -> bool
    ensures { result ≡ (is_ended (was.now ++ more.now) && is_ended (now.now ++ more.now)) }
{
    is_ended_behind(was, more) && is_ended_behind(now, more)
}

/// The place behind so many physical lines.
pub(crate) fn after_lines(text: &str, lines: usize) -> usize
    requires { lines ≤ length (pieces text.now) }
    ensures { IsBehind text.now lines result }
{
    let mut at = 0;
    for _ in 0..lines {
        at += piece_len(&text.as_bytes()[at..]);
    }
    at
}

// The length of the first physical line, with its LF.
fn piece_len(text: &[u8]) -> usize
    ensures { result ≡ piece_len text.now }
{
    match first_lf(text) {
        Some(lf) => lf + 1,
        None => text.len(),
    }
}

fn first_lf(text: &[u8]) -> Option<usize>
    ensures { result ≡ position is_lf text.now }
{
    text.iter().position(|b| *b == b'\n')
}
