ghost use Rattle.std.specs.Prelude.{◌≡◌, ◌+◌, ◌-◌, ◌<◌, ◌≤◌, drop, length, slice_index, take};
ghost use Rattle.hc_lines.specs.Logical.{from_first, joins, up_to_last, without_end, without_last};

use crate::cut::{cut_before, cut_behind};
use hc_base::bytes::{begins_with, ends_with};

/// The text without the LF, or the CR and LF, that ends it.
pub(crate) fn without_end(text: &str) -> &str
    ensures { result.now ≡ without_end text.now }
{
    if ends_with(text.as_bytes(), b'\n') {
        without_last(without_last(text, b'\n'), b'\r')
    } else {
        text
    }
}

fn without_last(text: &str, byte: u8) -> &str
    requires { byte < 128 }
    ensures { result.now ≡ without_last byte text.now }
{
    if ends_with(text.as_bytes(), byte) {
        cut_before(text, text.len() - 1).0
    } else {
        text
    }
}

/// A text from its first byte on that is neither a blank nor of a join.
pub(crate) fn from_first(text: &str) -> &str
    ensures { result.now ≡ from_first text.now }
{
    let mut rest = text;
    'front: loop {
        let count = leading(rest.as_bytes());
        if count == 0 {
            return rest;
        }
        rest = cut_behind(rest, count - 1).1;
    }
}

// The bytes of the blank or the join that these bytes begin with; 0 where there is none.
fn leading(bytes: &[u8]) -> usize
    ensures inside { result ≤ length bytes.now }
    ensures none { result ≡ 0 → from_first bytes.now ≡ bytes.now }
    ensures some { from_first bytes.now ≡ from_first (drop result bytes.now) }
    ensures ascii { 0 < result → slice_index bytes.now (result - 1) < 128 }
{
    if begins_with(bytes, b' ') || begins_with(bytes, b'\t') {
        1
    } else if bytes.starts_with(b"\\\n") {
        2
    } else {
        0
    }
}

/// A text up to its last byte that is neither a blank nor of a join.
pub(crate) fn up_to_last(text: &str) -> &str
    ensures { result.now ≡ up_to_last text.now }
{
    let mut rest = text;
    'back: loop {
        let count = trailing(rest.as_bytes());
        if count == 0 {
            return rest;
        }
        rest = cut_before(rest, rest.len() - count).0;
    }
}

// The bytes of the blank or the join that these bytes end with; 0 where there is none.
fn trailing(bytes: &[u8]) -> usize
    ensures inside { result ≤ length bytes.now }
    ensures none { result ≡ 0 → up_to_last bytes.now ≡ bytes.now }
    ensures some { up_to_last bytes.now ≡ up_to_last (take (length bytes.now - result) bytes.now) }
    ensures ascii { 0 < result → slice_index bytes.now (length bytes.now - result) < 128 }
{
    if ends_with(bytes, b' ') {
        1
    } else if ends_with(bytes, b'\t') {
        1
    } else if joins(bytes) {
        2
    } else {
        0
    }
}

/// The bytes end in a backslash and LF.
pub(crate) fn joins(bytes: &[u8]) -> bool
    ensures { result ≡ joins bytes.now }
{
    bytes.ends_with(b"\\\n")
}
