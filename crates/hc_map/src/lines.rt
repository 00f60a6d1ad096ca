ghost use Rattle.std.specs.Prelude.{◌≡◌, option_map};
ghost use Rattle.hc_map.specs.Maps.{row_in, value_in, without_cr};
ghost use Rattle.hc_map.specs.Searching.{value_by_row};

use crate::words::first_word;
use hc_base::bytes::{begins_with, ends_with};

/// The value of a key in the text of a map: that of the first row with the key.
pub(crate) fn value_in<'t>(text: &'t [u8], key: &[u8]) -> Option<&'t [u8]>
    ensures { option_map (λ value. value.now) result ≡ value_in key.now text.now }
{
    for line in text.split(|byte| *byte == b'\n') {
        if let Some(value) = value_in_line(line, key) {
            return Some(value);
        }
    }
    None
}

// The value that a line gives to a key; none where its first word is another, or begins a comment.
fn value_in_line<'t>(line: &'t [u8], key: &[u8]) -> Option<&'t [u8]>
    ensures { option_map (λ value. value.now) result ≡ value_by_row key.now (row_in line.now) }
{
    let row = row_in(line)?;
    if row.key != key {
        return None;
    }
    Some(row.value)
}

/// What a line of a map's text says.
#[derive(Clone, Copy)]
pub(crate) struct Row<'t> {
    pub(crate) key: &'t [u8],
    pub(crate) value: &'t [u8],
}

/// The row of a line; none where it has no word, or is a comment.
pub(crate) fn row_in(line: &[u8]) -> Option<Row<'_>>
    ensures { option_map (λ row. (row.key.now, row.value.now)) result ≡ row_in line.now }
{
    let (key, behind) = first_word(without_cr(line))?;
    if begins_with(key, b'#') {
        return None;
    }
    match first_word(behind) {
        Some((value, _)) => Some(Row { key, value }),
        None => Some(Row { key, value: &[] }),
    }
}

fn without_cr(line: &[u8]) -> &[u8]
    ensures { result.now ≡ without_cr line.now }
{
    if ends_with(line, b'\r') {
        &line[..line.len() - 1]
    } else {
        line
    }
}
