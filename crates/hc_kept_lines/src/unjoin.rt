ghost use Rattle.std.specs.Prelude.{◌≡◌, ◌+◌, ◌≤◌, ◌++◌, drop, length};
ghost use Rattle.std.specs.Prelude.{slice_index, take, IfOk, IfNone, IfSome, string_bytes};
ghost use Rattle.hc_lines.specs.Logical.{is_join, unjoined};
ghost use Rattle.hc_lines.specs.Run.{IsFirstJoin};

use hc_base::{CowStr, NoMemory};
use hc_lines::{cut_before, cut_behind};
use std::alloc::Global;

/// A text with its joins taken out. It is lent where it has none.
pub(crate) fn unjoined<'t>(alloc: Global, text: &'t str) -> Result<CowStr<'t>, NoMemory>
    ensures { IfOk result (λ made. made ≡ unjoined text.now) }
{
    if next_join(text.as_bytes()).is_none() {
        return Ok(CowStr::from(text));
    }
    Ok(CowStr::from(without_joins(alloc, text)?))
}

fn without_joins(alloc: Global, text: &str) -> Result<String, NoMemory>
    ensures { IfOk result (λ made. string_bytes made ≡ unjoined text.now) }
{
    let mut made = String::new(alloc);
    let mut rest = text;
    'joins: while let Some(at) = next_join(rest.as_bytes()) {
        let (front, behind) = cut_before(rest, at);
        made.push_str(front)?;
        rest = cut_behind(behind, 1).1;
    }
    made.push_str(rest)?;
    Ok(made)
}

// Where the first backslash stands that LF follows.
fn next_join(bytes: &[u8]) -> Option<usize>
    ensures none { IfNone result (unjoined bytes.now ≡ bytes.now) }
    ensures some { IfSome result (IsFirstJoin bytes.now) }
{
    for at in 1..bytes.len() {
        if is_join(bytes[at - 1], bytes[at]) {
            return Some(at - 1);
        }
    }
    None
}

// A backslash and the LF behind it.
fn is_join(byte: u8, next: u8) -> bool
    ensures { result ≡ is_join byte next }
{
    byte == b'\\' && next == b'\n'
}
