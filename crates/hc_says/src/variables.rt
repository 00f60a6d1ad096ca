ghost use Rattle.std.specs.Prelude.{◌≡◌, ◌<◌, ◌++◌, ℕ, codes, List, Option, true};
ghost use Rattle.std.specs.Prelude.{length, position, slice_index, string_bytes, IfOk, IfSome, MatchOption};
ghost use Rattle.hc_says.specs.Says.{value_of};
ghost use Rattle.hc_says.specs.Variables.{ends_name, replaced, stands_for};
ghost use Rattle.hc_says.specs.VariablesView.{begins_variable, braced, chunk_made};

use crate::defines::Defines;
use hc_base::NoMemory;
use hc_lines::{cut_before, cut_behind};
use std::alloc::Global;

/// The text with its variables replaced (Apache manual, core, Define). One look at each byte
/// suffices: a variable begins at the first `${` behind the last `}` or `:`.
pub fn replaced(alloc: Global, text: &str, defines: &Defines) -> Result<String, NoMemory>
    ensures { IfOk result (λ made. string_bytes made ≡ replaced (value_of defines.now) text.now) }
{
    let mut made = String::new(alloc);
    let mut rest = text;
    while let Some(chunk) = first_chunk(rest) {
        if chunk.closes {
            push_closed(&mut made, chunk.front, defines)?;
        } else {
            made.push_str(chunk.front)?;
            made.push_str(":")?;
        }
        rest = chunk.rest;
    }
    made.push_str(rest)?;
    Ok(made)
}

// What stands before the first byte that no name has, whether that is a `}`, and what follows it.
#[derive(Clone, Copy)]
struct Chunk<'t> {
    front: &'t str,
    closes: bool,
    rest: &'t str,
}

fn first_chunk<'t>(text: &'t str) -> Option<Chunk<'t>>
    ensures shorter { IfSome result (λ chunk. length chunk.rest.now < length text.now) }
    ensures value { (value : List ℕ → Option (List ℕ)) → MatchOption result
        (replaced value text.now ≡ text.now)
        (λ chunk. replaced value text.now ≡ chunk_made value chunk ++ replaced value chunk.rest.now) }
{
    let bytes = text.as_bytes();
    let Some(end) = name_end(bytes) else {
        return None;
    };
    Some(Chunk {
        front: cut_before(text, end).0,
        closes: bytes[end] == b'}',
        rest: cut_behind(text, end).1,
    })
}

// The place of the first byte that no name has.
fn name_end(bytes: &[u8]) -> Option<usize>
    ensures value { result ≡ position ends_name bytes.now }
    ensures within { IfSome result (λ end. end < length bytes.now) }
    ensures sign { IfSome result (λ end. ends_name (slice_index bytes.now end) ≡ true) }
{
    bytes.iter().position(|byte| ends_name(*byte))
}

/// A byte that no name of a variable has.
pub(crate) fn ends_name(byte: u8) -> bool
    ensures { result ≡ ends_name byte }
{
    byte == b':' || byte == b'}'
}

// Adds what the text gives that stands before a `}`, together with that.
fn push_closed(made: &mut String, text: &str, defines: &Defines) -> Result<(), NoMemory>
    ensures { IfOk result (λ _.
        string_bytes made.new ≡ string_bytes made.old ++ braced (value_of defines.now) text.now) }
{
    let Some((front, name)) = split_variable(text) else {
        made.push_str(text)?;
        made.push_str("}")?;
        return Ok(());
    };
    made.push_str(front)?;
    push_variable(made, name, defines)
}

fn push_variable(made: &mut String, name: &str, defines: &Defines) -> Result<(), NoMemory>
    ensures { IfOk result (λ _.
        string_bytes made.new ≡ string_bytes made.old ++ stands_for (value_of defines.now) name.now) }
{
    match defines.value(name) {
        Some(value) => made.push_str(value)?,
        None => {
            made.push_str("${")?;
            made.push_str(name)?;
            made.push_str("}")?;
        }
    }
    Ok(())
}

// What stands before the first `${`, and what follows that.
fn split_variable<'t>(text: &'t str) -> Option<(&'t str, &'t str)>
    ensures { (value : List ℕ → Option (List ℕ)) → MatchOption result
        (braced value text.now ≡ text.now ++ codes "}")
        (λ parts. braced value text.now ≡ parts.0.now ++ stands_for value parts.1.now) }
{
    let bytes = text.as_bytes();
    for at in 0..bytes.len() {
        if begins_variable(bytes.split_at(at).1) {
            let (front, behind) = cut_before(text, at);
            return Some((front, cut_behind(behind, 1).1));
        }
    }
    None
}

fn begins_variable(bytes: &[u8]) -> bool
    ensures { result ≡ begins_variable bytes.now }
{
    matches!(bytes, [b'$', b'{', ..])
}
