//! Where a substitution leads (Apache manual, mod_rewrite, RewriteRule, "Substitution").
ghost use Rattle.std.specs.Prelude.{◌≡◌, ◌≤◌, ◌++◌, IfOk, OnOk, length, not, option_map};
ghost use Rattle.std.specs.List.{prefix_len};
ghost use Rattle.hc_addr.specs.Numbers.{at_most, decimal_of};
ghost use Rattle.hc_base.specs.Paths.{is_slash};
ghost use Rattle.hc_rw_eval.specs.Locations.{has_scheme, is_number, is_own, is_port, is_scheme_byte, location};
ghost use Rattle.hc_rw_eval.specs.Locations.{or_slash, own_front, own_path, path_behind};
ghost use Rattle.hc_rw_eval.specs.Locations.{query_part, scheme_ends, unless_kept};

use hc_addr::{HIGHEST_PORT, number_up_to};
use hc_base::{NoMemory, Text};
use hc_model::{Caller, Scheme};
use hc_target::{begins_without_case, escape_path};
use hc_template::default_port;
use std::alloc::Global;

fn is_scheme_byte(byte: u8) -> bool
    ensures { result ≡ is_scheme_byte byte }
{
    byte.is_ascii_alphanumeric() || matches!(byte, b'+' | b'-' | b'.')
}

// Letters, digits, `+`, `-` and `.`, and then `://`.
fn scheme_ends(text: &[u8]) -> bool
    ensures { result ≡ scheme_ends text.now }
{
    for (place, byte) in text.iter().enumerate() {
        if text[place..].starts_with(b"://") {
            return true;
        }
        if !is_scheme_byte(*byte) {
            return false;
        }
    }
    false
}

/// The text begins with a scheme and `://`.
pub(crate) fn has_scheme(text: &[u8]) -> bool
    ensures { result ≡ has_scheme text.now }
{
    match text {
        [first, ..] => first.is_ascii_alphabetic() && scheme_ends(text),
        [] => false,
    }
}

// What stands between a name and a path is this port; nothing stands for the scheme's default port.
fn is_port(scheme: Scheme, port: u16, text: &[u8]) -> bool
    ensures { result ≡ is_port scheme port text.now }
{
    match text {
        [] => port == default_port(scheme),
        [first, digits @ ..] => *first == b':' && is_number(port, digits),
    }
}

fn is_number(port: u16, digits: &[u8]) -> bool
    ensures { result ≡ is_number port (at_most HIGHEST_PORT (decimal_of digits.now)) }
{
    match number_up_to(digits, HIGHEST_PORT) {
        Some(number) => number == u32::from(port),
        None => false,
    }
}

// What stands before the authority of a URL of the server's own.
fn own_front(scheme: Scheme) -> &'static [u8]
    ensures { result.now ≡ own_front scheme }
{
    match scheme {
        Scheme::Http => b"http://",
        Scheme::Https => b"https://",
    }
}

// The server's name without case, and its port.
fn is_own(caller: &Caller, authority: &[u8]) -> bool
    ensures { result ≡ is_own caller.now authority.now }
{
    let name = caller.name.as_bytes();
    if !begins_without_case(name, authority) {
        return false;
    }
    let (_, port) = authority.split_at(name.len());
    is_port(caller.request.scheme, caller.request.port, port)
}

// How many bytes stand before the first slash.
fn authority_length(rest: &[u8]) -> usize
    ensures value { result ≡ prefix_len (λ b. not (is_slash b)) rest.now }
    ensures within { result ≤ length rest.now }
{
    rest.iter().take_while(|byte| **byte != b'/').count()
}

// Nothing stands for `/`.
fn or_slash(rest: &[u8]) -> &[u8]
    ensures { result.now ≡ or_slash rest.now }
{
    if rest.is_empty() { b"/" } else { rest }
}

// The path behind the server's own authority.
fn path_behind<'t>(caller: &Caller, rest: &'t [u8]) -> Option<&'t [u8]>
    ensures { option_map (λ path. path.now) result ≡ path_behind caller.now rest.now }
{
    let (authority, path) = rest.split_at(authority_length(rest));
    if is_own(caller, authority) {
        Some(or_slash(path))
    } else {
        None
    }
}

/// The path of a URL of the server's own: its scheme and name without case, and its port.
pub(crate) fn own_path(
    alloc: Global,
    caller: &Caller,
    text: &[u8],
) -> Result<Option<Text>, NoMemory>
    ensures { IfOk result (λ path. path ≡ own_path caller.now text.now) }
{
    let front = own_front(caller.request.scheme);
    if !begins_without_case(front, text) {
        return Ok(None);
    }
    match path_behind(caller, text.split_at(front.len()).1) {
        Some(path) => Ok(Some(Text::copy_of(alloc, path)?)),
        None => Ok(None),
    }
}

// Adds a text, escaped unless it is kept as it is.
fn push_unless_kept(out: &mut Vec<u8>, kept: bool, text: &[u8]) -> Result<(), NoMemory>
    ensures { OnOk result (out.new.items ≡ out.old.items ++ unless_kept kept text.now) }
{
    if kept {
        return out.extend_from_slice(text);
    }
    let escaped = escape_path(*out.allocator(), text)?;
    out.extend_from_slice(escaped.as_bytes())
}

// Adds `?` and the query, if there is one.
fn push_query(out: &mut Vec<u8>, noescape: bool, first: &[u8], query: &[u8]) -> Result<(), NoMemory>
    ensures { OnOk result (out.new.items ≡ out.old.items ++ query_part noescape first.now query.now) }
{
    if query.is_empty() {
        return Ok(());
    }
    out.push(b'?')?;
    push_unless_kept(out, noescape || query == first, query)
}

/// A location: what is not escaped, then the text and the query.
pub(crate) fn location(
    noescape: bool,
    front: Vec<u8>,
    text: &[u8],
    first: &[u8],
    query: &[u8],
) -> Result<Text, NoMemory>
    ensures { IfOk result (λ made. made ≡ location noescape front.items text.now first.now query.now) }
{
    let mut out = front;
    push_unless_kept(&mut out, noescape, text)?;
    push_query(&mut out, noescape, first, query)?;
    Ok(Text::from(out))
}
