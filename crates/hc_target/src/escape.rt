ghost use Rattle.std.specs.Prelude.{◌≡◌, ◌++◌, IfOk, OnOk};
ghost use Rattle.hc_target.specs.Escapes.{begins_with_digits, begins_with_slash_digits, escaped, escaped_byte};
ghost use Rattle.hc_target.specs.Escapes.{escapes_slash, has_bad_escape, is_kept};

use hc_base::bytes::hex_digit;
use hc_base::{NoMemory, Text};
use std::alloc::Global;

/// Two hexadecimal digits come first.
fn begins_with_digits(text: &[u8]) -> bool
    ensures { result ≡ begins_with_digits text.now }
{
    match text {
        [high, low, ..] => high.is_ascii_hexdigit() && low.is_ascii_hexdigit(),
        _ => false,
    }
}

/// The digits of an escaped slash come first.
fn begins_with_slash_digits(text: &[u8]) -> bool
    ensures { result ≡ begins_with_slash_digits text.now }
{
    matches!(text, [b'2', b'f' | b'F', ..])
}

/// Some `%` begins no escape.
pub(crate) fn has_bad_escape(path: &[u8]) -> bool
    ensures { result ≡ has_bad_escape path.now }
{
    for (index, byte) in path.iter().enumerate() {
        if *byte == b'%' && !begins_with_digits(&path[index + 1..]) {
            return true;
        }
    }
    false
}

/// Some escape is that of a slash.
pub(crate) fn escapes_slash(path: &[u8]) -> bool
    ensures { result ≡ escapes_slash path.now }
{
    for (index, byte) in path.iter().enumerate() {
        if *byte == b'%' && begins_with_slash_digits(&path[index + 1..]) {
            return true;
        }
    }
    false
}

/// The byte is not escaped.
fn is_kept(byte: u8) -> bool
    ensures { result ≡ is_kept byte }
{
    byte.is_ascii_alphanumeric() || b"$-_.+!*'(),:;@&=/~".contains(&byte)
}

fn push_escaped(out: &mut Vec<u8>, byte: u8) -> Result<(), NoMemory>
    ensures { OnOk result (out.new.items ≡ out.old.items ++ escaped_byte byte) }
{
    if is_kept(byte) {
        out.push(byte)?;
        return Ok(());
    }
    out.extend_from_slice(&[b'%', hex_digit(byte / 16), hex_digit(byte % 16)])
}

/// The text with each byte but letters, digits and `$-_.+!*'(),:;@&=/~` escaped: `%` and two
/// hexadecimal digits in lower case. `NoMemory` where memory is refused.
pub fn escape_path(alloc: Global, text: &[u8]) -> Result<Text, NoMemory>
    ensures { IfOk result (λ path. path ≡ escaped text.now) }
{
    let mut out = Vec::new(alloc);
    for byte in text {
        push_escaped(&mut out, *byte)?;
    }
    Ok(Text::from(out))
}
