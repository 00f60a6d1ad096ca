//! The forms of the texts of a request. Our own choice.

ghost use Rattle.std.specs.Prelude.{◌≡◌};
ghost use Rattle.std.specs.Char.{is_ascii_uppercase};
ghost use Rattle.std.specs.List.{list_all};
ghost use Rattle.std.specs.Str.{str_eq_ignore_ascii_case};
ghost use Rattle.hc_forms.specs.Forms.{is_host, is_host_byte, is_method, is_name, is_name_byte, is_target};
ghost use Rattle.hc_forms.specs.Forms.{is_target_byte, is_value, is_value_byte};

use hc_base::paths::begins_with_slash;

/// The most bytes of a target.
const LONGEST_TARGET: usize = 8190;

const LONGEST_METHOD: usize = 32;

const LONGEST_HOST: usize = 255;

/// The most bytes of a header's name.
const LONGEST_NAME: usize = 64;

/// The most bytes of a header's value.
const LONGEST_VALUE: usize = 8190;

/// The target of a request begins with a slash, is not too long and has no other bytes than those that
/// are printed, without `#`.
pub fn is_target(target: &[u8]) -> bool
    ensures { result ≡ is_target target.now }
{
    begins_with_slash(target) && target.len() <= LONGEST_TARGET && has_target_bytes(target)
}

fn has_target_bytes(target: &[u8]) -> bool
    ensures { result ≡ list_all is_target_byte target.now }
{
    target.iter().all(|byte| is_target_byte(*byte))
}

fn is_target_byte(byte: u8) -> bool
    ensures { result ≡ is_target_byte byte }
{
    b' ' < byte && byte <= b'~' && byte != b'#'
}

/// Capital letters.
pub fn is_method(method: &[u8]) -> bool
    ensures { result ≡ is_method method.now }
{
    !method.is_empty() && method.len() <= LONGEST_METHOD && has_capitals(method)
}

fn has_capitals(text: &[u8]) -> bool
    ensures { result ≡ list_all is_ascii_uppercase text.now }
{
    text.iter().all(|byte| byte.is_ascii_uppercase())
}

/// Letters, digits, dots and hyphens, or nothing.
pub fn is_host(host: &[u8]) -> bool
    ensures { result ≡ is_host host.now }
{
    host.len() <= LONGEST_HOST && has_host_bytes(host)
}

fn has_host_bytes(host: &[u8]) -> bool
    ensures { result ≡ list_all is_host_byte host.now }
{
    host.iter().all(|byte| is_host_byte(*byte))
}

fn is_host_byte(byte: u8) -> bool
    ensures { result ≡ is_host_byte byte }
{
    byte.is_ascii_alphanumeric() || byte == b'.' || byte == b'-'
}

/// The name of a header: letters, digits, hyphens and underscores. Host is a field of its own.
pub fn is_name(name: &[u8]) -> bool
    ensures { result ≡ is_name name.now }
{
    !name.is_empty()
        && name.len() <= LONGEST_NAME
        && has_name_bytes(name)
        && !is_same_name(name, b"Host")
}

fn has_name_bytes(name: &[u8]) -> bool
    ensures { result ≡ list_all is_name_byte name.now }
{
    name.iter().all(|byte| is_name_byte(*byte))
}

fn is_name_byte(byte: u8) -> bool
    ensures { result ≡ is_name_byte byte }
{
    byte.is_ascii_alphanumeric() || byte == b'-' || byte == b'_'
}

/// The names are equal without case.
fn is_same_name(name: &[u8], other: &[u8]) -> bool
    ensures { result ≡ str_eq_ignore_ascii_case name.now other.now }
{
    name.eq_ignore_ascii_case(other)
}

/// The value of a header.
pub fn is_value(value: &[u8]) -> bool
    ensures { result ≡ is_value value.now }
{
    value.len() <= LONGEST_VALUE && has_value_bytes(value)
}

fn has_value_bytes(value: &[u8]) -> bool
    ensures { result ≡ list_all is_value_byte value.now }
{
    value.iter().all(|byte| is_value_byte(*byte))
}

fn is_value_byte(byte: u8) -> bool
    ensures { result ≡ is_value_byte byte }
{
    b' ' <= byte && byte <= b'~'
}
