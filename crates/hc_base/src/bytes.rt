ghost use Rattle.std.specs.Prelude.{◌≡◌, ◌<◌, IsTrue, map};
ghost use Rattle.std.specs.Char.{digit_char, digit_value, is_ascii_hexdigit};
ghost use Rattle.std.specs.List.{list_any};
ghost use Rattle.std.specs.Str.{bytes_eq};
ghost use Rattle.hc_base.specs.Bytes.{begins_with, ends_with};
ghost use Rattle.hc_base.specs.Lines.{is_blank};

/// The last byte of ASCII, a control byte.
pub const DELETE: u8 = 0x7F;

/// The first byte is this one.
pub fn begins_with(text: &[u8], byte: u8) -> bool
    ensures { result ≡ begins_with byte text.now }
{
    text.first() == Some(&byte)
}

/// The last byte is this one.
pub fn ends_with(text: &[u8], byte: u8) -> bool
    ensures { result ≡ ends_with byte text.now }
{
    text.last() == Some(&byte)
}

/// A space or a tab.
pub fn is_blank(byte: u8) -> bool
    ensures { result ≡ is_blank byte }
{
    byte == b' ' || byte == b'\t'
}

/// The hexadecimal digit of a value, in lower case.
pub fn hex_digit(value: u8) -> u8
    requires { value < 16 }
    ensures { result ≡ digit_char value }
{
    if value < 10 {
        b'0' + value
    } else {
        b'a' + (value - 10)
    }
}

/// The value of a hexadecimal digit.
pub fn hex_value(digit: u8) -> u8
    requires { IsTrue (is_ascii_hexdigit digit) }
    ensures value { result ≡ digit_value digit }
    ensures small { result < 16 }
{
    match digit {
        b'0'..=b'9' => digit - b'0',
        b'A'..=b'F' => digit - b'A' + 10,
        _ => digit - b'a' + 10,
    }
}

/// The text is one of these.
pub fn is_among(texts: &[&str], text: &str) -> bool
    ensures { result ≡ list_any (bytes_eq text.now) (map (λ t. t.now) texts.now) }
{
    match texts {
        [] => false,
        [first, rest @ ..] => text == *first || is_among(rest, text),
    }
}
