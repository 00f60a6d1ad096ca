ghost use Rattle.std.specs.Prelude.{◌≡◌, true};
ghost use Rattle.std.specs.Char.{is_ascii_digit};
ghost use Rattle.std.specs.List.{list_all};
ghost use Rattle.hc_words.specs.Decimal.{decimal_within, number_of};

/// A number has at most so many digits.
pub const MOST_DIGITS: usize = 20;

/// The number that a text of 1 to 20 decimal digits writes, if it is from `low` to `high`.
pub(crate) fn decimal_within(text: &str, low: u64, high: u64) -> Option<u64>
    ensures { result ≡ decimal_within low high text.now }
{
    if text.len() > MOST_DIGITS || !all_digits(text.as_bytes()) {
        return None;
    }
    let number = number(text)?;
    if low <= number && number <= high {
        Some(number)
    } else {
        None
    }
}

// The number that a text of decimal digits writes, if it has one and the number fits.
fn number(text: &str) -> Option<u64>
    requires { list_all is_ascii_digit text.now ≡ true }
    ensures { result ≡ number_of text.now }
{
    text.parse().ok()
}

fn all_digits(text: &[u8]) -> bool
    ensures { result ≡ list_all is_ascii_digit text.now }
{
    text.iter().all(|byte| byte.is_ascii_digit())
}
