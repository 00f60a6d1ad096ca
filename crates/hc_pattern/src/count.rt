//! Quantifiers, and how counts in braces are written.
ghost use Rattle.std.specs.Prelude.{◌≡◌, ◌<◌, ◌≤◌, ◌+◌, ◌^◌, IfSome, Some, length, option_map};
ghost use Rattle.std.specs.List.{prefix_len};
ghost use Rattle.std.specs.Char.{is_ascii_digit};
ghost use Rattle.hc_pattern.specs.Tokens.{braces, braces_from, braces_to, behind_digits, digits_of, falls, number};
ghost use Rattle.hc_pattern.specs.Tokens.{sign_count};
ghost use Rattle.hc_pattern.specs.TokenViews.{braces_view, count_view};

/// A quantifier; `is_sign` where it is `*`, `+` or `?`, `is_plus` where it is `+`.
#[derive(Clone, Copy)]
pub struct Count {
    pub least: u8,
    pub most: Option<u8>,
    pub greedy: bool,
    pub is_sign: bool,
    pub is_plus: bool,
}

/// The count of a sign.
pub fn sign_count(least: u8, most: Option<u8>, is_plus: bool) -> Count
    ensures { count_view result ≡ sign_count least most is_plus }
{
    Count {
        least,
        most,
        greedy: true,
        is_sign: true,
        is_plus,
    }
}

/// A count in braces, and how many bytes stand behind its `{` up to and with the `}`.
#[derive(Clone, Copy)]
pub struct Braces {
    pub least: u8,
    pub most: Option<u8>,
    pub length: usize,
}

// The largest number of a count.
const MOST_TURNS: u32 = u8::MAX as u32;

// The base in which counts are written.
const DECIMAL: u32 = 10;

// A number of a count, with leading zeros.
fn number(digits: &[u8]) -> Option<u8>
    ensures { result ≡ number digits.now }
{
    if digits.is_empty() {
        return None;
    }
    let mut value = 0u32;
    for digit in digits {
        value = (DECIMAL * value + u32::from(digit.saturating_sub(b'0'))).min(MOST_TURNS + 1);
    }
    if value > MOST_TURNS {
        return None;
    }
    Some(value as u8)
}

fn digit_count(text: &[u8]) -> usize
    ensures value { result ≡ prefix_len is_ascii_digit text.now }
    ensures within { result ≤ length text.now }
{
    for (i, byte) in text.iter().enumerate() {
        if !byte.is_ascii_digit() {
            return i;
        }
    }
    text.len()
}

// Behind `m,`: a number or none, and `}`.
fn braces_to(least: u8, written: usize, text: &[u8]) -> Option<Braces>
    requires { written + length text.now < 2 ^ 63 }
    ensures value { option_map braces_view result
        ≡ braces_to least written (digits_of text.now) (behind_digits text.now) }
    ensures within { IfSome result (λ b. b.length ≤ written + length text.now) }
{
    let (digits, rest) = text.split_at(digit_count(text));
    let [b'}', ..] = rest else {
        return None;
    };
    if digits.is_empty() {
        return Some(Braces {
            least,
            most: None,
            length: written + 1,
        });
    }
    let most = number(digits)?;
    Some(Braces {
        least,
        most: Some(most),
        length: written + digits.len() + 1,
    })
}

// Behind the first number, which has so many digits.
fn braces_from(least: u8, digits: usize, rest: &[u8]) -> Option<Braces>
    requires { digits + length rest.now < 2 ^ 63 }
    ensures value { option_map braces_view result ≡ braces_from (Some least) digits rest.now }
    ensures within { IfSome result (λ b. b.length ≤ digits + length rest.now) }
{
    match rest {
        [b'}', ..] => Some(Braces {
            least,
            most: Some(least),
            length: digits + 1,
        }),
        [b',', more @ ..] => braces_to(least, digits + 1, more),
        _ => None,
    }
}

/// The count behind a `{`, if there is one.
pub fn read_braces(text: &[u8]) -> Option<Braces>
    ensures value { option_map braces_view result ≡ braces text.now }
    ensures within { IfSome result (λ b. b.length ≤ length text.now) }
{
    let (digits, rest) = text.split_at(digit_count(text));
    let least = number(digits)?;
    braces_from(least, digits.len(), rest)
}

/// The count falls.
pub fn falls(braces: Braces) -> bool
    ensures { result ≡ falls (braces_view braces) }
{
    match braces.most {
        Some(most) => most < braces.least,
        None => false,
    }
}
