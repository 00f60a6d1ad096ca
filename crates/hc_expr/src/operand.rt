//! The operands of tests, as they are written.
ghost use Rattle.std.specs.Prelude.{◌≡◌, ◌≤◌, MatchOption, drop, false, length, option_map, true};
ghost use Rattle.std.specs.Char.{is_ascii_digit};
ghost use Rattle.std.specs.List.{prefix_len};
ghost use Rattle.hc_base.specs.Lines.{is_blank};
ghost use Rattle.hc_expr.specs.TokenViews.{cut_view, operand_found};
ghost use Rattle.hc_expr.specs.Tokens.{begins_with, digits_at, operand_at, past_blanks, quoted_at, up_to, variable_at};

use hc_base::bytes::is_blank;

/// An operand of a test.
#[derive(Clone, Copy)]
pub enum Operand<'t> {
    /// `%{NAME}`.
    Variable(&'t [u8]),
    /// A quoted text.
    Quoted(&'t [u8]),
    /// A word of digits.
    Digits(&'t [u8]),
}

/// What is behind a sign, where a text begins with it.
pub fn behind_sign<'t>(text: &'t [u8], sign: &[u8]) -> Option<&'t [u8]>
    ensures { MatchOption result (begins_with sign.now text.now ≡ false)
        (λ rest. (begins_with sign.now text.now ≡ true) × (rest.now ≡ drop (length sign.now) text.now)) }
{
    if text.starts_with(sign) {
        Some(&text[sign.len()..])
    } else {
        None
    }
}

fn blank_count(text: &[u8]) -> usize
    ensures value { result ≡ prefix_len is_blank text.now }
    ensures within { result ≤ length text.now }
{
    text.iter().take_while(|byte| is_blank(**byte)).count()
}

fn digit_count(text: &[u8]) -> usize
    ensures value { result ≡ prefix_len is_ascii_digit text.now }
    ensures within { result ≤ length text.now }
{
    text.iter().take_while(|byte| byte.is_ascii_digit()).count()
}

/// A text without the blanks that it begins with.
pub fn past_blanks(text: &[u8]) -> &[u8]
    ensures { result.now ≡ past_blanks text.now }
{
    text.split_at(blank_count(text)).1
}

/// What stands up to the first byte of this kind, and what is behind that byte.
pub fn up_to(end: u8, text: &[u8]) -> Option<(&[u8], &[u8])>
    ensures { option_map cut_view result ≡ up_to end text.now }
{
    for (i, byte) in text.iter().enumerate() {
        if *byte == end {
            return Some((&text[..i], &text[i + 1..]));
        }
    }
    None
}

/// What stands between quotes, and what is behind them.
pub fn quoted_at(text: &[u8]) -> Option<(&[u8], &[u8])>
    ensures { option_map cut_view result ≡ quoted_at text.now }
{
    let [mark, rest @ ..] = text else {
        return None;
    };
    if *mark == b'"' || *mark == b'\'' {
        up_to(*mark, rest)
    } else {
        None
    }
}

fn variable_at(text: &[u8]) -> Option<(&[u8], &[u8])>
    ensures { option_map cut_view result ≡ variable_at text.now }
{
    match behind_sign(text, b"%{") {
        Some(rest) => up_to(b'}', rest),
        None => None,
    }
}

fn digits_at(text: &[u8]) -> Option<(&[u8], &[u8])>
    ensures { option_map cut_view result ≡ digits_at text.now }
{
    let count = digit_count(text);
    if count == 0 {
        return None;
    }
    Some(text.split_at(count))
}

/// The operand that a text begins with, and what is behind it.
pub fn operand_at(text: &[u8]) -> Option<(Operand<'_>, &[u8])>
    ensures { option_map operand_found result ≡ operand_at text.now }
{
    if let Some((name, rest)) = variable_at(text) {
        return Some((Operand::Variable(name), rest));
    }
    if let Some((inside, rest)) = quoted_at(text) {
        return Some((Operand::Quoted(inside), rest));
    }
    match digits_at(text) {
        Some((digits, rest)) => Some((Operand::Digits(digits), rest)),
        None => None,
    }
}
