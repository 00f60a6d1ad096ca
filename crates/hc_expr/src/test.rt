//! The tests of an expression, as they are written.
ghost use Rattle.std.specs.Prelude.{◌≡◌, ◌≤◌, Some, length, option_map};
ghost use Rattle.std.specs.Char.{is_ascii_alphanumeric};
ghost use Rattle.std.specs.List.{prefix_len};
ghost use Rattle.hc_expr.specs.TokenViews.{operand_view, pattern_found, test_found};
ghost use Rattle.hc_expr.specs.Tokens.{compared_at, comparison_at, network_at, pattern_at, same_at, search_at};
ghost use Rattle.hc_expr.specs.Tokens.{test_at, with_flag, word_at};

use crate::operand::{Operand, behind_sign, operand_at, past_blanks, quoted_at, up_to};

/// A test of an expression.
#[derive(Clone, Copy)]
pub enum Test<'t> {
    /// `true` and `false`.
    Always(bool),
    /// `==` and `=`, or negated `!=`.
    Same(bool, Operand<'t>, Operand<'t>),
    /// `=~`, or negated `!~`, with the pattern between slashes.
    Search(bool, Operand<'t>, Pattern<'t>),
    /// `-ipmatch`.
    Network(Operand<'t>, &'t [u8]),
}

/// A pattern as it is written; `nocase` where `i` follows it.
#[derive(Clone, Copy)]
pub struct Pattern<'t> {
    pub text: &'t [u8],
    pub nocase: bool,
}

fn with_flag<'t>(text: &'t [u8], rest: &'t [u8]) -> (Pattern<'t>, &'t [u8])
    ensures { Some (pattern_found result) ≡ with_flag text.now rest.now }
{
    match behind_sign(rest, b"i") {
        Some(rest) => (Pattern { text, nocase: true }, rest),
        None => (
            Pattern {
                text,
                nocase: false,
            },
            rest,
        ),
    }
}

// A pattern between slashes.
fn pattern_at(text: &[u8]) -> Option<(Pattern<'_>, &[u8])>
    ensures { option_map pattern_found result ≡ pattern_at text.now }
{
    let inside = behind_sign(text, b"/")?;
    let (pattern, rest) = up_to(b'/', inside)?;
    Some(with_flag(pattern, rest))
}

fn same_at<'t>(negated: bool, left: Operand<'t>, text: &'t [u8]) -> Option<(Test<'t>, &'t [u8])>
    ensures { option_map test_found result ≡ same_at negated (operand_view left.entry) text.now }
{
    let (right, rest) = operand_at(past_blanks(text))?;
    Some((Test::Same(negated, left, right), rest))
}

fn search_at<'t>(negated: bool, left: Operand<'t>, text: &'t [u8]) -> Option<(Test<'t>, &'t [u8])>
    ensures { option_map test_found result ≡ search_at negated (operand_view left.entry) text.now }
{
    let (pattern, rest) = pattern_at(past_blanks(text))?;
    Some((Test::Search(negated, left, pattern), rest))
}

fn network_at<'t>(left: Operand<'t>, text: &'t [u8]) -> Option<(Test<'t>, &'t [u8])>
    ensures { option_map test_found result ≡ network_at (operand_view left.entry) text.now }
{
    let (network, rest) = quoted_at(past_blanks(text))?;
    Some((Test::Network(left, network), rest))
}

// By the sign between the operands. A longer sign comes before one that it begins with.
fn compared_at<'t>(left: Operand<'t>, text: &'t [u8]) -> Option<(Test<'t>, &'t [u8])>
    ensures { option_map test_found result ≡ compared_at (operand_view left.entry) text.now }
{
    if let Some(rest) = behind_sign(text, b"==") {
        return same_at(false, left, rest);
    }
    if let Some(rest) = behind_sign(text, b"=~") {
        return search_at(false, left, rest);
    }
    if let Some(rest) = behind_sign(text, b"!=") {
        return same_at(true, left, rest);
    }
    if let Some(rest) = behind_sign(text, b"!~") {
        return search_at(true, left, rest);
    }
    if let Some(rest) = behind_sign(text, b"=") {
        return same_at(false, left, rest);
    }
    match behind_sign(text, b"-ipmatch") {
        Some(rest) => network_at(left, rest),
        None => None,
    }
}

fn comparison_at(text: &[u8]) -> Option<(Test<'_>, &[u8])>
    ensures { option_map test_found result ≡ comparison_at text.now }
{
    let (left, rest) = operand_at(text)?;
    compared_at(left, past_blanks(rest))
}

// How many letters and digits a text begins with.
fn word_len(text: &[u8]) -> usize
    ensures value { result ≡ prefix_len is_ascii_alphanumeric text.now }
    ensures within { result ≤ length text.now }
{
    text.iter()
        .take_while(|byte| byte.is_ascii_alphanumeric())
        .count()
}

fn word_at(text: &[u8]) -> Option<(Test<'_>, &[u8])>
    ensures { option_map test_found result ≡ word_at text.now }
{
    let (word, rest) = text.split_at(word_len(text));
    if word == b"true".as_slice() {
        return Some((Test::Always(true), rest));
    }
    if word == b"false".as_slice() {
        return Some((Test::Always(false), rest));
    }
    None
}

/// The test that a text begins with, and what is behind it.
pub fn test_at(text: &[u8]) -> Option<(Test<'_>, &[u8])>
    ensures { option_map test_found result ≡ test_at text.now }
{
    match word_at(text) {
        Some(found) => Some(found),
        None => comparison_at(text),
    }
}
