//! The tokens of an expression.
ghost use Rattle.std.specs.Prelude.{◌≡◌, IfOk, map};
ghost use Rattle.hc_expr.specs.TokenViews.{token_found, token_view};
ghost use Rattle.hc_expr.specs.Tokens.{token_at, tokens_of};

use crate::operand::{behind_sign, past_blanks};
use crate::test::{Test, test_at};
use hc_base::NoMemory;
use std::alloc::Global;

/// A sign or a test of an expression.
#[derive(Clone, Copy)]
pub enum Token<'t> {
    /// `(`.
    Opens,
    /// `)`.
    Closes,
    /// `!`.
    Negates,
    /// `&&`.
    Ands,
    /// `||`.
    Ors,
    Test(Test<'t>),
    /// What begins none of these.
    Broken,
}

// The token that a text begins with, and what is behind it.
fn token_at(text: &[u8]) -> (Token<'_>, &[u8])
    ensures { token_found result ≡ token_at text.now }
{
    if let Some(rest) = behind_sign(text, b"(") {
        return (Token::Opens, rest);
    }
    if let Some(rest) = behind_sign(text, b")") {
        return (Token::Closes, rest);
    }
    if let Some(rest) = behind_sign(text, b"!") {
        return (Token::Negates, rest);
    }
    if let Some(rest) = behind_sign(text, b"&&") {
        return (Token::Ands, rest);
    }
    if let Some(rest) = behind_sign(text, b"||") {
        return (Token::Ors, rest);
    }
    match test_at(text) {
        Some((test, rest)) => (Token::Test(test), rest),
        None => (Token::Broken, &[]),
    }
}

/// The tokens of a text. Blanks stand between them.
pub fn tokens(alloc: Global, text: &[u8]) -> Result<Vec<Token<'_>>, NoMemory>
    ensures { IfOk result (λ tokens. map token_view tokens.items ≡ tokens_of text.now) }
{
    let mut tokens = Vec::new(alloc);
    let mut rest = past_blanks(text);
    for _turn in 0..text.len() {
        if rest.is_empty() {
            return Ok(tokens);
        }
        let (token, behind) = token_at(rest);
        tokens.push(token)?;
        rest = past_blanks(behind);
    }
    Ok(tokens)
}
