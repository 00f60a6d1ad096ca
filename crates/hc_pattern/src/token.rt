//! The tokens of a pattern.
ghost use Rattle.std.specs.Prelude.{◌≡◌, ◌<◌, ◌≤◌, ◌+◌, ◌-◌, ◌^◌, IfOk, map};
ghost use Rattle.hc_pattern.specs.Tokens.{braces, brace_sign, broken, count_sign, groups_with, open_sign, sign_at};
ghost use Rattle.hc_pattern.specs.Tokens.{tokens_of};
ghost use Rattle.hc_pattern.specs.TokenViews.{count_view, placed_view, sign_view, token_view};
ghost use Rattle.hc_pattern.specs.Refusals.{unsupported, wrong_syntax};

use crate::ByteSet;
use crate::count::{Count, falls, read_braces, sign_count};
use crate::glob::any_byte;
use crate::item::{byte_item, class_sign, escape_sign};
use hc_base::codes::{PATTERN_SYNTAX, PATTERN_UNSUPPORTED};
use hc_base::{AtByte, NoMemory};
use std::alloc::Global;

/// What has no parts: a byte, a set, `^` or `$`.
#[derive(Clone, Copy)]
pub enum Leaf {
    Byte(u8),
    Class(ByteSet),
    Start,
    Finish,
}

#[derive(Clone, Copy)]
pub enum Token {
    Item(Leaf),
    /// `(`, with the number of its group, or `(?:`.
    Opens(Option<usize>),
    Closes,
    Bars,
    Counts(Count),
    /// A class without its `]`.
    Unclosed,
    Broken(AtByte),
}

/// A token, and how many bytes it is written in.
#[derive(Clone, Copy)]
pub struct Sign {
    pub token: Token,
    pub length: usize,
}

/// A token at its place.
#[derive(Clone, Copy)]
pub struct Placed {
    pub at: u32,
    pub token: Token,
}

fn unsupported(at: u32) -> Token
    ensures { token_view result ≡ broken (unsupported at) }
{
    Token::Broken(AtByte {
        code: PATTERN_UNSUPPORTED,
        at,
    })
}

fn wrong_syntax(at: u32) -> Token
    ensures { token_view result ≡ broken (wrong_syntax at) }
{
    Token::Broken(AtByte {
        code: PATTERN_SYNTAX,
        at,
    })
}

// A `(`, by what stands behind it and how many groups began before.
fn open_sign(groups: usize, at: u32, rest: &[u8]) -> Sign
    requires { groups < 2 ^ 63 }
    ensures { sign_view result ≡ open_sign groups at rest.now }
{
    let opens = Sign {
        token: Token::Opens(Some(groups + 1)),
        length: 1,
    };
    let refused = Sign {
        token: unsupported(at),
        length: 1,
    };
    match rest {
        [] => opens,
        [byte] => { if *byte == b'?' { refused } else { opens } }
        [byte, colon, ..] => {
            if *byte != b'?' {
                return opens;
            }
            if *colon != b':' {
                return refused;
            }
            Sign {
                token: Token::Opens(None),
                length: 3,
            }
        }
    }
}

// A quantifier of so many bytes, which a `?` behind it makes lazy.
fn count_sign(count: Count, length: usize, rest: &[u8]) -> Sign
    requires { length < 2 ^ 64 - 1 }
    ensures { sign_view result ≡ count_sign (count_view count) length rest.now }
{
    match rest {
        [b'?', ..] => Sign {
            token: Token::Counts(Count {
                greedy: false,
                ..count
            }),
            length: length + 1,
        },
        _ => Sign {
            token: Token::Counts(count),
            length,
        },
    }
}

// A `{` that begins no count is a byte, but for `{,`.
fn brace_sign(at: u32, rest: &[u8]) -> Sign
    ensures { sign_view result ≡ brace_sign at rest.now (braces rest.now) }
{
    let Some(braces) = read_braces(rest) else {
        let token = match rest {
            [b',', ..] => unsupported(at),
            _ => Token::Item(Leaf::Byte(b'{')),
        };
        return Sign { token, length: 1 };
    };
    if falls(braces) {
        return Sign {
            token: wrong_syntax(at),
            length: 1,
        };
    }
    let count = Count {
        least: braces.least,
        most: braces.most,
        greedy: true,
        is_sign: false,
        is_plus: false,
    };
    count_sign(count, braces.length + 1, &rest[braces.length..])
}

fn single(token: Token) -> Sign
    ensures { sign_view result ≡ record { token = token_view token; length = 1 } }
{
    Sign { token, length: 1 }
}

// The sign that begins with this byte, by what stands behind it and how many groups began before.
fn sign_at(
    alloc: Global,
    nocase: bool,
    groups: usize,
    at: u32,
    byte: u8,
    rest: &[u8],
) -> Result<Sign, NoMemory>
    requires { groups < 2 ^ 63 }
    ensures { IfOk result (λ sign. sign_view sign ≡ sign_at nocase groups at byte rest.now) }
{
    match byte {
        b'\\' => Ok(escape_sign(nocase, at, rest)),
        b'.' => Ok(single(Token::Item(Leaf::Class(any_byte(false))))),
        b'[' => class_sign(alloc, nocase, at, rest),
        b'(' => Ok(open_sign(groups, at, rest)),
        b')' => Ok(single(Token::Closes)),
        b'|' => Ok(single(Token::Bars)),
        b'*' => Ok(count_sign(sign_count(0, None, false), 1, rest)),
        b'+' => Ok(count_sign(sign_count(1, None, true), 1, rest)),
        b'?' => Ok(count_sign(sign_count(0, Some(1), false), 1, rest)),
        b'{' => Ok(brace_sign(at, rest)),
        b'^' => Ok(single(Token::Item(Leaf::Start))),
        b'$' => Ok(single(Token::Item(Leaf::Finish))),
        _ => Ok(single(byte_item(nocase, byte))),
    }
}

fn groups_with(token: Token, groups: usize) -> usize
    requires { groups < 2 ^ 63 }
    ensures value { result ≡ groups_with (token_view token) groups }
    ensures few { result ≤ groups + 1 }
{
    match token {
        Token::Opens(Some(_)) => groups + 1,
        _ => groups,
    }
}

/// The tokens of a pattern.
pub fn tokens(alloc: Global, nocase: bool, text: &[u8]) -> Result<Vec<Placed>, NoMemory>
    ensures { IfOk result (λ tokens. map placed_view tokens.items ≡ tokens_of nocase text.now) }
{
    let mut tokens = Vec::new(alloc);
    let mut passed = 0usize;
    let mut groups = 0usize;
    for (i, byte) in text.iter().enumerate() {
        if passed > 0 {
            passed -= 1;
            continue;
        }
        let Ok(at) = u32::try_from(i) else {
            return Err(NoMemory);
        };
        let sign = sign_at(alloc, nocase, groups, at, *byte, &text[i + 1..])?;
        tokens.push(Placed {
            at,
            token: sign.token,
        })?;
        passed = sign.length.saturating_sub(1);
        groups = groups_with(sign.token, groups);
    }
    Ok(tokens)
}
