//! Tokens that are items: bytes, escapes and classes.
ghost use Rattle.std.specs.Prelude.{◌≡◌, IfOk};
ghost use Rattle.std.specs.Char.{eq_ignore_ascii_case};
ghost use Rattle.hc_pattern.specs.Bits.{set_where};
ghost use Rattle.hc_pattern.specs.Classes.{is_in_ranges};
ghost use Rattle.hc_pattern.specs.ClassViews.{class_view};
ghost use Rattle.hc_pattern.specs.MemberViews.{member_view};
ghost use Rattle.hc_pattern.specs.Tokens.{byte_item, class_sign, class_token, escape_sign, member_item};
ghost use Rattle.hc_pattern.specs.TokenViews.{sign_view, token_view};

use crate::ByteSet;
use crate::class::{Class, class_refusal, class_set, read_class, with_ranges};
use crate::member::{Member, escape};
use crate::set::of_bits;
use crate::token::{Leaf, Sign, Token};
use hc_base::NoMemory;
use std::alloc::Global;

/// A byte. Without case, a letter is each of its cases.
pub fn byte_item(nocase: bool, byte: u8) -> Token
    ensures { token_view result ≡ byte_item nocase byte }
{
    if nocase && byte.is_ascii_alphabetic() {
        Token::Item(Leaf::Class(both_cases(byte)))
    } else {
        Token::Item(Leaf::Byte(byte))
    }
}

fn both_cases(byte: u8) -> ByteSet
    ensures { result ≡ set_where (eq_ignore_ascii_case byte) }
{
    let set = ByteSet::empty()
        .with(byte.to_ascii_lowercase())
        .with(byte.to_ascii_uppercase());
    of_bits(set.low, set.high)
}

fn set_of(ranges: &[(u8, u8)]) -> ByteSet
    ensures { result ≡ set_where (λ b. is_in_ranges b ranges.now) }
{
    let set = with_ranges(ByteSet::empty(), ranges);
    of_bits(set.low, set.high)
}

fn member_item(nocase: bool, member: Member) -> Token
    ensures { token_view result ≡ member_item nocase (member_view member) }
{
    match member {
        Member::One(byte) => byte_item(nocase, byte),
        Member::Many(ranges) => Token::Item(Leaf::Class(set_of(ranges))),
        Member::Hyphen => Token::Unclosed,
        Member::Refused(refusal) => Token::Broken(refusal),
    }
}

/// An escape, by what stands behind its backslash.
pub fn escape_sign(nocase: bool, at: u32, rest: &[u8]) -> Sign
    ensures { sign_view result ≡ escape_sign nocase at rest.now }
{
    let written = escape(at, rest);
    Sign {
        token: member_item(nocase, written.member),
        length: written.length,
    }
}

// A class, by what stands behind its `[` and its `^`.
fn class_token(nocase: bool, complement: bool, class: &Class) -> Token
    ensures { token_view result ≡ class_token nocase complement (class_view class.now) }
{
    if let Some(refusal) = class_refusal(&class.members) {
        return Token::Broken(refusal);
    }
    if !class.closed {
        return Token::Unclosed;
    }
    Token::Item(Leaf::Class(class_set(&class.members, nocase, complement)))
}

/// A class, by what stands behind its `[`.
pub fn class_sign(alloc: Global, nocase: bool, at: u32, rest: &[u8]) -> Result<Sign, NoMemory>
    ensures { IfOk result (λ sign. sign_view sign ≡ class_sign nocase at rest.now) }
{
    match rest {
        [] => Ok(Sign {
            token: Token::Unclosed,
            length: 1,
        }),
        [b'^', more @ ..] => {
            let class = read_class(alloc, at as usize + 2, more)?;
            Ok(Sign {
                token: class_token(nocase, true, &class),
                length: class.length + 2,
            })
        }
        _ => {
            let class = read_class(alloc, at as usize + 1, rest)?;
            Ok(Sign {
                token: class_token(nocase, false, &class),
                length: class.length + 1,
            })
        }
    }
}
