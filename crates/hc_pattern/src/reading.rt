ghost use Rattle.std.specs.Prelude.{◌≡◌, ℕ, List, Option, Some, None, ◌≤◌, IfOk, drop, map, reverse};
ghost use Rattle.std.specs.Prelude.{◌∷◌, []};
ghost use Rattle.hc_pattern.specs.Reading.{Before as BeforeToken, close_refusal, count_refusal, first_refusal};
ghost use Rattle.hc_pattern.specs.Reading.{groups_of, nothing, opens_one, parse_pattern, refusal_at, sized, something};
ghost use Rattle.hc_pattern.specs.Reading.{unclosed_refusal};
ghost use Rattle.hc_pattern.specs.Tokens.{counts};
ghost use Rattle.hc_pattern.specs.ReadingViews.{NextIs, before_view};
ghost use Rattle.hc_pattern.specs.TokenViews.{count_view, placed_view, token_view};
ghost use Rattle.hc_pattern.specs.Refusals.{GivesPattern, wrong_syntax};
ghost use Rattle.hc_pattern.specs.Syntax.{syntax_of};
ghost use Rattle.hc_base.specs.declared.fault.AtByte.{AtByte};
ghost use Rattle.hc_base.specs.declared.fault.Fault.TheVariants.{Refused};

use crate::build::build;
use crate::count::Count;
use crate::pat::MOST_NODES;
use crate::token::{Placed, Token, tokens};
use crate::{Pat, PatFault};
use hc_base::codes::{EMPTY_LOOP, PATTERN_SYNTAX, PATTERN_TOO_LARGE, PATTERN_UNSUPPORTED};
use hc_base::{AtByte, Fault, NoMemory};
use std::alloc::Global;

// A pattern has at most so many groups that keep what they span.
const MOST_GROUPS: usize = 32;

/// What stands directly before a token, as a quantifier sees it: nothing, something that it may count,
/// or another quantifier, which may be lazy.
#[derive(Clone, Copy)]
pub enum Before {
    Nothing,
    Something,
    Quantifier(bool),
}

/// What a token means for the form: it is refused, or the reading goes on behind this.
#[derive(Clone, Copy)]
pub enum AfterToken {
    Refused(AtByte),
    Behind(Before),
}

fn wrong(at: u32) -> AtByte
    ensures { result ≡ wrong_syntax at }
{
    AtByte {
        code: PATTERN_SYNTAX,
        at,
    }
}

// What is unclosed is refused at its leftmost opening.
fn leftmost(opened: &[u32]) -> Option<AtByte>
    ensures { result ≡ unclosed_refusal (reverse opened.now) }
{
    match opened.split_first() {
        Some((first, _)) => Some(wrong(*first)),
        None => None,
    }
}

// The same where a class that begins here is unclosed too.
fn leftmost_or(opened: &[u32], at: u32) -> AtByte
    ensures { unclosed_refusal (at ∷ reverse opened.now) ≡ Some result }
{
    match opened.split_first() {
        Some((first, _)) => wrong(*first),
        None => wrong(at),
    }
}

fn count_refusal(at: u32, before: Before, count: Count) -> Option<AtByte>
    ensures { result ≡ count_refusal at (before_view before) (count_view count) }
{
    match before {
        Before::Nothing => Some(wrong(at)),
        Before::Something => None,
        Before::Quantifier(lazy) => {
            if count.is_plus && !lazy {
                return Some(AtByte {
                    code: PATTERN_UNSUPPORTED,
                    at,
                });
            }
            Some(wrong(at))
        }
    }
}

fn after_count(at: u32, before: Before, count: Count) -> AfterToken
    ensures { (opened : List ℕ) (later : List ℕ → BeforeToken → Option AtByte)
        → NextIs result opened later (refusal_at opened (before_view before) at (counts (count_view count)) later) }
{
    match count_refusal(at, before, count) {
        Some(refusal) => AfterToken::Refused(refusal),
        None => AfterToken::Behind(Before::Quantifier(!count.greedy)),
    }
}

// A `)` closes the innermost group, if one is open.
fn after_close(opened: &mut Vec<u32>, at: u32) -> AfterToken
    ensures { (later : List ℕ → BeforeToken → Option AtByte)
        → NextIs result (reverse opened.new.items) later
        (close_refusal (reverse opened.old.items) at (λ opened. later opened something)) }
{
    match opened.pop() {
        Some(_) => AfterToken::Behind(Before::Something),
        None => AfterToken::Refused(wrong(at)),
    }
}

fn refusal_at(
    opened: &mut Vec<u32>,
    before: Before,
    placed: &Placed,
) -> Result<AfterToken, NoMemory>
    ensures { IfOk result (λ next. (later : List ℕ → BeforeToken → Option AtByte)
        → NextIs next (reverse opened.new.items) later
        (refusal_at (reverse opened.old.items) (before_view before)
        placed.now.at (token_view placed.now.token) later)) }
{
    let at = placed.at;
    match placed.token {
        Token::Item(_) => Ok(AfterToken::Behind(Before::Something)),
        Token::Opens(_) => {
            opened.push(at)?;
            Ok(AfterToken::Behind(Before::Nothing))
        }
        Token::Closes => Ok(after_close(opened, at)),
        Token::Bars => Ok(AfterToken::Behind(Before::Nothing)),
        Token::Counts(count) => Ok(after_count(at, before, count)),
        Token::Unclosed => Ok(AfterToken::Refused(leftmost_or(opened, at))),
        Token::Broken(refusal) => Ok(AfterToken::Refused(refusal)),
    }
}

/// The first refusal of form, in reading from the left.
pub fn first_refusal(alloc: Global, tokens: &[Placed]) -> Result<Option<AtByte>, NoMemory>
    ensures { IfOk result (λ refusal. refusal ≡ first_refusal [] nothing (map placed_view tokens.now)) }
{
    let mut opened = Vec::new(alloc);
    let mut before = Before::Nothing;
    for placed in tokens {
        match refusal_at(&mut opened, before, placed)? {
            AfterToken::Refused(refusal) => return Ok(Some(refusal)),
            AfterToken::Behind(now) => before = now,
        }
    }
    Ok(leftmost(&opened))
}

fn opens_one(token: &Token) -> usize
    ensures value { result ≡ opens_one (token_view token.now) }
    ensures few { result ≤ 1 }
{
    match token {
        Token::Opens(Some(_)) => 1,
        _ => 0,
    }
}

// How many groups keep what they span.
fn groups_of(tokens: &[Placed]) -> usize
    ensures { result ≡ groups_of (map placed_view tokens.now) }
{
    let mut groups = 0usize;
    for placed in tokens {
        groups += opens_one(&placed.token);
    }
    groups
}

fn refused(code: u8, at: u32) -> PatFault
    ensures { result ≡ Refused (record { code = code; at = at }) }
{
    Fault::Refused(AtByte { code, at })
}

// The pattern of tokens whose form is not refused.
fn sized(alloc: Global, tokens: &[Placed]) -> Result<Pat, PatFault>
    ensures { GivesPattern result
        (sized (groups_of (map placed_view tokens.now)) (syntax_of (map placed_view tokens.now))) }
{
    if groups_of(tokens) > MOST_GROUPS {
        return Err(refused(PATTERN_TOO_LARGE, 0));
    }
    let part = build(alloc, tokens)?;
    if part.nodes > MOST_NODES {
        return Err(refused(PATTERN_TOO_LARGE, 0));
    }
    if let Some(at) = part.looping {
        return Err(refused(EMPTY_LOOP, at));
    }
    Ok(part.pat)
}

/// The pattern of a text (PCRE, "pcrepattern", of which this is a part): bytes, `.`, escapes of bytes
/// that are no letters or digits, `\xHH`, `\d`, `\w`, `\s`, `\D`, `\W`, `\S`, classes with ranges and named
/// sets, `(p)`, `(?:p)`, `|`, the quantifiers `*`, `+`, `?`, `{m}`, `{m,}` and `{m,n}` to 255, each also lazy,
/// `^` and `$`. With `nocase` a letter is each of its cases.
///
/// It refuses 13 other escapes and `(?` forms, possessive quantifiers, `{,` and `[:^`; 14 what is not
/// closed (at its leftmost opening) or not opened, a quantifier on nothing or on a quantifier, a range
/// or a count that falls, and a final backslash: of these the first in reading from the left. Then 15
/// over 32 groups or 4,096 nodes, at byte 0, and 16 at the leftmost quantifier that repeats what can
/// match the empty text. A pattern of over 4 GiB is answered as if memory were refused (our own choice).
pub fn parse_pattern(alloc: Global, text: &[u8], nocase: bool) -> Result<Pat, PatFault>
    ensures { GivesPattern result (parse_pattern text.now nocase) }
{
    let tokens = tokens(alloc, nocase, text)?;
    if let Some(refusal) = first_refusal(alloc, &tokens)? {
        return Err(Fault::Refused(refusal));
    }
    sized(alloc, &tokens)
}
