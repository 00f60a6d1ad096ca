ghost use Rattle.std.specs.Prelude.{◌≡◌, Ok};
ghost use Rattle.hc_base.specs.Gives.{Gives};
ghost use Rattle.hc_pattern.specs.Reading.{parse_pattern};
ghost use Rattle.hc_rw_parse.specs.Rules.{cond_of, cond_with, equals_text, kind_behind, kind_of};
ghost use Rattle.hc_rw_parse.specs.Rules.{nocase_of, other_kind, searched, without_sign};

use crate::cond_flags::{CondFlags, cond_flags_in};
use crate::parts::{RwFault, WRONG, is_negated, regex_of, template_of, without_sign};
use hc_base::codes::UNSUPPORTED_CONDITION;
use hc_base::{AtByte, CowStr, Fault, Text};
use hc_expr::both;
use hc_model::{Cond, CondKind, Spot};
use std::alloc::Global;

const UNSUPPORTED: RwFault = Fault::Refused(AtByte {
    code: UNSUPPORTED_CONDITION,
    at: 0,
});

/// The condition of a RewriteCond's words (Apache manual, mod_rewrite): a test string; what it is tested for,
/// `-f`, `-d`, `=text` or a pattern, which a leading `!` negates; and flags in brackets, without blanks.
///
/// It refuses 3 for another number of words; else the smallest of these counts, and of equal ones the first:
/// 13 to 16 as `parse_pattern` does, at a byte of the pattern, 17 for what is no flag, 19 for a variable or a
/// look-up and 20 for a test that is not supported.
#[tactic(auto, unfolding(crate::specs::Rules::cond_of))]
pub fn parse_cond(alloc: Global, words: &[CowStr], spot: Spot) -> Result<Cond, RwFault>
    ensures { Gives result (cond_of spot words.now) }
{
    match words {
        [test, text] => cond_with(alloc, spot, test, text, Ok(CondFlags::NONE)),
        [test, text, flags] => {
            let flags = cond_flags_in(flags.as_str().as_bytes());
            cond_with(alloc, spot, test, text, flags)
        }
        _ => Err(WRONG),
    }
}

fn cond_with(
    alloc: Global,
    spot: Spot,
    test: &CowStr,
    text: &CowStr,
    flags: Result<CondFlags, AtByte>,
) -> Result<Cond, RwFault>
    ensures { Gives result (cond_with spot test.now text.now flags) }
{
    let kind = kind_behind(alloc, test, nocase_of(&flags), text);
    let parts = both::<_, _, (CondKind, CondFlags)>(kind, refused(flags));
    match both::<_, _, Cond>(parts, template_of(alloc, test)) {
        Ok((parts, test)) => {
            let (kind, flags) = parts;
            Ok(Cond {
                place: spot.place,
                span: spot.span,
                test,
                kind,
                negated: is_negated(text),
                nocase: flags.nocase,
                or_next: flags.or_next,
            })
        }
        Err(fault) => Err(fault),
    }
}

fn refused(flags: Result<CondFlags, AtByte>) -> Result<CondFlags, RwFault>
    ensures { Gives result flags }
{
    match flags {
        Ok(flags) => Ok(flags),
        Err(broken) => Err(Fault::Refused(broken)),
    }
}

fn nocase_of(flags: &Result<CondFlags, AtByte>) -> bool
    ensures { result ≡ nocase_of flags.now }
{
    match flags {
        Ok(flags) => flags.nocase,
        Err(_) => false,
    }
}

// An expression is not supported, and no pattern is read.
fn kind_behind(
    alloc: Global,
    test: &CowStr,
    nocase: bool,
    text: &CowStr,
) -> Result<CondKind, RwFault>
    ensures { Gives result (kind_behind test.now nocase (without_sign text.now)) }
{
    if test.as_str().eq_ignore_ascii_case("expr") {
        Err(UNSUPPORTED)
    } else {
        kind_of(alloc, nocase, without_sign(text))
    }
}

fn kind_of(alloc: Global, nocase: bool, text: &[u8]) -> Result<CondKind, RwFault>
    ensures { Gives result (kind_of nocase text.now) }
{
    if text == b"-f".as_slice() {
        Ok(CondKind::IsFile)
    } else if text == b"-d".as_slice() {
        Ok(CondKind::IsDir)
    } else {
        other_kind(alloc, nocase, text)
    }
}

// `=text`, or a pattern. Tests that are not supported begin with `-`, `<` or `>`.
fn other_kind(alloc: Global, nocase: bool, text: &[u8]) -> Result<CondKind, RwFault>
    ensures { Gives result (other_kind nocase text.now) }
{
    match text {
        [b'=', behind @ ..] => Ok(CondKind::Equals(Text::copy_of(alloc, equals_text(behind))?)),
        [b'-' | b'<' | b'>', ..] => Err(UNSUPPORTED),
        _ => searched(alloc, nocase, text),
    }
}

fn searched(alloc: Global, nocase: bool, text: &[u8]) -> Result<CondKind, RwFault>
    ensures { Gives result (searched (parse_pattern text.now nocase)) }
{
    match regex_of(alloc, text, nocase) {
        Ok(pattern) => Ok(CondKind::Search(pattern)),
        Err(fault) => Err(fault),
    }
}

// `=""` is the empty text.
fn equals_text(text: &[u8]) -> &[u8]
    ensures { result.now ≡ equals_text text.now }
{
    if text == b"\"\"".as_slice() {
        &[]
    } else {
        text
    }
}
