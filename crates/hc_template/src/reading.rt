ghost use Rattle.std.specs.Prelude.{◌≡◌, [], MatchOption};
ghost use Rattle.hc_base.specs.Gives.{Gives};
ghost use Rattle.hc_template.specs.Fronts.{Begins, cut_of};
ghost use Rattle.hc_template.specs.Reading.{lookup_sign, template};

use crate::front::{Sign, sign_at};
use crate::pieces::Pieces;
use crate::signs::Signs;
use hc_base::{AtByte, Fault};
use hc_model::Template;
use std::alloc::Global;

/// Reads a text in which these signs stand for parts; all other bytes stand for themselves (Apache
/// manual, mod_rewrite, "Test String", "Substitution" and RewriteMap; mod_alias, RedirectMatch;
/// "Expressions in Apache HTTP Server"). Refused with `UNSUPPORTED_VARIABLE` where a name or a look-up may
/// not stand in it; `NoMemory` where memory is refused.
pub fn read_template(alloc: Global, text: &[u8], signs: Signs) -> Result<Template, Fault<AtByte>>
    ensures { Gives result (template signs text.now) }
{
    let mut pieces = Pieces::new(alloc);
    let mut rest = text;
    let mut left = signs;
    while let Some(sign) = first_sign(left, rest) {
        rest = pieces.add_sign(left, sign)?;
        left = sign.signs;
    }
    Ok(pieces.into_template()?)
}

// The first sign of a text, if there is one.
fn first_sign(signs: Signs, text: &[u8]) -> Option<Sign<'_>>
    ensures { MatchOption result (text.now ≡ []) (λ sign.
        Begins signs sign.signs text.now (cut_of (lookup_sign signs) signs.names sign.front sign.behind.now)) }
{
    match text {
        [] => None,
        [byte, rest @ ..] => Some(sign_at(signs, *byte, rest)),
    }
}
