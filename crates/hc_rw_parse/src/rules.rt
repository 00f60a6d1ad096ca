ghost use Rattle.hc_base.specs.Gives.{Gives};
ghost use Rattle.hc_pattern.specs.Reading.{parse_pattern};
ghost use Rattle.hc_rw_parse.specs.Rules.{flags_of, rule_of, rule_with, substitution, without_sign};

use crate::flags::{Flagged, flags_in};
use crate::parts::{RwFault, WRONG, is_negated, regex_of, template_of, without_sign};
use hc_base::{CowStr, Fault, List};
use hc_expr::both;
use hc_model::{Flags, Regex, Rule, Spot, Template};
use std::alloc::Global;

/// The rule of a RewriteRule's words (Apache manual, mod_rewrite): a pattern, which a leading `!` negates; a
/// substitution, of which `-` makes none; and flags in brackets, without blanks. It has no conditions yet.
///
/// It refuses 3 for any other number of words; else the smallest of these counts, and of equal ones the
/// first: 13 to 16 as `parse_pattern` does, at a byte of the pattern, 17 for what is no flag, 18 for a flag and
/// 19 for a variable or a look-up that is not supported.
#[tactic(auto, unfolding(crate::specs::Rules::rule_of))]
pub fn parse_rule(alloc: Global, words: &[CowStr], spot: Spot) -> Result<Rule, RwFault>
    ensures { Gives result (rule_of spot words.now) }
{
    match words {
        [pattern, subst] => {
            let flagged = Flagged::nothing(alloc);
            rule_with(alloc, spot, pattern, subst, flagged)
        }
        [pattern, subst, flags] => {
            let flagged = flags_in(alloc, flags.as_str().as_bytes())?;
            rule_with(alloc, spot, pattern, subst, flagged)
        }
        _ => Err(WRONG),
    }
}

fn rule_with(
    alloc: Global,
    spot: Spot,
    pattern: &CowStr,
    subst: &CowStr,
    flagged: Flagged,
) -> Result<Rule, RwFault>
    ensures { Gives result (rule_with spot pattern.now subst.now flagged) }
{
    let pattern_read = pattern_of(alloc, pattern, flagged.nocase);
    let parts = both::<_, _, (Regex, Flags)>(pattern_read, flags_of(flagged));
    match both::<_, _, Rule>(parts, substitution(alloc, subst)) {
        Ok((parts, subst)) => {
            let (pat, flags) = parts;
            Ok(Rule {
                place: spot.place,
                span: spot.span,
                pat,
                negated: is_negated(pattern),
                conds: List::new(alloc),
                subst,
                flags,
            })
        }
        Err(fault) => Err(fault),
    }
}

fn flags_of(flagged: Flagged) -> Result<Flags, RwFault>
    ensures { Gives result (flags_of flagged) }
{
    match flagged.broken {
        None => Ok(flagged.flags),
        Some(broken) => Err(Fault::Refused(broken)),
    }
}

fn pattern_of(alloc: Global, word: &CowStr, nocase: bool) -> Result<Regex, RwFault>
    ensures { Gives result (parse_pattern (without_sign word.now) nocase) }
{
    regex_of(alloc, without_sign(word), nocase)
}

// None is `-`.
fn substitution(alloc: Global, word: &CowStr) -> Result<Option<Template>, RwFault>
    ensures { Gives result (substitution word.now) }
{
    if word.as_str() == "-" {
        return Ok(None);
    }
    match template_of(alloc, word) {
        Ok(pieces) => Ok(Some(pieces)),
        Err(fault) => Err(fault),
    }
}
