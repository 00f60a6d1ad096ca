//! Rules whose form makes the text shorter.
ghost use Rattle.std.specs.Prelude.{◌≡◌, ◌&&◌, ◌+◌, nat_le};
ghost use Rattle.hc_pattern.specs.Pattern.{pattern_of};
ghost use Rattle.hc_rank.specs.Ranks.{added, begins_shorter, fits, groups_in, is_not_longer, is_plain, is_shorter};
ghost use Rattle.hc_rank.specs.Ranks.{least_rest, redirects, shortens_by, shrinks, stops_list};

use crate::least::rest_outside;
use crate::plain::{added, groups_of, nests};
use hc_model::{Flags, Piece, Rule};
use hc_pattern::Pat;

// Rounds that get shorter end before this many.
const ENOUGH_ROUNDS: u32 = 8192;

/// Whether each rule of a list has a form by which a round that one begins has a shorter text than the one before: of
/// the list of a directory where `directory` is true. Takes no memory.
pub fn shrinks(rules: &[Rule], directory: bool) -> bool
    ensures { result ≡ shrinks directory rules.now }
{
    rules.iter().all(|rule| fits(rule, directory))
}

fn fits(rule: &Rule, directory: bool) -> bool
    ensures { result ≡ fits directory rule.now }
{
    if stops_list(&rule.flags) {
        true
    } else if rule.flags.next {
        begins_shorter(rule, directory)
    } else if redirects(&rule.flags) || rule.subst.is_none() {
        true
    } else {
        is_not_longer(rule)
    }
}

/// Behind the rule no other one of the list sees the text.
fn stops_list(flags: &Flags) -> bool
    ensures { result ≡ stops_list flags.now }
{
    flags.forbid || flags.gone || flags.pass || flags.end || flags.last
}

fn redirects(flags: &Flags) -> bool
    ensures { result ≡ redirects flags.now }
{
    flags.redirect > 0
}

/// A rule that begins a round.
fn begins_shorter(rule: &Rule, directory: bool) -> bool
    ensures { result ≡ begins_shorter directory rule.now }
{
    is_shorter(rule) && rule.flags.rounds >= ENOUGH_ROUNDS && (!directory || rule.flags.discard)
}

fn is_shorter(rule: &Rule) -> bool
    ensures { result ≡ is_shorter rule.now }
{
    !rule.negated && shortens_by(rule, 1)
}

fn is_not_longer(rule: &Rule) -> bool
    ensures { result ≡ is_not_longer rule.now }
{
    !rule.negated && shortens_by(rule, 0)
}

/// The text behind such a substitution is at least so many bytes shorter than the one that was matched.
fn shortens_by(rule: &Rule, less: u8) -> bool
    ensures { result ≡ shortens_by less rule.now }
{
    match &rule.subst {
        None => false,
        Some(template) => shortens(rule.pat.as_pat(), template.as_slice(), less),
    }
}

fn shortens(pat: &Pat, template: &[Piece], less: u8) -> bool
    ensures { result ≡ (is_plain (pattern_of pat.now) template.now
        && nat_le (added template.now + less) (least_rest (groups_in template.now) (pattern_of pat.now))) }
{
    match groups_of(template) {
        None => false,
        Some(set) => !nests(pat, set)
            && added(template) + u128::from(less) <= rest_outside(pat, set),
    }
}
