ghost use Rattle.std.specs.Prelude.{◌≡◌};
ghost use Rattle.std.specs.List.{list_any};
ghost use Rattle.hc_base.specs.Gives.{Gives};
ghost use Rattle.hc_config.specs.Among.{among_of};
ghost use Rattle.hc_config.specs.Directives.{auth_merging, require, require_container};
ghost use Rattle.hc_config.specs.Requires.{all_need, asked_by, has_unknown_kind, is_form, is_none_of};
ghost use Rattle.hc_config.specs.Requires.{is_word, kind_named};
ghost use Rattle.hc_config.specs.Requires.{line_of, merging_named, need_of, negated_rule, negation_rule, nets_of};
ghost use Rattle.hc_config.specs.RequireViews.{line_view};
ghost use Rattle.hc_config.specs.declared.requiring.Kind.TheVariants as kind;

use crate::among::{Among, place_of};
use crate::containers::Container;
use crate::effect::{Effect, EffectFault, REFUSED, texts_of};
use crate::gathered::{Given, Holding};
use hc_addr::{Net, parse_net};
use hc_base::codes::{BAD_ADDRESS, NEGATED_IN_ANY, NEGATED_IN_NONE, UNSUPPORTED_DIRECTIVE};
use hc_base::{AtByte, CowStr, Fault, List};
use hc_model::{Merging, Need, ReqTree};
use std::alloc::Global;

/// What a Require line speaks of.
#[derive(Clone, Copy)]
pub(crate) enum Kind {
    All,
    Method,
    Ip,
    Local,
}

/// The words of a Require line, without `not`.
#[derive(Clone, Copy)]
pub(crate) struct Line<'w, 't> {
    pub negated: bool,
    pub words: &'w [CowStr<'t>],
}

/// `Require [not] kind word ..` (mod_authz_core, mod_authz_host).
pub(crate) fn require(among: &Among, words: &[CowStr]) -> Result<Effect, EffectFault>
    ensures { Gives result (require (among_of among.now) words.now) }
{
    let line = line_of(words);
    let need = asked_by(among.alloc, among.container, line)?;
    Ok(Effect::Gives(Given::Member(ReqTree::Leaf {
        place: place_of(among.entry)?,
        negated: line.negated,
        need,
    })))
}

fn line_of<'w, 't>(words: &'w [CowStr<'t>]) -> Line<'w, 't>
    ensures { line_view result ≡ line_of words.now }
{
    match words {
        [word, behind @ ..] if is_word("not", word) => Line {
            negated: true,
            words: behind,
        },
        _ => Line {
            negated: false,
            words,
        },
    }
}

/// The word is this one, without case.
pub(crate) fn is_word(fixed: &str, word: &CowStr) -> bool
    ensures { result ≡ is_word fixed.now word.now }
{
    fixed.eq_ignore_ascii_case(word.as_str())
}

fn asked_by(alloc: Global, container: Option<Container>, line: Line) -> Result<Need, EffectFault>
    ensures { Gives result (asked_by container (line_view line.entry)) }
{
    let [word, words @ ..] = line.words else {
        return Err(REFUSED);
    };
    let Some(kind) = kind_named(word) else {
        return Err(broken(UNSUPPORTED_DIRECTIVE));
    };
    if !is_form(kind, words) {
        return Err(REFUSED);
    }
    match negated_rule(line.negated, container) {
        Some(code) => Err(broken(code)),
        None => need_of(alloc, kind, words),
    }
}

fn broken(code: u8) -> EffectFault
    ensures { result ≡ Fault.Refused (record { code = code; at = 0 }) }
{
    Fault::Refused(AtByte::rule(code))
}

/// The kind of a Require line is not known.
pub(crate) fn has_unknown_kind(words: &[CowStr]) -> bool
    ensures { result ≡ has_unknown_kind (line_of words.now).words }
{
    match line_of(words).words {
        [word, ..] => kind_named(word).is_none(),
        [] => false,
    }
}

fn kind_named(word: &CowStr) -> Option<Kind>
    ensures { result ≡ kind_named word.now }
{
    if is_word("all", word) {
        Some(Kind::All)
    } else if is_word("method", word) {
        Some(Kind::Method)
    } else if is_word("ip", word) {
        Some(Kind::Ip)
    } else if is_word("local", word) {
        Some(Kind::Local)
    } else {
        None
    }
}

fn is_form(kind: Kind, words: &[CowStr]) -> bool
    ensures { result ≡ is_form kind words.now }
{
    match kind {
        Kind::All => is_granted_or_denied(words),
        Kind::Method | Kind::Ip => !words.is_empty(),
        Kind::Local => words.is_empty(),
    }
}

fn is_granted_or_denied(words: &[CowStr]) -> bool
    ensures { result ≡ is_form kind.All words.now }
{
    match words {
        [word] => is_word("granted", word) || is_word("denied", word),
        _ => false,
    }
}

fn need_of(alloc: Global, kind: Kind, words: &[CowStr]) -> Result<Need, EffectFault>
    ensures { Gives result (need_of kind words.now) }
{
    match kind {
        Kind::All => Ok(all_need(words)),
        Kind::Method => Ok(Need::Method(texts_of(alloc, words)?)),
        Kind::Ip => Ok(Need::Ip(nets_of(alloc, words)?)),
        Kind::Local => Ok(Need::Local),
    }
}

fn all_need(words: &[CowStr]) -> Need
    ensures { result ≡ all_need words.now }
{
    if has_word("granted", words) {
        Need::Granted
    } else {
        Need::Denied
    }
}

fn has_word(fixed: &str, words: &[CowStr]) -> bool
    ensures { result ≡ list_any (is_word fixed.now) words.now }
{
    words.iter().any(|word| is_word(fixed, word))
}

#[tactic(auto, using(crate::proofs::Networks::one_net_more))]
fn nets_of(alloc: Global, words: &[CowStr]) -> Result<List<Net>, EffectFault>
    ensures { Gives result (nets_of words.now) }
{
    let mut nets = List::new(alloc);
    for word in words {
        match parse_net(word.as_str().as_bytes()) {
            Ok(net) => nets.push(net)?,
            Err(_) => return Err(broken(BAD_ADDRESS)),
        }
    }
    Ok(nets)
}

fn negated_rule(negated: bool, container: Option<Container>) -> Option<u8>
    ensures { result ≡ negated_rule negated container }
{
    if negated {
        negation_rule(container)
    } else {
        None
    }
}

// What is negated may stand in a RequireAll alone.
fn negation_rule(container: Option<Container>) -> Option<u8>
    ensures { result ≡ negation_rule container }
{
    match container {
        Some(Container::All) => None,
        Some(Container::NoneOf) => Some(NEGATED_IN_NONE),
        Some(Container::Any) | None => Some(NEGATED_IN_ANY),
    }
}

/// `<RequireAll>` and its like, without words (mod_authz_core). A RequireNone is negated.
pub(crate) fn require_container(
    container: Container,
    among: &Among,
    words: &[CowStr],
) -> Result<Effect, EffectFault>
    ensures { Gives result (require_container container (among_of among.now) words.now) }
{
    if !words.is_empty() {
        return Err(REFUSED);
    }
    match negated_rule(is_none_of(container), among.container) {
        Some(code) => Err(broken(code)),
        None => Ok(Effect::Holds(Holding {
            place: place_of(among.entry)?,
            container,
        })),
    }
}

fn is_none_of(container: Container) -> bool
    ensures { result ≡ is_none_of container }
{
    matches!(container, Container::NoneOf)
}

/// `AuthMerging Off|And|Or` (mod_authz_core).
pub(crate) fn auth_merging(words: &[CowStr]) -> Result<Effect, EffectFault>
    ensures { Gives result (auth_merging words.now) }
{
    let [word] = words else {
        return Err(REFUSED);
    };
    match merging_named(word) {
        Some(merging) => Ok(Effect::Gives(Given::Merges(merging))),
        None => Err(REFUSED),
    }
}

fn merging_named(word: &CowStr) -> Option<Merging>
    ensures { result ≡ merging_named word.now }
{
    if is_word("Off", word) {
        Some(Merging::Off)
    } else if is_word("And", word) {
        Some(Merging::And)
    } else if is_word("Or", word) {
        Some(Merging::Or)
    } else {
        None
    }
}
