//! The directives of rewriting, and LimitInternalRecursion.
ghost use Rattle.std.specs.Prelude.{◌≡◌, ◌&&◌, drop, length, IfOk};
ghost use Rattle.hc_base.specs.Gives.{Gives};
ghost use Rattle.hc_base.specs.Paths.{begins_with_slash};
ghost use Rattle.hc_target.specs.Urls.{begins_without_case};
ghost use Rattle.hc_config.specs.Among.{among_of};
ghost use Rattle.hc_config.specs.Directives as definition;
ghost use Rattle.hc_config.specs.Directives.{rewrite_base, rewrite_cond, rewrite_engine, rewrite_map};
ghost use Rattle.hc_config.specs.Directives.{rewrite_options, rewrite_rule};
ghost use Rattle.hc_config.specs.Rewrites.{engine_of, inherit_of, limit_of, map_kind, map_of, recursion_of};
ghost use Rattle.hc_config.specs.Rewrites.{rule_read, substitution_of, text_front, unless_followed};

use crate::among::{Among, spot_of};
use crate::effect::{Effect, EffectFault, REFUSED};
use crate::following::{goes_on_behind, rule_follows};
use crate::gathered::Given;
use crate::requiring::is_word;
use crate::rewriting::MOST_RECURSIONS;
use crate::targets::is_absolute;
use hc_addr::number_up_to;
use hc_base::codes::{MAP_FORM, REDIRECT_WITHOUT_LAST};
use hc_base::paths::begins_with_slash;
use hc_base::{AtByte, CowStr, Fault, NoMemory, Text};
use hc_model::{Inherit, Map, MapKind, Rule};
use hc_rw_parse::{parse_cond, parse_rule};
use hc_target::begins_without_case;
use hc_template::is_map_name;
use std::alloc::Global;

// What stands before the path of a map's file.
const TEXT_FRONT: &[u8] = b"txt:";

const BAD_MAP: EffectFault = Fault::Refused(AtByte {
    code: MAP_FORM,
    at: 0,
});

const NO_LAST: EffectFault = Fault::Refused(AtByte {
    code: REDIRECT_WITHOUT_LAST,
    at: 0,
});

/// `RewriteEngine On|Off` (mod_rewrite).
pub(crate) fn rewrite_engine(words: &[CowStr]) -> Result<Effect, EffectFault>
    ensures { Gives result (rewrite_engine words.now) }
{
    match engine_of(words) {
        Ok(on) => Ok(Effect::Gives(Given::Engine(on))),
        Err(fault) => Err(fault),
    }
}

fn engine_of(words: &[CowStr]) -> Result<bool, EffectFault>
    ensures { Gives result (engine_of words.now) }
{
    match words {
        [word] if is_word("On", word) => Ok(true),
        [word] if is_word("Off", word) => Ok(false),
        _ => Err(REFUSED),
    }
}

/// `RewriteOptions Inherit|InheritBefore` (mod_rewrite).
pub(crate) fn rewrite_options(words: &[CowStr]) -> Result<Effect, EffectFault>
    ensures { Gives result (rewrite_options words.now) }
{
    match inherit_of(words) {
        Ok(inherit) => Ok(Effect::Gives(Given::Inherits(inherit))),
        Err(fault) => Err(fault),
    }
}

fn inherit_of(words: &[CowStr]) -> Result<Inherit, EffectFault>
    ensures { Gives result (inherit_of words.now) }
{
    match words {
        [word] if is_word("Inherit", word) => Ok(Inherit::After),
        [word] if is_word("InheritBefore", word) => Ok(Inherit::Before),
        _ => Err(REFUSED),
    }
}

/// `RewriteBase path` (mod_rewrite): a path that begins with a slash.
pub(crate) fn rewrite_base(among: &Among, words: &[CowStr]) -> Result<Effect, EffectFault>
    ensures { Gives result (rewrite_base words.now) }
{
    match words {
        [path] if is_absolute(path) => {
            let path = Text::copy_of(among.alloc, path.as_str().as_bytes())?;
            Ok(Effect::Gives(Given::Base(path)))
        }
        _ => Err(REFUSED),
    }
}

/// `LimitInternalRecursion number [number]` (core): the second is for subrequests, of which there are none.
pub(crate) fn recursion(words: &[CowStr]) -> Result<Effect, EffectFault>
    ensures { Gives result (definition.recursion words.now) }
{
    match recursion_of(words) {
        Ok(limit) => Ok(Effect::Gives(Given::Recursion(limit))),
        Err(fault) => Err(fault),
    }
}

fn recursion_of(words: &[CowStr]) -> Result<u32, EffectFault>
    ensures { Gives result (recursion_of words.now) }
{
    match words {
        [first] => limit_of(first),
        [first, second] => {
            let limit = limit_of(first)?;
            limit_of(second)?;
            Ok(limit)
        }
        _ => Err(REFUSED),
    }
}

fn limit_of(word: &CowStr) -> Result<u32, EffectFault>
    ensures { Gives result (limit_of word.now) }
{
    match number_up_to(word.as_str().as_bytes(), MOST_RECURSIONS) {
        Some(limit) if limit >= 1 => Ok(limit),
        _ => Err(REFUSED),
    }
}

/// `RewriteMap name source` (mod_rewrite).
pub(crate) fn rewrite_map(among: &Among, words: &[CowStr]) -> Result<Effect, EffectFault>
    ensures { Gives result (rewrite_map words.now) }
{
    match map_of(among.alloc, words) {
        Ok(map) => Ok(Effect::Gives(Given::Values(map))),
        Err(fault) => Err(fault),
    }
}

fn map_of(alloc: Global, words: &[CowStr]) -> Result<Map, EffectFault>
    ensures { Gives result (map_of words.now) }
{
    let [name, source] = words else {
        return Err(REFUSED);
    };
    let name = name.as_str().as_bytes();
    match map_kind(alloc, source.as_str().as_bytes())? {
        Some(kind) if is_map_name(name) => Ok(Map {
            name: Text::copy_of(alloc, name)?,
            kind,
        }),
        _ => Err(BAD_MAP),
    }
}

// `txt:` and a path that begins with a slash, `int:toupper` or `int:tolower`.
fn map_kind(alloc: Global, source: &[u8]) -> Result<Option<MapKind>, NoMemory>
    ensures { IfOk result (λ kind. kind ≡ map_kind source.now) }
{
    if b"int:toupper".eq_ignore_ascii_case(source) {
        return Ok(Some(MapKind::Upper));
    }
    if b"int:tolower".eq_ignore_ascii_case(source) {
        return Ok(Some(MapKind::Lower));
    }
    if has_text_path(source) {
        let path = behind_front(source);
        return Ok(Some(MapKind::File(Text::copy_of(alloc, path)?)));
    }
    Ok(None)
}

fn has_text_path(source: &[u8]) -> bool
    ensures { result ≡ (begins_without_case text_front source.now
        && begins_with_slash (drop (length text_front) source.now)) }
{
    begins_without_case(TEXT_FRONT, source) && begins_with_slash(behind_front(source))
}

// What follows `txt:`.
fn behind_front(source: &[u8]) -> &[u8]
    ensures { result.now ≡ drop (length text_front) source.now }
{
    source.split_at(source.len().min(TEXT_FRONT.len())).1
}

/// `RewriteCond test pattern [flags]` (mod_rewrite).
pub(crate) fn rewrite_cond(among: &Among, words: &[CowStr]) -> Result<Effect, EffectFault>
    ensures { Gives result (rewrite_cond (among_of among.now) words.now) }
{
    match parse_cond(among.alloc, words, spot_of(among.entry)?) {
        Ok(cond) => Ok(Effect::Gives(Given::Condition(cond))),
        Err(fault) => Err(fault),
    }
}

/// `RewriteRule pattern substitution [flags]` (mod_rewrite).
pub(crate) fn rewrite_rule(among: &Among, words: &[CowStr]) -> Result<Effect, EffectFault>
    ensures { Gives result (rewrite_rule (among_of among.now) words.now) }
{
    match rule_read(among, words) {
        Ok(rule) => Ok(Effect::Gives(Given::Rewrite(rule))),
        Err(fault) => Err(fault),
    }
}

fn rule_read(among: &Among, words: &[CowStr]) -> Result<Rule, EffectFault>
    ensures { Gives result (rule_read (among_of among.now).entry.spot (among_of among.now).behind words.now) }
{
    match parse_rule(among.alloc, words, spot_of(among.entry)?) {
        Ok(rule) => unless_followed(among, substitution_of(words), rule),
        Err(fault) => Err(fault),
    }
}

// A rule that redirects has L or END where another follows it; our own choice.
fn unless_followed(among: &Among, substitution: &[u8], rule: Rule) -> Result<Rule, EffectFault>
    ensures { Gives result (unless_followed substitution.now (among_of among.now).behind rule) }
{
    if goes_on_behind(&rule, substitution) && rule_follows(among) {
        return Err(NO_LAST);
    }
    Ok(rule)
}

fn substitution_of<'w>(words: &'w [CowStr]) -> &'w [u8]
    ensures { result.now ≡ substitution_of words.now }
{
    match words {
        [_, substitution, ..] => substitution.as_str().as_bytes(),
        _ => &[],
    }
}
