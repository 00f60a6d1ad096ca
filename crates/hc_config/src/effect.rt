ghost use Rattle.std.specs.Prelude.{◌≡◌, ◌&&◌, IfOk};
ghost use Rattle.hc_base.specs.Gives.{Gives};
ghost use Rattle.hc_config.specs.Among.{among_of};
ghost use Rattle.hc_config.specs.Directives as definition;
ghost use Rattle.hc_config.specs.Directives.{alias_by, allow_override, counted, document_root};
ghost use Rattle.hc_config.specs.Directives.{server_alias, server_name, server_root, this_argument};

use crate::among::{Among, place_of};
use crate::classes::allowed_by;
use crate::gathered::{Given, Holding, Opening};
use crate::hosts::name_without_port;
use crate::options::options_step;
use crate::targets::{PathForm, is_absolute, own_target_by, test_by};
use hc_base::codes::WRONG_ARGUMENTS;
use hc_base::paths::without_final_slash;
use hc_base::{AtByte, CowStr, Fault, List, NoMemory, Text};
use hc_model::Alias;
use std::alloc::Global;

/// What an entry does.
#[derive(Drop)]
pub(crate) enum Effect {
    Nothing,
    /// It gives this to the server or section in which it stands.
    Gives(Given),
    Opens(Opening),
    /// The innermost opening is closed.
    Closes,
    /// A container of Require lines begins.
    Holds(Holding),
    /// The innermost of these ends.
    Releases,
}

/// Why an entry gives nothing: the smallest of the rules that it breaks (specs/Broken.antt).
pub(crate) type EffectFault = Fault<AtByte>;

pub(crate) const WRONG: AtByte = AtByte {
    code: WRONG_ARGUMENTS,
    at: 0,
};

pub(crate) const REFUSED: EffectFault = Fault::Refused(WRONG);

// At least and at most so many words.
pub(crate) fn counted(least: usize, most: usize, words: &[CowStr]) -> Result<Effect, EffectFault>
    ensures { Gives result (counted least most words.now) }
{
    if least <= words.len() && words.len() <= most {
        Ok(Effect::Nothing)
    } else {
        Err(REFUSED)
    }
}

// A directive that takes just this word, without case.
pub(crate) fn this_argument(wanted: &str, words: &[CowStr]) -> Result<Effect, EffectFault>
    ensures { Gives result (this_argument wanted.now words.now) }
{
    match words {
        [word] if wanted.eq_ignore_ascii_case(word.as_str()) => Ok(Effect::Nothing),
        _ => Err(REFUSED),
    }
}

// `ServerRoot path`: a path that begins with a slash (core). What it does was done while the list
// was made.
pub(crate) fn server_root(words: &[CowStr]) -> Result<Effect, EffectFault>
    ensures { Gives result (server_root words.now) }
{
    match words {
        [path] if is_absolute(path) => Ok(Effect::Nothing),
        _ => Err(REFUSED),
    }
}

// `DocumentRoot path`: a path that begins with a slash (core).
pub(crate) fn document_root(among: &Among, words: &[CowStr]) -> Result<Effect, EffectFault>
    ensures { Gives result (document_root words.now) }
{
    match words {
        [path] if is_absolute(path) => {
            let path = without_final_slash(path.as_str().as_bytes());
            Ok(Effect::Gives(Given::Root(Text::copy_of(among.alloc, path)?)))
        }
        _ => Err(REFUSED),
    }
}

// `Alias url-path file-path`, and `AliasMatch pattern file-path` with groups: the file path begins with a
// slash (mod_alias).
pub(crate) fn alias(form: PathForm, among: &Among, words: &[CowStr]) -> Result<Effect, EffectFault>
    ensures { Gives result (alias_by form (among_of among.now) words.now) }
{
    match words {
        [from, to] => {
            let to = own_target_by(among.alloc, form, to)?;
            let from = test_by(among.alloc, form, from)?;
            Ok(Effect::Gives(Given::Map(Alias {
                place: place_of(among.entry)?,
                span: among.entry.span,
                from,
                to,
            })))
        }
        _ => Err(REFUSED),
    }
}

// `ServerName name[:port]` (core).
pub(crate) fn server_name(among: &Among, words: &[CowStr]) -> Result<Effect, EffectFault>
    ensures { Gives result (server_name words.now) }
{
    match words {
        [name] => {
            let name = name_without_port(name.as_str().as_bytes());
            Ok(Effect::Gives(Given::Name(Text::copy_of(among.alloc, name)?)))
        }
        _ => Err(REFUSED),
    }
}

// `ServerAlias name ..` (core): one name or more.
pub(crate) fn server_alias(among: &Among, words: &[CowStr]) -> Result<Effect, EffectFault>
    ensures { Gives result (server_alias words.now) }
{
    if words.is_empty() {
        return Err(REFUSED);
    }
    Ok(Effect::Gives(Given::Names(texts_of(among.alloc, words)?)))
}

pub(crate) fn texts_of(alloc: Global, words: &[CowStr]) -> Result<List<Text>, NoMemory>
    ensures { IfOk result (λ texts. texts ≡ words.now) }
{
    let mut texts = List::new(alloc);
    for word in words {
        texts.push(Text::copy_of(alloc, word.as_str().as_bytes())?)?;
    }
    Ok(texts)
}

// `Options [+|-]option ..` (core).
pub(crate) fn options(among: &Among, words: &[CowStr]) -> Result<Effect, EffectFault>
    ensures { Gives result (definition.options words.now) }
{
    match options_step(among.alloc, words) {
        Ok(step) => Ok(Effect::Gives(Given::Options(step))),
        Err(fault) => Err(fault),
    }
}

// `AllowOverride All|None|class ..` (core).
pub(crate) fn allow_override(words: &[CowStr]) -> Result<Effect, EffectFault>
    ensures { Gives result (allow_override words.now) }
{
    match allowed_by(words) {
        Ok(allowed) => Ok(Effect::Gives(Given::Allow(allowed))),
        Err(fault) => Err(fault),
    }
}
