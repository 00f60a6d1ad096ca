ghost use Rattle.std.specs.Prelude.{◌≡◌, ◌∷◌, [], IfOk};
ghost use Rattle.std.specs.List.{list_any};
ghost use Rattle.hc_base.specs.Gives.{Gives};
ghost use Rattle.hc_says.specs.Says.{define_said, include_said, is_define_name, is_named, module_said};
ghost use Rattle.hc_says.specs.Says.{needs_words, root_said, said_by, said_of, unless_bad_name};
ghost use Rattle.hc_says.specs.Variables.{ends_name};

use crate::utf8::Utf8;
use crate::variables::ends_name;
use hc_base::codes::BAD_DEFINE_NAME;
use hc_base::paths::begins_with_slash;
use hc_base::{AtByte, CowStr, Fault, NoMemory};
use hc_lines::conf_words;
use std::alloc::Global;

/// What a directive says to the reading (Apache manual, core, Define, Include, ServerRoot; mod_so).
#[derive(Drop)]
pub enum Says {
    Nothing,
    Define { name: Utf8, value: Option<Utf8> },
    /// A module is loaded.
    Loads(Utf8),
    /// A server root.
    Roots(Utf8),
    /// Files are included, which need not be there where it is optional.
    Includes { optional: bool, path: Utf8 },
}

/// What a directive of this name says, with this behind the name.
pub fn said_of(alloc: Global, name: &str, rest: &str) -> Result<Says, Fault<AtByte>>
    ensures { Gives result (said_of name.now rest.now) }
{
    if !needs_words(name.as_bytes()) {
        return Ok(Says::Nothing);
    }
    let words = match conf_words(alloc, rest) {
        Ok(words) => words,
        Err(fault) => return Err(fault),
    };
    unless_bad_name(said_by(alloc, name.as_bytes(), &words)?)
}

fn needs_words(name: &[u8]) -> bool
    ensures { result ≡ needs_words name.now }
{
    is_named("Define", name)
        || is_named("Include", name)
        || is_named("IncludeOptional", name)
        || is_named("LoadModule", name)
        || is_named("ServerRoot", name)
}

/// The names are equal without case.
pub(crate) fn is_named(wanted: &str, name: &[u8]) -> bool
    ensures { result ≡ is_named wanted.now name.now }
{
    wanted.as_bytes().eq_ignore_ascii_case(name)
}

fn said_by(alloc: Global, name: &[u8], words: &[CowStr]) -> Result<Says, NoMemory>
    ensures { IfOk result (λ says. says ≡ said_by name.now words.now) }
{
    if is_named("Define", name) {
        define_said(alloc, words)
    } else if is_named("Include", name) {
        include_said(alloc, false, words)
    } else if is_named("IncludeOptional", name) {
        include_said(alloc, true, words)
    } else if is_named("LoadModule", name) {
        module_said(alloc, words)
    } else if is_named("ServerRoot", name) {
        root_said(alloc, words)
    } else {
        Ok(Says::Nothing)
    }
}

fn define_said(alloc: Global, words: &[CowStr]) -> Result<Says, NoMemory>
    ensures { IfOk result (λ says. says ≡ define_said words.now) }
{
    match words {
        [name] => Ok(Says::Define {
            name: Utf8::copy_of(alloc, name.as_str())?,
            value: None,
        }),
        [name, value] => Ok(Says::Define {
            name: Utf8::copy_of(alloc, name.as_str())?,
            value: Some(Utf8::copy_of(alloc, value.as_str())?),
        }),
        _ => Ok(Says::Nothing),
    }
}

fn include_said(alloc: Global, optional: bool, words: &[CowStr]) -> Result<Says, NoMemory>
    ensures { IfOk result (λ says. says ≡ include_said optional words.now) }
{
    match words {
        [path] => Ok(Says::Includes {
            optional,
            path: Utf8::copy_of(alloc, path.as_str())?,
        }),
        _ => Ok(Says::Nothing),
    }
}

fn module_said(alloc: Global, words: &[CowStr]) -> Result<Says, NoMemory>
    ensures { IfOk result (λ says. says ≡ module_said words.now) }
{
    match words {
        [name, ..] => Ok(Says::Loads(Utf8::copy_of(alloc, name.as_str())?)),
        [] => Ok(Says::Nothing),
    }
}

fn root_said(alloc: Global, words: &[CowStr]) -> Result<Says, NoMemory>
    ensures { IfOk result (λ says. says ≡ root_said words.now) }
{
    match words {
        [path] => absolute_root(alloc, path.as_str()),
        _ => Ok(Says::Nothing),
    }
}

fn absolute_root(alloc: Global, path: &str) -> Result<Says, NoMemory>
    ensures { IfOk result (λ says. says ≡ root_said (path.now ∷ [])) }
{
    if begins_with_slash(path.as_bytes()) {
        Ok(Says::Roots(Utf8::copy_of(alloc, path)?))
    } else {
        Ok(Says::Nothing)
    }
}

fn unless_bad_name(says: Says) -> Result<Says, Fault<AtByte>>
    ensures { Gives result (unless_bad_name says) }
{
    match &says {
        Says::Define { name, .. } if !is_define_name(name.as_str().as_bytes()) => {
            Err(Fault::Refused(AtByte::rule(BAD_DEFINE_NAME)))
        }
        _ => Ok(says),
    }
}

fn is_define_name(name: &[u8]) -> bool
    ensures { result ≡ is_define_name name.now }
{
    !name.is_empty() && !has_name_end(name)
}

fn has_name_end(name: &[u8]) -> bool
    ensures { result ≡ list_any ends_name name.now }
{
    name.iter().any(|byte| ends_name(*byte))
}
