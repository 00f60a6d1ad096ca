//! Look-ups in a template (Apache manual, mod_rewrite, RewriteMap).
ghost use Rattle.std.specs.Prelude.{◌≡◌, ◌∷◌, ◌+◌, drop, length, option_map, IfSome};
ghost use Rattle.std.specs.List.{list_all};
ghost use Rattle.hc_base.specs.Bytes.{brace_open};
ghost use Rattle.hc_template.specs.Fronts.{Finds, LooksUp, asked_of, cut};
ghost use Rattle.hc_template.specs.MapNames.{is_map_byte, is_map_name, map_name};
ghost use Rattle.hc_template.specs.Reading.{asked_by, fallback_behind, lookup_sign};

use crate::inner::{Ends, read_inner};
use crate::places::split_at_first;
use crate::signs::Signs;
use hc_base::codes::UNSUPPORTED_VARIABLE;
use hc_base::{AtByte, Boxed, Fault, List, Text};
use hc_model::Template;
use std::alloc::Global;

/// The most bytes of a map's name.
pub const LONGEST_MAP_NAME: usize = 64;

/// The name may be one of a map: 1 to 64 letters, digits, `_` and `-`. Its form is our own choice.
pub fn is_map_name(name: &[u8]) -> bool
    ensures { result ≡ is_map_name name.now }
{
    (1..=LONGEST_MAP_NAME).contains(&name.len()) && all_map_bytes(name)
}

fn all_map_bytes(name: &[u8]) -> bool
    ensures { result ≡ list_all is_map_byte name.now }
{
    name.iter().all(|byte| is_map_byte(*byte))
}

fn is_map_byte(byte: u8) -> bool
    ensures { result ≡ is_map_byte byte }
{
    byte.is_ascii_alphanumeric() || byte == b'_' || byte == b'-'
}

/// A look-up, and what follows it.
#[derive(Drop)]
pub(crate) struct Lookup<'t> {
    pub(crate) map: Boxed<Text>,
    pub(crate) key: Boxed<Template>,
    pub(crate) fallback: Boxed<Template>,
    pub(crate) behind: &'t [u8],
}

/// Reads what begins with `${`, from what follows that. Refused with `UNSUPPORTED_VARIABLE` where it is no
/// look-up, or holds what may not stand in one; `NoMemory` where memory is refused.
pub(crate) fn read_lookup<'t>(
    alloc: Global,
    signs: Signs,
    text: &'t [u8],
) -> Result<Lookup<'t>, Fault<AtByte>>
    ensures { LooksUp result (cut (lookup_sign signs text.now) (brace_open ∷ text.now)) }
{
    let Some((name, behind)) = split_map_name(text) else {
        return Err(Fault::Refused(AtByte::rule(UNSUPPORTED_VARIABLE)));
    };
    let asked = read_asked(alloc, signs, behind)?;
    Ok(Lookup {
        map: Boxed::new(alloc, Text::copy_of(alloc, name)?)?,
        key: Boxed::new(alloc, asked.key)?,
        fallback: Boxed::new(alloc, asked.fallback)?,
        behind: asked.behind,
    })
}

// The name of a map, and what follows its colon.
fn split_map_name(text: &[u8]) -> Option<(&[u8], &[u8])>
    ensures name { option_map (λ parts. parts.0.now) result ≡ map_name text.now }
    ensures behind { IfSome result (λ parts. parts.1.now ≡ drop (length parts.0.now + 1) text.now) }
{
    match split_at_first(b':', text) {
        Some((name, behind)) if is_map_name(name) => Some((name, behind)),
        _ => None,
    }
}

/// The key and the fallback of a look-up, and what follows its `}`.
#[derive(Drop)]
pub(crate) struct Asked<'t> {
    pub(crate) key: Template,
    pub(crate) fallback: Template,
    pub(crate) behind: &'t [u8],
}

fn read_asked<'t>(alloc: Global, signs: Signs, text: &'t [u8]) -> Result<Asked<'t>, Fault<AtByte>>
    ensures { Finds asked_of result (asked_by signs text.now) }
{
    let key = read_inner(alloc, Ends::Key, signs, text)?;
    read_fallback(alloc, signs, key.pieces, key.behind)
}

// What follows a key: `}`, or `|` and a fallback.
fn read_fallback<'t>(
    alloc: Global,
    signs: Signs,
    key: Template,
    text: &'t [u8],
) -> Result<Asked<'t>, Fault<AtByte>>
    ensures { Finds asked_of result (fallback_behind signs key text.now) }
{
    match text {
        [] => Err(Fault::Refused(AtByte::rule(UNSUPPORTED_VARIABLE))),
        [b'|', behind @ ..] => {
            let fallback = read_inner(alloc, Ends::Fallback, signs, behind)?;
            Ok(Asked {
                key,
                fallback: fallback.pieces,
                behind: without_first(fallback.behind),
            })
        }
        [_, behind @ ..] => Ok(Asked {
            key,
            fallback: List::new(alloc),
            behind,
        }),
    }
}

fn without_first(text: &[u8]) -> &[u8]
    ensures { result.now ≡ drop 1 text.now }
{
    match text {
        [_, behind @ ..] => behind,
        [] => text,
    }
}
