//! The value of E.
ghost use Rattle.std.specs.Prelude.{◌≡◌, option_map, Ok};
ghost use Rattle.std.specs.List.{after_first, before_first, position};
ghost use Rattle.hc_addr.specs.Numbers.{is_colon};
ghost use Rattle.hc_base.specs.Gives.{Gives};
ghost use Rattle.hc_rw_parse.specs.RuleFlags as definition;
ghost use Rattle.hc_rw_parse.specs.RuleFlags.{environment_of, if_named};

use crate::flag::{BAD, Flag};
use crate::parts::{REWRITING, RwFault};
use hc_base::Text;
use hc_model::EnvSet;
use hc_template::read_template;
use std::alloc::Global;

/// `E=name:value`, `E=name`, whose value is empty, and `E=!name`, which takes the variable away.
pub(crate) fn environment(alloc: Global, value: Option<&[u8]>) -> Result<Flag, RwFault>
    ensures { Gives result (definition.environment (option_map (λ value. value.now) value.entry)) }
{
    match value {
        Some(text) => environment_of(alloc, text),
        None => Err(BAD),
    }
}

fn environment_of(alloc: Global, text: &[u8]) -> Result<Flag, RwFault>
    ensures { Gives result (environment_of text.now) }
{
    match text {
        [b'!', name @ ..] => unset(alloc, name),
        _ => set(alloc, text),
    }
}

fn unset(alloc: Global, name: &[u8]) -> Result<Flag, RwFault>
    ensures { Gives result (if_named name.now (Ok (definition.unset name.now))) }
{
    if name.is_empty() {
        return Err(BAD);
    }
    Ok(Flag::Set(EnvSet {
        name: Text::copy_of(alloc, name)?,
        value: None,
    }))
}

fn set(alloc: Global, text: &[u8]) -> Result<Flag, RwFault>
    ensures { Gives result (definition.set text.now) }
{
    let (name, value) = split_name(text);
    if name.is_empty() {
        return Err(BAD);
    }
    match read_template(alloc, value, REWRITING) {
        Ok(value) => Ok(Flag::Set(EnvSet {
            name: Text::copy_of(alloc, name)?,
            value: Some(value),
        })),
        Err(fault) => Err(fault),
    }
}

// What stands before the first colon, and what follows it.
fn split_name(text: &[u8]) -> (&[u8], &[u8])
    ensures name { result.0.now ≡ before_first is_colon text.now }
    ensures value { result.1.now ≡ after_first is_colon text.now }
{
    match colon_at(text) {
        Some(place) => (&text[..place], &text[place + 1..]),
        None => (text, &[]),
    }
}

// The place of the first colon.
fn colon_at(text: &[u8]) -> Option<usize>
    ensures { result ≡ position is_colon text.now }
{
    text.iter().position(|byte| *byte == b':')
}
