//! A flag of a RewriteRule, as it is written.
ghost use Rattle.std.specs.Prelude.{◌≡◌, ◌<◌, length, option_map, IfSome};
ghost use Rattle.std.specs.List.{before_first, position};
ghost use Rattle.hc_base.specs.Gives.{Gives};
ghost use Rattle.hc_rw_parse.specs.RuleFlags.{alone, flag_of, is_equals, valued_by, value_in};

use crate::environment::environment;
use crate::parts::RwFault;
use crate::values::{next, redirect, skip};
use hc_base::codes::{BAD_FLAG, UNSUPPORTED_FLAG};
use hc_base::{AtByte, Fault};
use hc_model::EnvSet;
use hc_table::{FlagName, flag_named};
use std::alloc::Global;

/// A flag of a RewriteRule (Apache manual, "RewriteRule Flags").
#[derive(Drop)]
pub(crate) enum Flag {
    /// L.
    Last,
    End,
    /// N, and how many rounds it may go on.
    Next(u32),
    /// C.
    Chain,
    /// S, and how many rules are passed over.
    Skip(u32),
    /// F.
    Forbid,
    /// G.
    Gone,
    /// R, and the status.
    Redirect(u16),
    /// QSA.
    AppendQuery,
    /// QSD.
    DiscardQuery,
    /// NC.
    NoCase,
    /// NE.
    NoEscape,
    /// PT.
    Pass,
    /// DPI.
    DiscardPath,
    /// E.
    Set(EnvSet),
    /// One that has no effect here.
    NoEffect,
}

/// How many rounds N may go on where it doesn't say.
pub(crate) const DEFAULT_ROUNDS: u32 = 10_000;

/// How many rounds N may say at most.
pub(crate) const MOST_ROUNDS: u32 = 32_000;

/// How many rules S may pass over at most.
pub(crate) const MOST_SKIPPED: u32 = 9_999;

/// The status of R where it doesn't say.
pub(crate) const FOUND: u16 = 302;

// R may say a status from the first of these to the last, in so many digits at most.
pub(crate) const FIRST_STATUS: u16 = 200;

pub(crate) const LAST_STATUS: u16 = 599;

pub(crate) const STATUS_DIGITS: usize = 3;

pub(crate) const BAD: RwFault = Fault::Refused(AtByte {
    code: BAD_FLAG,
    at: 0,
});

const UNSUPPORTED: RwFault = Fault::Refused(AtByte {
    code: UNSUPPORTED_FLAG,
    at: 0,
});

/// The flag of a text: a short or long name, without case, and what may follow its first `=`.
pub(crate) fn flag_of(alloc: Global, text: &[u8]) -> Result<Flag, RwFault>
    ensures { Gives result (flag_of text.now) }
{
    let (name, value) = split_value(text);
    match flag_named(name) {
        Some(name) => valued_by(alloc, name, value),
        None => Err(BAD),
    }
}

// What stands before the first `=`, and what follows it.
#[tactic(auto, using(crate::proofs::Firsts::value_at))]
fn split_value(text: &[u8]) -> (&[u8], Option<&[u8]>)
    ensures name { result.0.now ≡ before_first is_equals text.now }
    ensures value { option_map (λ value. value.now) result.1 ≡ value_in text.now }
{
    match equals_at(text) {
        Some(place) => (text.split_at(place).0, Some(text.split_at(place + 1).1)),
        None => (text, None),
    }
}

// The place of the first `=`.
fn equals_at(text: &[u8]) -> Option<usize>
    ensures value { result ≡ position is_equals text.now }
    ensures within { IfSome result (λ place. place < length text.now) }
{
    text.iter().position(|byte| *byte == b'=')
}

fn valued_by(alloc: Global, name: FlagName, value: Option<&[u8]>) -> Result<Flag, RwFault>
    ensures { Gives result (valued_by name (option_map (λ value. value.now) value.entry)) }
{
    match name {
        FlagName::Last => alone(Flag::Last, value),
        FlagName::End => alone(Flag::End, value),
        FlagName::Next => next(value),
        FlagName::Chain => alone(Flag::Chain, value),
        FlagName::Skip => skip(value),
        FlagName::Forbidden => alone(Flag::Forbid, value),
        FlagName::Gone => alone(Flag::Gone, value),
        FlagName::Redirect => redirect(value),
        FlagName::AppendQuery => alone(Flag::AppendQuery, value),
        FlagName::DiscardQuery => alone(Flag::DiscardQuery, value),
        FlagName::NoCase => alone(Flag::NoCase, value),
        FlagName::NoEscape => alone(Flag::NoEscape, value),
        FlagName::PassThrough => alone(Flag::Pass, value),
        FlagName::DiscardPath => alone(Flag::DiscardPath, value),
        FlagName::Environment => environment(alloc, value),
        FlagName::Type | FlagName::Handler | FlagName::Cookie => Ok(Flag::NoEffect),
        FlagName::NoSubrequest => alone(Flag::NoEffect, value),
        FlagName::Unsupported => Err(UNSUPPORTED),
    }
}

// A flag that takes no value.
fn alone(flag: Flag, value: Option<&[u8]>) -> Result<Flag, RwFault>
    ensures { Gives result (alone flag (option_map (λ value. value.now) value.entry)) }
{
    match value {
        None => Ok(flag),
        Some(_) => Err(BAD),
    }
}
