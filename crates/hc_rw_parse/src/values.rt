//! The values of N, S and R.
ghost use Rattle.std.specs.Prelude.{◌≡◌, ◌≤◌, option_map};
ghost use Rattle.hc_addr.specs.Numbers.{number_of};
ghost use Rattle.hc_addr.specs.declared.sizes.TheConstants.{DECIMAL};
ghost use Rattle.hc_base.specs.Gives.{Gives};
ghost use Rattle.hc_rw_parse.specs.RuleFlags as definition;
ghost use Rattle.hc_rw_parse.specs.RuleFlags.{count_to, in_statuses, status_among, status_names};

use crate::flag::{
    BAD, DEFAULT_ROUNDS, FIRST_STATUS, FOUND, Flag, LAST_STATUS, MOST_ROUNDS, MOST_SKIPPED,
    STATUS_DIGITS,
};
use crate::parts::RwFault;
use hc_addr::{HIGHEST_PORT, number_up_to};

const MOVED: u16 = 301;

const SEE_OTHER: u16 = 303;

/// `N` and `N=n`.
pub(crate) fn next(value: Option<&[u8]>) -> Result<Flag, RwFault>
    ensures { Gives result (definition.next (option_map (λ value. value.now) value.entry)) }
{
    let Some(text) = value else {
        return Ok(Flag::Next(DEFAULT_ROUNDS));
    };
    match count_to(MOST_ROUNDS, text) {
        Some(rounds) => Ok(Flag::Next(rounds)),
        None => Err(BAD),
    }
}

/// `S=n`.
pub(crate) fn skip(value: Option<&[u8]>) -> Result<Flag, RwFault>
    ensures { Gives result (definition.skip (option_map (λ value. value.now) value.entry)) }
{
    let Some(text) = value else {
        return Err(BAD);
    };
    match count_to(MOST_SKIPPED, text) {
        Some(count) => Ok(Flag::Skip(count)),
        None => Err(BAD),
    }
}

// A decimal number from 1 to this one.
fn count_to(most: u32, text: &[u8]) -> Option<u32>
    requires { most ≤ HIGHEST_PORT }
    ensures { result ≡ count_to most text.now }
{
    match number_up_to(text, most) {
        Some(count) if count >= 1 => Some(count),
        _ => None,
    }
}

/// `R` and `R=status`.
pub(crate) fn redirect(value: Option<&[u8]>) -> Result<Flag, RwFault>
    ensures { Gives result (definition.redirect (option_map (λ value. value.now) value.entry)) }
{
    let Some(text) = value else {
        return Ok(Flag::Redirect(FOUND));
    };
    match status_of(text) {
        Some(status) => Ok(Flag::Redirect(status)),
        None => Err(BAD),
    }
}

// A status by its name, without case, or by its digits.
fn status_of(text: &[u8]) -> Option<u16>
    ensures { result ≡ status_among status_names text.now }
{
    if b"permanent".eq_ignore_ascii_case(text) {
        Some(MOVED)
    } else if b"temp".eq_ignore_ascii_case(text) {
        Some(FOUND)
    } else if b"seeother".eq_ignore_ascii_case(text) {
        Some(SEE_OTHER)
    } else {
        numbered(text)
    }
}

fn numbered(text: &[u8]) -> Option<u16>
    ensures { result ≡ in_statuses (number_of DECIMAL STATUS_DIGITS text.now) }
{
    if text.len() > STATUS_DIGITS {
        return None;
    }
    match number_up_to(text, u32::from(LAST_STATUS)) {
        Some(status) if status >= u32::from(FIRST_STATUS) => Some(status as u16),
        _ => None,
    }
}
