ghost use Rattle.std.specs.Prelude.{◌≡◌};
ghost use Rattle.std.specs.Char.{is_ascii_digit};
ghost use Rattle.std.specs.List.{list_all};
ghost use Rattle.hc_table.specs.Table.{find_in};
ghost use Rattle.hc_config.specs.Statuses.{first_status, has_url, in_range, is_digits, numbered};
ghost use Rattle.hc_config.specs.Statuses.{redirect_status, status_names, unless_digits};

use crate::effect::WRONG;
use hc_base::AtByte;

pub(crate) const PERMANENT: u16 = 301;

pub(crate) const TEMPORARY: u16 = 302;

pub(crate) const SEE_OTHER: u16 = 303;

pub(crate) const GONE: u16 = 410;

// Statuses are from the first of these up to the last; those below the second have a URL.
pub(crate) const FIRST_STATUS: u16 = 300;

pub(crate) const BEHIND_REDIRECTS: u16 = 400;

pub(crate) const BEHIND_STATUSES: u16 = 600;

/// The status that a first word says, if it says one (Apache manual, mod_alias, Redirect): a name without
/// case, or three digits from 300 to 599. Other digits alone are refused.
pub(crate) fn first_status(word: &str) -> Result<Option<u16>, AtByte>
    ensures { result ≡ first_status word.now }
{
    match redirect_status(word) {
        Some(status) => Ok(Some(status)),
        None if is_digits(word.as_bytes()) => Err(WRONG),
        None => Ok(None),
    }
}

fn redirect_status(word: &str) -> Option<u16>
    ensures { result ≡ redirect_status word.now }
{
    match named(word) {
        Some(status) => Some(status),
        None => numbered(word.as_bytes()),
    }
}

fn named(word: &str) -> Option<u16>
    ensures { result ≡ find_in status_names word.now }
{
    if "permanent".eq_ignore_ascii_case(word) {
        Some(PERMANENT)
    } else if "temp".eq_ignore_ascii_case(word) {
        Some(TEMPORARY)
    } else if "seeother".eq_ignore_ascii_case(word) {
        Some(SEE_OTHER)
    } else if "gone".eq_ignore_ascii_case(word) {
        Some(GONE)
    } else {
        None
    }
}

fn numbered(word: &[u8]) -> Option<u16>
    ensures { result ≡ numbered word.now }
{
    match word {
        [a, b, c] if a.is_ascii_digit() && b.is_ascii_digit() && c.is_ascii_digit() => {
            in_range(100 * u16::from(*a - b'0') + 10 * u16::from(*b - b'0') + u16::from(*c - b'0'))
        }
        _ => None,
    }
}

fn in_range(status: u16) -> Option<u16>
    ensures { result ≡ in_range status }
{
    if FIRST_STATUS <= status && status < BEHIND_STATUSES {
        Some(status)
    } else {
        None
    }
}

fn is_digits(word: &[u8]) -> bool
    ensures { result ≡ is_digits word.now }
{
    !word.is_empty() && all_digits(word)
}

fn all_digits(word: &[u8]) -> bool
    ensures { result ≡ list_all is_ascii_digit word.now }
{
    word.iter().all(|byte| byte.is_ascii_digit())
}

/// Only these statuses send a request to a URL.
pub(crate) fn has_url(status: u16) -> bool
    ensures { result ≡ has_url status }
{
    FIRST_STATUS <= status && status < BEHIND_REDIRECTS
}
