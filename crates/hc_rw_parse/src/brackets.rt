//! Flags stand in brackets, with commas between them.
ghost use Rattle.std.specs.Prelude.{◌≡◌};
ghost use Rattle.hc_rw_parse.specs.RuleFlags.{inside, is_bracketed};

use hc_base::bytes::{begins_with, ends_with};

pub(crate) fn is_bracketed(word: &[u8]) -> bool
    ensures { result ≡ is_bracketed word.now }
{
    word.len() >= 2 && begins_with(word, b'[') && ends_with(word, b']')
}

/// What stands between the first byte and the last.
pub(crate) fn inside(word: &[u8]) -> &[u8]
    ensures { result.now ≡ inside word.now }
{
    match word {
        [_, inside @ .., _] => inside,
        _ => &[],
    }
}
