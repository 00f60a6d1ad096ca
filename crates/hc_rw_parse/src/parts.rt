//! What the parts of a line are read as.
ghost use Rattle.std.specs.Prelude.{◌≡◌};
ghost use Rattle.hc_base.specs.Gives.{Gives};
ghost use Rattle.hc_pattern.specs.Reading.{parse_pattern};
ghost use Rattle.hc_template.specs.Reading.{template};
ghost use Rattle.hc_rw_parse.specs.Rules.{is_negated, without_sign};
ghost use Rattle.hc_rw_parse.specs.Templates.{rewriting};

use hc_base::bytes::begins_with;
use hc_base::codes::WRONG_ARGUMENTS;
use hc_base::{AtByte, CowStr, Fault};
use hc_model::{Regex, Template};
use hc_pattern::parse_pattern;
use hc_template::{Names, Signs, read_template};
use std::alloc::Global;

/// Why a line is not read: memory was refused, or a rule is broken, at a byte of a pattern if it is one of a
/// pattern.
pub type RwFault = Fault<AtByte>;

pub(crate) const WRONG: RwFault = Fault::Refused(AtByte {
    code: WRONG_ARGUMENTS,
    at: 0,
});

// The signs that a test string, a substitution and the value of a variable may hold.
pub(crate) const REWRITING: Signs = Signs {
    groups: true,
    conditions: true,
    names: Names::Rewriting,
    escapes: true,
    lookups: true,
};

/// The word begins with `!`.
pub(crate) fn is_negated(word: &CowStr) -> bool
    ensures { result ≡ is_negated word.now }
{
    begins_with(word.as_str().as_bytes(), b'!')
}

/// The word without a leading `!`.
pub(crate) fn without_sign<'w>(word: &'w CowStr) -> &'w [u8]
    ensures { result.now ≡ without_sign word.now }
{
    match word.as_str().as_bytes() {
        [b'!', behind @ ..] => behind,
        word => word,
    }
}

pub(crate) fn regex_of(alloc: Global, pattern: &[u8], nocase: bool) -> Result<Regex, RwFault>
    ensures { Gives result (parse_pattern pattern.now nocase) }
{
    match parse_pattern(alloc, pattern, nocase) {
        Ok(pat) => Ok(Regex::new(alloc, pat)?),
        Err(fault) => Err(fault),
    }
}

pub(crate) fn template_of(alloc: Global, word: &CowStr) -> Result<Template, RwFault>
    ensures { Gives result (template rewriting word.now) }
{
    read_template(alloc, word.as_str().as_bytes(), REWRITING)
}
