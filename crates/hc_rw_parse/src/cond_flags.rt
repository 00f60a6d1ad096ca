ghost use Rattle.std.specs.Prelude.{◌≡◌, Ok};
ghost use Rattle.std.specs.List.{slice_split};
ghost use Rattle.hc_rw_parse.specs.CondFlags.{cond_flags_in, is_named, no_case, no_cond_flags, no_vary, or_next};
ghost use Rattle.hc_rw_parse.specs.CondFlags.{with_name, with_names};
ghost use Rattle.hc_rw_parse.specs.RuleFlags.{is_comma};

use crate::brackets::{inside, is_bracketed};
use hc_base::AtByte;
use hc_base::codes::BAD_FLAG;

const BAD: AtByte = AtByte {
    code: BAD_FLAG,
    at: 0,
};

/// The flags of a RewriteCond (Apache manual, mod_rewrite).
#[derive(Clone, Copy)]
pub(crate) struct CondFlags {
    /// NC.
    pub nocase: bool,
    /// OR: this condition or the next one.
    pub or_next: bool,
}

impl CondFlags {
    pub(crate) const NONE: CondFlags = CondFlags {
        nocase: false,
        or_next: false,
    };

    // By a short or long name, without case. NV has no effect here.
    fn with_name(self, name: &[u8]) -> Result<CondFlags, AtByte>
        ensures { result ≡ with_name self name.now }
    {
        if is_no_case(name) {
            Ok(CondFlags {
                nocase: true,
                ..self
            })
        } else if is_or_next(name) {
            Ok(CondFlags {
                or_next: true,
                ..self
            })
        } else if is_no_vary(name) {
            Ok(self)
        } else {
            Err(BAD)
        }
    }
}

fn is_no_case(name: &[u8]) -> bool
    ensures { result ≡ is_named no_case name.now }
{
    b"NC".eq_ignore_ascii_case(name) || b"nocase".eq_ignore_ascii_case(name)
}

fn is_or_next(name: &[u8]) -> bool
    ensures { result ≡ is_named or_next name.now }
{
    b"OR".eq_ignore_ascii_case(name) || b"ornext".eq_ignore_ascii_case(name)
}

fn is_no_vary(name: &[u8]) -> bool
    ensures { result ≡ is_named no_vary name.now }
{
    b"NV".eq_ignore_ascii_case(name) || b"novary".eq_ignore_ascii_case(name)
}

/// `[flag,..]`, without blanks.
pub(crate) fn cond_flags_in(word: &[u8]) -> Result<CondFlags, AtByte>
    ensures { result ≡ cond_flags_in word.now }
{
    if is_bracketed(word) {
        with_names(inside(word))
    } else {
        Err(BAD)
    }
}

// The flags of names between commas.
fn with_names(names: &[u8]) -> Result<CondFlags, AtByte>
    ensures { result ≡ with_names (Ok no_cond_flags) (slice_split is_comma names.now) }
{
    let mut flags = CondFlags::NONE;
    for name in names.split(|byte| *byte == b',') {
        flags = flags.with_name(name)?;
    }
    Ok(flags)
}
