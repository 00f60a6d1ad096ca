ghost use Rattle.std.specs.Prelude.{◌≡◌, ◌∷◌, []};
ghost use Rattle.hc_base.specs.Gives.{Gives};
ghost use Rattle.hc_config.specs.Options.{allowed_alone, allowed_by, allowing, classes_from};
ghost use Rattle.hc_config.specs.Options.{nothing_allowed, with_class};

use crate::effect::{EffectFault, REFUSED};
use hc_base::CowStr;
use hc_model::Allowed;
use hc_table::{Class, class_named};

/// What AllowOverride allows (Apache manual, core): `All`, `None`, or classes.
pub(crate) fn allowed_by(words: &[CowStr]) -> Result<Allowed, EffectFault>
    ensures { Gives result (allowed_by words.now) }
{
    match words {
        [] => Err(REFUSED),
        [word] => allowed_alone(word.as_str()),
        [_, _, ..] => classes_of(words),
    }
}

fn allowed_alone(word: &str) -> Result<Allowed, EffectFault>
    ensures { Gives result (allowed_alone word.now) }
{
    if "All".eq_ignore_ascii_case(word) {
        Ok(ALL_ALLOWED)
    } else if "None".eq_ignore_ascii_case(word) {
        Ok(NOTHING_ALLOWED)
    } else {
        class_alone(word)
    }
}

fn class_alone(word: &str) -> Result<Allowed, EffectFault>
    ensures { Gives result (classes_from nothing_allowed (word.now ∷ [])) }
{
    match with_class(NOTHING_ALLOWED, word) {
        Some(allowed) => Ok(allowed),
        None => Err(REFUSED),
    }
}

const NOTHING_ALLOWED: Allowed = Allowed {
    auth: false,
    file_info: false,
    indexes: false,
    limit: false,
    options: false,
};

const ALL_ALLOWED: Allowed = Allowed {
    auth: true,
    file_info: true,
    indexes: true,
    limit: true,
    options: true,
};

fn classes_of(words: &[CowStr]) -> Result<Allowed, EffectFault>
    ensures { Gives result (classes_from nothing_allowed words.now) }
{
    let mut allowed = NOTHING_ALLOWED;
    for word in words {
        let Some(later) = with_class(allowed, word.as_str()) else {
            return Err(REFUSED);
        };
        allowed = later;
    }
    Ok(allowed)
}

fn with_class(allowed: Allowed, word: &str) -> Option<Allowed>
    ensures { result ≡ with_class allowed word.now }
{
    let class = class_named(word.as_bytes())?;
    Some(allowing(allowed, class))
}

fn allowing(mut allowed: Allowed, class: Class) -> Allowed
    ensures { result ≡ allowing allowed class }
{
    match class {
        Class::AuthConfig => allowed.auth = true,
        Class::FileInfo => allowed.file_info = true,
        Class::Indexes => allowed.indexes = true,
        Class::Limit => allowed.limit = true,
        Class::Options => allowed.options = true,
    }
    allowed
}
