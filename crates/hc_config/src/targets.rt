ghost use Rattle.std.specs.Prelude.{◌≡◌, [], ◌∷◌, IfOk};
ghost use Rattle.std.specs.List.{list_any};
ghost use Rattle.hc_base.specs.Gives.{Gives};
ghost use Rattle.hc_base.specs.Paths.{begins_with_slash};
ghost use Rattle.hc_model.specs.declared.template.Piece.TheVariants.{Bytes};
ghost use Rattle.hc_config.specs.Targets.{group_target, is_other_sign, own_target_by, prefix_test, search_test};
ghost use Rattle.hc_config.specs.Targets.{target_by, test_by};

use crate::effect::{EffectFault, REFUSED};
use hc_base::paths::begins_with_slash;
use hc_base::{CowStr, List, NoMemory, Text};
use hc_model::{PathTest, Piece, Regex, Template};
use hc_pattern::parse_pattern;
use hc_template::{Names, Signs, read_template};
use std::alloc::Global;

/// How an alias or a redirect says its paths and its target.
#[derive(Clone, Copy)]
pub(crate) enum PathForm {
    /// A path and what is below it, and a target as it stands.
    Plain,
    /// A pattern, and a target with groups: the `Match` directives (Apache manual, mod_alias).
    Match,
}

/// A word as a test of paths.
pub(crate) fn test_by(alloc: Global, form: PathForm, word: &CowStr) -> Result<PathTest, EffectFault>
    ensures { Gives result (test_by form word.now) }
{
    match form {
        PathForm::Plain => prefix_test(alloc, word.as_str().as_bytes()),
        PathForm::Match => search_test(alloc, word.as_str().as_bytes()),
    }
}

fn prefix_test(alloc: Global, path: &[u8]) -> Result<PathTest, EffectFault>
    ensures { Gives result (prefix_test path.now) }
{
    if !begins_with_slash(path) {
        return Err(REFUSED);
    }
    Ok(PathTest::Prefix(Text::copy_of(alloc, path)?))
}

#[tactic(auto, unfolding(crate::specs::Targets::search_test))]
fn search_test(alloc: Global, pattern: &[u8]) -> Result<PathTest, EffectFault>
    ensures { Gives result (search_test pattern.now) }
{
    match parse_pattern(alloc, pattern, false) {
        Ok(pattern) => Ok(PathTest::Search(Regex::new(alloc, pattern)?)),
        Err(fault) => Err(fault),
    }
}

/// A word as a target.
pub(crate) fn target_by(
    alloc: Global,
    form: PathForm,
    word: &CowStr,
) -> Result<Template, EffectFault>
    ensures { Gives result (target_by form word.now) }
{
    match form {
        PathForm::Plain => Ok(text_alone(alloc, word.as_str().as_bytes())?),
        PathForm::Match => group_target(alloc, word.as_str().as_bytes()),
    }
}

/// A word as a target that is one of the server's own.
pub(crate) fn own_target_by(
    alloc: Global,
    form: PathForm,
    word: &CowStr,
) -> Result<Template, EffectFault>
    ensures { Gives result (own_target_by form word.now) }
{
    if is_absolute(word) {
        target_by(alloc, form, word)
    } else {
        Err(REFUSED)
    }
}

/// A path that begins with a slash.
pub(crate) fn is_absolute(path: &CowStr) -> bool
    ensures { result ≡ begins_with_slash path.now }
{
    begins_with_slash(path.as_str().as_bytes())
}

// A target that is this text.
fn text_alone(alloc: Global, text: &[u8]) -> Result<Template, NoMemory>
    ensures { IfOk result (λ target. target ≡ Bytes text.now ∷ []) }
{
    let mut target = List::new(alloc);
    target.push(Piece::Bytes(Text::copy_of(alloc, text)?))?;
    // A list that grows has room for four; its copy has no room to spare.
    target.copy()
}

// `$0` to `$9` stand for groups, and all other bytes for themselves.
const GROUPS_ALONE: Signs = Signs {
    groups: true,
    conditions: false,
    names: Names::NoName,
    escapes: false,
    lookups: false,
};

// A target in which `$0` to `$9` stand for groups.
fn group_target(alloc: Global, text: &[u8]) -> Result<Template, EffectFault>
    ensures { Gives result (group_target text.now) }
{
    if has_other_sign(text) {
        return Err(REFUSED);
    }
    read_template(alloc, text, GROUPS_ALONE)
}

fn has_other_sign(bytes: &[u8]) -> bool
    ensures { result ≡ list_any is_other_sign bytes.now }
{
    bytes.iter().any(|byte| is_other_sign(*byte))
}

fn is_other_sign(byte: u8) -> bool
    ensures { result ≡ is_other_sign byte }
{
    byte == b'&' || byte == b'\\'
}
