ghost use Rattle.std.specs.Prelude.{◌≡◌, IfOk};
ghost use Rattle.hc_base.specs.Gives.{Gives};
ghost use Rattle.hc_include.specs.Include.{component_of, matches};

use hc_base::{AtByte, Fault, NoMemory, Text};
use hc_match::first_match;
use hc_model::Regex;
use hc_pattern::{glob_pattern, has_wildcard};
use std::alloc::Global;

/// A component of a path: a name, or a glob for the names in a directory.
#[derive(Drop)]
pub enum Component {
    Name(Text),
    Glob(Regex),
}

/// The component of a text; a wildcard that is no glob is refused.
pub(crate) fn component_of(alloc: Global, text: &[u8]) -> Result<Component, Fault<AtByte>>
    ensures { Gives result (component_of text.now) }
{
    if !has_wildcard(alloc, text)? {
        return Ok(Component::Name(Text::copy_of(alloc, text)?));
    }
    match glob_pattern(alloc, text, true) {
        Ok(pattern) => Ok(Component::Glob(Regex::new(alloc, pattern)?)),
        Err(fault) => Err(fault),
    }
}

pub(crate) fn matches(alloc: Global, glob: &Regex, name: &[u8]) -> Result<bool, NoMemory>
    ensures { IfOk result (λ found. found ≡ matches glob.now name.now) }
{
    Ok(first_match(alloc, glob.as_pat(), name)?.is_some())
}
