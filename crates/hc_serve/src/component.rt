ghost use Rattle.std.specs.Prelude.{◌≡◌, IfOk};
ghost use Rattle.hc_serve.specs.ServerRules.{as_path, behind_slashes, component, first_component};

use hc_base::{NoMemory, Text};
use std::alloc::Global;

/// The first component of a text, as a path. A text of slashes alone has none.
pub(crate) fn first_component(alloc: Global, text: &[u8]) -> Result<Option<Text>, NoMemory>
    ensures { IfOk result (λ path. path ≡ first_component text.now) }
{
    as_path(alloc, component(behind_slashes(text)))
}

// The bytes behind the slashes that a text begins with.
fn behind_slashes(text: &[u8]) -> &[u8]
    ensures { result.now ≡ behind_slashes text.now }
{
    let mut rest = text;
    while let [b'/', more @ ..] = rest {
        rest = more;
    }
    rest
}

// What stands before the first slash.
fn component(text: &[u8]) -> &[u8]
    ensures { result.now ≡ component text.now }
{
    for (place, byte) in text.iter().enumerate() {
        if *byte == b'/' {
            return text.split_at(place).0;
        }
    }
    text
}

fn as_path(alloc: Global, component: &[u8]) -> Result<Option<Text>, NoMemory>
    ensures { IfOk result (λ path. path ≡ as_path component.now) }
{
    if component.is_empty() {
        return Ok(None);
    }
    let mut path = Vec::new(alloc);
    path.push(b'/')?;
    path.extend_from_slice(component)?;
    Ok(Some(Text::from(path)))
}
