ghost use Rattle.std.specs.Prelude.{◌≡◌, length, IfSome, IfNone};
ghost use Rattle.std.specs.List.{list_all, list_any, slice_split};
ghost use Rattle.hc_base.specs.Paths.{is_slash};
ghost use Rattle.hc_base.specs.Bytes.{is_control};
ghost use Rattle.hc_model.specs.World.{is_component, is_path};
ghost use Rattle.hc_world.specs.Slashes.{HasNoSlash, IsNextSlash};

use hc_base::bytes::DELETE;
use hc_base::paths::is_dots;

/// The most bytes of a path, and of the name of a file in its directory.
const LONGEST_PATH: usize = 4096;

const LONGEST_COMPONENT: usize = 255;

/// Whether these bytes may name a file: the root, or a slash before each component.
pub fn is_path(path: &[u8]) -> bool
    ensures { result ≡ is_path path.now }
{
    if path.first() != Some(&b'/') || path.len() > LONGEST_PATH {
        return false;
    }
    path.len() == 1 || has_components(&path[1..])
}

fn has_components(names: &[u8]) -> bool
    ensures { result ≡ list_all is_component (slice_split is_slash names.now) }
{
    names.split(|b| *b == b'/').all(is_component)
}

fn is_component(name: &[u8]) -> bool
    ensures { result ≡ is_component name.now }
{
    !name.is_empty() && name.len() <= LONGEST_COMPONENT && !is_dots(name) && !has_control(name)
}

fn has_control(name: &[u8]) -> bool
    ensures { result ≡ list_any is_control name.now }
{
    name.iter().any(|b| *b < b' ' || *b == DELETE)
}

/// The place of the first slash at or after `from`.
pub(crate) fn next_slash(path: &[u8], from: usize) -> Option<usize>
    ensures none { IfNone result (HasNoSlash path.now from (length path.now)) }
    ensures some { IfSome result (IsNextSlash path.now from) }
{
    for i in from..path.len() {
        if path[i] == b'/' {
            return Some(i);
        }
    }
    None
}
