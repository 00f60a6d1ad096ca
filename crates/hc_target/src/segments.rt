ghost use Rattle.std.specs.Prelude.{◌≡◌, ◌++◌, List, ℕ, map, IfOk, Some};
ghost use Rattle.std.specs.List.{flat_map, slice_split};
ghost use Rattle.std.specs.Option.{option_map};
ghost use Rattle.hc_base.specs.Paths.{is_slash};
ghost use Rattle.hc_target.specs.Segments.{below, is_parent, is_still, led_by, normal_path, path_to, root, step};

use hc_base::{NoMemory, Text};
use std::alloc::Global;
use std::marker::Model;

/// Where the segments of a path lead: the names from the root down, and whether a slash ends the
/// path, since no name came last.
#[derive(Drop)]
struct Descent<'p> {
    names: Vec<&'p [u8]>,
    open_end: bool,
}

impl<'p> Model for Descent<'p> {
    ghost use Rattle.std.specs.Prelude.{map};
    ghost use Rattle.hc_target.specs.Segments.{Reached};

    ghost Value = { Reached };

    ghost view = { λ w. record { names = map (λ n. n.now) w.names.items; open_end = w.open_end } };
}

/// The segment is empty, or `.`.
fn is_still(segment: &[u8]) -> bool
    ensures { result ≡ is_still segment.now }
{
    matches!(segment, [] | [b'.'])
}

/// The segment is `..`.
fn is_parent(segment: &[u8]) -> bool
    ensures { result ≡ is_parent segment.now }
{
    matches!(segment, [b'.', b'.'])
}

impl<'p> Descent<'p> {
    /// Nowhere yet.
    fn new(alloc: Global) -> Descent<'p>
        ensures { result ≡ root }
    {
        Descent {
            names: Vec::new(alloc),
            open_end: true,
        }
    }

    /// One segment further; none above the root.
    fn further(self, segment: &'p [u8]) -> Result<Option<Descent<'p>>, NoMemory>
        ensures { IfOk result (λ descent. descent ≡ step self.entry segment.now) }
    {
        let Descent { mut names, .. } = self;
        if is_still(segment) {
            return Ok(Some(Descent {
                names,
                open_end: true,
            }));
        }
        if is_parent(segment) {
            let last = names.pop();
            return Ok(last.map(|_| Descent {
                names,
                open_end: true,
            }));
        }
        names.push(segment)?;
        Ok(Some(Descent {
            names,
            open_end: false,
        }))
    }

    /// The path to the place.
    fn path(&self) -> Result<Text, NoMemory>
        ensures { IfOk result (λ path. path ≡ path_to self.now) }
    {
        let mut path = Vec::new(*Vec::allocator(&self.names));
        for name in &self.names {
            path.push(b'/')?;
            path.extend_from_slice(name)?;
        }
        if self.open_end {
            path.push(b'/')?;
        }
        Ok(Text::from(path))
    }
}

/// Where the whole path leads; nowhere if it leads above the root.
fn descend<'p>(alloc: Global, path: &'p [u8]) -> Result<Option<Descent<'p>>, NoMemory>
    ensures { IfOk result (λ place. place ≡ led_by (Some root) (slice_split is_slash path.now)) }
{
    let mut place = Descent::new(alloc);
    for segment in path.split(|byte| *byte == b'/') {
        match place.further(segment)? {
            Some(next) => place = next,
            None => return Ok(None),
        }
    }
    Ok(Some(place))
}

/// The normal path of a path: each run of slashes is one, `.` is taken away, and `..` with the
/// segment before it. None where it leads above the root.
pub(crate) fn normal_path(alloc: Global, path: &[u8]) -> Result<Option<Text>, NoMemory>
    ensures { IfOk result (λ normal. normal ≡ normal_path path.now) }
{
    match descend(alloc, path)? {
        Some(place) => Ok(Some(place.path()?)),
        None => Ok(None),
    }
}
