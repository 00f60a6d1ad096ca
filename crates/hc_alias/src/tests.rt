ghost use Rattle.std.specs.Prelude.{◌≡◌, IfOk};
ghost use Rattle.std.specs.Option.{option_map};
ghost use Rattle.hc_alias.specs.FoundView.{found_of, taken_view};
ghost use Rattle.hc_alias.specs.Tests as definition;
ghost use Rattle.hc_alias.specs.Tests.{is_below};

use hc_base::paths::{begins_with_slash, ends_with_slash};
use hc_base::{NoMemory, spanned};
use hc_match::{Captures, first_match};
use hc_model::{Alias, PathTest, Redirect};
use std::alloc::Global;

/// What a test finds in a path that it takes.
#[derive(Drop)]
pub(crate) enum Found<'p> {
    /// What follows the prefix.
    Behind(&'p [u8]),
    /// What the groups of a pattern hold in the path.
    Searched(&'p [u8], Captures),
}

impl<'p> Found<'p> {
    /// What a group holds: nothing where it was not set.
    pub(crate) fn group(&self, number: u8) -> &'p [u8]
        ensures { result.now ≡ (found_of self.now).groups number }
    {
        match self {
            Found::Behind(_) => &[],
            Found::Searched(path, captures) => spanned(path, captures.get(number)),
        }
    }

    /// What follows the prefix; nothing where there is none.
    pub(crate) fn rest(&self) -> &'p [u8]
        ensures { result.now ≡ (found_of self.now).rest }
    {
        match self {
            Found::Behind(rest) => rest,
            Found::Searched(_, _) => &[],
        }
    }
}

/// A path that ends in a slash takes what begins with it; another takes itself, and what begins
/// with it and a slash.
pub fn is_below(from: &[u8], path: &[u8]) -> bool
    ensures { result ≡ is_below from.now path.now }
{
    path.starts_with(from)
        && (ends_with_slash(from)
            || path.len() == from.len()
            || begins_with_slash(&path[from.len()..]))
}

/// What a test finds in a path; none where it does not take it.
fn found_by<'p>(
    alloc: Global,
    test: &PathTest,
    path: &'p [u8],
) -> Result<Option<Found<'p>>, NoMemory>
    ensures { IfOk result (λ found. option_map found_of found ≡ definition.found_by test.now path.now) }
{
    match test {
        PathTest::Prefix(from) if is_below(from.as_bytes(), path) => {
            Ok(Some(Found::Behind(&path[from.as_bytes().len()..])))
        }
        PathTest::Prefix(_) => Ok(None),
        PathTest::Search(pattern) => match first_match(alloc, pattern.as_pat(), path)? {
            Some(captures) => Ok(Some(Found::Searched(path, captures))),
            None => Ok(None),
        },
    }
}

/// What takes some of the URL paths.
pub(crate) trait Entry {
    ghost use Rattle.hc_model.specs.declared.mapping.PathTest.{PathTest};

    ghost test_of: { Self → PathTest };

    /// What it looks for in a path.
    fn test(&self) -> &PathTest
        ensures { result.now ≡ test_of self.now };
}

impl Entry for Alias {
    ghost test_of = { λ alias. alias.from };

    fn test(&self) -> &PathTest {
        &self.from
    }
}

impl Entry for Redirect {
    ghost test_of = { λ redirect. redirect.from };

    fn test(&self) -> &PathTest {
        &self.from
    }
}

/// The first entry that takes the path, with what it finds.
pub(crate) fn first_taking<'l, 'p, E: Entry>(
    alloc: Global,
    entries: &'l [E],
    path: &'p [u8],
) -> Result<Option<(&'l E, Found<'p>)>, NoMemory>
    ensures { IfOk result (λ taken. taken_view taken ≡ definition.first_taking E.test_of entries.now path.now) }
{
    for entry in entries {
        if let Some(found) = found_by(alloc, entry.test(), path)? {
            return Ok(Some((entry, found)));
        }
    }
    Ok(None)
}
