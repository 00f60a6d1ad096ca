ghost use Rattle.std.specs.Prelude.{◌≡◌, IfOk, option_map};
ghost use Rattle.hc_pattern.specs.Pattern.{pattern_of};
ghost use Rattle.hc_match.specs.Settings.{captured};
ghost use Rattle.hc_ways.specs.Kept.{first_match};

use crate::captures::Captures;
use crate::search::{self, Searched};
use crate::table;
use hc_base::NoMemory;
use hc_pattern::Pat;
use std::alloc::Global;

/// The first match of the pattern in the text (PCRE, "pcrematching"): at the least place that has
/// one, and there the first way in the order of alternatives, greedy and lazy repeats.
///
/// A straight search comes first. Where it has used up its steps, a search through pairs of a step of
/// the pattern and a place of the text follows, which tries each pair once.
///
/// A group that ends beyond 4 GiB is answered as if memory were refused, and so is a tree that no text
/// gives, with an endless repeat of a body that can be empty, where the straight search gives up (our
/// own choice).
pub fn first_match(alloc: Global, pat: &Pat, text: &[u8]) -> Result<Option<Captures>, NoMemory>
    ensures { IfOk result (λ found. option_map captured found ≡ first_match text.now (pattern_of pat.now)) }
{
    match search::first_match(alloc, pat, text)? {
        Searched::Match(captures) => Ok(Some(captures)),
        Searched::NoMatch => Ok(None),
        Searched::GaveUp => table::first_match(alloc, pat, text),
    }
}
