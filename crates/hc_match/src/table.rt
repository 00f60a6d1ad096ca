ghost use Rattle.std.specs.Prelude.{◌≡◌, IfOk, option_map};
ghost use Rattle.hc_pattern.specs.Pattern.{pattern_of};
ghost use Rattle.hc_ways.specs.Kept.{first_match};
ghost use Rattle.hc_match.specs.Settings.{captured};

use crate::captures::Captures;
use crate::failures::Failures;
use crate::paths::Search;
use crate::program::Program;
use hc_base::NoMemory;
use hc_pattern::Pat;
use std::alloc::Global;

/// The first match of the pattern in the text, by a search that tries each pair of a step of the
/// pattern and a place of the text once. A tree that no text gives, with a repeat of a body that
/// can be empty, is answered as if memory were refused (our own choice).
pub(crate) fn first_match(
    alloc: Global,
    pat: &Pat,
    text: &[u8],
) -> Result<Option<Captures>, NoMemory>
    ensures { IfOk result (λ found. option_map captured found ≡ first_match text.now (pattern_of pat.now)) }
{
    let (program, start) = Program::of(alloc, pat)?;
    let steps = program.steps();
    let failures = Failures::none(alloc, steps.len(), text.len() + 1)?;
    let mut search = Search::new(alloc, failures);
    for from in 0..text.len() + 1 {
        search.begin(start, from);
        if search.run(steps, text)? {
            return Ok(Some(search.captures(alloc, steps, from)?));
        }
    }
    Ok(None)
}
