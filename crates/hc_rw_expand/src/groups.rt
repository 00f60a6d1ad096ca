ghost use Rattle.std.specs.Prelude.{◌≡◌, map, IfOk};
ghost use Rattle.std.specs.List.{range_with_len};
ghost use Rattle.hc_match.specs.Settings.{captured};
ghost use Rattle.hc_rw_expand.specs.Groups.{group_of, matched_in, newer, span_at};

use hc_base::{List, NoMemory, Span, Text, spanned};
use hc_match::Captures;
use std::alloc::Global;

/// How many groups a template can name: `$0` to `$9`, and `%0` to `%9`.
const GROUPS: u8 = 10;

/// A text in which a pattern was found, and where its groups stand in it, `$0` to `$9` (Apache manual,
/// mod_rewrite, "Test String").
#[derive(Drop)]
pub struct Matched {
    pub text: Text,
    pub spans: List<Option<Span>>,
}

impl Clone for Matched {
    ghost is_clone = { λ matched copy. copy ≡ matched };

    fn clone(&self) -> Result<Matched, NoMemory> {
        Ok(Matched {
            text: self.text.clone()?,
            spans: self.spans.copy()?,
        })
    }
}

impl Matched {
    /// A text, and what the groups of the pattern hold that was found in it. `NoMemory` where memory is refused.
    pub fn new(alloc: Global, text: Text, captures: &Captures) -> Result<Matched, NoMemory>
        ensures { IfOk result (λ matched. matched ≡ matched_in text (captured captures.now)) }
    {
        Ok(Matched {
            text,
            spans: List::from(spans_of(alloc, captures)?),
        })
    }
}

// What the groups hold that a template can name.
fn spans_of(alloc: Global, captures: &Captures) -> Result<Vec<Option<Span>>, NoMemory>
    ensures { IfOk result (λ spans. spans.items ≡ map (captured captures.now) (range_with_len 0 10)) }
{
    (0..GROUPS)
        .map(|number| captures.get(number))
        .collect(alloc)
}

/// What a group holds; nothing where it was not set, or no pattern was found.
pub(crate) fn group_of(matched: &Option<Matched>, number: u8) -> &[u8]
    ensures { result.now ≡ group_of matched.now number }
{
    match matched {
        Some(matched) => spanned(
            matched.text.as_bytes(),
            span_at(matched.spans.as_slice(), number),
        ),
        None => &[],
    }
}

fn span_at(spans: &[Option<Span>], number: u8) -> Option<Span>
    ensures { result ≡ span_at spans.now number }
{
    match spans.get(usize::from(number)) {
        Some(span) => *span,
        None => None,
    }
}

/// What `%0` to `%9` hold behind a condition: what its pattern found, unless it is negated, and else what they held
/// (Apache manual, mod_rewrite, RewriteCond).
pub fn newer(negated: bool, found: Option<Matched>, earlier: Option<Matched>) -> Option<Matched>
    ensures { result ≡ newer negated found earlier }
{
    if negated { earlier } else { found.or(earlier) }
}
