//! What of mod_rewrite is in force in a directory (Apache manual, mod_rewrite).
ghost use Rattle.std.specs.Prelude.{◌≡◌, map, IfOk};
ghost use Rattle.hc_merge.specs.CandidateView.{candidate_of};
ghost use Rattle.hc_merge.specs.Rewriting.{no_rewriting, replaced, rewriting_behind, rewriting_of, with_earlier};
ghost use Rattle.hc_merge.specs.RewritingView.{rewriting_view, rules_in};

use crate::candidate::Candidate;
use hc_base::{NoMemory, Text};
use hc_model::{Inherit, Rules};
use std::alloc::Global;
use std::collections::VecDeque;

/// What of mod_rewrite is in force so far, lent by the sections.
#[derive(Drop)]
pub(crate) struct Rewriting<'c> {
    pub engine: bool,
    /// The directory whose rules run.
    pub dir: Option<&'c Text>,
    /// RewriteBase.
    pub base: Option<&'c Text>,
    /// The rules, list behind list; none of the lists is empty.
    pub rules: VecDeque<&'c Rules>,
}

/// What is in force behind these sections: each that has a directive of mod_rewrite replaces what was, but
/// for RewriteEngine, and for the rules that it inherits (RewriteOptions).
pub(crate) fn rewriting_of<'c>(
    alloc: Global,
    kept: &[Candidate<'c>],
) -> Result<Rewriting<'c>, NoMemory>
    ensures { IfOk result (λ rewriting. rewriting_view rewriting ≡ rewriting_of (map candidate_of kept.now)) }
{
    let mut so_far = no_rewriting(alloc);
    for candidate in kept {
        so_far = rewriting_behind(so_far, *candidate)?;
    }
    Ok(so_far)
}

fn no_rewriting<'c>(alloc: Global) -> Rewriting<'c>
    ensures { rewriting_view result ≡ no_rewriting }
{
    Rewriting {
        engine: false,
        dir: None,
        base: None,
        rules: VecDeque::new(alloc),
    }
}

fn rewriting_behind<'c>(
    so_far: Rewriting<'c>,
    candidate: Candidate<'c>,
) -> Result<Rewriting<'c>, NoMemory>
    ensures { IfOk result (λ later. rewriting_view later
        ≡ rewriting_behind (rewriting_view so_far.entry) (candidate_of candidate.entry)) }
{
    if candidate.body.rewrites {
        replaced(so_far, candidate)
    } else {
        Ok(so_far)
    }
}

fn replaced<'c>(so_far: Rewriting<'c>, candidate: Candidate<'c>) -> Result<Rewriting<'c>, NoMemory>
    ensures { IfOk result (λ later. rewriting_view later
        ≡ replaced (rewriting_view so_far.entry) (candidate_of candidate.entry)) }
{
    let body = candidate.body;
    Ok(Rewriting {
        engine: body.engine.unwrap_or(so_far.engine),
        dir: candidate.dir,
        base: body.base.as_ref(),
        rules: with_earlier(body.inherit, &body.rules, so_far.rules)?,
    })
}

// Inherited rules come behind a section's own, or before them.
fn with_earlier<'c>(
    inherit: Inherit,
    own: &'c Rules,
    mut earlier: VecDeque<&'c Rules>,
) -> Result<VecDeque<&'c Rules>, NoMemory>
    ensures { IfOk result (λ rules. rules_in rules.items
        ≡ with_earlier inherit own.now (rules_in earlier.entry.items)) }
{
    if let Inherit::No = inherit {
        earlier.clear();
    }
    if own.as_slice().is_empty() {
        return Ok(earlier);
    }
    match inherit {
        Inherit::After => earlier.push_front(own)?,
        Inherit::No | Inherit::Before => earlier.push_back(own)?,
    }
    Ok(earlier)
}
