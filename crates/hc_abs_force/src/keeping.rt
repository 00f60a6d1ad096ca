//! The candidates that apply.
ghost use Rattle.std.specs.Prelude.{◌≡◌, IfOk, map};
ghost use Rattle.hc_abs_force.specs.Forcing.{marked};
ghost use Rattle.hc_merge.specs.CandidateView.{candidate_of};

use hc_base::NoMemory;
use hc_merge::Candidate;
use std::alloc::Global;

/// The candidates that apply.
pub fn kept<'c>(
    alloc: Global,
    candidates: &[Candidate<'c>],
    marks: &[bool],
) -> Result<Vec<Candidate<'c>>, NoMemory>
    ensures { IfOk result (λ kept. map candidate_of kept.items
        ≡ marked marks.now (map candidate_of candidates.now)) }
{
    let mut kept = Vec::new(alloc);
    let mut left = marks;
    for candidate in candidates {
        let Some((mark, rest)) = left.split_first() else {
            return Ok(kept);
        };
        left = rest;
        if !*mark {
            continue;
        }
        kept.push(*candidate)?;
    }
    Ok(kept)
}
