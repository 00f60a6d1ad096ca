//! The sections that apply, over a set of requests, one after another in the order in which they are merged (Apache
//! manual, "Configuration Sections", "How the sections are merged").
ghost use Rattle.std.specs.Prelude.{◌≡◌, ◌≤◌, IfOk, map};
ghost use Rattle.hc_abs_force.specs.Asking.{exprs, question_where};
ghost use Rattle.hc_abs_force.specs.Forcing.{AreForced};
ghost use Rattle.hc_abs_force.specs.Marking.{AnswersFor, AreTried};
ghost use Rattle.hc_abs_force.specs.Merging.{merges};
ghost use Rattle.hc_abs_force.specs.Steps.{ArePast};
ghost use Rattle.hc_abs_rw.specs.RuleBranches.{states_of};
ghost use Rattle.hc_merge.specs.CandidateView.{candidate_of};
ghost use Rattle.hc_merge.specs.Reaching.{resolved};

use crate::asking::{all_alone, past_reach};
use crate::chains::chain_behind;
use crate::merging::merges;
use hc_abs_rw::{Celled, fit};
use hc_abs_view::Scene;
use hc_base::NoMemory;
use hc_cells::Cell;
use hc_merge::Candidate;
use hc_model::{Expression, Reach};
use hc_plan::Tied;
use std::alloc::Global;

/// The sections that apply in a branch: of each candidate whether it does.
#[derive(Drop)]
pub struct Forced {
    pub tied: Tied,
    pub marks: Vec<bool>,
}

impl Celled for Forced {
    ghost cell = { λ forced. forced.tied.cell };

    fn cell(&self) -> &Cell {
        &self.tied.cell
    }
}

/// The branches of the sections that may be in force, one test after another in the order in which they are merged. A
/// section that merges no setting, nor has one inside that does, isn't tested. Branches that have more states together
/// than there is room for are refused as memory is.
pub fn section_branches(
    alloc: Global,
    scene: Scene<'_>,
    candidates: &[Candidate<'_>],
    tied: Tied,
    room: u64,
) -> Result<Vec<Forced>, NoMemory>
    ensures branches { IfOk result (λ found.
        AreForced scene.entry (map candidate_of candidates.now) tied found.items) }
    ensures room { IfOk result (λ found. states_of (λ one. one.tied.cell) found.items ≤ room) }
{
    let mut found = Vec::new(alloc);
    found.push(Forced {
        tied,
        marks: Vec::new(alloc),
    })?;
    let mut chain: Vec<&Expression> = Vec::new(alloc);
    for candidate in candidates {
        found = past_section(alloc, scene, &chain, candidate, found)?;
        if !fit(&found, room) {
            return Err(NoMemory);
        }
        chain = chain_behind(alloc, chain, candidate.reach)?;
    }
    if !fit(&found, room) {
        return Err(NoMemory);
    }
    Ok(found)
}

/// Behind a section. One of the first group applies where it stands.
fn past_section(
    alloc: Global,
    scene: Scene<'_>,
    chain: &[&Expression],
    candidate: &Candidate<'_>,
    before: Vec<Forced>,
) -> Result<Vec<Forced>, NoMemory>
    ensures { IfOk result (λ later. ArePast scene.entry (exprs chain.now) (candidate_of candidate.now)
        before.items later.items) }
{
    match candidate.reach {
        None => {
            let later = all_alone(alloc, true, before)?;
            Ok(later)
        }
        Some(reach) => {
            let later = past_tested(alloc, scene, chain, candidate, reach, before)?;
            Ok(later)
        }
    }
}

/// One that merges nothing isn't tried.
fn past_tested(
    alloc: Global,
    scene: Scene<'_>,
    chain: &[&Expression],
    candidate: &Candidate<'_>,
    reach: &Reach,
    before: Vec<Forced>,
) -> Result<Vec<Forced>, NoMemory>
    ensures { IfOk result (λ later. AreTried
        (AnswersFor scene.entry (question_where (merges (candidate_of candidate.now).body)
        (resolved (exprs chain.now) reach.now))) (candidate_of candidate.now).parent before.items later.items) }
{
    if !merges(candidate.body) {
        let later = all_alone(alloc, false, before)?;
        return Ok(later);
    }
    let later = past_reach(alloc, scene, chain, candidate.parent, reach, before)?;
    Ok(later)
}
