//! What holds of all rounds through lists of rules, as the contracts of functions that do nothing.
ghost use Rattle.hc_rw_eval.specs.Relation.{ListIsRelated, OneEnd, OneRun, RunIsRelated};

/// A round through a list is one that its rules come to, each by what it does.
#[tactic(auto, using(crate::proofs::Relating::related))]
pub fn run_is_related()
    ensures { RunIsRelated }
{}

/// Rules come to one run.
#[tactic(auto, using(crate::proofs::Relating::one_run))]
pub fn one_run()
    ensures { OneRun }
{}

/// What a list of rules comes to is what its rounds come to, one behind another.
#[tactic(auto, using(crate::proofs::Finishing::list_related))]
pub fn list_is_related()
    ensures { ListIsRelated }
{}

/// A list of rules comes to one run.
#[tactic(auto, using(crate::proofs::Finishing::one_end))]
pub fn one_end()
    ensures { OneEnd }
{}
