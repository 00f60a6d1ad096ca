ghost use Rattle.std.specs.Prelude.{◌≡◌, IfOk};
ghost use Rattle.std.specs.Option.{option_map};
ghost use Rattle.hc_json.specs.CommandView.{claim_view, scope_view, set_view};
ghost use Rattle.hc_regset.specs.Forms.{form_of};
ghost use Rattle.hc_stated.specs.Stated.{scope_sets, set_or_all, sets_of, target_of};
ghost use Rattle.hc_stated.specs.Views.{read_view};

use crate::field::Field;
use crate::shape::set_of;
use hc_base::NoMemory;
use hc_json::{ClaimForm, ScopeForm};
use hc_scope::SetForm;
use serde_json::Value;
use std::alloc::Global;

/// The sets that a claim and its scope are written with.
#[derive(Drop)]
pub struct SetForms {
    /// The file names that the claim speaks of.
    pub target: SetForm,
    pub path: SetForm,
    pub query: SetForm,
}

/// The sets of a claim and its scope, or the field of the first one that is none.
pub fn sets_in(
    alloc: Global,
    claim: ClaimForm<'_>,
    scope: ScopeForm<'_>,
) -> Result<Result<SetForms, Field>, NoMemory>
    ensures { IfOk result (λ read. read_view read ≡ sets_of (claim_view claim.entry) (scope_view scope.entry)) }
{
    match target_of(alloc, claim)? {
        Some(target) => scope_sets(alloc, target, scope),
        None => Ok(Err(Field::Claim)),
    }
}

// The same with the file names.
fn scope_sets(
    alloc: Global,
    target: SetForm,
    scope: ScopeForm<'_>,
) -> Result<Result<SetForms, Field>, NoMemory>
    ensures { IfOk result (λ read. read_view read ≡ scope_sets (form_of target)
        (set_or_all (set_view scope.entry.path)) (set_or_all (set_view scope.entry.query))) }
{
    let Some(path) = set_or_all(alloc, scope.path)? else {
        return Ok(Err(Field::Scope));
    };
    match set_or_all(alloc, scope.query)? {
        Some(query) => Ok(Ok(SetForms {
            target,
            path,
            query,
        })),
        None => Ok(Err(Field::Scope)),
    }
}

fn target_of(alloc: Global, claim: ClaimForm<'_>) -> Result<Option<SetForm>, NoMemory>
    ensures { IfOk result (λ set. option_map form_of set ≡ target_of (claim_view claim.entry)) }
{
    match claim {
        ClaimForm::Stops => Ok(Some(SetForm::Any)),
        ClaimForm::Shadowed(_) => Ok(Some(SetForm::Any)),
        ClaimForm::Guarded { target, .. } => set_of(alloc, target),
    }
}

fn set_or_all(alloc: Global, written: Option<&Value>) -> Result<Option<SetForm>, NoMemory>
    ensures { IfOk result (λ set. option_map form_of set ≡ set_or_all (set_view written.entry)) }
{
    match written {
        Some(value) => set_of(alloc, value),
        None => Ok(Some(SetForm::Any)),
    }
}
