ghost use Rattle.std.specs.Prelude.{◌≡◌, IfOk};
ghost use Rattle.hc_json.specs.CommandView.{claim_view, place_view, scope_view};
ghost use Rattle.hc_regset.specs.Forms.{Form};
ghost use Rattle.hc_regset.specs.Sets.{IsSetOf};
ghost use Rattle.hc_stated.specs.Stated.{IsClaim, IsScope, Sets};
ghost use Rattle.hc_stated.specs.Views.{GivesIn, States, sets_in};

use crate::field::Field;
use crate::sets::SetForms;
use hc_base::{AtByte, Fault, NoMemory, Place, Text};
use hc_dfa::Dfa;
use hc_json::{ClaimForm, PlaceForm, ScopeForm};
use hc_regset::compile_set;
use hc_scope::{Claim, Scope, SetForm};
use std::alloc::Global;

/// A claim on all requests of a scope.
#[derive(Drop)]
pub struct Stated {
    pub claim: Claim,
    pub scope: Scope,
}

/// A pattern that isn't read, by the rule (13 to 16) that it breaks at a byte, and the field that it stands in.
#[derive(Clone, Copy)]
pub struct BadPattern {
    pub field: Field,
    pub why: AtByte,
}

/// Why nothing is stated: memory was refused, or a pattern isn't read.
pub type StatedFault = Fault<BadPattern>;

/// The claim and the scope that are written with these sets, or the first pattern in these that isn't read.
pub fn state(
    alloc: Global,
    claim: ClaimForm<'_>,
    scope: ScopeForm<'_>,
    sets: &SetForms,
) -> Result<Stated, StatedFault>
    ensures { States result claim.entry scope.entry (sets_in sets.now) }
{
    let target = made(alloc, Field::Claim, &sets.target)?;
    let path = made(alloc, Field::Scope, &sets.path)?;
    let query = made(alloc, Field::Scope, &sets.query)?;
    Ok(Stated {
        claim: claim_with(alloc, claim, target)?,
        scope: scope_with(alloc, scope, path, query)?,
    })
}

/// The automaton of a set of a field.
pub(crate) fn made(alloc: Global, field: Field, set: &SetForm) -> Result<Dfa, StatedFault>
    ensures { GivesIn field result set.now }
{
    match compile_set(alloc, set) {
        Ok(made) => Ok(made),
        Err(Fault::Refused(why)) => Err(Fault::Refused(BadPattern { field, why })),
        Err(Fault::NoMemory) => Err(Fault::NoMemory),
    }
}

fn claim_with(alloc: Global, claim: ClaimForm<'_>, target: Dfa) -> Result<Claim, NoMemory>
    ensures { (F : Form) → IsSetOf F target → IfOk result (IsClaim (claim_view claim.entry) F) }
{
    match claim {
        ClaimForm::Stops => Ok(Claim::Stops),
        ClaimForm::Shadowed(place) => Ok(Claim::Shadowed(place_of(alloc, place)?)),
        ClaimForm::Guarded { by, .. } => Ok(Claim::Guarded {
            target,
            by: place_of(alloc, by)?,
        }),
    }
}

fn place_of(alloc: Global, place: PlaceForm<'_>) -> Result<Place, NoMemory>
    ensures { IfOk result (λ made. made ≡ place_view place.entry) }
{
    Ok(Place {
        file: Text::copy_of(alloc, place.file.as_bytes())?,
        line: place.line,
    })
}

fn scope_with(alloc: Global, scope: ScopeForm<'_>, path: Dfa, query: Dfa) -> Result<Scope, NoMemory>
    ensures { (sets : Sets) → IsSetOf sets.path path → IsSetOf sets.query query
        → IfOk result (IsScope (scope_view scope.entry) sets) }
{
    Ok(Scope {
        scheme: scope.scheme,
        server: scope.server,
        port: scope.port,
        host: Text::copy_of(alloc, scope.host.as_bytes())?,
        client: scope.client,
        methods: scope.copy_methods(alloc)?,
        path,
        query,
    })
}
