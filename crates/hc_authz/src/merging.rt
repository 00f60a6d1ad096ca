ghost use Rattle.std.specs.Prelude.{◌≡◌, Option, Some, IfOk};
ghost use Rattle.std.specs.Option.{option_map};
ghost use Rattle.hc_model.specs.Joined.{joined_behind, required_by};
ghost use Rattle.hc_authz.specs.Values as definition;
ghost use Rattle.hc_authz.specs.Values.{value_behind, value_joined};

use crate::tree::{Tri, Votes, value};
use hc_base::NoMemory;
use hc_model::{Caller, Join, Merging, ReqTree, Requirement};

/// The tree of a section behind those before it (Apache manual, mod_authz_core, AuthMerging).
pub fn join(before: Requirement, own: ReqTree, how: Merging) -> Result<Requirement, NoMemory>
    ensures { IfOk result (λ require. require ≡ joined_behind before (Some own) how) }
{
    before.joined(own, how)
}

/// What the trees of the sections that apply say of a caller. It takes no memory.
pub fn value_of(require: &Requirement, caller: &Caller) -> Option<Tri>
    ensures { result ≡ option_map (definition.value caller.now) require.now }
{
    value_of_joins(require.joins(), caller)
}

fn value_of_joins(joins: &[Join], caller: &Caller) -> Option<Tri>
    ensures { result ≡ option_map (definition.value caller.now) (required_by joins.now) }
{
    let mut so_far = None;
    for join in joins {
        so_far = Some(value_behind(so_far, value(&join.tree, caller), join.how));
    }
    so_far
}

fn value_behind(before: Option<Tri>, own: Tri, how: Merging) -> Tri
    ensures { result ≡ value_behind before own how }
{
    match before {
        Some(before) => value_joined(before, own, how),
        None => own,
    }
}

// Of two trees joined, from what each says.
fn value_joined(before: Tri, own: Tri, how: Merging) -> Tri
    ensures { result ≡ value_joined before own how }
{
    let votes = Votes::empty().with(before).with(own);
    match how {
        Merging::Off => own,
        Merging::And => votes.all(),
        Merging::Or => votes.any(),
    }
}
