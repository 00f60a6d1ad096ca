//! The branches of who may pass.
ghost use Rattle.std.specs.Prelude.{◌≡◌, ◌++◌, ◌||◌, true, false, IfOk, OnOk};
ghost use Rattle.hc_abs_authz.specs.Admitting.{AreAdmitted};
ghost use Rattle.hc_abs_authz.specs.Ways.{admitted_by, where_is};
ghost use Rattle.hc_cells.specs.Cells.{holds};
ghost use Rattle.hc_cells.specs.declared.slot.Slot.TheVariants as slot;
ghost use Rattle.hc_dfa.specs.Built.{Accepts};

use crate::leaves::Asking;
use crate::methods::has_text;
use crate::trees::joined_values;
use crate::values::Values;
use hc_addr::Net;
use hc_base::NoMemory;
use hc_cells::{Cell, Slot};
use hc_dfa::Dfa;
use hc_model::{Caller, Requirement};
use hc_plan::{Tied, every_text};
use std::alloc::Global;

/// A branch of the question who may pass.
#[derive(Drop)]
pub struct Admitted {
    pub tied: Tied,
    pub is: bool,
}

/// The branches of who may pass, where the clients are those of a network and the methods those of their slot: first
/// where some may be let in, then where some may not. Nothing is narrowed (Apache manual, mod_authz_core, Require).
pub fn admitted_branches(
    alloc: Global,
    caller: &Caller,
    net: &Net,
    require: &Requirement,
    tied: Tied,
) -> Result<Vec<Admitted>, NoMemory>
    ensures { IfOk result (λ found. AreAdmitted caller.now net.now require.now tied found.items) }
{
    let methods = methods_in(alloc, &tied.cell)?;
    let some = has_text(alloc, &methods)?;
    let asking = Asking {
        alloc,
        net,
        request: &caller.request,
        methods: &methods,
        some,
    };
    let values = joined_values(asking, require.joins())?;
    branches_by(alloc, &tied, values)
}

/// The methods of a cell.
fn methods_in(alloc: Global, cell: &Cell) -> Result<Dfa, NoMemory>
    ensures { IfOk result (λ made. Accepts made (holds cell.now slot.Method)) }
{
    match cell.set_of(&Slot::Method) {
        Some(set) => {
            let copy = set.clone()?;
            Ok(copy)
        }
        None => every_text(alloc),
    }
}

/// The branches, by what may be said.
fn branches_by(
    alloc: Global,
    tied: &Tied,
    values: Option<Values>,
) -> Result<Vec<Admitted>, NoMemory>
    ensures { IfOk result (λ found. found.items ≡ admitted_by tied.now values) }
{
    let mut found = Vec::new(alloc);
    match values {
        None => add(&mut found, true, true, tied)?,
        Some(values) => add_both(&mut found, values, tied)?,
    }
    Ok(found)
}

fn add_both(found: &mut Vec<Admitted>, values: Values, tied: &Tied) -> Result<(), NoMemory>
    ensures { OnOk result (found.new.items ≡ found.old.items
        ++ (where_is values.granted true tied.now ++ where_is (values.denied || values.neutral) false tied.now)) }
{
    add(found, values.granted, true, tied)?;
    add(found, values.denied || values.neutral, false, tied)?;
    Ok(())
}

/// Adds a branch where it may end so.
fn add(found: &mut Vec<Admitted>, may: bool, is: bool, tied: &Tied) -> Result<(), NoMemory>
    ensures { OnOk result (found.new.items ≡ found.old.items ++ where_is may is tied.now) }
{
    if may {
        found.push(Admitted {
            tied: copied(tied)?,
            is,
        })?;
    }
    Ok(())
}

fn copied(tied: &Tied) -> Result<Tied, NoMemory>
    ensures { IfOk result (λ copy. copy ≡ tied.now) }
{
    Ok(Tied {
        cell: tied.cell.clone()?,
        ties: tied.ties,
    })
}
