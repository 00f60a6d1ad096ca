//! The branches of an expression (Apache manual, "Expressions in Apache HTTP Server").
ghost use Rattle.std.specs.Prelude.{◌≤◌, IfOk, map};
ghost use Rattle.hc_abs_rw.specs.RuleBranches.{states_of};
ghost use Rattle.hc_abs_view.specs.Viewing.{AreViewed};

use crate::leads::jumps_of;
use crate::placed::jump_branches;
use crate::scene::Scene;
use hc_abs_rw::{Celled, fit};
use hc_base::NoMemory;
use hc_cells::Cell;
use hc_model::Expression;
use hc_plan::Tied;
use std::alloc::Global;

/// A branch of an expression.
#[derive(Drop)]
pub struct Viewed {
    pub tied: Tied,
    pub holds: bool,
}

impl Celled for Viewed {
    ghost cell = { λ viewed. viewed.tied.cell };

    fn cell(&self) -> &Cell {
        &self.tied.cell
    }
}

/// The branches of an expression behind a chain of others (`<ElseIf>`, `<Else>`: none of those holds, and this one
/// does), in the order of its tests: at each, first the way on which it holds, its negation counted. Branches
/// that have more states together than the scene has room for are refused as memory is.
pub fn view_branches(
    alloc: Global,
    scene: Scene<'_>,
    chain: &[&Expression],
    expr: &Expression,
    tied: Tied,
) -> Result<Vec<Viewed>, NoMemory>
    ensures branches { IfOk result (λ found. AreViewed scene.entry (map (λ one. one.now) chain.now) expr.now tied
        found.items) }
    ensures room { IfOk result (λ found. states_of (λ one. one.tied.cell) found.items ≤ scene.entry.room) }
{
    let jumps = jumps_of(alloc, chain, expr)?;
    let found = jump_branches(alloc, scene, &jumps, tied)?;
    if !fit(&found, scene.room) {
        return Err(NoMemory);
    }
    Ok(found)
}
