//! Where states stand among the jumps of an expression.
ghost use Rattle.std.specs.Prelude.{◌≡◌, ◌++◌, IfOk, OnOk, map};
ghost use Rattle.hc_abs_view.specs.Placing.{AddsPast, AreForked, ArePast, is_over, placed_at, placed_on, viewed_at};
ghost use Rattle.hc_abs_view.specs.declared.jump.Target.TheVariants as target;
ghost use Rattle.hc_abs_view.specs.Tokens.{fork_of};

use crate::jump::{Jump, Target};
use crate::scene::Scene;
use crate::sides::{Sides, sides_of};
use crate::viewing::Viewed;
use hc_abs_rw::{Celled, fit};
use hc_base::NoMemory;
use hc_cells::{Cell, Ties};
use hc_plan::Tied;
use std::alloc::Global;

/// States, and where they stand: behind so many of the jumps that are left, or at an end.
#[derive(Drop)]
pub struct Placed {
    pub tied: Tied,
    pub target: Target,
}

impl Celled for Placed {
    ghost cell = { λ placed. placed.tied.cell };

    fn cell(&self) -> &Cell {
        &self.tied.cell
    }
}

/// The branches of jumps.
pub(crate) fn jump_branches(
    alloc: Global,
    scene: Scene<'_>,
    jumps: &[Jump<'_>],
    tied: Tied,
) -> Result<Vec<Viewed>, NoMemory>
    ensures { IfOk result (λ found. AreForked scene.entry (map fork_of jumps.now) tied found.items) }
{
    let mut placed = Vec::new(alloc);
    placed.push(Placed {
        tied,
        target: Target::Behind(0),
    })?;
    for jump in jumps {
        placed = past_jump(alloc, scene, jump, placed)?;
    }
    let found = ended(alloc, placed)?;
    Ok(found)
}

/// Behind a jump.
fn past_jump(
    alloc: Global,
    scene: Scene<'_>,
    jump: &Jump<'_>,
    placed: Vec<Placed>,
) -> Result<Vec<Placed>, NoMemory>
    ensures { IfOk result (λ later. ArePast scene.entry (fork_of jump.now) placed.items later.items) }
{
    let mut later = Vec::new(alloc);
    for one in placed {
        add_past(alloc, scene, jump, one, &mut later)?;
    }
    if !fit(&later, scene.room) {
        return Err(NoMemory);
    }
    Ok(later)
}

/// Adds what a jump leaves of a place. It is asked where no more jumps are left out.
fn add_past(
    alloc: Global,
    scene: Scene<'_>,
    jump: &Jump<'_>,
    one: Placed,
    later: &mut Vec<Placed>,
) -> Result<(), NoMemory>
    ensures { OnOk result (AddsPast scene.entry (fork_of jump.now) one later.old.items later.new.items) }
{
    let Placed { tied, target } = one;
    match target {
        Target::Over(is) => {
            let target = Target::Over(is);
            later.push(Placed { tied, target })?;
            Ok(())
        }
        Target::Behind(count) => {
            if count > 0 {
                let target = Target::Behind(count - 1);
                later.push(Placed { tied, target })?;
                return Ok(());
            }
            add_asked(alloc, scene, jump, tied, later)?;
            Ok(())
        }
    }
}

/// Adds what is left where it is asked: first where it holds, then where it doesn't.
fn add_asked(
    alloc: Global,
    scene: Scene<'_>,
    jump: &Jump<'_>,
    tied: Tied,
    later: &mut Vec<Placed>,
) -> Result<(), NoMemory>
    ensures { OnOk result (AddsPast scene.entry (fork_of jump.now) (placed_at tied (target.Behind 0)) later.old.items
        later.new.items) }
{
    let lead = jump.lead;
    let Sides { held, failed } = sides_of(alloc, scene, jump.leaf, lead.negated, &tied)?;
    add_side(held, tied.ties, lead.yes, later)?;
    add_side(failed, tied.ties, lead.no, later)?;
    Ok(())
}

fn add_side(
    cell: Option<Cell>,
    ties: Ties,
    target: Target,
    later: &mut Vec<Placed>,
) -> Result<(), NoMemory>
    ensures { OnOk result (later.new.items ≡ later.old.items ++ placed_on ties target cell) }
{
    match cell {
        Some(cell) => {
            let tied = Tied { cell, ties };
            later.push(Placed { tied, target })?;
            Ok(())
        }
        None => Ok(()),
    }
}

/// Where all jumps were made, the expression holds or it doesn't.
fn ended(alloc: Global, placed: Vec<Placed>) -> Result<Vec<Viewed>, NoMemory>
    ensures { IfOk result (λ found. found.items ≡ map viewed_at placed.items) }
{
    let mut found = Vec::new(alloc);
    for one in placed {
        found.push(end_of(one))?;
    }
    Ok(found)
}

fn end_of(one: Placed) -> Viewed
    ensures { result ≡ viewed_at one }
{
    let Placed { tied, target } = one;
    let holds = is_over(target);
    Viewed { tied, holds }
}

fn is_over(target: Target) -> bool
    ensures { result ≡ is_over target }
{
    match target {
        Target::Over(is) => is,
        Target::Behind(_) => false,
    }
}
