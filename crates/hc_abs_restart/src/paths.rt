//! The URL paths by which the pass that follows goes.
ghost use Rattle.std.specs.Prelude.{IfOk};
ghost use Rattle.hc_abs_restart.specs.Following.{ArePaths, IsPlaced};

use crate::choosing::texts_at;
use crate::restart::Restart;
use hc_abs_pass::Named;
use hc_abs_rw::{base_of, free};
use hc_base::NoMemory;
use hc_cells::Slot;
use hc_dfa::Dfa;
use hc_plan::Tied;
use hc_rw_sets::url_paths;
use std::alloc::Global;

/// The URL path that the text stands for, in hand.
pub(crate) fn placed(alloc: Global, restart: Restart<'_>, tied: Tied) -> Result<Named, NoMemory>
    ensures { IfOk result (IsPlaced restart.entry tied) }
{
    let texts = texts_at(alloc, &tied.cell, &Slot::Text)?;
    let paths = paths_of(alloc, restart, texts)?;
    let text = free(alloc, paths)?;
    Ok(Named {
        tied,
        text,
        side: None,
    })
}

/// The URL paths that texts stand for: in the rules of a server they are such.
fn paths_of(alloc: Global, restart: Restart<'_>, texts: Dfa) -> Result<Dfa, NoMemory>
    ensures { IfOk result (ArePaths restart.entry texts) }
{
    let Some(engine) = restart.engine else {
        return Ok(texts);
    };
    let _base = base_of(&engine); // Its bytes make URL paths texts of bytes.
    let paths = url_paths(alloc, restart.root, &engine, &texts)?;
    Ok(paths)
}
