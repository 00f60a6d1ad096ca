//! The slots at the start of the pass that follows (Apache manual, mod_rewrite, RewriteRule, "Per-directory Rewrites").
ghost use Rattle.std.specs.Prelude.{◌≡◌, [], nat_eq, IfOk, codes, option_map};
ghost use Rattle.std.specs.List.{starts_with};
ghost use Rattle.std.specs.Str.{bytes_eq};
ghost use Rattle.hc_abs_pass.specs.Restarting.{front, variable_source};
ghost use Rattle.hc_cells.specs.Cells.{set_at};
ghost use Rattle.hc_cells.specs.declared.slot.Slot.TheVariants as slot;
ghost use Rattle.hc_plan.specs.Hands.{cell_of};
ghost use Rattle.hc_rw_eval.specs.Directories.{behind_front};
ghost use Rattle.hc_abs_restart.specs.Starting.{IsRenamed, IsSource, IsStarted, LooksAt, emptied};

use crate::choosing::texts_at;
use hc_base::{NoMemory, Text};
use hc_cells::{Cell, Slot, Ties, with, without_variables};
use hc_dfa::{Dfa, single};
use hc_plan::Tied;
use std::alloc::Global;

// What is put before the names of variables.
const FRONT: &[u8] = b"REDIRECT_";

// The variable that says that a request was redirected, and its value.
const STATUS_NAME: &[u8] = b"REDIRECT_STATUS";

const STATUS: &[u8] = b"200";

/// The states at the start of the pass that follows, where these variables are looked at.
pub(crate) fn started(alloc: Global, tied: &Tied, names: &[Text]) -> Result<Tied, NoMemory>
    ensures { IfOk result (IsRenamed tied.now names.now) }
{
    let cell = with_variables(alloc, &tied.cell, names)?;
    let ties = Ties {
        origin_path: false,
        text_path: true,
        text_name: false,
        query_first: tied.ties.query_first,
    };
    Ok(Tied { cell, ties })
}

/// The cell in which each of these variables has its value.
fn with_variables(alloc: Global, before: &Cell, names: &[Text]) -> Result<Cell, NoMemory>
    ensures { IfOk result (IsStarted before.now names.now) }
{
    let mut cell = without_names(alloc, before)?;
    for name in names {
        cell = with_variable(alloc, before, name, cell)?;
    }
    Ok(cell)
}

/// The cell of which no variable is looked at: the path is rewritten.
fn without_names(alloc: Global, before: &Cell) -> Result<Cell, NoMemory>
    ensures { IfOk result (IsStarted before.now []) }
{
    let bare = without_variables(before)?;
    let paths = texts_at(alloc, before, &Slot::Path)?;
    let rewritten = with(alloc, &bare, &Slot::Text, &paths)?;
    let made = without_file(alloc, &rewritten)?;
    Ok(made)
}

/// The cell in which no file was found yet: the file name, the path information and the location are empty.
fn without_file(alloc: Global, cell: &Cell) -> Result<Cell, NoMemory>
    ensures { IfOk result (λ made. cell_of made ≡ emptied (cell_of cell.now)) }
{
    let empty = single(alloc, &[])?;
    let named = with(alloc, cell, &Slot::Name, &empty)?;
    let informed = with(alloc, &named, &Slot::Info, &empty)?;
    let located = with(alloc, &informed, &Slot::Location, &empty)?;
    Ok(located)
}

/// The cell in which a variable has its value, too.
fn with_variable(
    alloc: Global,
    before: &Cell,
    name: &Text,
    mut cell: Cell,
) -> Result<Cell, NoMemory>
    ensures { IfOk result (LooksAt before.now name.now cell) }
{
    let Some(set) = values_of(alloc, before, name.as_bytes())? else {
        return Ok(cell);
    };
    let slot = Slot::Env(Text::copy_of(alloc, name.as_bytes())?);
    cell.put(alloc, slot, set)?;
    Ok(cell)
}

/// The values of a variable, by the cell before; none where it may have any: the status, behind the front those of the
/// variable without it, and else nothing.
fn values_of(alloc: Global, before: &Cell, name: &[u8]) -> Result<Option<Dfa>, NoMemory>
    ensures { IfOk result (IsSource before.now (variable_source name.now)) }
{
    if is_same(name, STATUS_NAME) {
        let set = single(alloc, STATUS)?;
        return Ok(Some(set));
    }
    let Some(rest) = behind_front(FRONT, name) else {
        let set = single(alloc, &[])?;
        return Ok(Some(set));
    };
    let found = values_before(alloc, before, rest)?;
    Ok(found)
}

fn is_same(one: &[u8], other: &[u8]) -> bool
    ensures { result ≡ bytes_eq one.now other.now }
{
    one == other
}

/// What follows a front, where the text begins with it.
fn behind_front<'t>(front: &[u8], text: &'t [u8]) -> Option<&'t [u8]>
    ensures { option_map (λ rest. rest.now) result ≡ behind_front front.now text.now }
{
    if text.starts_with(front) {
        Some(text.split_at(front.len()).1)
    } else {
        None
    }
}

/// The values of a variable that is there.
fn values_before(alloc: Global, before: &Cell, name: &[u8]) -> Result<Option<Dfa>, NoMemory>
    ensures { IfOk result (λ found. found ≡ set_at before.now (slot.Env name.now)) }
{
    let slot = Slot::Env(Text::copy_of(alloc, name)?);
    match before.set_of(&slot) {
        Some(set) => {
            let copy = set.clone()?;
            Ok(Some(copy))
        }
        None => Ok(None),
    }
}
