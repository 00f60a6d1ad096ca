ghost use Rattle.std.specs.Prelude.{◌≡◌, IfOk, Some, map, option_map};
ghost use Rattle.serde_json.specs.View.{items_view, view};
ghost use Rattle.hc_json.specs.Cells.{are_cells, cell_from, cells_in, cells_of, cut_from, cut_in, fields_of_cell};
ghost use Rattle.hc_json.specs.Cells.{rank_from, rank_in, round_at, round_from, round_in, slots_in};
ghost use Rattle.hc_json.specs.CommandView.{cell_field_view, cell_view, cells_field_view, cut_field_view, cut_view};
ghost use Rattle.hc_json.specs.CommandView.{slots_field_view, value_view};

use crate::fields::{BadField, unknown_field};
use crate::slots::slots_in;
use hc_base::NoMemory;
use hc_base::paths::begins_with_slash;
use serde_json::{Map, Value};
use std::alloc::Global;

const HIGHEST_RANK: u64 = 1_000;

const FIRST_ROUND: u64 = 1;

const LAST_ROUND: u64 = 31_999;

/// Where a part of the way of a request begins, as it is written: with a pass, or with a further round of the rules of
/// the server or of a directory.
#[derive(Clone, Copy)]
pub enum CutForm<'v> {
    Pass,
    Server,
    /// The directory's path begins with a slash.
    Dir(&'v str),
}

/// A cell, as it is written. It borrows from the JSON value that it is read from.
#[derive(Clone, Copy)]
pub struct CellForm<'v> {
    pub at: CutForm<'v>,
    pub rank: u32,
    pub round: Option<u32>,
    /// By the names of slots: `slot_named` tells which. Whether each is a set isn't looked at.
    pub slots: &'v Map<String, Value>,
}

// ---- cells

/// The cells of a command. Whatever is wrong within them, `cells` is the wrong field.
pub(crate) fn cells_in(
    alloc: Global,
    value: &Value,
) -> Result<Result<&Vec<Value>, BadField<'_>>, NoMemory>
    ensures { IfOk result (λ read. cells_field_view read ≡ cells_in (view value.now)) }
{
    let Some(values) = value.get("cells").and_then(Value::as_array) else {
        return Ok(Err(BadField("cells")));
    };
    if are_cells(alloc, values)? {
        Ok(Ok(values))
    } else {
        Ok(Err(BadField("cells")))
    }
}

fn are_cells(alloc: Global, values: &[Value]) -> Result<bool, NoMemory>
    ensures { IfOk result (λ are. are ≡ are_cells (items_view values.now)) }
{
    for value in values {
        if cell_from(alloc, value)?.is_none() {
            return Ok(false);
        }
    }
    Ok(true)
}

/// The cells among values, in their order.
pub fn cells_of(alloc: Global, values: &[Value]) -> Result<Vec<CellForm<'_>>, NoMemory>
    ensures { IfOk result (λ cells. map cell_view cells.items ≡ cells_of (items_view values.now)) }
{
    let mut cells = Vec::new(alloc);
    for value in values {
        if let Some(cell) = cell_from(alloc, value)? {
            cells.push(cell)?;
        }
    }
    Ok(cells)
}

// The cell that a value is.
fn cell_from(alloc: Global, value: &Value) -> Result<Option<CellForm<'_>>, NoMemory>
    ensures { IfOk result (λ cell. option_map cell_view cell ≡ cell_from (view value.now)) }
{
    if unknown_field(value, &["at", "rank", "round", "slots"]).is_some() {
        return Ok(None);
    }
    let slots = slots_in(alloc, value)?;
    Ok(fields_of_cell(value, slots).ok())
}

// The fields of a cell with what its slots are read as.
fn fields_of_cell<'v>(
    value: &'v Value,
    slots: Result<&'v Map<String, Value>, BadField<'v>>,
) -> Result<CellForm<'v>, BadField<'v>>
    requires slots { slots_field_view slots ≡ slots_in (view value.now) }
    ensures { cell_field_view result ≡ fields_of_cell (view value.now) }
{
    let at = cut_in(value)?;
    let rank = rank_in(value)?;
    let round = round_in(value, at)?;
    let slots = slots?;
    Ok(CellForm {
        at,
        rank,
        round,
        slots,
    })
}

// ---- where it stands

fn cut_in(value: &Value) -> Result<CutForm<'_>, BadField<'_>>
    ensures { cut_field_view result ≡ cut_in (view value.now) }
{
    value.get("at").and_then(cut_from).ok_or(BadField("at"))
}

fn cut_from(value: &Value) -> Option<CutForm<'_>>
    ensures { option_map cut_view result ≡ cut_from (view value.now) }
{
    match value.as_str()? {
        "pass" => Some(CutForm::Pass),
        "server" => Some(CutForm::Server),
        path if begins_with_slash(path.as_bytes()) => Some(CutForm::Dir(path)),
        _ => None,
    }
}

fn rank_in(value: &Value) -> Result<u32, BadField<'_>>
    ensures { value_view result ≡ rank_in (view value.now) }
{
    value
        .get("rank")
        .and_then(rank_from)
        .ok_or(BadField("rank"))
}

fn rank_from(value: &Value) -> Option<u32>
    ensures { result ≡ rank_from (view value.now) }
{
    let rank = value.as_u64()?;
    if rank <= HIGHEST_RANK {
        Some(rank as u32)
    } else {
        None
    }
}

fn round_in<'v>(value: &'v Value, at: CutForm<'_>) -> Result<Option<u32>, BadField<'v>>
    ensures { value_view result ≡ round_in (cut_view at.entry) (view value.now) }
{
    match value.get("round") {
        Some(given) => match round_at(at, given) {
            Some(round) => Ok(Some(round)),
            None => Err(BadField("round")),
        },
        None => Ok(None),
    }
}

// A pass has no round.
fn round_at(at: CutForm<'_>, value: &Value) -> Option<u32>
    ensures { option_map Some result ≡ round_at (cut_view at.entry) (view value.now) }
{
    match at {
        CutForm::Pass => None,
        _ => round_from(value),
    }
}

fn round_from(value: &Value) -> Option<u32>
    ensures { result ≡ round_from (view value.now) }
{
    let round = value.as_u64()?;
    if FIRST_ROUND <= round && round <= LAST_ROUND {
        Some(round as u32)
    } else {
        None
    }
}
