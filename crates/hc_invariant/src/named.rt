use crate::cut::Cut;
use hc_base::{List, Text};
use hc_cells::Cell;

/// The states of some requests where a part of their way begins.
#[derive(Drop)]
pub struct NamedCell {
    pub at: Cut,
    /// It grows from pass to pass.
    pub rank: u32,
    /// It grows from round to round of one list of rules, where it is there.
    pub round: Option<u32>,
    /// The variables that have a set in the cell.
    pub variables: List<Text>,
    pub cell: Cell,
}
