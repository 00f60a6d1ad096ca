use hc_base::Text;
use hc_cells::{Cell, Slot};
use hc_dfa::Dfa;

/// What a text in hand is made of.
#[derive(Drop)]
pub enum Element {
    /// This text.
    Known(Text),
    /// The value of a slot, behind so many of its bytes.
    Open(Slot, usize),
    /// Any text of a set.
    Free(Dfa),
}

/// A text in hand: its elements joined, which tests put on a side, without so many of their first bytes.
#[derive(Clone, Copy)]
pub struct Hand<'e, 's> {
    pub elements: &'e [Element],
    pub off: usize,
    pub side: &'s Option<Dfa>,
}

/// What a test leaves on one of its sides: the cell, and the side of the elements joined.
#[derive(Drop)]
pub struct Way {
    pub cell: Cell,
    pub side: Option<Dfa>,
}
