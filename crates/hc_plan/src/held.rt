ghost use Rattle.std.specs.Prelude.{IfOk};
ghost use Rattle.hc_plan.specs.Ways.{IsGroupSet};

use crate::hand::{Element, Hand};
use crate::parts::hand_set;
use hc_base::NoMemory;
use hc_cells::Cell;
use hc_dfa::Dfa;
use hc_pat_lang::group_texts;
use hc_pattern::Pat;
use std::alloc::Global;

/// A text in which a pattern was found, over the cell in which it was. What its groups may hold is made where it is
/// asked for.
#[derive(Drop)]
pub struct Found<'p> {
    pub pattern: &'p Pat,
    pub cell: Cell,
    pub elements: Vec<Element>,
    pub off: usize,
    pub side: Option<Dfa>,
}

impl<'p> Found<'p> {
    /// What a group may hold.
    pub fn group(&self, alloc: Global, number: u8) -> Result<Dfa, NoMemory>
        ensures { IfOk result (IsGroupSet self.now number) }
    {
        let hand = Hand {
            elements: &self.elements,
            off: self.off,
            side: &self.side,
        };
        let texts = hand_set(alloc, &self.cell, hand)?;
        let made = group_texts(alloc, self.pattern, &texts, number)?;
        Ok(made)
    }
}
