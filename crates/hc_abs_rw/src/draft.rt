//! A text that a rule makes, while it is asked where it leads.
ghost use Rattle.std.specs.Prelude.{◌≡◌, ◌∷◌, [], None, IfOk};
ghost use Rattle.hc_abs_rw.specs.Drafts.{IsTextSet, on_way, outside_of, slot_alone};
ghost use Rattle.hc_abs_rw.specs.Trials.{AreWays};
ghost use Rattle.hc_cells.specs.declared.slot.Slot.TheVariants as slot;
ghost use Rattle.hc_dfa.specs.Automata.{accepts};
ghost use Rattle.hc_plan.specs.Ways.{IsHandSet};
ghost use Rattle.hc_plan.specs.declared.hand.Element.TheVariants as element;

use crate::apply::{Applied, Made, Next, Setting};
use crate::ways::{Ways, ways_of};
use hc_base::{NoMemory, Text};
use hc_cells::{Cell, Slot};
use hc_dfa::Dfa;
use hc_model::{Flags, Reason};
use hc_plan::{Element, Hand, Tied, Way, hand_set};
use hc_rw_expand::Engine;
use hc_rw_sets::TextTests;
use std::alloc::Global;

/// What a rule makes a text by.
#[derive(Clone, Copy)]
pub(crate) struct Task<'f, 'r> {
    pub tests: &'f TextTests,
    /// The document root.
    pub root: Option<&'f Text>,
    /// None where the rules of a server run.
    pub engine: Option<Engine<'f>>,
    pub flags: &'r Flags,
    pub setting: Setting,
}

/// A text that a rule makes, with the query that goes with it.
#[derive(Drop)]
pub(crate) struct Draft<'t, 'q> {
    pub tied: Tied,
    pub text: &'t [Element],
    pub side: Option<Dfa>,
    pub query: &'q [Element],
    /// The query takes the place of the old one.
    pub replaced: bool,
}

impl<'t, 'q> Draft<'t, 'q> {
    /// The ways of a test of the text.
    pub fn ways(&self, alloc: Global, set: &Dfa, negated: bool) -> Result<Ways, NoMemory>
        ensures { IfOk result (AreWays self.now.tied.cell self.now.tied.ties self.now.text.now 0 self.now.side negated
            (accepts set.now)) }
    {
        let hand = Hand {
            elements: self.text,
            off: 0,
            side: &self.side,
        };
        ways_of(alloc, &self.tied.cell, self.tied.ties, hand, set, negated)
    }

    /// The texts that it may be.
    pub fn texts(&self, alloc: Global) -> Result<Dfa, NoMemory>
        ensures { IfOk result (IsTextSet self.now) }
    {
        let hand = Hand {
            elements: self.text,
            off: 0,
            side: &self.side,
        };
        hand_set(alloc, &self.tied.cell, hand)
    }

    /// The same on a way of a test.
    pub fn on(&self, way: Way) -> Draft<'t, 'q>
        ensures { result ≡ on_way self.now way }
    {
        let Way { cell, side } = way;
        Draft {
            tied: Tied {
                cell,
                ties: self.tied.ties,
            },
            text: self.text,
            side,
            query: self.query,
            replaced: self.replaced,
        }
    }

    /// The request goes outside.
    pub fn outside(self, reason: Reason) -> Applied
        ensures { result ≡ outside_of self.entry.tied reason }
    {
        Applied {
            tied: self.tied,
            made: Made::nothing(Next::Outside(reason)),
        }
    }

    /// The same with another text.
    pub fn with_text<'u>(self, text: &'u [Element]) -> Draft<'u, 'q>
        ensures { result ≡ record self.entry { text = text.entry; side = None } }
    {
        Draft {
            tied: self.tied,
            text,
            side: None,
            query: self.query,
            replaced: self.replaced,
        }
    }
}

/// Any text of a set, as an element that no test narrows.
pub fn free(alloc: Global, set: Dfa) -> Result<Vec<Element>, NoMemory>
    ensures { IfOk result (λ made. made.items ≡ element.Free set ∷ []) }
{
    let mut elements = Vec::new(alloc);
    elements.push(Element::Free(set))?;
    Ok(elements)
}

pub(crate) fn old_query(alloc: Global) -> Result<Vec<Element>, NoMemory>
    ensures { IfOk result (λ made. made.items ≡ slot_alone slot.Query) }
{
    let mut elements = Vec::new(alloc);
    elements.push(Element::Open(Slot::Query, 0))?;
    Ok(elements)
}

/// What elements may be that no test was made of.
pub(crate) fn untested(alloc: Global, cell: &Cell, elements: &[Element]) -> Result<Dfa, NoMemory>
    ensures { IfOk result (IsHandSet cell.now elements.now 0 None) }
{
    let hand = Hand {
        elements,
        off: 0,
        side: &None,
    };
    hand_set(alloc, cell, hand)
}
