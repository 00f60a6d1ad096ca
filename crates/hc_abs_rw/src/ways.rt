//! The ways of a test, and what a pattern leaves that was found.
ghost use Rattle.std.specs.Prelude.{◌≡◌, IfOk};
ghost use Rattle.hc_dfa.specs.Automata.{accepts};
ghost use Rattle.hc_dfa.specs.Built.{Accepts};
ghost use Rattle.hc_abs_rw.specs.Trials.{AreWays, IsHeld};
ghost use Rattle.hc_pattern.specs.Pattern.{pattern_of};
ghost use Rattle.hc_plan.specs.Branches.{finds};

use crate::known::Held;
use hc_base::NoMemory;
use hc_cells::{Cell, Ties};
use hc_dfa::Dfa;
use hc_pat_lang::matched;
use hc_pattern::Pat;
use hc_plan::{Element, Found, Hand, Test, Way, way_on_side};
use std::alloc::Global;
use std::rc::Rc;

/// What a test leaves: where it holds, its negation counted, and where it doesn't.
#[derive(Drop)]
pub struct Ways {
    pub held: Option<Way>,
    pub failed: Option<Way>,
}

/// The ways of a test of a text by a set.
pub fn ways_of(
    alloc: Global,
    cell: &Cell,
    ties: Ties,
    hand: Hand<'_, '_>,
    set: &Dfa,
    negated: bool,
) -> Result<Ways, NoMemory>
    ensures { IfOk result (AreWays cell.now ties hand.entry.elements.now hand.entry.off hand.entry.side.now negated
        (accepts set.now)) }
{
    let holds = Test {
        set,
        held: !negated,
    };
    let held = way_on_side(alloc, cell, ties, hand, holds)?;
    let fails = Test { set, held: negated };
    let failed = way_on_side(alloc, cell, ties, hand, fails)?;
    Ok(Ways { held, failed })
}

/// The texts in which a pattern is found.
#[tactic(auto, using(crate::proofs::Knowing::found_set))]
pub fn found_texts(alloc: Global, pattern: &Pat) -> Result<Dfa, NoMemory>
    ensures { IfOk result (λ set. Accepts set (finds (pattern_of pattern.now))) }
{
    let set = matched(alloc, pattern)?;
    Ok(set)
}

/// The groups of a pattern that was found in a text, on this way.
pub fn held_on<'r>(
    alloc: Global,
    pattern: &'r Pat,
    cell: Cell,
    elements: Vec<Element>,
    off: usize,
    side: Option<Dfa>,
) -> Result<Held<'r>, NoMemory>
    ensures { IfOk result (IsHeld (pattern_of pattern.now) cell elements.items off side) }
{
    let found = Found {
        pattern,
        cell,
        elements,
        off,
        side,
    };
    Ok(Some(Rc::new(alloc, found)?))
}
