//! The pattern of a rule over what is known (Apache manual, mod_rewrite: RewriteRule, "What is matched?").
ghost use Rattle.std.specs.Prelude.{◌≡◌, ℕ, ◌∷◌, [], false, true, IfOk, List, None, OnOk};
ghost use Rattle.hc_dfa.specs.Built.{Accepts};
ghost use Rattle.hc_abs_rw.specs.Known.{frame_at};
ghost use Rattle.hc_abs_rw.specs.Looking.{AddsFoundOn, AddsLooked, AddsLookedOn, AddsSubject, AreLooked, IsLookedLeft};
ghost use Rattle.hc_abs_rw.specs.Looking.{grouping_rule};
ghost use Rattle.hc_cells.specs.declared.slot.Slot.TheVariants as slot;
ghost use Rattle.hc_plan.specs.Branches.{finds};
ghost use Rattle.hc_plan.specs.declared.hand.Element.{Element};
ghost use Rattle.hc_plan.specs.declared.hand.Element.TheVariants as element;

use crate::frame::{Frame, Surroundings};
use crate::known::Known;
use crate::ways::{Ways, found_texts, held_on, ways_of};
use hc_base::NoMemory;
use hc_cells::{Cell, Slot, Ties};
use hc_dfa::Dfa;
use hc_model::Rule;
use hc_plan::{Element, Hand, Way};
use hc_rw_eval::with_slash;
use hc_rw_expand::Engine;
use hc_rw_sets::beginning_with;
use std::alloc::Global;

/// What was found where a pattern was looked for.
#[derive(Drop)]
pub struct Looked<'r> {
    pub known: Known<'r>,
    pub holds: bool,
}

/// A text in which a pattern is looked for, over a cell.
#[derive(Drop)]
pub(crate) struct Subject {
    pub cell: Cell,
    pub ties: Ties,
    pub elements: Vec<Element>,
    pub off: usize,
    pub side: Option<Dfa>,
}

/// Looks for the pattern of a rule: first where it holds, its negation counted, then where it doesn't. In a
/// directory first where the text stands below it.
pub fn look_for_pattern<'r, S: Surroundings>(
    alloc: Global,
    frame: &Frame<'_, S>,
    rule: &'r Rule,
    cell: Cell,
    ties: Ties,
) -> Result<Vec<Looked<'r>>, NoMemory>
    ensures { IfOk result (λ found. AreLooked (frame_at S.kind S.values frame.now) frame.now.client rule.now cell ties
        found.items) }
{
    let set = found_texts(alloc, rule.pat.as_pat())?;
    let mut found = Vec::new(alloc);
    match frame.engine {
        None => {
            let elements = text_alone(alloc)?;
            let subject = Subject {
                cell,
                ties,
                elements,
                off: 0,
                side: None,
            };
            find(alloc, rule, &set, subject, &mut found)?;
            Ok(found)
        }
        Some(engine) => {
            look_within(alloc, rule, &set, engine, cell, ties, &mut found)?;
            Ok(found)
        }
    }
}

fn text_alone(alloc: Global) -> Result<Vec<Element>, NoMemory>
    ensures { IfOk result (λ made. made.items ≡ element.Open slot.Text 0 ∷ []) }
{
    let mut elements = Vec::new(alloc);
    elements.push(Element::Open(Slot::Text, 0))?;
    Ok(elements)
}

/// The text, and the path information behind it.
fn text_and_info(alloc: Global) -> Result<Vec<Element>, NoMemory>
    ensures { IfOk result (λ made. made.items ≡ element.Open slot.Text 0 ∷ element.Open slot.Info 0 ∷ []) }
{
    let mut elements = text_alone(alloc)?;
    elements.push(Element::Open(Slot::Info, 0))?;
    Ok(elements)
}

/// In a directory the path information stands behind the text, and the directory is taken off where the text begins
/// with it.
fn look_within<'r>(
    alloc: Global,
    rule: &'r Rule,
    set: &Dfa,
    engine: Engine<'_>,
    cell: Cell,
    ties: Ties,
    found: &mut Vec<Looked<'r>>,
) -> Result<(), NoMemory>
    requires { Accepts set.now (finds rule.now.pat) }
    ensures { OnOk result (AddsSubject engine.entry rule.now cell ties found.old.items found.new.items) }
{
    let front = with_slash(alloc, engine.dir.as_bytes())?;
    let begins = beginning_with(alloc, &front)?;
    let elements = text_and_info(alloc)?;
    let hand = Hand {
        elements: &elements,
        off: 0,
        side: &None,
    };
    let ways = ways_of(alloc, &cell, ties, hand, &begins, false)?;
    let Ways { held, failed } = ways;
    find_on(alloc, rule, set, held, ties, elements, front.len(), found)?;
    find_on(
        alloc,
        rule,
        set,
        failed,
        ties,
        text_and_info(alloc)?,
        0,
        found,
    )?;
    Ok(())
}

/// Adds what is found on a way of a test, behind so many bytes.
#[tactic(auto, using(crate::proofs::Looking::nothing_on, crate::proofs::Looking::found_on))]
fn find_on<'r>(
    alloc: Global,
    rule: &'r Rule,
    set: &Dfa,
    way: Option<Way>,
    ties: Ties,
    elements: Vec<Element>,
    off: usize,
    found: &mut Vec<Looked<'r>>,
) -> Result<(), NoMemory>
    requires { Accepts set.now (finds rule.now.pat) }
    ensures { OnOk result (AddsFoundOn rule.now ties elements.items off way found.old.items found.new.items) }
{
    match way {
        Some(way) => {
            let subject = Subject {
                cell: way.cell,
                ties,
                elements,
                off,
                side: way.side,
            };
            find(alloc, rule, set, subject, found)?;
        }
        None => (),
    }
    Ok(())
}

/// Adds what is found where the pattern is looked for in a text.
fn find<'r>(
    alloc: Global,
    rule: &'r Rule,
    set: &Dfa,
    subject: Subject,
    found: &mut Vec<Looked<'r>>,
) -> Result<(), NoMemory>
    requires { Accepts set.now (finds rule.now.pat) }
    ensures { OnOk result (AddsLooked rule.now subject found.old.items found.new.items) }
{
    let Subject {
        cell,
        ties,
        elements,
        off,
        side,
    } = subject;
    let hand = Hand {
        elements: &elements,
        off,
        side: &side,
    };
    let ways = ways_of(alloc, &cell, ties, hand, set, rule.negated)?;
    let Ways { held, failed } = ways;
    add_held(alloc, rule, ties, held, elements, off, found)?;
    add_failed(ties, failed, found)?;
    Ok(())
}

/// Adds what is left where the pattern holds.
#[tactic(auto, using(crate::proofs::Looking::adds_none, crate::proofs::Looking::adds_one))]
fn add_held<'r>(
    alloc: Global,
    rule: &'r Rule,
    ties: Ties,
    way: Option<Way>,
    elements: Vec<Element>,
    off: usize,
    found: &mut Vec<Looked<'r>>,
) -> Result<(), NoMemory>
    ensures { OnOk result (AddsLookedOn ties true (grouping_rule rule.now) elements.items off way
        found.old.items found.new.items) }
{
    match way {
        Some(way) => found.push(held_look(alloc, rule, ties, way, elements, off)?)?,
        None => (),
    }
    Ok(())
}

/// Adds what is left where it doesn't.
fn add_failed<'r>(ties: Ties, way: Option<Way>, found: &mut Vec<Looked<'r>>) -> Result<(), NoMemory>
    ensures { OnOk result ((elements : List Element) (off : ℕ)
        → AddsLookedOn ties false None elements off way found.old.items found.new.items) }
{
    match way {
        Some(way) => found.push(failed_look(ties, way))?,
        None => (),
    }
    Ok(())
}

/// What is left where the pattern holds: one without negation sets the groups.
fn held_look<'r>(
    alloc: Global,
    rule: &'r Rule,
    ties: Ties,
    way: Way,
    elements: Vec<Element>,
    off: usize,
) -> Result<Looked<'r>, NoMemory>
    ensures { IfOk result (IsLookedLeft ties true (grouping_rule rule.now) elements.items off way) }
{
    let Way { cell, side } = way;
    let own = cell.clone()?;
    let groups = if rule.negated {
        None
    } else {
        held_on(alloc, rule.pat.as_pat(), own, elements, off, side)?
    };
    Ok(Looked {
        known: Known {
            cell,
            ties,
            groups,
            cond_groups: None,
        },
        holds: true,
    })
}

/// What is left where it doesn't.
fn failed_look<'r>(ties: Ties, way: Way) -> Looked<'r>
    ensures { (elements : List Element) (off : ℕ) → IsLookedLeft ties false None elements off way result }
{
    Looked {
        known: Known {
            cell: way.cell,
            ties,
            groups: None,
            cond_groups: None,
        },
        holds: false,
    }
}
