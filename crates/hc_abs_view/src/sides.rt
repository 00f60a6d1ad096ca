//! The sides of a test: where it holds, its negation counted, and where it doesn't.
ghost use Rattle.std.specs.Prelude.{◌≡◌, IfOk};
ghost use Rattle.hc_dfa.specs.Automata.{accepts};
ghost use Rattle.hc_dfa.specs.Built.{Accepts};
ghost use Rattle.hc_dfa.specs.Texts.{TextSet};
ghost use Rattle.hc_abs_view.specs.Jumping.{asked_ways};
ghost use Rattle.hc_abs_view.specs.Seen.{AreSides, IsTestedBy, cell_in, sides_of as sides_in};
ghost use Rattle.hc_abs_view.specs.Tokens.{asked_of};
ghost use Rattle.hc_abs_view.specs.Trees.{always, search, within};
ghost use Rattle.hc_abs_view.specs.Viewing.{scene_of};
ghost use Rattle.hc_abs_pass.specs.Views.{tested};

use crate::compare::compared_sides;
use crate::elements::elements_of;
use crate::jump::Leaf;
use crate::leads::counted;
use crate::scene::Scene;
use hc_abs_rw::{Ways, found_texts, ways_of};
use hc_addr::Net;
use hc_base::NoMemory;
use hc_cells::Cell;
use hc_dfa::Dfa;
use hc_model::{Regex, Template};
use hc_net_sets::addresses;
use hc_plan::{Element, Hand, Tied, Way};
use std::alloc::Global;

/// The cells that a test leaves; none where it can't be so.
#[derive(Drop)]
pub struct Sides {
    pub held: Option<Cell>,
    pub failed: Option<Cell>,
}

/// The sides of what is asked.
pub(crate) fn sides_of(
    alloc: Global,
    scene: Scene<'_>,
    leaf: Leaf<'_>,
    negated: bool,
    tied: &Tied,
) -> Result<Sides, NoMemory>
    ensures { IfOk result (AreSides scene.entry (asked_ways (scene_of scene.entry) (asked_of leaf.entry) negated)
        tied.now) }
{
    match leaf {
        Leaf::Always(is) => always_sides(scene, is, negated, tied),
        Leaf::Same(left, right) => compared_sides(alloc, scene, left, right, negated, tied),
        Leaf::Search(text, pattern) => found_sides(alloc, scene, text, pattern, negated, tied),
        Leaf::Within(text, net) => within_sides(alloc, scene, text, net, negated, tied),
    }
}

fn always_sides(scene: Scene<'_>, is: bool, negated: bool, tied: &Tied) -> Result<Sides, NoMemory>
    ensures { IfOk result (AreSides scene.entry (asked_ways (scene_of scene.entry) (always is) negated) tied.now) }
{
    let cell = tied.cell.clone()?;
    if counted(negated, is) {
        return Ok(Sides {
            held: Some(cell),
            failed: None,
        });
    }
    Ok(Sides {
        held: None,
        failed: Some(cell),
    })
}

fn found_sides(
    alloc: Global,
    scene: Scene<'_>,
    text: &Template,
    pattern: &Regex,
    negated: bool,
    tied: &Tied,
) -> Result<Sides, NoMemory>
    ensures { IfOk result (AreSides scene.entry
        (asked_ways (scene_of scene.entry) (search text.now pattern.now) negated) tied.now) }
{
    let set = found_texts(alloc, pattern.as_pat())?;
    let sides = set_sides(alloc, scene, text, &set, negated, tied)?;
    Ok(sides)
}

fn within_sides(
    alloc: Global,
    scene: Scene<'_>,
    text: &Template,
    net: Net,
    negated: bool,
    tied: &Tied,
) -> Result<Sides, NoMemory>
    ensures { IfOk result (AreSides scene.entry
        (asked_ways (scene_of scene.entry) (within text.now net) negated) tied.now) }
{
    let set = addresses(alloc, &net)?;
    let sides = set_sides(alloc, scene, text, &set, negated, tied)?;
    Ok(sides)
}

/// Those of a text and a set.
fn set_sides(
    alloc: Global,
    scene: Scene<'_>,
    text: &Template,
    set: &Dfa,
    negated: bool,
    tied: &Tied,
) -> Result<Sides, NoMemory>
    ensures { IfOk result (λ sides. (asked : TextSet) → Accepts set.now asked
        → AreSides scene.entry (tested (scene_of scene.entry) text.now asked negated) tied.now sides) }
{
    let elements = elements_of(alloc, scene, text.as_slice())?;
    let sides = tested_sides(alloc, &elements, set, negated, tied)?;
    Ok(sides)
}

/// Those of elements joined.
pub(crate) fn tested_sides(
    alloc: Global,
    elements: &[Element],
    set: &Dfa,
    negated: bool,
    tied: &Tied,
) -> Result<Sides, NoMemory>
    ensures { IfOk result (IsTestedBy tied.now elements.now negated (accepts set.now)) }
{
    let hand = Hand {
        elements,
        off: 0,
        side: &None,
    };
    let ways = ways_of(alloc, &tied.cell, tied.ties, hand, set, negated)?;
    Ok(sides_in(ways))
}

fn sides_in(ways: Ways) -> Sides
    ensures { result ≡ sides_in ways }
{
    Sides {
        held: cell_in(ways.held),
        failed: cell_in(ways.failed),
    }
}

fn cell_in(way: Option<Way>) -> Option<Cell>
    ensures { result ≡ cell_in way }
{
    match way {
        Some(way) => Some(way.cell),
        None => None,
    }
}
