//! The walk of a name over a world, for the states of a set of requests (Apache manual, core, AcceptPathInfo: what
//! follows the name of a file is path information).
ghost use Rattle.std.specs.Prelude.{◌≡◌, ◌≤◌, ◌++◌, ◌∷◌, [], IfOk, OnOk};
ghost use Rattle.hc_abs_pass.specs.Walking.{AddsTried, AreInfos, AreTried, AreWalked, IsLeftOut, IsWalked, LeadsTo};
ghost use Rattle.hc_abs_pass.specs.Walking.{leads_somewhere, name_of};
ghost use Rattle.hc_abs_rw.specs.RuleBranches.{states_of};
ghost use Rattle.hc_dfa.specs.Automata.{accepts};
ghost use Rattle.hc_dfa.specs.Built.{Accepts};
ghost use Rattle.hc_dfa.specs.Texts.{IsText};
ghost use Rattle.hc_pat_lang.specs.Sets.{AcceptsOnly};
ghost use Rattle.hc_plan.specs.Stores.{Stores};
ghost use Rattle.hc_rw_sets.specs.Made.{MadeOf};
ghost use Rattle.hc_cells.specs.declared.slot.Slot.TheVariants as slot;
ghost use Rattle.hc_steps.specs.Shown.{shown_by};

use crate::walk_ends::{End, ends_of_walk};
use crate::walk_sets::{behind_components, first_components, infos, rests_of};
use hc_abs_rw::{Celled, fit};
use hc_base::{List, NoMemory, Text};
use hc_cells::{Cell, Slot};
use hc_dfa::{Between, Dfa, Keep, between, product};
use hc_model::Kind;
use hc_plan::{Element, Hand, Stored, Test, Tied, Way, hand_set, store, way_on_side};
use hc_rw_sets::{beginning_with, put_behind};
use hc_world::World;
use std::alloc::Global;

/// A text in hand over the states of a set of requests.
#[derive(Drop)]
pub struct Named {
    pub tied: Tied,
    pub text: Vec<Element>,
    pub side: Option<Dfa>,
}

/// Where the walk of a name ends: what stands there, and the directories that were followed.
#[derive(Drop)]
pub struct Walked {
    pub tied: Tied,
    pub kind: Kind,
    pub dirs: List<Text>,
}

impl Celled for Walked {
    ghost cell = { λ walked. walked.tied.cell };

    fn cell(&self) -> &Cell {
        &self.tied.cell
    }
}

/// The branches of the walk of a name, one for each end that it may come to, in the order of the ends. Branches that
/// have more states together than there is room for are refused as memory is.
pub fn walk_branches(
    alloc: Global,
    world: &World,
    named: Named,
    room: u64,
) -> Result<Vec<Walked>, NoMemory>
    ensures branches { IfOk result (λ found. AreWalked (shown_by world.now.files) named found.items) }
    ensures room { IfOk result (λ found. states_of (λ one. one.tied.cell) found.items ≤ room) }
{
    let ends = ends_of_walk(alloc, world)?;
    let found = tried(alloc, &named, &ends)?;
    let _left = left_out(alloc, &named)?;
    if !fit(&found, room) {
        return Err(NoMemory);
    }
    Ok(found)
}

/// The tests for the ends, one after the other.
fn tried(alloc: Global, named: &Named, ends: &[End]) -> Result<Vec<Walked>, NoMemory>
    ensures { IfOk result (λ found. AreTried named.now ends.now found.items) }
{
    let infos = infos(alloc)?;
    let mut found = Vec::new(alloc);
    for end in ends {
        add_tried(alloc, named, end, &infos, &mut found)?;
    }
    Ok(found)
}

/// Adds what the test for an end leaves.
fn add_tried(
    alloc: Global,
    named: &Named,
    end: &End,
    infos: &Dfa,
    found: &mut Vec<Walked>,
) -> Result<(), NoMemory>
    requires { AreInfos infos.now }
    ensures { OnOk result (AddsTried named.now end.now found.old.items found.new.items) }
{
    let set = end_set(alloc, end, infos)?;
    let hand = Hand {
        elements: &named.text,
        off: 0,
        side: &named.side,
    };
    let test = Test {
        set: &set,
        held: true,
    };
    let way = way_on_side(alloc, &named.tied.cell, named.tied.ties, hand, test)?;
    match way {
        None => Ok(()),
        Some(way) => {
            found.push(arrived(alloc, named, end, way)?)?;
            Ok(())
        }
    }
}

/// Whether texts are left that lead to no end.
fn left_out(alloc: Global, named: &Named) -> Result<Option<Way>, NoMemory>
    ensures { IfOk result (IsLeftOut named.now) }
{
    let set = leading(alloc)?;
    let hand = Hand {
        elements: &named.text,
        off: 0,
        side: &named.side,
    };
    let test = Test {
        set: &set,
        held: false,
    };
    let way = way_on_side(alloc, &named.tied.cell, named.tied.ties, hand, test)?;
    Ok(way)
}

/// The texts that begin with one slash.
fn leading(alloc: Global) -> Result<Dfa, NoMemory>
    ensures { IfOk result (λ made. Accepts made leads_somewhere) }
{
    let one = beginning_with(alloc, b"/")?;
    let two = beginning_with(alloc, b"//")?;
    let made = product(alloc, &one, &two, Keep::FirstOnly)?;
    Ok(made)
}

/// What is left on a way to an end.
fn arrived(alloc: Global, named: &Named, end: &End, way: Way) -> Result<Walked, NoMemory>
    ensures { IfOk result (IsWalked named.now end.now way) }
{
    let Way { cell, side } = way;
    let hand = Hand {
        elements: &named.text,
        off: 0,
        side: &side,
    };
    let texts = hand_set(alloc, &cell, hand)?;
    let around = Between {
        before: as_text(end.front.as_bytes()),
        skip: 0,
        after: b"",
    };
    let rests = between(alloc, &texts, around)?;
    let names = names_of(alloc, end, &rests)?;
    let infos = behind_components(alloc, &rests)?;
    let tied = Tied {
        cell,
        ties: named.tied.ties,
    };
    Ok(Walked {
        tied: stored(alloc, tied, names, infos)?,
        kind: end.kind,
        dirs: end.dirs.copy()?,
    })
}

/// Bytes are a text.
fn as_text(bytes: &[u8]) -> &[u8]
    ensures value { result.now ≡ bytes.now }
    ensures bytes { IsText bytes.now }
{
    bytes
}

/// The names that lead to an end, by what follows its front.
fn names_of(alloc: Global, end: &End, rests: &Dfa) -> Result<Dfa, NoMemory>
    ensures { IfOk result (AcceptsOnly (MadeOf (name_of end.now.front) (accepts rests.now))) }
{
    let components = first_components(alloc, rests)?;
    let made = put_behind(alloc, end.front.as_bytes(), &components)?;
    Ok(made)
}

/// A cell with a name and path information.
fn stored(alloc: Global, tied: Tied, names: Dfa, infos: Dfa) -> Result<Tied, NoMemory>
    ensures { IfOk result (Stores tied.cell tied.ties
        (record { slot = slot.Name; set = names } ∷ record { slot = slot.Info; set = infos } ∷ [])) }
{
    let mut stored = Vec::new(alloc);
    stored.push(Stored {
        slot: Slot::Name,
        set: names,
    })?;
    stored.push(Stored {
        slot: Slot::Info,
        set: infos,
    })?;
    store(alloc, tied, &stored)
}

/// The texts that lead to an end.
fn end_set(alloc: Global, end: &End, infos: &Dfa) -> Result<Dfa, NoMemory>
    requires { AreInfos infos.now }
    ensures { IfOk result (AcceptsOnly (LeadsTo end.now)) }
{
    let rests = rests_of(alloc, &end.behind, infos)?;
    let made = put_behind(alloc, end.front.as_bytes(), &rests)?;
    Ok(made)
}
