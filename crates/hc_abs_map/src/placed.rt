//! What a pass goes on with behind the rules of the server (Apache manual, mod_rewrite; "Mapping URLs to Filesystem
//! Locations").
ghost use Rattle.std.specs.Prelude.{◌≡◌, ◌≤◌, ◌∷◌, [], IfOk, OnOk, Some, true, false};
ghost use Rattle.hc_abs_pass.specs.Mapping.{map_plan};
ghost use Rattle.hc_abs_pass.specs.Naming.{text_plan};
ghost use Rattle.hc_abs_rw.specs.Drafts.{slot_alone};
ghost use Rattle.hc_abs_rw.specs.RuleBranches.{states_of};
ghost use Rattle.hc_abs_rw.specs.Templates.{main};
ghost use Rattle.hc_base.specs.Paths.{begins_with_slash};
ghost use Rattle.hc_cells.specs.declared.slot.Slot.TheVariants as slot;
ghost use Rattle.hc_dfa.specs.Built.{Accepts};
ghost use Rattle.hc_plan.specs.Branches.{others};
ghost use Rattle.hc_plan.specs.Plan.{from_hand, store};
ghost use Rattle.hc_steps.specs.Shown.{shown_by};
ghost use Rattle.hc_steps.specs.Step.{Shown};
ghost use Rattle.hc_vhost.specs.Servers.{IsHostOf, servers_of};
ghost use Rattle.hc_abs_map.specs.Along.{Adds, AreNamed, AreOn};
ghost use Rattle.hc_abs_map.specs.Ends.{cell_in};
ghost use Rattle.hc_abs_map.specs.Mapped.{ArePlaced, MappedFits};
ghost use Rattle.hc_abs_map.specs.Places.{GoesAbsolute, IsStored, IsTextName};

use crate::entries::tied_on;
use crate::first::first_exists;
use crate::map::{add_under_root, mapped};
use crate::mapped::Mapped;
use crate::tidied::{add_named, add_over, named_on, past_dots, tidied};
use hc_abs_pass::{Left, Named};
use hc_abs_rw::{Ways, fit, ways_of};
use hc_alias::root_of;
use hc_base::NoMemory;
use hc_cells::Slot;
use hc_dfa::{Dfa, complement};
use hc_model::{Config, HostId};
use hc_plan::{Element, Hand, Stored, Tied, hand_set, store};
use hc_rw_sets::absolute;
use hc_world::World;
use std::alloc::Global;

/// The branches of what a pass goes on with behind the rules of the server, over the states of a set of requests: the
/// URL path, where no rule put a text in its place; the text as a URL path, with PT; or the text as a file name, or
/// under the document root. Branches that have more states together than there is room for are refused as memory is.
pub fn placed_branches(
    alloc: Global,
    world: &World,
    config: &Config,
    host: HostId,
    substituted: bool,
    passed: bool,
    tied: Tied,
    room: u64,
) -> Result<Vec<Mapped>, NoMemory>
    requires { IsHostOf config.now host }
    ensures branches { IfOk result (λ found. ArePlaced (shown_by world.now.files) (servers_of config.now host)
        substituted passed tied found.items) }
    ensures room { IfOk result (λ found. states_of cell_in found.items ≤ room) }
{
    let found = placed(alloc, world, config, host, substituted, passed, tied)?;
    if !fit(&found, room) {
        return Err(NoMemory);
    }
    Ok(found)
}

fn placed(
    alloc: Global,
    world: &World,
    config: &Config,
    host: HostId,
    substituted: bool,
    passed: bool,
    tied: Tied,
) -> Result<Vec<Mapped>, NoMemory>
    requires { IsHostOf config.now host }
    ensures { IfOk result (λ found. ArePlaced (shown_by world.now.files) (servers_of config.now host)
        substituted passed tied found.items) }
{
    if !substituted {
        let found = mapped(alloc, config, host, tied)?;
        return Ok(found);
    }
    let mut found = Vec::new(alloc);
    let rest = past_relative(alloc, tied, &mut found)?;
    add_text(alloc, world, config, host, passed, rest, &mut found)?;
    Ok(found)
}

/// Adds the relative texts, which are answered 400, and goes on with the others.
fn past_relative(
    alloc: Global,
    tied: Tied,
    found: &mut Vec<Mapped>,
) -> Result<Option<Tied>, NoMemory>
    ensures { IfOk result (λ rest. GoesAbsolute tied rest found.old.items found.new.items) }
{
    let set = relative(alloc)?;
    let text = text_alone(alloc)?;
    let hand = Hand {
        elements: &text,
        off: 0,
        side: &None,
    };
    let ways = ways_of(alloc, &tied.cell, tied.ties, hand, &set, false)?;
    let Ways { held, failed } = ways;
    add_over(tied.ties, held, Left::Status(400), found)?;
    Ok(tied_on(tied.ties, failed))
}

/// The texts that don't begin with a slash.
fn relative(alloc: Global) -> Result<Dfa, NoMemory>
    ensures { IfOk result (λ made. Accepts made (others begins_with_slash)) }
{
    let slashed = absolute(alloc)?;
    let made = complement(alloc, &slashed)?;
    Ok(made)
}

/// The value of the slot `text`.
fn text_alone(alloc: Global) -> Result<Vec<Element>, NoMemory>
    ensures { IfOk result (λ made. made.items ≡ slot_alone slot.Text) }
{
    let mut elements = Vec::new(alloc);
    elements.push(Element::Open(Slot::Text, 0))?;
    Ok(elements)
}

/// Adds what is found by a text that begins with a slash.
fn add_text(
    alloc: Global,
    world: &World,
    config: &Config,
    host: HostId,
    passed: bool,
    rest: Option<Tied>,
    found: &mut Vec<Mapped>,
) -> Result<(), NoMemory>
    requires { IsHostOf config.now host }
    ensures { OnOk result (Adds
        (AreOn MappedFits rest (text_plan (shown_by world.now.files) (servers_of config.now host) passed))
        found.old.items found.new.items) }
{
    let Some(tied) = rest else {
        return Ok(());
    };
    if passed {
        add_path(alloc, config, host, tied, found)?;
        return Ok(());
    }
    add_file(alloc, world, config, host, tied, found)?;
    Ok(())
}

/// Adds what is found by a text that is a URL path.
fn add_path(
    alloc: Global,
    config: &Config,
    host: HostId,
    tied: Tied,
    found: &mut Vec<Mapped>,
) -> Result<(), NoMemory>
    requires { IsHostOf config.now host }
    ensures { OnOk result ((shown : Shown) → Adds
        (AreOn MappedFits (Some tied) (text_plan shown (servers_of config.now host) true))
        found.old.items found.new.items) }
{
    let named = text_named(alloc, tied)?;
    let tidy = tidied(alloc, named)?;
    let rest = past_dots(alloc, tidy, found)?;
    add_stored(alloc, config, host, rest, found)?;
    Ok(())
}

fn text_named(alloc: Global, tied: Tied) -> Result<Named, NoMemory>
    ensures { IfOk result (IsTextName tied) }
{
    let text = text_alone(alloc)?;
    Ok(Named {
        tied,
        text,
        side: None,
    })
}

/// Adds where a text leads that becomes the URL path, if there is one.
fn add_stored(
    alloc: Global,
    config: &Config,
    host: HostId,
    named: Option<Named>,
    found: &mut Vec<Mapped>,
) -> Result<(), NoMemory>
    requires { IsHostOf config.now host }
    ensures { OnOk result (Adds (AreNamed MappedFits named
        (store ((slot.Path, from_hand main) ∷ []) (map_plan (servers_of config.now host))))
        found.old.items found.new.items) }
{
    let Some(named) = named else {
        return Ok(());
    };
    let tied = as_path(alloc, named)?;
    let mut further = mapped(alloc, config, host, tied)?;
    found.append(&mut further)?;
    Ok(())
}

/// The states in which a text has become the URL path.
pub fn as_path(alloc: Global, named: Named) -> Result<Tied, NoMemory>
    ensures { IfOk result (IsStored named) }
{
    let hand = Hand {
        elements: &named.text,
        off: 0,
        side: &named.side,
    };
    let set = hand_set(alloc, &named.tied.cell, hand)?;
    let mut stored = Vec::new(alloc);
    stored.push(Stored {
        slot: Slot::Path,
        set,
    })?;
    let Named { tied, .. } = named;
    let made = store(alloc, tied, &stored)?;
    Ok(made)
}

/// Adds what is found by a text that is a file name, where its first component names something, or else stands under
/// the document root.
fn add_file(
    alloc: Global,
    world: &World,
    config: &Config,
    host: HostId,
    tied: Tied,
    found: &mut Vec<Mapped>,
) -> Result<(), NoMemory>
    requires { IsHostOf config.now host }
    ensures { OnOk result (Adds
        (AreOn MappedFits (Some tied) (text_plan (shown_by world.now.files) (servers_of config.now host) false))
        found.old.items found.new.items) }
{
    let set = first_exists(alloc, world)?;
    let text = text_alone(alloc)?;
    let hand = Hand {
        elements: &text,
        off: 0,
        side: &None,
    };
    let ways = ways_of(alloc, &tied.cell, tied.ties, hand, &set, false)?;
    let Ways { held, failed } = ways;
    add_named(named_on(tied.ties, text, held), true, found)?;
    add_under_root(
        alloc,
        root_of(config, host),
        Slot::Text,
        tied_on(tied.ties, failed),
        found,
    )?;
    Ok(())
}
