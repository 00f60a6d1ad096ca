//! The way from a URL path to a file name, over the servers of a host: the first redirect that takes the path, else the
//! first alias, else the document root (Apache manual, mod_alias, "Order of Processing"; core, DocumentRoot).
ghost use Rattle.std.specs.Prelude.{◌≡◌, ◌≤◌, ◌++◌, IfOk, OnOk, Some, None, option_map};
ghost use Rattle.hc_abs_pass.specs.Mapping.{redirects_plan, under_root_plan};
ghost use Rattle.hc_abs_rw.specs.RuleBranches.{states_of};
ghost use Rattle.hc_alias.specs.Mapping.{maps_of, redirects_of};
ghost use Rattle.hc_vhost.specs.Servers.{IsHostOf, servers_of};
ghost use Rattle.hc_abs_map.specs.Aliases.{AddsBehind, AreBehind, behind_redirects};
ghost use Rattle.hc_abs_map.specs.Along.{Adds, AreOn};
ghost use Rattle.hc_abs_map.specs.Ends.{cell_in, root_before};
ghost use Rattle.hc_abs_map.specs.Mapped.{AreMapped, AreRedirected, MappedFits};

use crate::aliases::past_aliases;
use crate::mapped::Mapped;
use crate::redirects::{Redirected, add_untaken, past_redirects};
use hc_abs_pass::{Left, Named};
use hc_abs_rw::fit;
use hc_alias::root_of;
use hc_base::{NoMemory, Text};
use hc_cells::Slot;
use hc_model::{Alias, Config, HostId, Reason, Redirect};
use hc_plan::{Element, Tied};
use hc_vhost::server_at;
use std::alloc::Global;

/// The branches of redirects, aliases and the document root over the states of a set of requests. Branches that have
/// more states together than there is room for are refused as memory is.
pub fn map_branches(
    alloc: Global,
    config: &Config,
    host: HostId,
    tied: Tied,
    room: u64,
) -> Result<Vec<Mapped>, NoMemory>
    requires { IsHostOf config.now host }
    ensures branches { IfOk result (λ found. AreMapped (servers_of config.now host) tied found.items) }
    ensures room { IfOk result (λ found. states_of cell_in found.items ≤ room) }
{
    let found = mapped(alloc, config, host, tied)?;
    if !fit(&found, room) {
        return Err(NoMemory);
    }
    Ok(found)
}

/// Where these states lead.
pub(crate) fn mapped(
    alloc: Global,
    config: &Config,
    host: HostId,
    tied: Tied,
) -> Result<Vec<Mapped>, NoMemory>
    requires { IsHostOf config.now host }
    ensures { IfOk result (λ found. AreMapped (servers_of config.now host) tied found.items) }
{
    let redirected = redirected_by(alloc, config, host, tied)?;
    all_behind(alloc, config, host, redirected)
}

/// What the redirects of the servers leave: those of a virtual host before those of the main server.
fn redirected_by(
    alloc: Global,
    config: &Config,
    host: HostId,
    tied: Tied,
) -> Result<Vec<Redirected>, NoMemory>
    requires { IsHostOf config.now host }
    ensures { IfOk result (λ found. AreRedirected (redirects_of (servers_of config.now host)) tied found.items) }
{
    let mut found = Vec::new(alloc);
    let own = host_redirects(config, host);
    let mid = past_redirects(alloc, own, Some(tied), &mut found)?;
    let rest = past_redirects(alloc, config.main.redirects.as_slice(), mid, &mut found)?;
    add_untaken(rest, &mut found)?;
    Ok(found)
}

/// The redirects of a virtual host.
fn host_redirects(config: &Config, host: HostId) -> &[Redirect]
    requires { IsHostOf config.now host }
    ensures { redirects_of (servers_of config.now host) ≡ result.now ++ config.now.main.redirects }
{
    match host {
        HostId::Main => &[],
        HostId::Nth(_) => server_at(config, host).redirects.as_slice(),
    }
}

/// The aliases of a virtual host.
fn host_aliases(config: &Config, host: HostId) -> &[Alias]
    requires { IsHostOf config.now host }
    ensures { maps_of (servers_of config.now host) ≡ result.now ++ config.now.main.aliases }
{
    match host {
        HostId::Main => &[],
        HostId::Nth(_) => server_at(config, host).aliases.as_slice(),
    }
}

/// What is found behind redirects.
fn all_behind(
    alloc: Global,
    config: &Config,
    host: HostId,
    redirected: Vec<Redirected>,
) -> Result<Vec<Mapped>, NoMemory>
    requires { IsHostOf config.now host }
    ensures { IfOk result (λ found. AreBehind (servers_of config.now host) redirected.items found.items) }
{
    let mut found = Vec::new(alloc);
    for one in redirected {
        add_behind(alloc, config, host, one, &mut found)?;
    }
    Ok(found)
}

/// Adds what is found behind redirects: one that takes the path ends the pass.
fn add_behind(
    alloc: Global,
    config: &Config,
    host: HostId,
    one: Redirected,
    found: &mut Vec<Mapped>,
) -> Result<(), NoMemory>
    requires { IsHostOf config.now host }
    ensures { OnOk result (AddsBehind (servers_of config.now host) one found.old.items found.new.items) }
{
    let Redirected { tied, left } = one;
    match left {
        Some(left) => {
            found.push(Mapped::Over { tied, left })?;
            Ok(())
        }
        None => {
            add_unsent(alloc, config, host, tied, found)?;
            Ok(())
        }
    }
}

/// Adds the names that aliases and the document root give.
fn add_unsent(
    alloc: Global,
    config: &Config,
    host: HostId,
    tied: Tied,
    found: &mut Vec<Mapped>,
) -> Result<(), NoMemory>
    requires { IsHostOf config.now host }
    ensures { OnOk result (Adds (AreOn MappedFits (Some tied) (behind_redirects (servers_of config.now host) None))
        found.old.items found.new.items) }
{
    let own = host_aliases(config, host);
    let mid = past_aliases(alloc, own, Some(tied), found)?;
    let rest = past_aliases(alloc, config.main.aliases.as_slice(), mid, found)?;
    add_under_root(alloc, root_of(config, host), Slot::Path, rest, found)?;
    Ok(())
}

/// Adds the name under the document root, if there is one.
pub(crate) fn add_under_root(
    alloc: Global,
    root: Option<&Text>,
    slot: Slot,
    rest: Option<Tied>,
    found: &mut Vec<Mapped>,
) -> Result<(), NoMemory>
    ensures { OnOk result (Adds
        (AreOn MappedFits rest (under_root_plan (option_map (λ root. root.now) root.entry) slot))
        found.old.items found.new.items) }
{
    let Some(tied) = rest else {
        return Ok(());
    };
    let Some(root) = root else {
        let left = Left::Outside(Reason::NoRoot);
        found.push(Mapped::Over { tied, left })?;
        return Ok(());
    };
    let text = under_root(alloc, root, slot)?;
    let named = Named {
        tied,
        text,
        side: None,
    };
    found.push(Mapped::Name {
        named,
        aliased: false,
    })?;
    Ok(())
}

/// A slot behind the document root.
fn under_root(alloc: Global, root: &Text, slot: Slot) -> Result<Vec<Element>, NoMemory>
    ensures { IfOk result (λ made. made.items ≡ root_before root.now slot) }
{
    let mut elements = Vec::new(alloc);
    elements.push(Element::Known(root.clone()?))?;
    elements.push(Element::Open(slot, 0))?;
    Ok(elements)
}
