ghost use Rattle.std.specs.Prelude.{◌≡◌, IfOk};
ghost use Rattle.std.specs.Option.{option_map};
ghost use Rattle.hc_alias.specs.FoundView.{found_of};
ghost use Rattle.hc_alias.specs.Mapping as definition;
ghost use Rattle.hc_alias.specs.Mapping.{aliased, away, maps_of, named_by, redirects_of, root_of, under_root};
ghost use Rattle.hc_vhost.specs.Servers.{IsHostOf, servers_of};
ghost use Rattle.hc_alias.specs.ServersView.{servers_view};

use crate::locations::sent_by;
use crate::tests::{Found, first_taking};
use hc_base::{NoMemory, Place, Span, Text};
use hc_model::{Alias, Caller, Config, HostId, Outcome, Redirect, Server, Spot};
use hc_template::expand;
use hc_vhost::server_at;
use std::alloc::Global;

/// What a URL path is mapped to.
#[derive(Clone, Drop)]
pub enum Mapped {
    /// A file name, and the alias that gave it; none where it is the document root's.
    Name { name: Text, from: Option<Spot> },
    /// The request is sent away.
    Away(Away),
    /// No entry takes the path, and there is no document root.
    NoRoot,
}

/// The answer of a redirect, and the redirect.
#[derive(Clone, Drop)]
pub struct Away {
    pub outcome: Outcome,
    pub from: Spot,
}

/// Maps a URL path of a request: by the first redirect that takes it, those of the chosen server
/// before those of the main server, else by the first alias in the same order, else by the document
/// root of the chosen server, else of the main server (Apache manual, mod_alias; core, DocumentRoot).
pub fn map_url(
    alloc: Global,
    config: &Config,
    host: HostId,
    path: &[u8],
    query: &[u8],
    caller: &Caller,
) -> Result<Mapped, NoMemory>
    requires { IsHostOf config.now host }
    ensures { IfOk result (λ mapped. mapped ≡ definition.map_url config.now host path.now query.now caller.now) }
{
    let servers = Servers::of(config, host);
    if let Some(away) = servers.away(alloc, path, query, caller)? {
        return Ok(Mapped::Away(away));
    }
    if let Some(name) = servers.aliased(alloc, path)? {
        return Ok(name);
    }
    under_root(alloc, root_of(config, host), path)
}

/// The document root of the chosen server, else of the main server (Apache manual, core, DocumentRoot).
pub fn root_of<'c>(config: &'c Config, host: HostId) -> Option<&'c Text>
    requires { IsHostOf config.now host }
    ensures { option_map (λ root. root.now) result ≡ root_of (servers_of config.now host) }
{
    Servers::of(config, host).root()
}

/// Where the first redirect of a list that takes the path sends the request (Apache manual,
/// mod_alias, Redirect and RedirectMatch).
pub fn directory_redirect(
    alloc: Global,
    list: &[Redirect],
    path: &[u8],
    query: &[u8],
    caller: &Caller,
) -> Result<Option<Away>, NoMemory>
    ensures { IfOk result (λ sent. sent ≡ away list.now path.now query.now caller.now) }
{
    match first_taking(alloc, list, path)? {
        Some((redirect, found)) => Ok(Some(Away {
            outcome: sent_by(alloc, caller, redirect, &found, query)?,
            from: spot(&redirect.place, redirect.span)?,
        })),
        None => Ok(None),
    }
}

/// A line, with the bytes in which it is written.
fn spot(place: &Place, span: Span) -> Result<Spot, NoMemory>
    ensures place { IfOk result (λ spot. spot.place ≡ place.now) }
    ensures span { IfOk result (λ spot. spot.span ≡ span) }
{
    Ok(Spot {
        place: place.clone()?,
        span,
    })
}

/// The servers that answer a request: a virtual host, if there is one, before the main server.
#[derive(Clone, Copy)]
struct Servers<'c> {
    host: Option<&'c Server>,
    main: &'c Server,
}

impl<'c> Servers<'c> {
    /// The servers that answer for a host.
    fn of(config: &'c Config, host: HostId) -> Servers<'c>
        requires { IsHostOf config.now host }
        ensures { servers_view result ≡ servers_of config.now host }
    {
        let host = match host {
            HostId::Main => None,
            HostId::Nth(_) => Some(server_at(config, host)),
        };
        Servers {
            host,
            main: &config.main,
        }
    }

    /// Where the first redirect that takes the path sends the request.
    #[tactic(auto, using(crate::proofs::Taking::first_of_both))]
    fn away(
        &self,
        alloc: Global,
        path: &[u8],
        query: &[u8],
        caller: &Caller,
    ) -> Result<Option<Away>, NoMemory>
        ensures { IfOk result (λ sent.
            sent ≡ away (redirects_of (servers_view self.now)) path.now query.now caller.now) }
    {
        let main = self.main.redirects.as_slice();
        let Some(host) = self.host else {
            return directory_redirect(alloc, main, path, query, caller);
        };
        match directory_redirect(alloc, host.redirects.as_slice(), path, query, caller)? {
            Some(away) => Ok(Some(away)),
            None => directory_redirect(alloc, main, path, query, caller),
        }
    }

    /// The name that the first alias gives that takes the path.
    #[tactic(auto, using(crate::proofs::Taking::first_of_both))]
    fn aliased(&self, alloc: Global, path: &[u8]) -> Result<Option<Mapped>, NoMemory>
        ensures { IfOk result (λ name. name ≡ aliased (maps_of (servers_view self.now)) path.now) }
    {
        let main = self.main.aliases.as_slice();
        let Some(host) = self.host else {
            return aliased(alloc, main, path);
        };
        match aliased(alloc, host.aliases.as_slice(), path)? {
            Some(name) => Ok(Some(name)),
            None => aliased(alloc, main, path),
        }
    }

    /// The document root.
    fn root(&self) -> Option<&'c Text>
        ensures { option_map (λ root. root.now) result ≡ root_of (servers_view self.now) }
    {
        match self.host {
            Some(host) => host.root.as_ref().or(self.main.root.as_ref()),
            None => self.main.root.as_ref(),
        }
    }
}

/// The name that the first alias of a list gives that takes the path.
fn aliased(alloc: Global, list: &[Alias], path: &[u8]) -> Result<Option<Mapped>, NoMemory>
    ensures { IfOk result (λ name. name ≡ aliased list.now path.now) }
{
    match first_taking(alloc, list, path)? {
        Some((alias, found)) => Ok(Some(named_by(alloc, alias, &found)?)),
        None => Ok(None),
    }
}

/// The name that an alias gives to a path that it takes.
fn named_by(alloc: Global, alias: &Alias, found: &Found<'_>) -> Result<Mapped, NoMemory>
    ensures { IfOk result (λ name. name ≡ named_by (alias.now, found_of found.now)) }
{
    let mut name = expand(alloc, alias.to.as_slice(), found)?.into_vec();
    name.extend_from_slice(found.rest())?;
    Ok(Mapped::Name {
        name: Text::from(name),
        from: Some(spot(&alias.place, alias.span)?),
    })
}

/// The name of a path under a document root: what follows it is the path.
pub fn under_root(alloc: Global, root: Option<&Text>, path: &[u8]) -> Result<Mapped, NoMemory>
    ensures { IfOk result (λ mapped. mapped ≡ under_root (option_map (λ text. text.now) root.entry) path.now) }
{
    let Some(root) = root else {
        return Ok(Mapped::NoRoot);
    };
    let mut name = root.as_bytes().to_vec(alloc)?;
    name.extend_from_slice(path)?;
    Ok(Mapped::Name {
        name: Text::from(name),
        from: None,
    })
}
