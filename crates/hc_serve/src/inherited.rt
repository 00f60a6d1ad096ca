//! What of mod_rewrite is in force at the server that answers (Apache manual, mod_rewrite, RewriteOptions).
ghost use Rattle.std.specs.Prelude.{◌≡◌, ◌++◌, IfOk};
ghost use Rattle.hc_serve.specs.Inherited.{list_of};
ghost use Rattle.hc_serve.specs.ServerRules.{engine_of, inherited_by, maps_of, rules_of};
ghost use Rattle.hc_vhost.specs.Servers.{IsHostOf};

use hc_base::{List, NoMemory};
use hc_model::{Config, HostId, Inherit, Map, Rules, Server};
use hc_vhost::server_at;
use std::alloc::Global;

/// The maps that are in force: the server's own, lent, or copies of these and of the main server's.
#[derive(Drop)]
pub enum Maps<'l> {
    Own(&'l [Map]),
    Joined(List<Map>),
}

impl<'l> Maps<'l> {
    pub fn as_slice(&self) -> &[Map]
        ensures { result.now ≡ list_of self.now }
    {
        match self {
            Maps::Own(own) => own,
            Maps::Joined(joined) => joined.as_slice(),
        }
    }
}

/// The server's own RewriteEngine.
pub fn engine_at(config: &Config, host: HostId) -> bool
    requires { IsHostOf config.now host }
    ensures { result ≡ engine_of config.now host }
{
    server_at(config, host).body.engine.unwrap_or(false)
}

/// The rules that are in force.
pub fn rules_at(alloc: Global, config: &Config, host: HostId) -> Result<Rules, NoMemory>
    requires { IsHostOf config.now host }
    ensures { IfOk result (λ rules. rules ≡ rules_of config.now host) }
{
    let server = server_at(config, host);
    let own = &server.body.rules;
    let main = &config.main.body.rules;
    match inherited_by(host, server) {
        Inherit::No => own.clone(),
        Inherit::After => own.joined(alloc, main),
        Inherit::Before => main.joined(alloc, own),
    }
}

/// The maps that are in force. Inherited ones always come behind the server's own.
pub fn maps_at<'c>(config: &'c Config, host: HostId) -> Result<Maps<'c>, NoMemory>
    requires { IsHostOf config.now host }
    ensures { IfOk result (λ maps. list_of maps ≡ maps_of config.now host) }
{
    let server = server_at(config, host);
    let own = &server.rewrite_maps;
    match inherited_by(host, server) {
        Inherit::No => Ok(Maps::Own(own.as_slice())),
        Inherit::After | Inherit::Before => {
            let main = config.main.rewrite_maps.as_slice();
            Ok(Maps::Joined(joined(own.copy()?, main)?))
        }
    }
}

// RewriteOptions of the main server inherits nothing.
fn inherited_by(host: HostId, server: &Server) -> Inherit
    ensures { result ≡ inherited_by host server.now }
{
    match host {
        HostId::Main => Inherit::No,
        HostId::Nth(_) => server.body.inherit,
    }
}

// Copies of these behind a list.
fn joined(mut list: List<Map>, more: &[Map]) -> Result<List<Map>, NoMemory>
    ensures { IfOk result (λ all. all ≡ list ++ more.now) }
{
    for map in more {
        list.push(map.clone()?)?;
    }
    Ok(list)
}
