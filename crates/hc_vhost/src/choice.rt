ghost use Rattle.std.specs.Prelude.{◌≡◌, ◌<◌, ◌≤◌, ◌&&◌, length, take, IfSome};
ghost use Rattle.std.specs.List.{list_any, position};
ghost use Rattle.hc_vhost.specs.Choice.{chosen, first_of, has_name, is_address, is_name, listens, listens_as, place_of};
ghost use Rattle.hc_vhost.specs.declared.choice.TheConstants.{MOST_HOSTS};
ghost use Rattle.hc_vhost.specs.Names as names;
ghost use Rattle.hc_vhost.specs.Servers.{IsHostOf};

use crate::name::fits;
use hc_addr::Addr;
use hc_base::Text;
use hc_model::{Config, HostAddr, HostId, Server};

/// How many hosts can be named: as many as a place of a host counts.
const MOST_HOSTS: usize = 4_294_967_296;

/// The server that answers a connection to an address and a port, for a name of the Host header (Apache
/// manual, "Name-based Virtual Host Support").
///
/// Of the virtual hosts with that address and port it is the first that has the name, by ServerName or
/// ServerAlias without case, else the first. Where there are none, it is chosen in the same way among
/// those with `*` and that port; where there are none, it is the main server.
pub fn choose(config: &Config, server: Addr, port: u16, host: &[u8]) -> HostId
    ensures value { result ≡ chosen config.now server port host.now }
    ensures place { IsHostOf config.now result }
{
    match place_of(named_hosts(config.hosts.as_slice()), server, port, host) {
        Some(place) => HostId::Nth(place as u32),
        None => HostId::Main,
    }
}

fn named_hosts(hosts: &[Server]) -> &[Server]
    ensures value { result.now ≡ take MOST_HOSTS hosts.now }
    ensures few { (length result.now ≤ length hosts.now) × (length result.now ≤ MOST_HOSTS) }
{
    if hosts.len() > MOST_HOSTS {
        hosts.split_at(MOST_HOSTS).0
    } else {
        hosts
    }
}

fn place_of(hosts: &[Server], server: Addr, port: u16, name: &[u8]) -> Option<usize>
    ensures value { result ≡ place_of hosts.now server port name.now }
    ensures within { IfSome result (λ place. place < length hosts.now) }
{
    match first_of(hosts, Some(server), port, name) {
        Some(place) => Some(place),
        None => first_of(hosts, None, port, name),
    }
}

// Of the hosts with the address, or with `*`, and the port.
fn first_of(hosts: &[Server], server: Option<Addr>, port: u16, name: &[u8]) -> Option<usize>
    ensures value { result ≡ first_of (listens server port) name.now hosts.now }
    ensures within { IfSome result (λ place. place < length hosts.now) }
{
    match first_named(hosts, server, port, name) {
        Some(place) => Some(place),
        None => first_listening(hosts, server, port),
    }
}

fn first_named(hosts: &[Server], server: Option<Addr>, port: u16, name: &[u8]) -> Option<usize>
    ensures value { result ≡ position (λ host. listens server port host && has_name name.now host) hosts.now }
    ensures within { IfSome result (λ place. place < length hosts.now) }
{
    hosts
        .iter()
        .position(|host| listens(host, server, port) && has_name(host, name))
}

fn first_listening(hosts: &[Server], server: Option<Addr>, port: u16) -> Option<usize>
    ensures value { result ≡ position (listens server port) hosts.now }
    ensures within { IfSome result (λ place. place < length hosts.now) }
{
    hosts.iter().position(|host| listens(host, server, port))
}

fn listens(host: &Server, server: Option<Addr>, port: u16) -> bool
    ensures { result ≡ listens server port host.now }
{
    listens_among(host.addresses.as_slice(), server, port)
}

fn listens_among(addresses: &[HostAddr], server: Option<Addr>, port: u16) -> bool
    ensures { result ≡ list_any (listens_as server port) addresses.now }
{
    addresses
        .iter()
        .any(|address| listens_as(*address, server, port))
}

fn listens_as(address: HostAddr, server: Option<Addr>, port: u16) -> bool
    ensures { result ≡ listens_as server port address }
{
    is_address(server, address.addr) && address.port == port
}

fn is_address(server: Option<Addr>, address: Option<u32>) -> bool
    ensures { result ≡ is_address server address }
{
    match (server, address) {
        (None, None) => true,
        (Some(Addr::V4(server)), Some(address)) => address == server,
        _ => false,
    }
}

fn has_name(host: &Server, name: &[u8]) -> bool
    ensures { result ≡ has_name name.now host.now }
{
    is_name(&host.name, name) || has_alias(host.names.as_slice(), name)
}

fn is_name(own: &Option<Text>, name: &[u8]) -> bool
    ensures { result ≡ is_name name.now own.now }
{
    match own {
        Some(own) => own.as_bytes().eq_ignore_ascii_case(name),
        None => false,
    }
}

fn has_alias(aliases: &[Text], name: &[u8]) -> bool
    ensures { result ≡ list_any (λ alias. names.fits alias name.now) aliases.now }
{
    aliases.iter().any(|alias| fits(alias.as_bytes(), name))
}
