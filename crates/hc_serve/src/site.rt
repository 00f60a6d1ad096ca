ghost use Rattle.std.specs.Prelude.{◌≡◌, IfOk};
ghost use Rattle.hc_serve.specs.Site.{caller_at, most_passes, or_address, server_name};

use hc_addr::print_addr;
use hc_base::{NoMemory, Text};
use hc_model::{Caller, Config, HostId, Request, Server};
use hc_vhost::server_at;
use std::alloc::Global;

/// How many passes may follow the first one where no directive says it.
const DEFAULT_RESTARTS: u32 = 10;

/// A request at a server: it has the name of the Host header, else that of ServerName, else the server's address.
pub fn caller_at(
    alloc: Global,
    config: &Config,
    host: HostId,
    request: &Request,
) -> Result<Caller, NoMemory>
    ensures { IfOk result (λ caller. caller ≡ caller_at config.now host request.now) }
{
    Ok(Caller {
        request: request.clone()?,
        name: server_name(alloc, server_at(config, host), request)?,
    })
}

// The name of the Host header, else ServerName, else the server's address.
fn server_name(alloc: Global, server: &Server, request: &Request) -> Result<Text, NoMemory>
    ensures { IfOk result (λ name. name ≡ server_name server.now request.now) }
{
    if request.host.as_bytes().is_empty() {
        return or_address(alloc, &server.name, request);
    }
    request.host.clone()
}

// A name that is empty counts as none.
fn or_address(alloc: Global, name: &Option<Text>, request: &Request) -> Result<Text, NoMemory>
    ensures { IfOk result (λ text. text ≡ or_address name.now request.now) }
{
    match name {
        Some(name) if !name.as_bytes().is_empty() => name.clone(),
        _ => print_addr(alloc, request.server),
    }
}

/// How many passes there are at most.
pub fn most_passes(config: &Config, host: HostId) -> u64
    ensures { result ≡ most_passes config.now host }
{
    match server_at(config, host).recursion.or(config.main.recursion) {
        Some(limit) => 1 + u64::from(limit),
        None => 1 + u64::from(DEFAULT_RESTARTS),
    }
}
