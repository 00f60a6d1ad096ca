//! Requests of a scope.
ghost use Rattle.std.specs.Prelude.{◌≡◌, ◌&&◌, IfOk};
ghost use Rattle.std.specs.Str.{bytes_eq};
ghost use Rattle.hc_forms.specs.Forms.{is_method, is_target};
ghost use Rattle.hc_members.specs.Requests.{common_request, is_asked, is_listed, is_of_scope, reads_within, same_addr};
ghost use Rattle.hc_members.specs.Requests.{same_scheme};
ghost use Rattle.hc_scope.specs.Clients.{clients_of};
ghost use Rattle.hc_target.specs.Targets.{read};

use crate::headers::are_headers;
use hc_addr::{Addr, Net, holds};
use hc_base::{List, NoMemory, Text};
use hc_forms::{is_method, is_target};
use hc_model::{Request, Scheme};
use hc_scope::Scope;
use hc_target::{TargetRead, read_target};
use std::alloc::Global;

/// Whether a request is well-formed and of a scope.
#[tactic(auto, unfolding(crate::specs::Requests::is_of_scope))]
pub fn is_of_scope(alloc: Global, scope: &Scope, request: &Request) -> Result<bool, NoMemory>
    ensures { IfOk result (λ is. is ≡ is_of_scope scope.now request.now) }
{
    if !is_sent(scope, request) {
        return Ok(false);
    }
    if !are_headers(alloc, request.headers.as_slice())? {
        return Ok(false);
    }
    asks_within(alloc, scope, request.target.as_bytes())
}

/// What the connection says, and the method.
fn is_sent(scope: &Scope, request: &Request) -> bool
    ensures { result ≡ (is_asked scope.now request.now && clients_of scope.now.client request.now.client
        && (is_method request.now.method && is_listed scope.now.methods request.now.method)) }
{
    is_asked(scope, request)
        && is_client(&scope.client, request.client)
        && is_allowed(scope.methods.as_slice(), request.method.as_bytes())
}

fn same_scheme(one: Scheme, other: Scheme) -> bool
    ensures { result ≡ same_scheme one other }
{
    match (one, other) {
        (Scheme::Http, Scheme::Http) => true,
        (Scheme::Https, Scheme::Https) => true,
        _ => false,
    }
}

fn same_addr(one: Addr, other: Addr) -> bool
    ensures { result ≡ same_addr one other }
{
    match (one, other) {
        (Addr::V4(one), Addr::V4(other)) => one == other,
        (Addr::V6(one), Addr::V6(other)) => one == other,
        _ => false,
    }
}

fn same_text(one: &[u8], other: &[u8]) -> bool
    ensures { result ≡ bytes_eq one.now other.now }
{
    one == other
}

/// It is sent to the scope's server.
fn is_asked(scope: &Scope, request: &Request) -> bool
    ensures { result ≡ is_asked scope.now request.now }
{
    same_scheme(scope.scheme, request.scheme)
        && same_addr(scope.server, request.server)
        && scope.port == request.port
        && same_text(scope.host.as_bytes(), request.host.as_bytes())
}

/// The client is one of a network.
fn is_client(net: &Net, client: Addr) -> bool
    ensures { result ≡ clients_of net.now client }
{
    holds(net, client)
}

/// The method is one, and among these.
fn is_allowed(methods: &[Text], method: &[u8]) -> bool
    ensures { result ≡ (is_method method.now && is_listed methods.now method.now) }
{
    is_method(method) && is_listed(methods, method)
}

fn is_listed(methods: &[Text], method: &[u8]) -> bool
    ensures { result ≡ is_listed methods.now method.now }
{
    methods.iter().any(|own| same_text(method, own.as_bytes()))
}

/// The target is one, and is read as a path and a query of the scope.
fn asks_within(alloc: Global, scope: &Scope, target: &[u8]) -> Result<bool, NoMemory>
    ensures { IfOk result (λ asks. asks ≡ (is_target target.now && reads_within scope.now (read target.now))) }
{
    if !is_target(target) {
        return Ok(false);
    }
    let read = read_target(alloc, target)?;
    Ok(reads_within(scope, &read))
}

fn reads_within(scope: &Scope, read: &TargetRead) -> bool
    ensures { result ≡ reads_within scope.now read.now }
{
    match read {
        TargetRead::Path { path, query } => {
            scope.path.accepts(path.as_bytes()) && scope.query.accepts(query.as_bytes())
        }
        _ => false,
    }
}

/// What all requests of a scope have in common.
pub fn common_request(alloc: Global, scope: &Scope) -> Result<Request, NoMemory>
    ensures { IfOk result (λ request. request ≡ common_request scope.now) }
{
    Ok(Request {
        method: Text::new(alloc),
        scheme: scope.scheme,
        server: scope.server,
        port: scope.port,
        host: scope.host.clone()?,
        client: Addr::V4(0),
        headers: List::new(alloc),
        target: Text::new(alloc),
    })
}
