ghost use Rattle.std.specs.Prelude.{◌≡◌, IfOk, true};
ghost use Rattle.serde_json.specs.View.{view};
ghost use Rattle.hc_addr.specs.declared.addr.Addr.TheVariants.{V4};
ghost use Rattle.hc_base.specs.Paths.{begins_with_slash};
ghost use Rattle.hc_json.specs.Asked.{asked_in, headers_in, host_in, method_in, port_in, port_of, request_in};
ghost use Rattle.hc_json.specs.Asked.{scheme_in, target_in, trail_in};
ghost use Rattle.hc_json.specs.CommandView.{asked_view, field_view, headers_view, members_field_view};
ghost use Rattle.hc_json.specs.CommandView.{request_field_view, request_view, value_view};
ghost use Rattle.hc_json.specs.Fields.{optional};
ghost use Rattle.hc_json.specs.Forms.{addr_from, port_from, scheme_from};

use crate::fields::BadField;
use crate::headers::{are_headers, copy_headers};
use hc_addr::{Addr, parse_addr};
use hc_base::{List, NoMemory, Text};
use hc_forms::{is_host, is_method, is_target};
use hc_model::{Header, Request, Scheme};
use serde_json::{Map, Value};
use std::alloc::Global;

const HTTP_PORT: u16 = 80;

const HTTPS_PORT: u16 = 443;

const HIGHEST_PORT: u64 = 65_535;

/// 192.0.2.1.
pub(crate) const SERVER: u32 = 0xC000_0201;

/// 192.0.2.9.
const CLIENT: u32 = 0xC000_0209;

/// A request, as it is written. It borrows from the JSON value that it is read from.
#[derive(Clone, Copy)]
pub struct RequestForm<'v> {
    pub target: &'v str,
    pub method: &'v str,
    pub scheme: Scheme,
    pub server: Addr,
    pub port: u16,
    pub host: &'v str,
    pub client: Addr,
    /// Members that are headers, where the field is there.
    pub headers: Option<&'v Map<String, Value>>,
}

/// A request that is asked about.
#[derive(Clone, Copy)]
pub struct Asked<'v> {
    pub request: RequestForm<'v>,
    /// Whether how the outcome came is asked too.
    pub trail: bool,
}

/// What a value asks, or its first wrong field.
pub(crate) fn read_asked(
    alloc: Global,
    value: &Value,
) -> Result<Result<Asked<'_>, BadField<'_>>, NoMemory>
    ensures asked { IfOk result (λ read. asked_view read ≡ asked_in (view value.now)) }
    ensures slash { IfOk result (λ read. IfOk read (λ asked.
        begins_with_slash (asked.request).target.now ≡ true)) }
{
    let request = request_in(alloc, value)?;
    Ok(asked_with(value, request))
}

// The same with what its request is read as.
fn asked_with<'v>(
    value: &'v Value,
    request: Result<RequestForm<'v>, BadField<'v>>,
) -> Result<Asked<'v>, BadField<'v>>
    requires request { request_field_view request ≡ request_in (view value.now) }
    requires slash { IfOk request (λ request. begins_with_slash request.target.now ≡ true) }
    ensures asked { asked_view result ≡ asked_in (view value.now) }
    ensures slash { IfOk result (λ asked. begins_with_slash (asked.request).target.now ≡ true) }
{
    let request = request?;
    let trail = trail_in(value)?;
    Ok(Asked { request, trail })
}

/// The request of a value, or its first wrong field.
pub(crate) fn request_in(
    alloc: Global,
    value: &Value,
) -> Result<Result<RequestForm<'_>, BadField<'_>>, NoMemory>
    ensures request { IfOk result (λ read. request_field_view read ≡ request_in (view value.now)) }
    ensures slash { IfOk result (λ read. IfOk read (λ request. begins_with_slash request.target.now ≡ true)) }
{
    let headers = headers_in(alloc, value)?;
    Ok(request_with(value, headers))
}

// The same with what its headers are read as.
fn request_with<'v>(
    value: &'v Value,
    headers: Result<Option<&'v Map<String, Value>>, BadField<'v>>,
) -> Result<RequestForm<'v>, BadField<'v>>
    requires headers { members_field_view headers ≡ headers_in (view value.now) }
    ensures request { request_field_view result ≡ request_in (view value.now) }
    ensures slash { IfOk result (λ request. begins_with_slash request.target.now ≡ true) }
{
    let target = target_in(value)?;
    let method = method_in(value)?;
    let scheme = scheme_in(value)?;
    let server = addr_in(value, "server", SERVER)?;
    let port = port_in(value, scheme)?;
    let host = host_in(value)?;
    let client = addr_in(value, "client", CLIENT)?;
    let headers = headers?;
    Ok(RequestForm {
        target,
        method,
        scheme,
        server,
        port,
        host,
        client,
        headers,
    })
}

fn target_in(value: &Value) -> Result<&str, BadField<'_>>
    ensures target { field_view result ≡ target_in (view value.now) }
    ensures slash { IfOk result (λ target. begins_with_slash target.now ≡ true) }
{
    match value.get("target").and_then(Value::as_str) {
        Some(target) if is_target(target.as_bytes()) => Ok(target),
        _ => Err(BadField("target")),
    }
}

fn method_in(value: &Value) -> Result<&str, BadField<'_>>
    ensures { field_view result ≡ method_in (view value.now) }
{
    let Some(given) = value.get("method") else {
        return Ok("GET");
    };
    match given.as_str() {
        Some(method) if is_method(method.as_bytes()) => Ok(method),
        _ => Err(BadField("method")),
    }
}

pub(crate) fn scheme_in(value: &Value) -> Result<Scheme, BadField<'_>>
    ensures { value_view result ≡ scheme_in (view value.now) }
{
    match value.get("scheme") {
        Some(given) => scheme_from(given).ok_or(BadField("scheme")),
        None => Ok(Scheme::Http),
    }
}

pub(crate) fn scheme_from(value: &Value) -> Option<Scheme>
    ensures { result ≡ scheme_from (view value.now) }
{
    match value.as_str()? {
        "http" => Some(Scheme::Http),
        "https" => Some(Scheme::Https),
        _ => None,
    }
}

pub(crate) fn addr_in<'v>(
    value: &'v Value,
    key: &'v str,
    default: u32,
) -> Result<Addr, BadField<'v>>
    ensures { value_view result ≡ optional key.now (V4 default) addr_from (view value.now) }
{
    match value.get(key) {
        Some(given) => addr_from(given).ok_or(BadField(key)),
        None => Ok(Addr::V4(default)),
    }
}

fn addr_from(value: &Value) -> Option<Addr>
    ensures { result ≡ addr_from (view value.now) }
{
    parse_addr(value.as_str()?.as_bytes())
}

pub(crate) fn port_in(value: &Value, scheme: Scheme) -> Result<u16, BadField<'_>>
    ensures { value_view result ≡ port_in scheme (view value.now) }
{
    match value.get("port") {
        Some(given) => port_from(given).ok_or(BadField("port")),
        None => Ok(port_of(scheme)),
    }
}

fn port_of(scheme: Scheme) -> u16
    ensures { result ≡ port_of scheme }
{
    match scheme {
        Scheme::Http => HTTP_PORT,
        Scheme::Https => HTTPS_PORT,
    }
}

pub(crate) fn port_from(value: &Value) -> Option<u16>
    ensures { result ≡ port_from (view value.now) }
{
    let port = value.as_u64()?;
    if port <= HIGHEST_PORT {
        Some(port as u16)
    } else {
        None
    }
}

pub(crate) fn host_in(value: &Value) -> Result<&str, BadField<'_>>
    ensures { field_view result ≡ host_in (view value.now) }
{
    let Some(given) = value.get("host") else {
        return Ok("localhost");
    };
    match given.as_str() {
        Some(host) if is_host(host.as_bytes()) => Ok(host),
        _ => Err(BadField("host")),
    }
}

fn headers_in(
    alloc: Global,
    value: &Value,
) -> Result<Result<Option<&Map<String, Value>>, BadField<'_>>, NoMemory>
    ensures { IfOk result (λ read. members_field_view read ≡ headers_in (view value.now)) }
{
    let Some(given) = value.get("headers") else {
        return Ok(Ok(None));
    };
    let Some(members) = given.as_object() else {
        return Ok(Err(BadField("headers")));
    };
    if are_headers(alloc, members)? {
        Ok(Ok(Some(members)))
    } else {
        Ok(Err(BadField("headers")))
    }
}

fn trail_in(value: &Value) -> Result<bool, BadField<'_>>
    ensures { value_view result ≡ trail_in (view value.now) }
{
    match value.get("trail") {
        Some(given) => given.as_bool().ok_or(BadField("trail")),
        None => Ok(false),
    }
}

impl RequestForm<'_> {
    /// The request as a value of its own.
    pub fn to_request(&self, alloc: Global) -> Result<Request, NoMemory>
        ensures { IfOk result (λ request. request ≡ request_view self.now) }
    {
        Ok(Request {
            method: Text::copy_of(alloc, self.method.as_bytes())?,
            scheme: self.scheme,
            server: self.server,
            port: self.port,
            host: Text::copy_of(alloc, self.host.as_bytes())?,
            client: self.client,
            headers: self.copy_headers(alloc)?,
            target: Text::copy_of(alloc, self.target.as_bytes())?,
        })
    }

    fn copy_headers(&self, alloc: Global) -> Result<List<Header>, NoMemory>
        ensures { IfOk result (λ headers. headers ≡ headers_view self.now.headers) }
    {
        match self.headers {
            Some(members) => copy_headers(alloc, members),
            None => Ok(List::new(alloc)),
        }
    }
}
