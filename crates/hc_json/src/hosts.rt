ghost use Rattle.std.specs.Prelude.{◌≡◌, IfOk, IfSome, codes, map, option_map, true};
ghost use Rattle.serde_json.specs.View.{items_view, view};
ghost use Rattle.hc_json.specs.CommandView.{field_view, host_field_view, host_view, hosts_field_view, value_view};
ghost use Rattle.hc_json.specs.Fields.{wanted};
ghost use Rattle.hc_json.specs.Forms.{port_from, scheme_from, text_where};
ghost use Rattle.hc_json.specs.Hosts.{AreNamed, are_hosts, are_servers, ending_in, fields_of_host, host_from, hosts_in};
ghost use Rattle.hc_json.specs.Hosts.{hosts_of};
ghost use Rattle.hc_forms.specs.Forms.{is_host, is_host_byte};
ghost use Rattle.std.specs.List.{list_all};

use crate::asked::{port_from, scheme_from};
use crate::fields::{BadField, unknown_field};
use hc_base::NoMemory;
use hc_forms::is_host;
use hc_model::Scheme;
use serde_json::Value;
use std::alloc::Global;

/// How many own servers a command names at most.
pub(crate) const MOST_HOSTS: usize = 16;

/// An own server, as it is written. It borrows from the JSON value that it is read from.
#[derive(Clone, Copy)]
pub struct HostForm<'v> {
    pub scheme: Scheme,
    pub host: &'v str,
    pub port: u16,
}

/// The own servers of a command. Whatever is wrong within them, `hosts` is the wrong field.
pub(crate) fn hosts_in(
    alloc: Global,
    value: &Value,
) -> Result<Result<&Vec<Value>, BadField<'_>>, NoMemory>
    ensures { IfOk result (λ read. hosts_field_view read ≡ hosts_in (view value.now)) }
{
    let Some(values) = value.get("hosts").and_then(Value::as_array) else {
        return Ok(Err(BadField("hosts")));
    };
    if are_hosts(alloc, values)? {
        Ok(Ok(values))
    } else {
        Ok(Err(BadField("hosts")))
    }
}

/// The own servers of the claim that chains of redirects end. Whatever is wrong within it, `claim` is the wrong field.
pub(crate) fn ending_in(
    alloc: Global,
    value: &Value,
) -> Result<Result<&Vec<Value>, BadField<'_>>, NoMemory>
    ensures { IfOk result (λ read. hosts_field_view read ≡ ending_in (view value.now)) }
{
    let Some(own) = value.get("claim") else {
        return Ok(Err(BadField("claim")));
    };
    if unknown_field(own, &["kind", "hosts"]).is_some() {
        return Ok(Err(BadField("claim")));
    }
    match hosts_in(alloc, own)? {
        Ok(hosts) => Ok(Ok(hosts)),
        Err(_) => Ok(Err(BadField("claim"))),
    }
}

fn are_hosts(alloc: Global, values: &[Value]) -> Result<bool, NoMemory>
    ensures { IfOk result (λ are. are ≡ are_hosts (items_view values.now)) }
{
    let count = hosts_of(alloc, values)?.len();
    Ok(are_servers(values) && 1 <= count && count <= MOST_HOSTS)
}

fn are_servers(values: &[Value]) -> bool
    ensures { result ≡ are_servers (items_view values.now) }
{
    for value in values {
        if host_from(value).is_none() {
            return false;
        }
    }
    true
}

/// The own servers among values, in their order.
pub fn hosts_of(alloc: Global, values: &[Value]) -> Result<Vec<HostForm<'_>>, NoMemory>
    ensures hosts { IfOk result (λ hosts. map host_view hosts.items ≡ hosts_of (items_view values.now)) }
    ensures named { IfOk result (λ hosts. AreNamed (map host_view hosts.items)) }
{
    let mut hosts = Vec::new(alloc);
    for value in values {
        if let Some(host) = host_from(value) {
            hosts.push(host)?;
        }
    }
    Ok(hosts)
}

// The server that a value is.
fn host_from(value: &Value) -> Option<HostForm<'_>>
    ensures host { option_map host_view result ≡ host_from (view value.now) }
    ensures named { IfSome result (λ own. list_all is_host_byte own.host.now ≡ true) }
{
    if unknown_field(value, &["host", "port", "scheme"]).is_some() {
        return None;
    }
    fields_of_host(value).ok()
}

fn fields_of_host(value: &Value) -> Result<HostForm<'_>, BadField<'_>>
    ensures fields { host_field_view result ≡ fields_of_host (view value.now) }
    ensures named { IfOk result (λ own. list_all is_host_byte own.host.now ≡ true) }
{
    let host = own_host(value)?;
    let port = own_port(value)?;
    let scheme = own_scheme(value)?;
    Ok(HostForm { scheme, host, port })
}

fn own_host(value: &Value) -> Result<&str, BadField<'_>>
    ensures field { field_view result ≡ wanted (codes "host") (text_where is_host) (view value.now) }
    ensures named { IfOk result (λ host. list_all is_host_byte host.now ≡ true) }
{
    match value.get("host").and_then(Value::as_str) {
        Some(host) if is_host(host.as_bytes()) => Ok(host),
        _ => Err(BadField("host")),
    }
}

fn own_port(value: &Value) -> Result<u16, BadField<'_>>
    ensures { value_view result ≡ wanted (codes "port") port_from (view value.now) }
{
    value
        .get("port")
        .and_then(port_from)
        .ok_or(BadField("port"))
}

fn own_scheme(value: &Value) -> Result<Scheme, BadField<'_>>
    ensures { value_view result ≡ wanted (codes "scheme") scheme_from (view value.now) }
{
    value
        .get("scheme")
        .and_then(scheme_from)
        .ok_or(BadField("scheme"))
}
