ghost use Rattle.std.specs.Prelude.{◌≡◌, ◌∷◌, [], IfOk, codes, option_map};
ghost use Rattle.serde_json.specs.View.{items_view, view};
ghost use Rattle.serde_json.specs.Find.{as_str};
ghost use Rattle.hc_json.specs.Claims.{all_methods, are_methods, client_in, fields_of_scope, is_method_text};
ghost use Rattle.hc_json.specs.Claims.{methods_in, methods_of};
ghost use Rattle.hc_json.specs.Claims.{blaming, net_from, scope_fields, scope_in};
ghost use Rattle.hc_json.specs.CommandView.{methods_field_view, methods_view, scope_field_view, value_view};
ghost use Rattle.hc_json.specs.Fields.{no_other, unknown_field};

use crate::asked::{SERVER, addr_in, host_in, port_in, scheme_in};
use crate::fields::{BadField, unknown_field};
use hc_addr::{Addr, Net, parse_net};
use hc_base::{List, NoMemory, Text};
use hc_forms::is_method;
use hc_model::Scheme;
use serde_json::Value;
use std::alloc::Global;

/// Which requests a claim speaks of. It borrows from the JSON value that it is read from.
#[derive(Clone, Copy)]
pub struct ScopeForm<'v> {
    pub scheme: Scheme,
    pub server: Addr,
    pub port: u16,
    pub host: &'v str,
    pub client: Net,
    /// Texts, each a method, where the field is there.
    pub methods: Option<&'v Vec<Value>>,
    /// The paths, as the set is written; all of them where the field isn't there.
    pub path: Option<&'v Value>,
    /// The queries in the same way.
    pub query: Option<&'v Value>,
}

/// The scope of a command. Whatever is wrong within it, `scope` is the wrong field.
pub(crate) fn scope_in(value: &Value) -> Result<ScopeForm<'_>, BadField<'_>>
    ensures { scope_field_view result ≡ scope_in (view value.now) }
{
    match value.get("scope") {
        Some(own) if own.is_object() => scope_from(own),
        _ => Err(BadField("scope")),
    }
}

fn scope_from(own: &Value) -> Result<ScopeForm<'_>, BadField<'_>>
    ensures { scope_field_view result
        ≡ blaming (codes "scope") (no_other scope_fields (view own.now) (fields_of_scope (view own.now))) }
{
    if unknown_scope_field(own).is_some() {
        return Err(BadField("scope"));
    }
    match fields_of_scope(own) {
        Ok(scope) => Ok(scope),
        Err(_) => Err(BadField("scope")),
    }
}

fn unknown_scope_field(own: &Value) -> Option<&str>
    ensures { option_map (λ field. field.now) result ≡ unknown_field scope_fields (view own.now) }
{
    unknown_field(
        own,
        &[
            "scheme", "server", "port", "host", "client", "methods", "path", "query",
        ],
    )
}

fn fields_of_scope(own: &Value) -> Result<ScopeForm<'_>, BadField<'_>>
    ensures { scope_field_view result ≡ fields_of_scope (view own.now) }
{
    let scheme = scheme_in(own)?;
    let server = addr_in(own, "server", SERVER)?;
    let port = port_in(own, scheme)?;
    let host = host_in(own)?;
    let client = client_in(own)?;
    let methods = methods_in(own)?;
    Ok(ScopeForm {
        scheme,
        server,
        port,
        host,
        client,
        methods,
        path: own.get("path"),
        query: own.get("query"),
    })
}

fn client_in(own: &Value) -> Result<Net, BadField<'_>>
    ensures { value_view result ≡ client_in (view own.now) }
{
    match own.get("client") {
        Some(given) => net_from(given).ok_or(BadField("client")),
        None => Ok(Net {
            addr: Addr::V4(0),
            mask: 0,
        }),
    }
}

fn net_from(value: &Value) -> Option<Net>
    ensures { result ≡ net_from (view value.now) }
{
    parse_net(value.as_str()?.as_bytes()).ok()
}

fn methods_in(own: &Value) -> Result<Option<&Vec<Value>>, BadField<'_>>
    ensures { methods_field_view result ≡ methods_in (view own.now) }
{
    let Some(given) = own.get("methods") else {
        return Ok(None);
    };
    match given.as_array() {
        Some(methods) if are_methods(methods) => Ok(Some(methods)),
        _ => Err(BadField("methods")),
    }
}

// At least one, and each is a method.
fn are_methods(values: &[Value]) -> bool
    ensures { result ≡ are_methods (items_view values.now) }
{
    match values.split_first() {
        Some((first, rest)) => is_method_text(first) && all_methods(rest),
        None => false,
    }
}

fn all_methods(values: &[Value]) -> bool
    ensures { result ≡ all_methods (items_view values.now) }
{
    for value in values {
        if !is_method_text(value) {
            return false;
        }
    }
    true
}

fn is_method_text(value: &Value) -> bool
    ensures { result ≡ is_method_text (as_str (view value.now)) }
{
    match value.as_str() {
        Some(text) => is_method(text.as_bytes()),
        None => false,
    }
}

impl ScopeForm<'_> {
    /// The methods as a list of their own: GET where the field isn't there.
    pub fn copy_methods(&self, alloc: Global) -> Result<List<Text>, NoMemory>
        ensures { IfOk result (λ methods. methods ≡ methods_view self.now.methods) }
    {
        match self.methods {
            Some(values) => texts_of(alloc, values),
            None => only_get(alloc),
        }
    }
}

fn only_get(alloc: Global) -> Result<List<Text>, NoMemory>
    ensures { IfOk result (λ methods. methods ≡ codes "GET" ∷ []) }
{
    let mut methods = List::new(alloc);
    methods.push(Text::copy_of(alloc, b"GET")?)?;
    Ok(methods)
}

fn texts_of(alloc: Global, values: &[Value]) -> Result<List<Text>, NoMemory>
    ensures { IfOk result (λ texts. texts ≡ methods_of (items_view values.now)) }
{
    let mut texts = List::new(alloc);
    for value in values {
        texts.push(Text::copy_of(alloc, value.as_str().unwrap_or("").as_bytes())?)?;
    }
    Ok(texts)
}
