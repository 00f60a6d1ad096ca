ghost use Rattle.std.specs.Prelude.{◌≡◌, [], IfOk};
ghost use Rattle.std.specs.Str.{str_to_ascii_lowercase};
ghost use Rattle.serde_json.specs.Find.{as_str};
ghost use Rattle.serde_json.specs.View.{members_view, view};
ghost use Rattle.hc_json.specs.Forms.{are_headers, header_of, headers_of, is_value_of};

use hc_base::{List, NoMemory, Text};
use hc_forms::{is_name, is_value};
use hc_model::Header;
use serde_json::{Map, Value};
use std::alloc::Global;
use std::collections::BTreeSet;

/// Each member is a header, and no two names are equal without case.
pub(crate) fn are_headers(alloc: Global, members: &Map<String, Value>) -> Result<bool, NoMemory>
    ensures { IfOk result (λ are. are ≡ are_headers [] (members_view members.now.entries)) }
{
    let mut names = BTreeSet::new(alloc);
    for (name, value) in members.iter() {
        if !is_name(name.as_bytes()) || !is_value_of(value) {
            return Ok(false);
        }
        if !names.insert(lower_name(alloc, name.as_bytes())?)? {
            return Ok(false);
        }
    }
    Ok(true)
}

/// The name of a header without case.
pub(crate) fn lower_name(alloc: Global, name: &[u8]) -> Result<Text, NoMemory>
    ensures { IfOk result (λ lower. lower ≡ str_to_ascii_lowercase name.now) }
{
    Ok(Text::from(name.to_ascii_lowercase(alloc)?))
}

// A text that the value of a header may be.
fn is_value_of(value: &Value) -> bool
    ensures { result ≡ is_value_of (as_str (view value.now)) }
{
    match value.as_str() {
        Some(text) => is_value(text.as_bytes()),
        None => false,
    }
}

/// The headers that members are.
pub(crate) fn copy_headers(
    alloc: Global,
    members: &Map<String, Value>,
) -> Result<List<Header>, NoMemory>
    ensures { IfOk result (λ headers. headers ≡ headers_of (members_view members.now.entries)) }
{
    let mut headers = List::new(alloc);
    for (name, value) in members.iter() {
        headers.push(copy_header(alloc, name.as_str(), value)?)?;
    }
    Ok(headers)
}

fn copy_header(alloc: Global, name: &str, value: &Value) -> Result<Header, NoMemory>
    ensures { IfOk result (λ header. header ≡ header_of name.now (view value.now)) }
{
    Ok(Header {
        name: Text::copy_of(alloc, name.as_bytes())?,
        value: Text::copy_of(alloc, value.as_str().unwrap_or("").as_bytes())?,
    })
}
