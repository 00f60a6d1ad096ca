ghost use Rattle.std.specs.Prelude.{◌≡◌, ◌++◌, IfOk, OnOk};
ghost use Rattle.hc_alias.specs.FoundView.{found_of};
ghost use Rattle.hc_alias.specs.Locations as definition;
ghost use Rattle.hc_alias.specs.Locations.{location_to, query_part};

use crate::tests::Found;
use hc_base::paths::begins_with_slash;
use hc_base::{NoMemory, Text};
use hc_model::{Caller, Outcome, Redirect};
use hc_target::{escape_path, is_redirection};
use hc_template::{expand, push_origin};
use std::alloc::Global;

/// A target that begins with a slash is one of the server's own.
fn absolute(alloc: Global, caller: &Caller, target: &[u8]) -> Result<Vec<u8>, NoMemory>
    ensures { IfOk result (λ text. text.items ≡ definition.absolute caller.now target.now) }
{
    if !begins_with_slash(target) {
        return target.to_vec(alloc);
    }
    let mut text = Vec::new(alloc);
    push_origin(&mut text, caller)?;
    text.extend_from_slice(target)?;
    Ok(text)
}

/// The query is left out where it is empty, and where the target has one.
fn push_query(out: &mut Vec<u8>, target: &[u8], query: &[u8]) -> Result<(), NoMemory>
    ensures { OnOk result (out.new.items ≡ out.old.items ++ query_part target.now query.now) }
{
    if query.is_empty() || target.contains(&b'?') {
        return Ok(());
    }
    out.push(b'?')?;
    out.extend_from_slice(query)
}

fn location_to(
    alloc: Global,
    caller: &Caller,
    target: &[u8],
    rest: &[u8],
    query: &[u8],
) -> Result<Text, NoMemory>
    ensures { IfOk result (λ text. text ≡ location_to caller.now target.now rest.now query.now) }
{
    let mut text = absolute(alloc, caller, target)?;
    let rest = escape_path(alloc, rest)?;
    text.extend_from_slice(rest.as_bytes())?;
    push_query(&mut text, target, query)?;
    Ok(Text::from(text))
}

/// The target with its groups, what follows the prefix, escaped, and the query.
fn location(
    alloc: Global,
    caller: &Caller,
    redirect: &Redirect,
    found: &Found<'_>,
    query: &[u8],
) -> Result<Text, NoMemory>
    ensures { IfOk result (λ text.
        text ≡ definition.location caller.now redirect.now (found_of found.now) query.now) }
{
    let target = expand(alloc, redirect.to.as_slice(), found)?;
    location_to(alloc, caller, target.as_bytes(), found.rest(), query)
}

/// Where a redirect sends a request. A status outside 300 to 399 is answered as it is.
pub(crate) fn sent_by(
    alloc: Global,
    caller: &Caller,
    redirect: &Redirect,
    found: &Found<'_>,
    query: &[u8],
) -> Result<Outcome, NoMemory>
    ensures { IfOk result (λ sent.
        sent ≡ definition.sent_by caller.now redirect.now (found_of found.now) query.now) }
{
    let status = redirect.status;
    if !is_redirection(status) {
        return Ok(Outcome::Status(status));
    }
    Ok(Outcome::Redirect {
        status,
        location: location(alloc, caller, redirect, found, query)?,
    })
}
