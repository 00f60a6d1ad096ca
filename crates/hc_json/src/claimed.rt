ghost use Rattle.std.specs.Prelude.{◌≡◌, IfOk, OnOk};
ghost use Rattle.serde_json.specs.Data.{no_members, object, put};
ghost use Rattle.serde_json.specs.View.{members_view, view};
ghost use Rattle.hc_json.specs.Claimed.{branch_data, decision_data, request_data, scheme_name, with_asked};
ghost use Rattle.hc_json.specs.Claimed.{with_asker, with_headers};
ghost use Rattle.hc_json.specs.Reply.{refuted, refuted_data, reply_data, reply_line, undecided};
ghost use Rattle.hc_json.specs.Trail.{text_data};

use crate::reply::{outcome_value, print_value, shown};
use hc_addr::print_addr;
use hc_base::{NoMemory, Text};
use hc_model::{Decision, Header, Outcome, Request, Scheme};
use serde_json::{Map, Value, json};
use std::alloc::Global;

/// The line of a claim that a request breaks, which receives this: compact JSON, and LF.
pub fn print_refuted(alloc: Global, outcome: &Outcome, request: &Request) -> Result<Text, NoMemory>
    ensures { IfOk result (λ line. line ≡ reply_line (refuted outcome.now request.now)) }
{
    print_value(alloc, &refuted_value(alloc, outcome, request)?)
}

/// The line of a claim of which it isn't known whether it holds, with what the first branch decided that may break it.
pub fn print_undecided(alloc: Global, branch: &[Decision]) -> Result<Text, NoMemory>
    ensures { IfOk result (λ line. line ≡ reply_line (undecided branch.now)) }
{
    print_value(alloc, &undecided_value(alloc, branch)?)
}

fn refuted_value(alloc: Global, outcome: &Outcome, request: &Request) -> Result<Value, NoMemory>
    ensures { IfOk result (λ value. view value ≡ reply_data (refuted outcome.now request.now)) }
{
    let outcome = outcome_value(alloc, outcome)?;
    let request = request_value(alloc, request)?;
    json!(in alloc; {"refuted": {"outcome": outcome, "request": request}})
}

fn undecided_value(alloc: Global, branch: &[Decision]) -> Result<Value, NoMemory>
    ensures { IfOk result (λ value. view value ≡ reply_data (undecided branch.now)) }
{
    let branch = branch_value(alloc, branch)?;
    json!(in alloc; {"undecided": {"branch": branch}})
}

// ---- a request

fn request_value(alloc: Global, request: &Request) -> Result<Value, NoMemory>
    ensures { IfOk result (λ value. view value ≡ request_data request.now) }
{
    let mut members = Map::new(alloc);
    put_asker(alloc, &mut members, request)?;
    put_asked(alloc, &mut members, request)?;
    Ok(Value::Object(members))
}

// Who asks, for which host, and how.
fn put_asker(
    alloc: Global,
    members: &mut Map<String, Value>,
    request: &Request,
) -> Result<(), NoMemory>
    ensures { OnOk result (members_view members.new.entries
        ≡ with_asker request.now (members_view members.old.entries)) }
{
    let client = print_addr(alloc, request.client)?;
    put_text(alloc, members, "client", client.as_bytes())?;
    let headers = headers_value(alloc, request.headers.as_slice())?;
    put_value(alloc, members, "headers", headers)?;
    put_text(alloc, members, "host", request.host.as_bytes())?;
    put_text(alloc, members, "method", request.method.as_bytes())
}

// What is asked, and where.
fn put_asked(
    alloc: Global,
    members: &mut Map<String, Value>,
    request: &Request,
) -> Result<(), NoMemory>
    ensures { OnOk result (members_view members.new.entries
        ≡ with_asked request.now (members_view members.old.entries)) }
{
    put_value(alloc, members, "port", Value::from(request.port))?;
    put_text(
        alloc,
        members,
        "scheme",
        scheme_name(request.scheme).as_bytes(),
    )?;
    let server = print_addr(alloc, request.server)?;
    put_text(alloc, members, "server", server.as_bytes())?;
    put_text(alloc, members, "target", request.target.as_bytes())
}

fn scheme_name(scheme: Scheme) -> &'static str
    ensures { result.now ≡ scheme_name scheme }
{
    match scheme {
        Scheme::Http => "http",
        Scheme::Https => "https",
    }
}

fn headers_value(alloc: Global, headers: &[Header]) -> Result<Value, NoMemory>
    ensures { IfOk result (λ value. view value ≡ object (with_headers no_members headers.now)) }
{
    let mut members = Map::new(alloc);
    for header in headers {
        let name = shown(alloc, header.name.as_bytes())?;
        put_text(alloc, &mut members, &name, header.value.as_bytes())?;
    }
    Ok(Value::Object(members))
}

fn put_text(
    alloc: Global,
    members: &mut Map<String, Value>,
    key: &str,
    bytes: &[u8],
) -> Result<(), NoMemory>
    ensures { OnOk result (members_view members.new.entries
        ≡ put key.now (text_data bytes.now) (members_view members.old.entries)) }
{
    let text = shown(alloc, bytes)?;
    put_value(alloc, members, key, Value::String(text))
}

fn put_value(
    alloc: Global,
    members: &mut Map<String, Value>,
    key: &str,
    value: Value,
) -> Result<(), NoMemory>
    ensures { OnOk result (members_view members.new.entries
        ≡ put key.now (view value) (members_view members.old.entries)) }
{
    members.insert(String::from_str(alloc, key)?, value)?;
    Ok(())
}

// ---- what a branch decided

/// What a branch decided.
pub(crate) fn branch_value(alloc: Global, branch: &[Decision]) -> Result<Value, NoMemory>
    ensures { IfOk result (λ value. view value ≡ branch_data branch.now) }
{
    let mut values = Vec::new(alloc);
    for decision in branch {
        values.push(decision_value(alloc, decision)?)?;
    }
    Ok(Value::from(values))
}

fn decision_value(alloc: Global, decision: &Decision) -> Result<Value, NoMemory>
    ensures { IfOk result (λ value. view value ≡ decision_data decision.now) }
{
    match decision {
        Decision::Cond { place, held } => {
            let file = shown(alloc, place.file.as_bytes())?;
            json!(in alloc; ["cond", file, place.line, *held])
        }
        Decision::Rule { place, matched } => {
            let file = shown(alloc, place.file.as_bytes())?;
            json!(in alloc; ["rule", file, place.line, *matched])
        }
    }
}
