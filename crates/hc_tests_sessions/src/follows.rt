//! Chains of redirects in short: `follow ORIGIN, ..: TARGET FIELD=VALUE ..`, where an origin is `SCHEME HOST PORT`, and
//! the reply `followed STEPS STOP: OUTCOME`.

use crate::dialogue::{field, parts};
use hc_base::NoMemory;
use std::alloc::Global;

fn origin(alloc: Global, text: &str) -> Result<String, NoMemory> {
    let (scheme, rest) = parts(text, " ");
    let (host, port) = parts(rest, " ");
    format!(in alloc; r#"{{"host":"{host}","port":{port},"scheme":"{scheme}"}}"#)
}

/// Origins as a list.
pub fn hosts(alloc: Global, origins: &str) -> Result<String, NoMemory> {
    let mut hosts = String::new(alloc);
    for own in origins.split(", ") {
        if !hosts.is_empty() {
            hosts.push(',')?;
        }
        hosts.push_str(&origin(alloc, own)?)?;
    }
    Ok(hosts)
}

/// The line of a `follow`.
pub fn follow(alloc: Global, text: &str) -> Result<String, NoMemory> {
    let (origins, asked) = parts(text, ": ");
    let hosts = hosts(alloc, origins)?;
    let (target, fields) = parts(asked, " ");
    let mut line = format!(in alloc; r#"{{"do":"follow","hosts":[{hosts}],"target":"{target}""#)?;
    for text in fields.split_whitespace() {
        line.push_str(&field(alloc, text)?)?;
    }
    line.push('}')?;
    Ok(line)
}

/// The reply to one, with an outcome.
pub fn followed(alloc: Global, head: &str, outcome: &str) -> Result<String, NoMemory> {
    let (steps, stop) = parts(head, " ");
    format!(in alloc;
        r#"{{"followed":{{"outcome":{{{outcome}}},"steps":{steps},"stop":"{stop}"}}}}"#
    )
}
