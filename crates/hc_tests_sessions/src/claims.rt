//! Claims in dialogues. The commands:
//!
//! - `decide stops FIELD=VALUE ..`, `decide shadowed FILE:LINE FIELD=VALUE ..`, `decide guarded PATTERN FILE:LINE
//!   FIELD=VALUE ..`, where paths and queries are patterns, and methods stand with commas between them
//! - `decide ends ORIGIN, ..: FIELD=VALUE ..`, where an origin is `SCHEME HOST PORT`
//!
//! The replies in short:
//!
//! - `proved`, `too_many COUNT`
//! - `refuted TARGET FIELD=VALUE ..: OUTCOME`, where the outcome is that of an `ask`
//! - `undecided cond:FILE:LINE:true rule:FILE:LINE:false ..`

use crate::dialogue::parts;
use crate::follows::hosts;
use hc_base::NoMemory;
use std::alloc::Global;

// ---- commands

fn place(alloc: Global, text: &str) -> Result<String, NoMemory> {
    let (file, line) = parts(text, ":");
    format!(in alloc; r#""file":"{file}","line":{line}"#)
}

fn shadowed(alloc: Global, at: &str) -> Result<String, NoMemory> {
    let place = place(alloc, at)?;
    format!(in alloc; r#"{{"kind":"shadowed",{place}}}"#)
}

fn guarded(alloc: Global, target: &str, at: &str) -> Result<String, NoMemory> {
    let place = place(alloc, at)?;
    format!(in alloc; r#"{{"kind":"guarded","target":{{"pattern":"{target}"}},{place}}}"#)
}

fn ends(alloc: Global, origins: &str) -> Result<String, NoMemory> {
    let hosts = hosts(alloc, origins)?;
    format!(in alloc; r#"{{"kind":"ends","hosts":[{hosts}]}}"#)
}

fn methods(alloc: Global, names: &str) -> Result<String, NoMemory> {
    let quoted = names.replace(alloc, ",", "\",\"")?;
    format!(in alloc; r#""methods":["{quoted}"]"#)
}

fn within(alloc: Global, text: &str) -> Result<String, NoMemory> {
    match parts(text, "=") {
        (name @ ("path" | "query"), value) => {
            format!(in alloc; r#""{name}":{{"pattern":"{value}"}}"#)
        },
        ("methods", names) => methods(alloc, names),
        (name, value) => format!(in alloc; r#""{name}":"{value}""#),
    }
}

fn scope(alloc: Global, fields: &str) -> Result<String, NoMemory> {
    let mut scope = String::from_str(alloc, "{")?;
    for (at, text) in fields.split_whitespace().enumerate() {
        scope.push_str(if at == 0 { "" } else { "," })?;
        scope.push_str(&within(alloc, text)?)?;
    }
    scope.push('}')?;
    Ok(scope)
}

fn decided(alloc: Global, claim: &str, fields: &str) -> Result<String, NoMemory> {
    let scope = scope(alloc, fields)?;
    format!(in alloc; r#"{{"do":"decide","claim":{claim},"scope":{scope}}}"#)
}

/// The command behind the word `decide`.
pub fn decide(alloc: Global, text: &str) -> Result<String, NoMemory> {
    let (kind, rest) = parts(text, " ");
    let (first, behind) = parts(rest, " ");
    match kind {
        "shadowed" => decided(alloc, &shadowed(alloc, first)?, behind),
        "guarded" => {
            let (at, fields) = parts(behind, " ");
            decided(alloc, &guarded(alloc, first, at)?, fields)
        },
        "ends" => {
            let (origins, fields) = parts(rest, ": ");
            decided(alloc, &ends(alloc, origins)?, fields)
        },
        _ => decided(alloc, r#"{"kind":"stops"}"#, rest),
    }
}

// ---- replies

// What these fields give a name, or its default.
fn valued<'t>(fields: &'t str, name: &str, default: &'t str) -> &'t str {
    for text in fields.split_whitespace() {
        let (own, value) = parts(text, "=");
        if own == name {
            return value;
        }
    }
    default
}

fn request(alloc: Global, text: &str) -> Result<String, NoMemory> {
    let (target, fields) = parts(text, " ");
    let client = valued(fields, "client", "0.0.0.0");
    let headers = valued(fields, "headers", "{}");
    let host = valued(fields, "host", "localhost");
    let method = valued(fields, "method", "GET");
    let asker = format!(in alloc;
        r#""client":"{client}","headers":{headers},"host":"{host}","method":"{method}""#
    )?;
    format!(in alloc;
        r#"{{{asker},"port":80,"scheme":"http","server":"192.0.2.1","target":"{target}"}}"#
    )
}

/// The reply of a claim that a request breaks, and its outcome in full.
pub fn refuted(alloc: Global, asked: &str, outcome: &str) -> Result<String, NoMemory> {
    let request = request(alloc, asked)?;
    format!(in alloc; r#"{{"refuted":{{"outcome":{{{outcome}}},"request":{request}}}}}"#)
}

fn decision(alloc: Global, text: &str) -> Result<String, NoMemory> {
    let (test, rest) = parts(text, ":");
    let (file, rest) = parts(rest, ":");
    let (line, is) = parts(rest, ":");
    format!(in alloc; r#"["{test}","{file}",{line},{is}]"#)
}

/// The reply of a claim that stays open, with what a branch decided.
pub fn undecided(alloc: Global, decisions: &str) -> Result<String, NoMemory> {
    let mut branch = String::new(alloc);
    for (at, text) in decisions.split_whitespace().enumerate() {
        branch.push_str(if at == 0 { "" } else { "," })?;
        branch.push_str(&decision(alloc, text)?)?;
    }
    format!(in alloc; r#"{{"undecided":{{"branch":[{branch}]}}}}"#)
}
