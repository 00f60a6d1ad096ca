//! Dialogues with a session: its commands, most of them in short, and behind each the reply that is wanted.
//!
//! A line that begins with two blanks goes on with the one before. `MAIN` stands for the path of the main file, and
//! `<<COUNT TEXT>>` for so many times the text. The commands:
//!
//! - `main TEXT` and `PATH TEXT` put a file, whose text stands as in JSON; `file PATH ..` and `dir PATH ..` list some
//! - `ask TARGET FIELD=VALUE ..` asks, `check` checks
//! - `stats ASKS EVALUATIONS` asks for these stats
//! - `decide ..`: see `claims`; `cells COUNT` says how many branches are too many in the whole dialogue
//! - `follow ..`: see `follows`
//! - any other line is a command as it stands
//!
//! Behind a command stand ` -> ` and its reply in short, or a line with the JSON of the reply. In short it is one of:
//!
//! - `STATUS`, `STATUS LOCATION`, `PATH`, `PATH INFO`, `directory PATH`, `not found`, `limit NAME`, `outside NAME`:
//!   an outcome, where a location is that of a redirect, and a path that of a file
//! - `refused CODE NAME FILE:LINE:AT` and `ht_refused ..`: a refusal, whose place may end early
//! - `bad FIELD`: a command of which this field is wrong
//! - `hosts COUNT`, `done COMMAND`
//! - `proved`, `too_many COUNT`, `refuted ..`, `undecided ..`: see `claims`
//! - `followed ..`: see `follows`

use crate::claims::{decide, refuted, undecided};
use crate::follows::{follow, followed};
use crate::session::{LONGEST_REPLIES, check, session_within};
use hc_base::NoMemory;
use hc_generate::{MAIN_FILE, Status};
use hc_words::DEFAULT_CELLS;
use std::alloc::Global;
use std::process::Abort;

// What goes into a session, and what it is to write.
#[derive(Drop)]
struct Said {
    input: String,
    wanted: String,
    cells: u32,
}

/// What stands before a mark and behind it; where it is missing nothing stands behind.
pub fn parts<'t>(text: &'t str, mark: &str) -> (&'t str, &'t str) {
    text.split_once(mark).unwrap_or((text, ""))
}

fn push_line(text: &mut String, line: &str) -> Result<(), NoMemory> {
    text.push_str(line)?;
    text.push('\n')
}

// ---- commands

fn put(alloc: Global, said: &mut Said, path: &str, text: &str) -> Result<(), NoMemory> {
    let command = format!(in alloc; r#"{{"do":"put","path":"{path}","text":"{text}"}}"#)?;
    push_line(&mut said.input, &command)?;
    push_line(&mut said.wanted, r#"{"done":"put"}"#)
}

fn list(alloc: Global, said: &mut Said, kind: &str, paths: &str) -> Result<(), NoMemory> {
    for path in paths.split_whitespace() {
        let command = format!(in alloc; r#"{{"do":"list","kind":"{kind}","path":"{path}"}}"#)?;
        push_line(&mut said.input, &command)?;
        push_line(&mut said.wanted, r#"{"done":"list"}"#)?;
    }
    Ok(())
}

/// A field of an ask. A port, headers and a trail stand as in JSON, and what else there is without its quotes.
pub fn field(alloc: Global, text: &str) -> Result<String, NoMemory> {
    match parts(text, "=") {
        (name @ ("port" | "headers" | "trail"), value) => format!(in alloc; r#","{name}":{value}"#),
        (name, value) => format!(in alloc; r#","{name}":"{value}""#),
    }
}

fn ask(alloc: Global, said: &mut Said, asked: &str) -> Result<(), NoMemory> {
    let (target, fields) = parts(asked, " ");
    said.input
        .push_str(&format!(in alloc; r#"{{"do":"ask","target":"{target}""#)?)?;
    for text in fields.split_whitespace() {
        said.input.push_str(&field(alloc, text)?)?;
    }
    push_line(&mut said.input, "}")
}

fn stats(alloc: Global, said: &mut Said, counts: &str) -> Result<(), NoMemory> {
    let (asks, evaluations) = parts(counts, " ");
    let reply = format!(in alloc; r#"{{"stats":{{"asks":{asks},"evaluations":{evaluations}}}}}"#)?;
    push_line(&mut said.input, r#"{"do":"stats"}"#)?;
    push_line(&mut said.wanted, &reply)
}

fn take_command(alloc: Global, said: &mut Said, command: &str) -> Result<(), NoMemory> {
    match parts(command, " ") {
        ("main", text) => put(alloc, said, MAIN_FILE, text),
        (path, text) if path.starts_with('/') => put(alloc, said, path, text),
        (kind @ ("file" | "dir"), paths) => list(alloc, said, kind, paths),
        ("ask", asked) => ask(alloc, said, asked),
        ("stats", counts) => stats(alloc, said, counts),
        ("cells", count) => {
            said.cells = count.parse().unwrap_or(DEFAULT_CELLS);
            Ok(())
        },
        ("follow", asked) => push_line(&mut said.input, &follow(alloc, asked)?),
        ("decide", claimed) => push_line(&mut said.input, &decide(alloc, claimed)?),
        ("check", _) => push_line(&mut said.input, r#"{"do":"check"}"#),
        _ => push_line(&mut said.input, command),
    }
}

// ---- replies

fn refusal(alloc: Global, text: &str) -> Result<String, NoMemory> {
    let (code, rest) = parts(text, " ");
    let (name, place) = parts(rest, " ");
    let (file, place) = parts(place, ":");
    let (line, at) = parts(place, ":");
    let at = if at.is_empty() { "0" } else { at };
    let line = if line.is_empty() { "0" } else { line };
    let front = format!(in alloc; r#""at":{at},"code":{code},"field":"","file":"{file}""#)?;
    format!(in alloc; r#"{{{front},"line":{line},"name":"{name}"}}"#)
}

fn outcome(alloc: Global, reply: &str) -> Result<String, NoMemory> {
    match parts(reply, " ") {
        ("not", _) => String::from_str(alloc, r#""not_found":true"#),
        (word @ ("directory" | "limit" | "outside"), rest) => {
            format!(in alloc; r#""{word}":"{rest}""#)
        },
        ("ht_refused", rest) => {
            let refusal = refusal(alloc, rest)?;
            format!(in alloc; r#""ht_refused":{refusal}"#)
        },
        (path, info) if path.starts_with('/') => {
            format!(in alloc; r#""file":{{"info":"{info}","path":"{path}"}}"#)
        },
        (status, "") => format!(in alloc; r#""status":{status}"#),
        (status, location) => {
            format!(in alloc; r#""redirect":{{"location":"{location}","status":{status}}}"#)
        },
    }
}

fn reply_in_full(alloc: Global, reply: &str) -> Result<String, NoMemory> {
    match parts(reply, " ") {
        ("done", command) => format!(in alloc; r#"{{"done":"{command}"}}"#),
        ("proved", _) => String::from_str(alloc, r#"{"proved":true}"#),
        ("too_many", count) => format!(in alloc; r#"{{"too_many":{count}}}"#),
        ("undecided", decisions) => undecided(alloc, decisions),
        ("refuted", rest) => {
            let (asked, reply) = parts(rest, ": ");
            refuted(alloc, asked, &outcome(alloc, reply)?)
        },
        ("followed", rest) => {
            let (head, reply) = parts(rest, ": ");
            followed(alloc, head, &outcome(alloc, reply)?)
        },
        ("hosts", count) => format!(in alloc; r#"{{"config":{{"hosts":{count}}}}}"#),
        ("bad", field) => format!(in alloc;
            r#"{{"refused":{{"at":0,"code":46,"field":"{field}","file":"","line":0,"name":"BadCommand"}}}}"#
        ),
        ("refused", rest) => {
            let refusal = refusal(alloc, rest)?;
            format!(in alloc; r#"{{"refused":{refusal}}}"#)
        },
        _ => {
            let outcome = outcome(alloc, reply)?;
            format!(in alloc; r#"{{"outcome":{{{outcome}}}}}"#)
        },
    }
}

// ---- dialogues

fn take_line(alloc: Global, said: &mut Said, line: &str) -> Result<(), NoMemory> {
    match line.split_once(" -> ") {
        Some((command, reply)) => {
            take_command(alloc, said, command)?;
            push_line(&mut said.wanted, &reply_in_full(alloc, reply)?)
        },
        None if line.starts_with("{\"") && !line.starts_with("{\"do\"") => {
            push_line(&mut said.wanted, line)
        },
        None => take_command(alloc, said, line),
    }
}

// Each text that is to stand there many times.
fn repeated(alloc: Global, text: &str) -> Result<String, NoMemory> {
    let mut whole = String::new(alloc);
    for piece in text.split(">>") {
        let (plain, rest) = parts(piece, "<<");
        let (count, repeated) = parts(rest, " ");
        whole.push_str(plain)?;
        whole.push_str(&repeated.repeat(alloc, count.parse().unwrap_or(0))?)?;
    }
    Ok(whole)
}

fn said_in(alloc: Global, dialogue: &str) -> Result<Said, NoMemory> {
    let joined = dialogue.replace(alloc, "\n  ", "")?;
    let named = joined.replace(alloc, "MAIN", MAIN_FILE)?;
    let whole = repeated(alloc, &named)?;
    let mut said = Said {
        input: String::new(alloc),
        wanted: String::new(alloc),
        cells: DEFAULT_CELLS,
    };
    for line in whole.lines() {
        take_line(alloc, &mut said, line)?;
    }
    Ok(said)
}

/// Holds a dialogue in a session of its own.
pub fn hold(rt: &impl Abort, alloc: Global, dialogue: &str) -> Result<(), NoMemory> {
    let said = said_in(alloc, dialogue)?;
    let input = said.input.as_bytes();
    let end = session_within(alloc, said.cells, input, &[], &[], LONGEST_REPLIES)?;
    check(rt, &end, Status::Done, said.wanted.as_bytes(), dialogue);
    Ok(())
}

/// Holds each of these dialogues.
pub fn hold_each(rt: &impl Abort, alloc: Global, dialogues: &[&str]) -> Result<(), NoMemory> {
    for dialogue in dialogues {
        hold(rt, alloc, dialogue)?;
    }
    Ok(())
}
