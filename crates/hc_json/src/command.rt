ghost use Rattle.std.specs.Prelude.{◌≡◌, IfOk, codes, true};
ghost use Rattle.std.specs.Option.{option_and_then, option_map};
ghost use Rattle.serde_json.specs.Find.{as_str, get};
ghost use Rattle.serde_json.specs.View.{view};
ghost use Rattle.hc_json.specs.Command.{ask_fields, ask_in, bad_line, claimed_in, claims_end, command_in};
ghost use Rattle.hc_json.specs.Command.{command_named, command_of_json, ends_in, is_ends};
ghost use Rattle.hc_json.specs.Command.{decide_fields, decide_in, drop_in, edit_fields, edit_in, json_of, list_fields};
ghost use Rattle.hc_json.specs.Command.{follow_fields, follow_in, list_in, list_kind, main_in, path_fields};
ghost use Rattle.hc_json.specs.Command.{put_fields, put_in};
ghost use Rattle.hc_json.specs.Command.{verify_fields, verify_in, with_fields, without_fields};
ghost use Rattle.hc_json.specs.Asked.{request_in};
ghost use Rattle.hc_json.specs.Cells.{cells_in};
ghost use Rattle.hc_json.specs.CommandView.{IsAskable, cells_field_view, command_view, hosts_field_view, line_view};
ghost use Rattle.hc_json.specs.CommandView.{read_view, request_field_view, value_view};
ghost use Rattle.hc_json.specs.Fields.{unknown_field};
ghost use Rattle.hc_json.specs.Hosts.{ending_in, hosts_in};
ghost use Rattle.hc_base.specs.Paths.{begins_with_slash};

use crate::asked::{Asked, RequestForm, read_asked, request_in};
use crate::cells::cells_in;
use crate::claim::{ClaimForm, claim_in};
use crate::fields::{BadField, line_in, required, unknown_field};
use crate::hosts::{ending_in, hosts_in};
use crate::scope::{ScopeForm, scope_in};
use hc_base::{NoMemory, Place, Refusal, Text};
use hc_world::ListKind;
use serde_json::Value;
use std::alloc::Global;

/// A command of a script. It borrows from the JSON value that it is read from.
#[derive(Clone, Copy)]
pub enum Command<'v> {
    /// Makes or replaces a file with a text.
    Put {
        path: &'v str,
        text: &'v str,
    },
    /// Lists a path as a directory or as a file without a text.
    ListPath {
        path: &'v str,
        kind: ListKind,
    },
    /// Takes a path out of the files.
    DropPath {
        path: &'v str,
    },
    /// Puts a text in place of the lines of a file from one to another.
    Edit {
        path: &'v str,
        from: u32,
        to: u32,
        text: &'v str,
    },
    /// Names the main file of the configuration.
    Main {
        path: &'v str,
    },
    /// Reads the configuration.
    Check,
    /// Asks what a request receives.
    Ask(Asked<'v>),
    /// Asks where a request ends, if its redirects to own servers are followed.
    Follow {
        request: RequestForm<'v>,
        /// Values, each an own server: `hosts_of` reads them.
        hosts: &'v Vec<Value>,
    },
    /// Asks whether a claim holds of all requests of a scope.
    Decide {
        claim: ClaimForm<'v>,
        scope: ScopeForm<'v>,
    },
    /// Asks whether all chains of redirects end that begin with a request of a scope.
    Ends {
        /// Values, each an own server: `hosts_of` reads them.
        hosts: &'v Vec<Value>,
        scope: ScopeForm<'v>,
    },
    /// Asks whether cells show that a claim holds of all requests of a scope.
    Verify {
        claim: ClaimForm<'v>,
        scope: ScopeForm<'v>,
        /// Values, each a cell: `cells_of` reads them.
        cells: &'v Vec<Value>,
    },
    /// Asks how many asks were answered, and how many of them were evaluated.
    Stats,
    /// Ends the session.
    End,
}

/// Why a line is no command.
#[derive(Clone, Copy)]
pub enum NoCommand<'v> {
    /// It is no JSON.
    BadJson,
    /// The field that is wrong: `do` where it is missing or unknown; else the least unknown field; else
    /// the first field of the command that is missing or ill-formed.
    BadField(&'v str),
}

// ---- lines

/// The JSON value that a line is; none where it is no JSON.
#[tactic(auto, using(crate::proofs::Parsing::parsing))]
pub fn parse(alloc: Global, line: &[u8]) -> Result<Option<Value>, NoMemory>
    ensures { IfOk result (λ value. option_map view value ≡ json_of line.now) }
{
    let Ok(text) = std::str::from_utf8(line) else {
        return Ok(None);
    };
    match Value::from_str(alloc, text) {
        Ok(value) => Ok(Some(value)),
        Err(error) if error.is_memory() => Err(NoMemory),
        Err(_) => Ok(None),
    }
}

/// The command of a line that was parsed.
pub fn command_in(
    alloc: Global,
    value: &Option<Value>,
) -> Result<Result<Command<'_>, NoCommand<'_>>, NoMemory>
    ensures command { IfOk result (λ read. line_view read ≡ command_of_json (option_map view value.now)) }
    ensures askable { IfOk result (λ read. IfOk read IsAskable) }
{
    let Some(value) = value else {
        return Ok(Err(NoCommand::BadJson));
    };
    match read_command(alloc, value)? {
        Ok(command) => Ok(Ok(command)),
        Err(BadField(field)) => Ok(Err(NoCommand::BadField(field))),
    }
}

/// The refusal of a line that is not done: its place is no file, and its field is empty where no field
/// is to blame.
pub fn bad_line(alloc: Global, code: u8, field: &str) -> Result<Refusal, NoMemory>
    ensures { IfOk result (λ refusal. refusal ≡ bad_line code field.now) }
{
    Ok(Refusal {
        place: Place {
            file: Text::new(alloc),
            line: 0,
        },
        code,
        at: 0,
        field: Text::copy_of(alloc, field.as_bytes())?,
    })
}

// ---- commands

fn read_command(alloc: Global, value: &Value) -> Result<Result<Command<'_>, BadField<'_>>, NoMemory>
    ensures command { IfOk result (λ read. read_view read ≡ command_in (view value.now)) }
    ensures askable { IfOk result (λ read. IfOk read IsAskable) }
{
    match required(value, "do") {
        Ok(name) => command_named(alloc, name, value),
        Err(bad) => Ok(Err(bad)),
    }
}

fn command_named<'v>(
    alloc: Global,
    name: &'v str,
    value: &'v Value,
) -> Result<Result<Command<'v>, BadField<'v>>, NoMemory>
    ensures command { IfOk result (λ read. read_view read ≡ command_named name.now (view value.now)) }
    ensures askable { IfOk result (λ read. IfOk read IsAskable) }
{
    match name {
        "put" => Ok(read_put(value)),
        "list" => Ok(read_list(value)),
        "drop" => Ok(read_drop(value)),
        "edit" => Ok(read_edit(value)),
        "main" => Ok(read_main(value)),
        "check" => Ok(without_fields(Command::Check, value)),
        "ask" => read_ask(alloc, value),
        "follow" => read_follow(alloc, value),
        "decide" => read_decide(alloc, value),
        "verify" => read_verify(alloc, value),
        "stats" => Ok(without_fields(Command::Stats, value)),
        "end" => Ok(without_fields(Command::End, value)),
        _ => Ok(Err(BadField("do"))),
    }
}

// A command that has no field of its own.
fn without_fields<'v>(command: Command<'v>, value: &'v Value) -> Result<Command<'v>, BadField<'v>>
    ensures command { read_view result ≡ without_fields (command_view command.entry) (view value.now) }
    ensures askable { IsAskable command.entry → IfOk result IsAskable }
{
    match unknown_field(value, &["do"]) {
        Some(field) => Err(BadField(field)),
        None => Ok(command),
    }
}

fn read_put(value: &Value) -> Result<Command<'_>, BadField<'_>>
    ensures command { read_view result ≡ with_fields put_fields put_in (view value.now) }
    ensures askable { IfOk result IsAskable }
{
    if let Some(field) = unknown_field(value, &["do", "path", "text"]) {
        return Err(BadField(field));
    }
    let path = required(value, "path")?;
    let text = required(value, "text")?;
    Ok(Command::Put { path, text })
}

fn read_list(value: &Value) -> Result<Command<'_>, BadField<'_>>
    ensures command { read_view result ≡ with_fields list_fields list_in (view value.now) }
    ensures askable { IfOk result IsAskable }
{
    if let Some(field) = unknown_field(value, &["do", "path", "kind"]) {
        return Err(BadField(field));
    }
    let path = required(value, "path")?;
    let kind = list_kind(required(value, "kind")?)?;
    Ok(Command::ListPath { path, kind })
}

fn list_kind(name: &str) -> Result<ListKind, BadField<'static>>
    ensures { value_view result ≡ list_kind name.now }
{
    match name {
        "file" => Ok(ListKind::File),
        "dir" => Ok(ListKind::Dir),
        _ => Err(BadField("kind")),
    }
}

fn read_drop(value: &Value) -> Result<Command<'_>, BadField<'_>>
    ensures command { read_view result ≡ with_fields path_fields drop_in (view value.now) }
    ensures askable { IfOk result IsAskable }
{
    if let Some(field) = unknown_field(value, &["do", "path"]) {
        return Err(BadField(field));
    }
    let path = required(value, "path")?;
    Ok(Command::DropPath { path })
}

fn read_edit(value: &Value) -> Result<Command<'_>, BadField<'_>>
    ensures command { read_view result ≡ with_fields edit_fields edit_in (view value.now) }
    ensures askable { IfOk result IsAskable }
{
    if let Some(field) = unknown_field(value, &["do", "path", "from", "to", "text"]) {
        return Err(BadField(field));
    }
    let path = required(value, "path")?;
    let from = line_in(value, "from")?;
    let to = line_in(value, "to")?;
    let text = required(value, "text")?;
    Ok(Command::Edit {
        path,
        from,
        to,
        text,
    })
}

fn read_main(value: &Value) -> Result<Command<'_>, BadField<'_>>
    ensures command { read_view result ≡ with_fields path_fields main_in (view value.now) }
    ensures askable { IfOk result IsAskable }
{
    if let Some(field) = unknown_field(value, &["do", "path"]) {
        return Err(BadField(field));
    }
    let path = required(value, "path")?;
    Ok(Command::Main { path })
}

fn read_ask(alloc: Global, value: &Value) -> Result<Result<Command<'_>, BadField<'_>>, NoMemory>
    ensures command { IfOk result (λ read. read_view read ≡ with_fields ask_fields ask_in (view value.now)) }
    ensures askable { IfOk result (λ read. IfOk read IsAskable) }
{
    if let Some(field) = unknown_ask_field(value) {
        return Ok(Err(BadField(field)));
    }
    match read_asked(alloc, value)? {
        Ok(asked) => Ok(Ok(Command::Ask(asked))),
        Err(bad) => Ok(Err(bad)),
    }
}

fn read_follow(alloc: Global, value: &Value) -> Result<Result<Command<'_>, BadField<'_>>, NoMemory>
    ensures command { IfOk result (λ read. read_view read ≡ with_fields follow_fields follow_in (view value.now)) }
    ensures askable { IfOk result (λ read. IfOk read IsAskable) }
{
    if let Some(field) = unknown_follow_field(value) {
        return Ok(Err(BadField(field)));
    }
    let request = request_in(alloc, value)?;
    let hosts = hosts_in(alloc, value)?;
    Ok(follow_with(value, request, hosts))
}

// The same with what its request and its own servers are read as.
fn follow_with<'v>(
    value: &'v Value,
    request: Result<RequestForm<'v>, BadField<'v>>,
    hosts: Result<&'v Vec<Value>, BadField<'v>>,
) -> Result<Command<'v>, BadField<'v>>
    requires request { request_field_view request ≡ request_in (view value.now) }
    requires slash { IfOk request (λ request. begins_with_slash request.target.now ≡ true) }
    requires hosts { hosts_field_view hosts ≡ hosts_in (view value.now) }
    ensures command { read_view result ≡ follow_in (view value.now) }
    ensures askable { IfOk result IsAskable }
{
    let request = request?;
    let hosts = hosts?;
    Ok(Command::Follow { request, hosts })
}

fn read_decide(alloc: Global, value: &Value) -> Result<Result<Command<'_>, BadField<'_>>, NoMemory>
    ensures command { IfOk result (λ read. read_view read ≡ with_fields decide_fields decide_in (view value.now)) }
    ensures askable { IfOk result (λ read. IfOk read IsAskable) }
{
    if let Some(field) = unknown_field(value, &["do", "claim", "scope"]) {
        return Ok(Err(BadField(field)));
    }
    if claims_end(value) {
        let hosts = ending_in(alloc, value)?;
        Ok(ends_with(value, hosts))
    } else {
        Ok(read_claimed(value))
    }
}

// Whether the claim is of the kind `ends`.
fn claims_end(value: &Value) -> bool
    ensures { result ≡ claims_end (view value.now) }
{
    match value.get("claim") {
        Some(own) => is_ends(own),
        None => false,
    }
}

fn is_ends(own: &Value) -> bool
    ensures { result ≡ is_ends (option_and_then as_str (get (codes "kind") (view own.now))) }
{
    match own.get("kind").and_then(Value::as_str) {
        Some(kind) => kind == "ends",
        None => false,
    }
}

fn read_claimed(value: &Value) -> Result<Command<'_>, BadField<'_>>
    ensures command { read_view result ≡ claimed_in (view value.now) }
    ensures askable { IfOk result IsAskable }
{
    let claim = claim_in(value)?;
    let scope = scope_in(value)?;
    Ok(Command::Decide { claim, scope })
}

// The claim that chains of redirects end, with what its own servers are read as.
fn ends_with<'v>(
    value: &'v Value,
    hosts: Result<&'v Vec<Value>, BadField<'v>>,
) -> Result<Command<'v>, BadField<'v>>
    requires hosts { hosts_field_view hosts ≡ ending_in (view value.now) }
    ensures command { read_view result ≡ ends_in (view value.now) }
    ensures askable { IfOk result IsAskable }
{
    let hosts = hosts?;
    let scope = scope_in(value)?;
    Ok(Command::Ends { hosts, scope })
}

fn read_verify(alloc: Global, value: &Value) -> Result<Result<Command<'_>, BadField<'_>>, NoMemory>
    ensures command { IfOk result (λ read. read_view read ≡ with_fields verify_fields verify_in (view value.now)) }
    ensures askable { IfOk result (λ read. IfOk read IsAskable) }
{
    if let Some(field) = unknown_field(value, &["do", "claim", "scope", "cells"]) {
        return Ok(Err(BadField(field)));
    }
    let cells = cells_in(alloc, value)?;
    Ok(verify_with(value, cells))
}

// The same with what its cells are read as.
fn verify_with<'v>(
    value: &'v Value,
    cells: Result<&'v Vec<Value>, BadField<'v>>,
) -> Result<Command<'v>, BadField<'v>>
    requires cells { cells_field_view cells ≡ cells_in (view value.now) }
    ensures command { read_view result ≡ verify_in (view value.now) }
    ensures askable { IfOk result IsAskable }
{
    let claim = claim_in(value)?;
    let scope = scope_in(value)?;
    let cells = cells?;
    Ok(Command::Verify {
        claim,
        scope,
        cells,
    })
}

fn unknown_ask_field(value: &Value) -> Option<&str>
    ensures { option_map (λ field. field.now) result ≡ unknown_field ask_fields (view value.now) }
{
    unknown_field(
        value,
        &[
            "do", "target", "method", "scheme", "server", "port", "host", "client", "headers",
            "trail",
        ],
    )
}

fn unknown_follow_field(value: &Value) -> Option<&str>
    ensures { option_map (λ field. field.now) result ≡ unknown_field follow_fields (view value.now) }
{
    unknown_field(
        value,
        &[
            "do", "target", "method", "scheme", "server", "port", "host", "client", "headers",
            "hosts",
        ],
    )
}
