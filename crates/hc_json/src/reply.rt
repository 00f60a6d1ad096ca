ghost use Rattle.std.specs.Prelude.{◌≡◌, ◌<◌, ◌++◌, ◌∷◌, [], IfOk, OnOk, false, string_bytes};
ghost use Rattle.serde_json.specs.View.{view};
ghost use Rattle.serde_json.specs.Written.{compact_text, has_float};
ghost use Rattle.hc_base.specs.Bytes.{lf};
ghost use Rattle.hc_json.specs.Reply.{done_name, limit_name, outcome as answered, outcome_data, reason_name};
ghost use Rattle.hc_json.specs.Reply.{refusal_data, reply_data, reply_line};
ghost use Rattle.hc_json.specs.ReplyView.{reply_view};
ghost use Rattle.hc_json.specs.Shown.{hex_digit, shown, shown_byte};

use hc_base::codes::name_of_code;
use hc_base::{NoMemory, Refusal, Text};
use hc_model::{LimitKind, Outcome, Reason};
use serde_json::{Value, json};
use std::alloc::Global;

/// A command that asks nothing, and was done.
#[derive(Clone, Copy, PartialEq, Eq)]
pub enum Done {
    Put,
    ListPath,
    DropPath,
    Edit,
    Main,
    End,
}

/// The answer to a line. An outcome is printed by `print_outcome`, one with its trail by `print_trailed`, that of a chain
/// by `print_followed`, what comes of a claim that isn't proved by `print_refuted` and `print_undecided`, and of cells
/// that don't show it by `print_rejected`.
#[derive(Drop)]
pub enum Reply {
    /// A command was done.
    Done(Done),
    /// A configuration, with how many virtual hosts it has.
    Config(usize),
    /// A claim holds of each request of its scope.
    Proved,
    /// It has so many branches at least.
    TooMany(u32),
    /// Cells show that it holds.
    Accepted,
    /// How many asks were answered with an outcome, and how many of them were evaluated.
    Stats { asks: u64, evaluations: u64 },
    /// Why the line is not answered.
    Refused(Refusal),
}

/// The reply's line: compact JSON, and LF.
pub fn print_reply(alloc: Global, reply: &Reply) -> Result<Text, NoMemory>
    ensures { IfOk result (λ line. line ≡ reply_line (reply_view reply.now)) }
{
    print_value(alloc, &reply_value(alloc, reply)?)
}

/// The line of an answer that is asked without its trail: compact JSON, and LF.
pub fn print_outcome(alloc: Global, outcome: &Outcome) -> Result<Text, NoMemory>
    ensures { IfOk result (λ line. line ≡ reply_line (answered outcome.now)) }
{
    print_value(alloc, &answered_value(alloc, outcome)?)
}

/// The line of a value without floats: compact JSON, and LF.
pub(crate) fn print_value(alloc: Global, value: &Value) -> Result<Text, NoMemory>
    ensures { has_float (view value.now) ≡ false
        → IfOk result (λ line. line ≡ compact_text (view value.now) ++ lf ∷ []) }
{
    let mut line = value.to_vec(alloc)?;
    line.push(b'\n')?;
    Ok(Text::from(line))
}

fn reply_value(alloc: Global, reply: &Reply) -> Result<Value, NoMemory>
    ensures { IfOk result (λ value. view value ≡ reply_data (reply_view reply.now)) }
{
    match reply {
        Reply::Done(what) => {
            let name = done_name(*what);
            json!(in alloc; {"done": name})
        }
        Reply::Config(hosts) => json!(in alloc; {"config": {"hosts": *hosts}}),
        Reply::Proved => json!(in alloc; {"proved": true}),
        Reply::TooMany(branches) => json!(in alloc; {"too_many": *branches}),
        Reply::Accepted => json!(in alloc; {"accepted": true}),
        Reply::Stats { asks, evaluations } => {
            json!(in alloc; {"stats": {"asks": *asks, "evaluations": *evaluations}})
        }
        Reply::Refused(refusal) => {
            let refusal = refusal_value(alloc, refusal)?;
            json!(in alloc; {"refused": refusal})
        }
    }
}

fn done_name(what: Done) -> &'static str
    ensures { result.now ≡ done_name what }
{
    match what {
        Done::Put => "put",
        Done::ListPath => "list",
        Done::DropPath => "drop",
        Done::Edit => "edit",
        Done::Main => "main",
        Done::End => "end",
    }
}

fn answered_value(alloc: Global, outcome: &Outcome) -> Result<Value, NoMemory>
    ensures { IfOk result (λ value. view value ≡ reply_data (answered outcome.now)) }
{
    let outcome = outcome_value(alloc, outcome)?;
    json!(in alloc; {"outcome": outcome})
}

/// What a request receives.
pub(crate) fn outcome_value(alloc: Global, outcome: &Outcome) -> Result<Value, NoMemory>
    ensures { IfOk result (λ value. view value ≡ outcome_data outcome.now) }
{
    match outcome {
        Outcome::File { path, info } => {
            let path = shown(alloc, path.as_bytes())?;
            let info = shown(alloc, info.as_bytes())?;
            json!(in alloc; {"file": {"info": info, "path": path}})
        }
        Outcome::Directory { path } => {
            let path = shown(alloc, path.as_bytes())?;
            json!(in alloc; {"directory": path})
        }
        Outcome::NotFound => json!(in alloc; {"not_found": true}),
        Outcome::Redirect { status, location } => {
            let location = shown(alloc, location.as_bytes())?;
            json!(in alloc; {"redirect": {"location": location, "status": *status}})
        }
        Outcome::Status(status) => status_value(alloc, *status),
        Outcome::Limit(kind) => {
            let name = limit_name(*kind);
            json!(in alloc; {"limit": name})
        }
        Outcome::HtRefused(refusal) => {
            let refusal = refusal_value(alloc, refusal)?;
            json!(in alloc; {"ht_refused": refusal})
        }
        Outcome::Outside(reason) => {
            let name = reason_name(*reason);
            json!(in alloc; {"outside": name})
        }
    }
}

fn status_value(alloc: Global, status: u16) -> Result<Value, NoMemory>
    ensures { IfOk result (λ value. view value ≡ outcome_data (Outcome.Status status)) }
{
    json!(in alloc; {"status": status})
}

fn limit_name(kind: LimitKind) -> &'static str
    ensures { result.now ≡ limit_name kind }
{
    match kind {
        LimitKind::Rounds => "rounds",
        LimitKind::Redirects => "redirects",
    }
}

fn reason_name(reason: Reason) -> &'static str
    ensures { result.now ≡ reason_name reason }
{
    match reason {
        Reason::PathByte => "path byte",
        Reason::LongText => "long text",
        Reason::DotSegment => "dot segment",
        Reason::RelativeRedirect => "relative redirect",
        Reason::RelativeUnderAlias => "relative under alias",
        Reason::Scheme => "scheme",
        Reason::NoRoot => "no root",
    }
}

fn refusal_value(alloc: Global, refusal: &Refusal) -> Result<Value, NoMemory>
    ensures { IfOk result (λ value. view value ≡ refusal_data refusal.now) }
{
    let field = shown(alloc, refusal.field.as_bytes())?;
    let file = shown(alloc, refusal.place.file.as_bytes())?;
    let name = name_of_code(refusal.code);
    json!(in alloc; {
        "at": refusal.at,
        "code": refusal.code,
        "field": field,
        "file": file,
        "line": refusal.place.line,
        "name": name
    })
}

/// A text of bytes as it is printed.
pub(crate) fn shown(alloc: Global, bytes: &[u8]) -> Result<String, NoMemory>
    ensures { IfOk result (λ text. string_bytes text ≡ shown bytes.now) }
{
    let mut text = String::new(alloc);
    for byte in bytes {
        push_shown(&mut text, *byte)?;
    }
    Ok(text)
}

fn push_shown(text: &mut String, byte: u8) -> Result<(), NoMemory>
    ensures { OnOk result (string_bytes text.new ≡ string_bytes text.old ++ shown_byte byte) }
{
    match byte {
        b'\\' => text.push_str("\\\\"),
        b' '..=b'~' => text.push(char::from(byte)),
        _ => {
            text.push_str("\\x")?;
            text.push(hex_digit(byte / 16))?;
            text.push(hex_digit(byte % 16))
        }
    }
}

fn hex_digit(n: u8) -> char
    requires { n < 16 }
    ensures { result ≡ hex_digit n }
{
    char::from(if n < 10 { b'0' + n } else { b'a' + (n - 10) })
}
