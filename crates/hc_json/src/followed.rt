ghost use Rattle.std.specs.Prelude.{◌≡◌, IfOk};
ghost use Rattle.serde_json.specs.View.{view};
ghost use Rattle.hc_json.specs.Reply.{followed, reply_data, reply_line, stop_name};

use crate::reply::{outcome_value, print_value};
use hc_base::{NoMemory, Text};
use hc_model::Outcome;
use serde_json::{Value, json};
use std::alloc::Global;

/// Why a chain of redirects stops.
#[derive(Clone, Copy, PartialEq, Eq)]
pub enum Stop {
    Ended,
    Away,
    BadTarget,
    TooMany,
}

/// The line of a chain of redirects, whose last request receives this: compact JSON, and LF.
pub fn print_followed(
    alloc: Global,
    outcome: &Outcome,
    steps: u32,
    stop: Stop,
) -> Result<Text, NoMemory>
    ensures { IfOk result (λ line. line ≡ reply_line (followed outcome.now steps stop)) }
{
    print_value(alloc, &followed_value(alloc, outcome, steps, stop)?)
}

fn followed_value(
    alloc: Global,
    outcome: &Outcome,
    steps: u32,
    stop: Stop,
) -> Result<Value, NoMemory>
    ensures { IfOk result (λ value. view value ≡ reply_data (followed outcome.now steps stop)) }
{
    let outcome = outcome_value(alloc, outcome)?;
    let name = stop_name(stop);
    json!(in alloc; {"followed": {"outcome": outcome, "steps": steps, "stop": name}})
}

fn stop_name(stop: Stop) -> &'static str
    ensures { result.now ≡ stop_name stop }
{
    match stop {
        Stop::Ended => "ended",
        Stop::Away => "away",
        Stop::BadTarget => "bad target",
        Stop::TooMany => "too many",
    }
}
