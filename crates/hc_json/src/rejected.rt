ghost use Rattle.std.specs.Prelude.{◌≡◌, IfOk};
ghost use Rattle.serde_json.specs.View.{view};
ghost use Rattle.hc_json.specs.Reply.{condition_name, rejected, rejected_data, reply_data, reply_line};

use crate::claimed::branch_value;
use crate::reply::{print_value, shown};
use hc_base::{NoMemory, Text};
use hc_model::Decision;
use serde_json::{Value, json};
use std::alloc::Global;

/// A condition that cells have to meet.
#[derive(Clone, Copy, PartialEq, Eq)]
pub enum Condition {
    Start,
    Arrivals,
    Ends,
    Ranks,
    Size,
}

/// Why cells don't show a claim: where a condition isn't met, and a text that shows it.
#[derive(Clone, Copy)]
pub struct Rejection<'a> {
    /// What the branch decided.
    pub branch: &'a [Decision],
    /// The number of the cell, counted from 0.
    pub cell: usize,
    pub condition: Condition,
    pub text: &'a [u8],
}

/// The line of cells that don't show a claim: compact JSON, and LF.
pub fn print_rejected(alloc: Global, rejection: Rejection<'_>) -> Result<Text, NoMemory>
    ensures { IfOk result (λ line. line ≡ reply_line (rejected rejection.entry.branch.now
        rejection.entry.cell rejection.entry.condition rejection.entry.text.now)) }
{
    print_value(alloc, &rejected_value(alloc, rejection)?)
}

fn rejected_value(alloc: Global, rejection: Rejection<'_>) -> Result<Value, NoMemory>
    ensures { IfOk result (λ value. view value ≡ reply_data (rejected rejection.entry.branch.now
        rejection.entry.cell rejection.entry.condition rejection.entry.text.now)) }
{
    let branch = branch_value(alloc, rejection.branch)?;
    let name = condition_name(rejection.condition);
    let text = shown(alloc, rejection.text)?;
    json!(in alloc; {"rejected": {
        "branch": branch,
        "cell": rejection.cell,
        "condition": name,
        "text": text
    }})
}

fn condition_name(condition: Condition) -> &'static str
    ensures { result.now ≡ condition_name condition }
{
    match condition {
        Condition::Start => "K1",
        Condition::Arrivals => "K2",
        Condition::Ends => "K3",
        Condition::Ranks => "K4",
        Condition::Size => "K5",
    }
}
