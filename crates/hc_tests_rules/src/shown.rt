//! Branches as texts.

use hc_abs_pass::{Listed, Stop, Walked};
use hc_abs_rw::{Next, RuleBranch};
use hc_base::{NoMemory, Text};
use hc_cells::Slot;
use hc_dfa::{Dfa, first_members};
use hc_model::{Decision, Kind};
use hc_plan::Tied;
use std::alloc::Global;

/// How many members of a set are shown; `*` behind them stands for more.
const SHOWN: usize = 6;

/// The slot that a table names.
pub fn slot_named(alloc: Global, name: &str) -> Result<Slot, NoMemory> {
    match name {
        "path" => Ok(Slot::Path),
        "text" => Ok(Slot::Text),
        "query" => Ok(Slot::Query),
        "method" => Ok(Slot::Method),
        "first" => Ok(Slot::FirstQuery),
        "info" => Ok(Slot::Info),
        "end" => Ok(Slot::End),
        "origin" => Ok(Slot::Origin),
        "name" => Ok(Slot::Name),
        "location" => Ok(Slot::Location),
        "accept" => Slot::header(alloc, b"Accept"),
        _ => Ok(Slot::Env(Text::copy_of(alloc, name.as_bytes())?)),
    }
}

static SLOTS: &[&str] = &[
    "path", "text", "query", "method", "first", "info", "end", "origin", "name", "location",
    "accept", "A", "B",
];

fn push_set(alloc: Global, shown: &mut Vec<u8>, set: &Dfa) -> Result<(), NoMemory> {
    let members = first_members(alloc, set, SHOWN + 1)?;
    for member in members.as_slice().iter().take(SHOWN) {
        shown.push(b' ')?;
        shown.extend_from_slice(member.as_bytes())?;
    }
    if members.as_slice().len() > SHOWN {
        shown.extend_from_slice(b" *")?;
    }
    Ok(())
}

// The sets of the slots that have one; that of the first query where it isn't the query's.
fn push_cell(alloc: Global, shown: &mut Vec<u8>, tied: &Tied) -> Result<(), NoMemory> {
    for &name in SLOTS {
        if tied.ties.query_first && name == "first" {
            continue;
        }
        if let Some(set) = tied.cell.set_of(&slot_named(alloc, name)?) {
            shown.extend_from_slice(b", ")?;
            shown.extend_from_slice(name.as_bytes())?;
            push_set(alloc, shown, set)?;
        }
    }
    Ok(())
}

fn push_number(alloc: Global, shown: &mut Vec<u8>, number: u64) -> Result<(), NoMemory> {
    let digits = format!(in alloc; "{number}")?;
    shown.extend_from_slice(digits.as_bytes())
}

fn push_decision(
    alloc: Global,
    shown: &mut Vec<u8>,
    letter: u8,
    line: u64,
    held: bool,
) -> Result<(), NoMemory> {
    shown.push(letter)?;
    push_number(alloc, shown, line)?;
    shown.push(if held { b'+' } else { b'-' })?;
    shown.push(b' ')?;
    Ok(())
}

fn push_decisions(
    alloc: Global,
    shown: &mut Vec<u8>,
    decisions: &[Decision],
) -> Result<(), NoMemory> {
    for decision in decisions {
        match decision {
            Decision::Cond { place, held } => {
                push_decision(alloc, shown, b'c', u64::from(place.line), *held)?;
            }
            Decision::Rule { place, matched } => {
                push_decision(alloc, shown, b'r', u64::from(place.line), *matched)?;
            }
        }
    }
    Ok(())
}

// What follows, as the tables say it.
fn push_next(alloc: Global, shown: &mut Vec<u8>, next: Next) -> Result<(), NoMemory> {
    match next {
        Next::GoesOn => shown.extend_from_slice(b"on"),
        Next::Status(status) => push_number(alloc, shown, u64::from(status)),
        Next::Redirect {
            status,
            own,
            noescape,
        } => push_redirect(alloc, shown, status, own, noescape),
        Next::Outside(_) => shown.extend_from_slice(b"outside"),
    }
}

fn push_redirect(
    alloc: Global,
    shown: &mut Vec<u8>,
    status: u16,
    own: bool,
    noescape: bool,
) -> Result<(), NoMemory> {
    shown.extend_from_slice(b"to ")?;
    push_number(alloc, shown, u64::from(status))?;
    if own {
        shown.extend_from_slice(b" own")?;
    }
    if noescape {
        shown.extend_from_slice(b" plain")?;
    }
    Ok(())
}

// Whether a text and a query are new, and the cell.
fn push_left(
    alloc: Global,
    shown: &mut Vec<u8>,
    substituted: bool,
    replaced: bool,
    tied: &Tied,
) -> Result<(), NoMemory> {
    if substituted {
        shown.extend_from_slice(b" new text")?;
    }
    if replaced {
        shown.extend_from_slice(b" new query")?;
    }
    push_cell(alloc, shown, tied)?;
    if tied.ties.text_path {
        shown.extend_from_slice(b", tied")?;
    }
    shown.push(b'\n')?;
    Ok(())
}

// A branch: its decisions by their lines, what follows, and the sets of its slots.
fn push_branch(alloc: Global, shown: &mut Vec<u8>, branch: &RuleBranch) -> Result<(), NoMemory> {
    push_decisions(alloc, shown, branch.decisions.as_slice())?;
    let made = branch.made;
    push_next(alloc, shown, made.next)?;
    push_left(alloc, shown, made.substituted, made.replaced, &branch.tied)
}

/// Branches, one a line.
pub fn shown_branches(alloc: Global, branches: &[RuleBranch]) -> Result<Vec<u8>, NoMemory> {
    let mut shown = Vec::new(alloc);
    for branch in branches {
        push_branch(alloc, &mut shown, branch)?;
    }
    Ok(shown)
}

fn push_stop(alloc: Global, shown: &mut Vec<u8>, stop: &Stop<'_>) -> Result<(), NoMemory> {
    match stop {
        Stop::Over { passed: true } => shown.extend_from_slice(b"passed"),
        Stop::Over { passed: false } => shown.extend_from_slice(b"over"),
        Stop::Again(rule) => {
            shown.extend_from_slice(b"again at ")?;
            push_number(alloc, shown, u64::from(rule.place.line))
        }
        Stop::Answered(next) => push_next(alloc, shown, *next),
    }
}

fn push_listed(alloc: Global, shown: &mut Vec<u8>, listed: &Listed<'_>) -> Result<(), NoMemory> {
    let left = &listed.left;
    push_decisions(alloc, shown, left.decisions.as_slice())?;
    push_stop(alloc, shown, &listed.stop)?;
    push_left(alloc, shown, left.substituted, left.replaced, &listed.tied)
}

/// Branches of a list, one a line.
pub fn shown_lists(alloc: Global, found: &[Listed<'_>]) -> Result<Vec<u8>, NoMemory> {
    let mut shown = Vec::new(alloc);
    for listed in found {
        push_listed(alloc, &mut shown, listed)?;
    }
    Ok(shown)
}

fn kind_name(kind: Kind) -> &'static [u8] {
    match kind {
        Kind::Absent => b"absent",
        Kind::Dir => b"dir",
        Kind::File => b"file",
    }
}

// What stands there, the directories on the way, and the sets of the slots.
fn push_walked(alloc: Global, shown: &mut Vec<u8>, walked: &Walked) -> Result<(), NoMemory> {
    shown.extend_from_slice(kind_name(walked.kind))?;
    shown.extend_from_slice(b" in")?;
    for dir in walked.dirs.as_slice() {
        shown.push(b' ')?;
        shown.extend_from_slice(dir.as_bytes())?;
    }
    push_left(alloc, shown, false, false, &walked.tied)
}

/// Branches of a walk, one a line.
pub fn shown_walks(alloc: Global, found: &[Walked]) -> Result<Vec<u8>, NoMemory> {
    let mut shown = Vec::new(alloc);
    for walked in found {
        push_walked(alloc, &mut shown, walked)?;
    }
    Ok(shown)
}
