//! Whether an expression holds.
ghost use Rattle.std.specs.Prelude.{◌≡◌, ◌∷◌, [], ◌&&◌, ◌||◌, IfOk, OnOk, is_some, reverse};
ghost use Rattle.std.specs.Str.{bytes_eq};
ghost use Rattle.hc_addr.specs.Addresses.{addr_of};
ghost use Rattle.hc_expr.specs.Held.{held_after, joined_top, negated_top, top_held, with_held};
ghost use Rattle.hc_expr.specs.Values.{holds, is_in, text_of};
ghost use Rattle.hc_ways.specs.Kept.{first_match};

use hc_addr::{Addr, Net, parse_addr};
use hc_base::{NoMemory, Text};
use hc_match::first_match;
use hc_model::{ExprStep, Expression, Regex, Template, View};
use hc_template::{ViewFilling, expand};
use std::alloc::Global;

fn text_of(alloc: Global, view: &View, pieces: &Template) -> Result<Text, NoMemory>
    ensures { IfOk result (λ text. text ≡ text_of view.now pieces.now) }
{
    expand(alloc, pieces.as_slice(), &ViewFilling { view })
}

fn is_same(alloc: Global, view: &View, left: &Template, right: &Template) -> Result<bool, NoMemory>
    ensures { IfOk result (λ is. is ≡ bytes_eq (text_of view.now left.now) (text_of view.now right.now)) }
{
    let left = text_of(alloc, view, left)?;
    let right = text_of(alloc, view, right)?;
    Ok(left.as_bytes() == right.as_bytes())
}

fn is_found(alloc: Global, view: &View, left: &Template, regex: &Regex) -> Result<bool, NoMemory>
    ensures { IfOk result (λ is. is ≡ is_some (first_match (text_of view.now left.now) regex.now)) }
{
    let left = text_of(alloc, view, left)?;
    let found = first_match(alloc, regex.as_pat(), left.as_bytes())?;
    Ok(found.is_some())
}

fn is_in(net: &Net, addr: Option<Addr>) -> bool
    ensures { result ≡ is_in net.now addr }
{
    match addr {
        None => false,
        Some(addr) => hc_addr::holds(net, addr),
    }
}

fn is_within(alloc: Global, view: &View, left: &Template, net: &Net) -> Result<bool, NoMemory>
    ensures { IfOk result (λ is. is ≡ is_in net.now (addr_of (text_of view.now left.now))) }
{
    let left = text_of(alloc, view, left)?;
    Ok(is_in(net, parse_addr(left.as_bytes())))
}

fn negate(held: &mut Vec<bool>) -> Result<(), NoMemory>
    ensures { OnOk result (reverse held.new.items ≡ negated_top (reverse held.old.items)) }
{
    if let Some(part) = held.pop() {
        held.push(!part)?;
    }
    Ok(())
}

fn conjoin(held: &mut Vec<bool>) -> Result<(), NoMemory>
    ensures { OnOk result
        (reverse held.new.items ≡ joined_top (λ first second. first && second) (reverse held.old.items)) }
{
    let Some(first) = held.pop() else {
        return Ok(());
    };
    let Some(second) = held.pop() else {
        held.push(first)?;
        return Ok(());
    };
    held.push(first && second)?;
    Ok(())
}

fn disjoin(held: &mut Vec<bool>) -> Result<(), NoMemory>
    ensures { OnOk result
        (reverse held.new.items ≡ joined_top (λ first second. first || second) (reverse held.old.items)) }
{
    let Some(first) = held.pop() else {
        return Ok(());
    };
    let Some(second) = held.pop() else {
        held.push(first)?;
        return Ok(());
    };
    held.push(first || second)?;
    Ok(())
}

fn put(held: &mut Vec<bool>, part: bool) -> Result<(), NoMemory>
    ensures { OnOk result (reverse held.new.items ≡ part ∷ reverse held.old.items) }
{
    held.push(part)?;
    Ok(())
}

// Whether the parts hold behind a step, the last part last.
fn take_step(
    alloc: Global,
    view: &View,
    step: &ExprStep,
    held: &mut Vec<bool>,
) -> Result<(), NoMemory>
    ensures { OnOk result (reverse held.new.items ≡ with_held view.now step.now (reverse held.old.items)) }
{
    match step {
        ExprStep::Yes => put(held, true),
        ExprStep::No => put(held, false),
        ExprStep::Same(left, right) => put(held, is_same(alloc, view, left, right)?),
        ExprStep::Search(text, regex) => put(held, is_found(alloc, view, text, regex)?),
        ExprStep::IpMatch(text, net) => put(held, is_within(alloc, view, text, net)?),
        ExprStep::Not => negate(held),
        ExprStep::And => conjoin(held),
        ExprStep::Or => disjoin(held),
    }
}

fn parts_held(alloc: Global, view: &View, steps: &[ExprStep]) -> Result<Vec<bool>, NoMemory>
    ensures { IfOk result (λ held. reverse held.items ≡ held_after view.now steps.now []) }
{
    let mut held = Vec::new(alloc);
    for step in steps {
        take_step(alloc, view, step, &mut held)?;
    }
    Ok(held)
}

fn top_of(held: &[bool]) -> bool
    ensures { result ≡ top_held (reverse held.now) }
{
    match held.last() {
        Some(part) => *part,
        None => false,
    }
}

/// Whether an expression holds for a request (Apache manual, "Expressions in Apache HTTP Server"). A
/// text that is no address is in no network. `NoMemory` where memory is refused.
#[tactic(auto, using(crate::proofs::StepsHeld::held_as_tree))]
pub fn holds(alloc: Global, expr: &Expression, view: &View) -> Result<bool, NoMemory>
    ensures { IfOk result (λ is. is ≡ holds view.now expr.now) }
{
    let held = parts_held(alloc, view, expr.steps())?;
    Ok(top_of(&held))
}
