//! The parts of a location, each among the others.
ghost use Rattle.std.specs.Prelude.{[], IfOk, not};
ghost use Rattle.hc_dfa.specs.Automata.{accepts};
ghost use Rattle.hc_dfa.specs.Built.{Accepts};
ghost use Rattle.hc_forms.specs.Forms.{is_target_byte};
ghost use Rattle.hc_pat_lang.specs.Sets.{AcceptsOnly};
ghost use Rattle.hc_sent.specs.Joints.{AreJoints, IsBare, IsJoint, asked};
ghost use Rattle.hc_sent.specs.Parts.{Joined};
ghost use Rattle.hc_sent.specs.Sets.{IsAnswer};
ghost use Rattle.hc_sent.specs.Ways.{HasByte, is_high};

use crate::bytes::{Bytes, texts_of};
use crate::parts::{Part, Writing};
use crate::sets::has_other;
use hc_base::NoMemory;
use hc_dfa::{Dfa, Keep, behind_front, product, single};
use hc_pat_lang::concat_all;
use std::alloc::Global;

/// A part, and what stands before it and behind it in a location, before bytes are escaped.
#[derive(Drop)]
pub struct Joint {
    pub writing: Writing,
    pub before: Dfa,
    pub own: Dfa,
    pub behind: Dfa,
    /// It has a byte that no target has.
    pub strays: bool,
    /// It has a byte above the printed ones.
    pub rises: bool,
}

/// Each part with those around it.
pub fn joints_of(alloc: Global, parts: &[Part]) -> Result<Vec<Joint>, NoMemory>
    ensures { IfOk result (λ made. AreJoints [] parts.now made.items) }
{
    let mut made = Vec::new(alloc);
    for place in 0..parts.len() {
        made.push(joint_of(alloc, &parts[..place], &parts[place], &parts[place + 1..])?)?;
    }
    Ok(made)
}

fn joint_of(alloc: Global, earlier: &[Part], part: &Part, later: &[Part]) -> Result<Joint, NoMemory>
    ensures { IfOk result (IsJoint earlier.now part.now later.now) }
{
    Ok(Joint {
        writing: part.writing,
        before: joined(alloc, earlier)?,
        own: bare(alloc, part)?,
        behind: joined(alloc, later)?,
        strays: strays(alloc, part)?,
        rises: rises(alloc, part)?,
    })
}

/// The locations of these parts, before bytes are escaped.
pub fn joined(alloc: Global, parts: &[Part]) -> Result<Dfa, NoMemory>
    ensures { IfOk result (AcceptsOnly (Joined parts.now)) }
{
    let mut sets = Vec::new(alloc);
    for part in parts {
        sets.push(bare(alloc, part)?)?;
    }
    let made = concat_all(alloc, &sets)?;
    Ok(made)
}

fn bare(alloc: Global, part: &Part) -> Result<Dfa, NoMemory>
    ensures { IfOk result (AcceptsOnly (IsBare part.now)) }
{
    match part.writing {
        Writing::AsIs | Writing::Escaped => part.set.clone(),
        Writing::Query | Writing::QueryAsIs => asked(alloc, &part.set),
    }
}

/// The texts of a set behind `?`, but the empty one as it is.
fn asked(alloc: Global, set: &Dfa) -> Result<Dfa, NoMemory>
    ensures { IfOk result (λ made. Accepts made (asked (accepts set.now))) }
{
    let behind = behind_front(alloc, b"?", set)?;
    if !set.accepts(b"") {
        return Ok(behind);
    }
    let mark = single(alloc, b"?")?;
    let filled = product(alloc, &behind, &mark, Keep::FirstOnly)?;
    let empty = single(alloc, b"")?;
    let made = product(alloc, &filled, &empty, Keep::Either)?;
    Ok(made)
}

fn strays(alloc: Global, part: &Part) -> Result<bool, NoMemory>
    ensures { IfOk result (IsAnswer (HasByte part.now (λ b. not (is_target_byte b)))) }
{
    let targets = texts_of(alloc, Bytes::Target)?;
    let has = has_other(alloc, &part.set, &targets)?;
    Ok(has)
}

fn rises(alloc: Global, part: &Part) -> Result<bool, NoMemory>
    ensures { IfOk result (IsAnswer (HasByte part.now is_high)) }
{
    let low = texts_of(alloc, Bytes::Low)?;
    let has = has_other(alloc, &part.set, &low)?;
    Ok(has)
}
