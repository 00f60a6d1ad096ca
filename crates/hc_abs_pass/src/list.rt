//! One round of a list of rules over a set of requests (Apache manual, "Apache mod_rewrite Technical Details", "Ruleset
//! Processing"; "RewriteRule Flags": C, S, N, L, END, PT).
ghost use Rattle.std.specs.Prelude.{◌≡◌, ◌≤◌, ◌||◌, IfOk, OnOk, map};
ghost use Rattle.hc_abs_pass.specs.Listing.{AddsPlaced, AreBehind, AreListed, ArePast, HasEnd, IsPast, IsPlaced};
ghost use Rattle.hc_abs_pass.specs.Listing.{LeadsTo, ended_at, flagged_plan, matched_plan, placed_at, so_far_of};
ghost use Rattle.hc_abs_pass.specs.Listing.{stop_at};
ghost use Rattle.hc_abs_pass.specs.declared.list.Place.TheVariants as place;
ghost use Rattle.hc_abs_rw.specs.Known.{frame_at};
ghost use Rattle.hc_abs_rw.specs.RuleBranches.{states_of};

use hc_abs_rw::{Celled, Frame, Made, Next, RuleBranch, Setting, Surroundings, fit, rule_branches};
use hc_base::{List, NoMemory};
use hc_cells::{Cell, Slot};
use hc_dfa::single;
use hc_model::{Decision, Rule};
use hc_plan::{Stored, Tied, store};
use hc_rw_eval::{is_followed, skipped_chain, stops_run};
use std::alloc::Global;

/// What rules have come to: the decisions, and whether a text and a query were put in place of the old ones.
#[derive(Drop)]
pub struct SoFar {
    pub decisions: List<Decision>,
    pub substituted: bool,
    pub replaced: bool,
}

/// How a list ends: all rules were tried or one stopped the run, by PT or not; this rule begins the list again; the
/// request is answered.
#[derive(Drop)]
pub enum Stop<'r> {
    Over { passed: bool },
    Again(&'r Rule),
    Answered(Next),
}

/// A branch of a list.
#[derive(Drop)]
pub struct Listed<'r> {
    pub tied: Tied,
    pub left: SoFar,
    pub stop: Stop<'r>,
}

/// Where states stand in a list: before the rules behind so many, or at an end.
#[derive(Drop)]
enum Place<'r> {
    Before(usize),
    At(Stop<'r>),
}

#[derive(Drop)]
struct Placed<'r> {
    tied: Tied,
    left: SoFar,
    place: Place<'r>,
}

impl<'r> Celled for Listed<'r> {
    ghost cell = { λ listed. listed.tied.cell };

    fn cell(&self) -> &Cell {
        &self.tied.cell
    }
}

impl<'r> Celled for Placed<'r> {
    ghost cell = { λ placed. placed.tied.cell };

    fn cell(&self) -> &Cell {
        &self.tied.cell
    }
}

/// The branches of one round of a list of rules over the states of a set of requests, in the order of their tests.
/// Branches that have more states together than the frame has room for are refused as memory is.
pub fn list_branches<'r, S: Surroundings>(
    alloc: Global,
    frame: &Frame<'_, S>,
    rules: &'r [Rule],
    so_far: SoFar,
    before: Tied,
) -> Result<Vec<Listed<'r>>, NoMemory>
    ensures branches { IfOk result (λ found. AreListed (frame_at S.kind S.values frame.now) frame.now.client rules.now
        so_far before found.items) }
    ensures room { IfOk result (λ found. states_of (λ one. one.tied.cell) found.items ≤ frame.now.room) }
{
    let mut placed = Vec::new(alloc);
    placed.push(Placed {
        tied: before,
        left: so_far,
        place: Place::Before(0),
    })?;
    let mut rest = rules;
    while let Some((rule, behind)) = rest.split_first() {
        placed = past_rule(alloc, frame, rule, behind, placed)?;
        rest = behind;
    }
    let found = ended(alloc, placed)?;
    if !fit(&found, frame.room) {
        return Err(NoMemory);
    }
    Ok(found)
}

/// Behind a rule.
fn past_rule<'r, S: Surroundings>(
    alloc: Global,
    frame: &Frame<'_, S>,
    rule: &'r Rule,
    behind: &[Rule],
    placed: Vec<Placed<'r>>,
) -> Result<Vec<Placed<'r>>, NoMemory>
    ensures { IfOk result (λ later. ArePast (frame_at S.kind S.values frame.now) frame.now.client rule.now behind.now
        placed.entry.items later.items) }
{
    let mut later = Vec::new(alloc);
    for one in placed {
        add_past(alloc, frame, rule, behind, one, &mut later)?;
    }
    if !fit(&later, frame.room) {
        return Err(NoMemory);
    }
    Ok(later)
}

/// Adds what a rule leaves of a place. It is tried where no more rules are skipped.
fn add_past<'r, S: Surroundings>(
    alloc: Global,
    frame: &Frame<'_, S>,
    rule: &'r Rule,
    behind: &[Rule],
    one: Placed<'r>,
    later: &mut Vec<Placed<'r>>,
) -> Result<(), NoMemory>
    ensures { OnOk result (AddsPlaced (frame_at S.kind S.values frame.now) frame.now.client rule.now behind.now
        one.entry later.old.items later.new.items) }
{
    let Placed { tied, left, place } = one;
    match place {
        Place::Before(skipped) => {
            if skipped > 0 {
                let place = Place::Before(skipped - 1);
                later.push(Placed { tied, left, place })?;
                return Ok(());
            }
            let mut found = tried(alloc, frame, rule, behind, tied, left)?;
            later.append(&mut found)?;
            Ok(())
        }
        Place::At(stop) => {
            let place = Place::At(stop);
            later.push(Placed { tied, left, place })?;
            Ok(())
        }
    }
}

/// What a rule leaves that is tried.
fn tried<'r, S: Surroundings>(
    alloc: Global,
    frame: &Frame<'_, S>,
    rule: &'r Rule,
    behind: &[Rule],
    tied: Tied,
    left: SoFar,
) -> Result<Vec<Placed<'r>>, NoMemory>
    ensures { IfOk result (λ found. IsPast (frame_at S.kind S.values frame.now) frame.now.client rule.now behind.now
        (placed_at tied left (place.Before 0)) found.items) }
{
    let setting = Setting {
        followed: is_followed(behind),
    };
    let branches = rule_branches(alloc, frame, rule, setting, tied, &left.decisions)?;
    all_behind(alloc, rule, behind, &left, branches)
}

/// Where the branches of a rule stand.
fn all_behind<'r>(
    alloc: Global,
    rule: &'r Rule,
    behind: &[Rule],
    before: &SoFar,
    branches: Vec<RuleBranch>,
) -> Result<Vec<Placed<'r>>, NoMemory>
    ensures { IfOk result (λ later. AreBehind rule.now behind.now before.now branches.items later.items) }
{
    let mut later = Vec::new(alloc);
    for branch in branches {
        later.push(behind_rule(alloc, rule, behind, before, branch)?)?;
    }
    Ok(later)
}

/// Where a branch of a rule stands.
fn behind_rule<'r>(
    alloc: Global,
    rule: &'r Rule,
    behind: &[Rule],
    before: &SoFar,
    branch: RuleBranch,
) -> Result<Placed<'r>, NoMemory>
    ensures { IfOk result (IsPlaced rule.now behind.now before.now branch) }
{
    let RuleBranch {
        tied,
        decisions,
        matched,
        made,
    } = branch;
    let left = after(before, decisions, made);
    match made.next {
        Next::GoesOn => going_on(alloc, rule, behind, matched, tied, left),
        next => Ok(Placed {
            tied,
            left,
            place: Place::At(Stop::Answered(next)),
        }),
    }
}

/// What rules have come to behind one more.
fn after(before: &SoFar, decisions: List<Decision>, made: Made) -> SoFar
    ensures { result ≡ record {
      decisions = decisions;
      substituted = made.substituted || before.now.substituted;
      replaced = made.replaced || before.now.replaced;
    } }
{
    SoFar {
        decisions,
        substituted: made.substituted || before.substituted,
        replaced: made.replaced || before.replaced,
    }
}

/// Behind a rule that doesn't answer.
fn going_on<'r>(
    alloc: Global,
    rule: &'r Rule,
    behind: &[Rule],
    matched: bool,
    tied: Tied,
    left: SoFar,
) -> Result<Placed<'r>, NoMemory>
    ensures { IfOk result (LeadsTo (matched_plan rule.now behind.now matched (so_far_of left)) tied) }
{
    if matched {
        return flagged(alloc, rule, tied, left);
    }
    let place = Place::Before(skipped_chain(rule, behind));
    Ok(Placed { tied, left, place })
}

/// Behind a rule that matched.
fn flagged<'r>(
    alloc: Global,
    rule: &'r Rule,
    tied: Tied,
    left: SoFar,
) -> Result<Placed<'r>, NoMemory>
    ensures { IfOk result (LeadsTo (flagged_plan rule.now (so_far_of left)) tied) }
{
    let flags = &rule.flags;
    if stops_run(flags) {
        let tied = with_end(alloc, flags.end, tied)?;
        let place = Place::At(Stop::Over { passed: flags.pass });
        return Ok(Placed { tied, left, place });
    }
    if flags.next {
        let place = Place::At(Stop::Again(rule));
        return Ok(Placed { tied, left, place });
    }
    let place = Place::Before(flags.skip as usize);
    Ok(Placed { tied, left, place })
}

/// END holds for the rest of the request.
fn with_end(alloc: Global, end: bool, tied: Tied) -> Result<Tied, NoMemory>
    ensures { IfOk result (HasEnd end tied) }
{
    if !end {
        return Ok(tied);
    }
    let set = single(alloc, b"1")?;
    let mut stored = Vec::new(alloc);
    stored.push(Stored {
        slot: Slot::End,
        set,
    })?;
    store(alloc, tied, &stored)
}

/// Where all rules were tried, the list is over.
fn ended<'r>(alloc: Global, placed: Vec<Placed<'r>>) -> Result<Vec<Listed<'r>>, NoMemory>
    ensures { IfOk result (λ found. found.items ≡ map ended_at placed.entry.items) }
{
    let mut found = Vec::new(alloc);
    for one in placed {
        found.push(end_of(one))?;
    }
    Ok(found)
}

fn end_of<'r>(one: Placed<'r>) -> Listed<'r>
    ensures { result ≡ ended_at one.entry }
{
    let Placed { tied, left, place } = one;
    let stop = stop_at(place);
    Listed { tied, left, stop }
}

fn stop_at<'r>(place: Place<'r>) -> Stop<'r>
    ensures { result ≡ stop_at place.entry }
{
    match place {
        Place::Before(_) => Stop::Over { passed: false },
        Place::At(stop) => stop,
    }
}
