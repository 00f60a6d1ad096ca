ghost use Rattle.std.specs.Prelude.{◌≡◌, ℕ, List, IfOk};
ghost use Rattle.hc_ways.specs.Kept.{with_group};
ghost use Rattle.hc_match.specs.Settings.{captured};
ghost use Rattle.hc_match.specs.Program.{Meaning, Means};
ghost use Rattle.hc_match.specs.Pairs.{AllFail, HasEnded, IsSearch, Stands, kept_in, kept_now};
ghost use Rattle.hc_match.specs.declared.program.Step.{Step};
ghost use Rattle.hc_match.specs.declared.paths.Status.TheVariants.{Failing};

use crate::captures::{Captures, Setting};
use crate::failures::Failures;
use crate::groups::Groups;
use crate::moves::{Move, next_move};
use crate::program::{Step, step_at};
use hc_base::{NoMemory, Span};
use std::alloc::Global;

// A pair that the search came past: the place of a step, and the place in the text. Where another
// step is still to be tried there, that one's place.
#[derive(Clone, Copy)]
pub struct Passed {
    step: u32,
    at: usize,
    other: Option<u32>,
}

/// How a search stands after a turn.
#[derive(Clone, Copy)]
pub enum Status {
    /// The pair where it is is to be tried.
    Trying,
    /// That pair fails.
    Failing,
    /// It has come to the end of a way.
    Found,
    /// No way is left.
    Ended,
}

/// A search through the pairs of a place of a step and a place of the text, depth first. The pair
/// where it is, and those that it came past, the last one last.
#[derive(Drop)]
pub struct Search {
    step: u32,
    at: usize,
    passed: Vec<Passed>,
    failures: Failures,
}

impl Search {
    /// A search that knows these failures.
    pub fn new(alloc: Global, failures: Failures) -> Search
        ensures { result.failures ≡ failures }
    {
        Search {
            step: 0,
            at: 0,
            passed: Vec::new(alloc),
            failures,
        }
    }

    /// Begins anew, and keeps the failures.
    pub fn begin(&mut self, step: u32, at: usize)
        ensures { (steps : List Step) (meaning : Meaning) → AllFail meaning self.old.failures
            → IsSearch steps meaning step at self.new }
    {
        self.step = step;
        self.at = at;
        self.passed.clear();
    }

    /// Searches to the end: whether a way was found.
    pub fn run(&mut self, steps: &[Step], text: &[u8]) -> Result<bool, NoMemory>
        ensures { IfOk result (λ found. (meaning : Meaning) (start from : ℕ) → Means text.now steps.now meaning
            → IsSearch steps.now meaning start from self.old
            → HasEnded steps.now meaning start from found self.new) }
    {
        let mut status = Status::Trying;
        'turns: for _ in 0..u64::MAX {
            status = match status {
                Status::Trying => self.forward(steps, text)?,
                Status::Failing => self.back()?,
                Status::Found => return Ok(true),
                Status::Ended => return Ok(false),
            };
        }
        Err(NoMemory)
    }

    // Tries the pair where it is.
    fn forward(&mut self, steps: &[Step], text: &[u8]) -> Result<Status, NoMemory>
        ensures { IfOk result (λ status. (meaning : Meaning) (start from : ℕ) → Means text.now steps.now meaning
            → IsSearch steps.now meaning start from self.old
            → Stands steps.now meaning start from status self.new) }
    {
        if self.failures.has(self.step, self.at) {
            return Ok(Status::Failing);
        }
        match next_move(steps, text, self.step, self.at) {
            Move::Done => Ok(Status::Found),
            Move::Fail => Ok(Status::Failing),
            Move::Next { step, at, other } => {
                self.passed.push(Passed {
                    step: self.step,
                    at: self.at,
                    other,
                })?;
                self.step = step;
                self.at = at;
                Ok(Status::Trying)
            }
        }
    }

    // The pair where it is fails.
    fn back(&mut self) -> Result<Status, NoMemory>
        ensures { IfOk result (λ status. (steps : List Step) (meaning : Meaning) (start from : ℕ)
            → Stands steps meaning start from Failing self.old → Stands steps meaning start from status self.new) }
    {
        let Some(passed) = self.passed.pop() else {
            return Ok(Status::Ended);
        };
        self.at = passed.at;
        match passed.other {
            None => {
                self.failures.add(passed.step, passed.at);
                self.step = passed.step;
                Ok(Status::Failing)
            }
            Some(other) => {
                self.passed.push(Passed {
                    step: passed.step,
                    at: passed.at,
                    other: None,
                })?;
                self.step = other;
                Ok(Status::Trying)
            }
        }
    }

    /// What the groups hold at the end of a way from this place.
    pub fn captures(&self, alloc: Global, steps: &[Step], from: usize) -> Result<Captures, NoMemory>
        ensures { IfOk result (λ captures. captured captures
            ≡ with_group 0 (record { start = from; end = self.now.at })
            (kept_now steps.now self.now.passed.items).held) }
    {
        let (Ok(start), Ok(end)) = (u32::try_from(from), u32::try_from(self.at)) else {
            return Err(NoMemory);
        };
        let mut settings = groups_of(alloc, steps, &self.passed)?.into_settings();
        settings.push(Setting {
            group: 0,
            span: Span { start, end },
        })?;
        settings.reverse();
        Ok(Captures::of(settings))
    }
}

// What the groups hold behind the pairs that were passed.
fn groups_of(alloc: Global, steps: &[Step], passed: &[Passed]) -> Result<Groups, NoMemory>
    ensures { IfOk result (λ groups. kept_in groups ≡ kept_now steps.now passed.now) }
{
    let mut groups = Groups::none(alloc);
    'pairs: for pair in passed {
        let Ok(at) = u32::try_from(pair.at) else {
            return Err(NoMemory);
        };
        let Some(step) = step_at(steps, pair.step) else {
            continue;
        };
        groups.pass(step, at)?;
    }
    Ok(groups)
}
